ghost use Rattle.std.specs.Prelude.{List, ℕ};
ghost use Rattle.fr_text.specs.Kind.{HasOneAnswer, HasSomeAnswer};
ghost use Rattle.fr_text.specs.Least.{GivesLeast};
ghost use Rattle.fr_cluster.specs.Values.{Values};
ghost use Rattle.fr_log.specs.Reasons.{log_reason_after};
ghost use Rattle.fr_log.specs.Holding.{log_holds};
ghost use Rattle.fr_log.specs.View.{LogView};
ghost use Rattle.fr_log.specs.Files.{HaveLimits, HaveOwnSlots, IsLogFile, LogFits, log_file};

/// The answer to a file is determined by its bytes and the parameters: two that are not want of memory are
/// the same. So a file stands for one `Log` at most, has one first cause at most, and is not both accepted
/// and refused.
pub fn one_answer()
    ensures { (p : Values) → HasOneAnswer (log_file p) }
{}

/// Each file has an answer that is not want of memory: it is accepted, or it is refused for a cause.
pub fn some_answer()
    ensures { (p : Values) → HasSomeAnswer (log_file p) }
{}

/// A record is refused for the least reason that holds of it after the records before it, and only where
/// one holds.
pub fn refused_for_the_least_reason()
    ensures { (p : Values) → GivesLeast (log_reason_after p) (log_holds p) }
{}

/// The log of an accepted file fits the parameters with which the file is accepted.
pub fn log_of_a_file_fits()
    ensures { (p : Values) (l : LogView) (bytes : List ℕ) → IsLogFile p l bytes → LogFits p l }
{}

/// Of each correct node with a key slot the delay of its frames is limited on each channel that it has.
pub fn sync_frames_of_a_log_have_limits()
    ensures { (p : Values) (l : LogView) → LogFits p l → HaveLimits p l }
{}

/// A node that a log names arbitrary has a key slot in the parameters that the log fits.
pub fn arbitrary_node_of_a_log_has_key_slot()
    ensures { (p : Values) (l : LogView) → LogFits p l → HaveOwnSlots p l }
{}
