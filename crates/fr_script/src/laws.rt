ghost use Rattle.std.specs.Prelude.{List, ℕ};
ghost use Rattle.fr_text.specs.Kind.{HasOneAnswer, HasSomeAnswer};
ghost use Rattle.fr_text.specs.Least.{GivesLeast};
ghost use Rattle.fr_cluster.specs.Values.{Values};
ghost use Rattle.fr_cluster.specs.Sane.{IsSane};
ghost use Rattle.fr_script.specs.Reasons.{script_reason_after};
ghost use Rattle.fr_script.specs.Holding.{script_holds};
ghost use Rattle.fr_script.specs.View.{ScriptView};
ghost use Rattle.fr_script.specs.Files.{ScriptFits, IsScriptFile, IsSoundScript, script_file};
ghost use Rattle.fr_script.specs.Promises.{AreProperEvents, FlipsBitsOfFrames, HaveKeySlots, NodesJoinProperly};

/// The answer to a file is determined by its bytes and the parameters: two that are not want of memory are
/// the same. So a file stands for one `Script` at most, has one first refused record at most, and is not
/// both accepted and refused.
pub fn one_answer()
    ensures { (p : Values) → HasOneAnswer (script_file p) }
{}

/// Each file has an answer that is not want of memory: it is accepted, or a record of it is refused.
pub fn some_answer()
    ensures { (p : Values) → HasSomeAnswer (script_file p) }
{}

/// A record is refused for the least reason that holds of it after the records before it, and only where
/// one holds.
pub fn refused_for_the_least_reason()
    ensures { (p : Values) → IsSane p → GivesLeast (script_reason_after p) (script_holds p) }
{}

/// The script of an accepted file fits the parameters with which the file is accepted.
pub fn script_of_a_file_fits()
    ensures { (p : Values) (s : ScriptView) (bytes : List ℕ) → IsScriptFile p s bytes → ScriptFits p s }
{}

/// What holds of each script that is read follows from its file alone: it fits the parameters with which the file is
/// accepted, and the numbers of its deeds lie in their ranges.
pub fn script_of_a_file_is_sound()
    ensures { (p : Values) (s : ScriptView) (bytes : List ℕ) → IsScriptFile p s bytes → IsSoundScript p s }
{}

/// A node that a script names arbitrary has a key slot in the parameters that the script fits.
pub fn arbitrary_node_has_key_slot()
    ensures { (p : Values) (s : ScriptView) → ScriptFits p s → HaveKeySlots p s }
{}

/// What a script makes of a frame is in range: bits are those of a frame, shifts and said bytes within their
/// limits.
pub fn events_are_proper()
    ensures { (s : ScriptView) → AreProperEvents s }
{}

/// A bit that a script inverts is one of a frame of the parameters that the script fits.
pub fn flipped_bit_is_of_a_frame()
    ensures { (p : Values) (s : ScriptView) → ScriptFits p s → FlipsBitsOfFrames p s }
{}

/// A node that joins the running cluster is a correct one of the parameters that the script fits, and so is its
/// reference: another one, with a key slot and a channel in common, that takes part from the first cycle on.
pub fn joining_nodes_have_references()
    ensures { (p : Values) (s : ScriptView) → ScriptFits p s → NodesJoinProperly p s }
{}
