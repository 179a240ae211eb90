ghost use Rattle.std.specs.Prelude.{ℕ};
ghost use Rattle.fr_text.specs.Files.{IsDecided};
ghost use Rattle.fr_answer.specs.BoundAnswer.{bound_files, join_files, sharp_files, sharp_join_files};
ghost use Rattle.fr_answer.specs.LossAnswer.{loss_files};
ghost use Rattle.fr_answer.specs.SettleAnswer.{settle_files, sharp_settle_files};

use fr_bound::one_settling;
use fr_promise::one_sharp_way;
use fr_sharp::costs_are_one;

/// A law: the bytes of the file decide what is written. Two texts that the answer's clause allows for files of
/// the same bytes are the same.
pub fn file_decides_the_bounds()
    ensures { IsDecided bound_files }
{
    fr_params::one_answer();
}

/// A law: so they do with the lines of a cluster that nodes join.
pub fn file_decides_the_bounds_of_joining()
    ensures { IsDecided join_files }
{
    fr_params::one_answer();
}

/// A law: so do the bytes of the file and the flutter, in ticks, decide the sharper bounds.
pub fn file_decides_the_sharper_bounds()
    ensures { (flutter : ℕ) → IsDecided (sharp_files flutter) }
{
    fr_params::one_answer();
}

/// A law: so they do with the sharper lines of a cluster that nodes join.
pub fn file_decides_the_sharper_bounds_of_joining()
    ensures { (flutter : ℕ) → IsDecided (sharp_join_files flutter) }
{
    fr_params::one_answer();
}

/// A law: so do the bytes of the file, the flutter, in ticks, and the number of double cycles decide what losses cost.
pub fn file_decides_the_costs_of_losses()
    ensures { (flutter count : ℕ) → IsDecided (loss_files flutter count) }
{
    costs_are_one();
    fr_params::one_answer();
}

/// A law: so do the bytes of the file and the two numbers decide how long until in sync.
pub fn file_decides_the_settling()
    ensures { (start rate : ℕ) → IsDecided (settle_files start rate) }
{
    one_settling();
    fr_params::one_answer();
}

/// A law: and with the flutter how long until in sharp sync.
pub fn file_decides_the_sharper_settling()
    ensures { (start rate flutter : ℕ) → IsDecided (sharp_settle_files start rate flutter) }
{
    one_sharp_way();
    fr_params::one_answer();
}
