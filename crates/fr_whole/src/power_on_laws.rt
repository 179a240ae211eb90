ghost use Rattle.std.specs.Prelude.{ℕ};
ghost use Rattle.fr_cluster.specs.Values.{Values};
ghost use Rattle.fr_text.specs.Files.{IsDecided};
ghost use Rattle.fr_whole.specs.PowerOn.{PowerOnIsInSync};
ghost use Rattle.fr_whole.specs.PowerOnAnswer.{IsPowerOnText, power_on_files, power_on_text};
ghost use Rattle.fr_whole.specs.WorkedPowerOn.{WorkedRunIsLed};

use fr_cold::{switched_on_once, the_first_leads};
use fr_sharp::covered_files_keep_sharply_joined;

/// The promise from power-on to sharp sync, of a run whose first node to be switched on is the leader that all others
/// join: it alone leads, each node takes part from its cycle on, in sharp sync to the end of the run, and whoever listens
/// in the leader's first double cycle does so twelve cycles and a macrotick after the first power-on, in ticks. It is of
/// this program's startup and joining, and not of the standard's whole startup.
pub fn power_on_comes_into_sync()
    ensures { (p : Values) (flutter : ℕ) → PowerOnIsInSync p flutter }
{
    covered_files_keep_sharply_joined();
    the_first_leads();
    switched_on_once();
}

/// A law: what is printed of some parameters and a flutter says when all are in sharp sync, and keeps that promise.
pub fn a_power_on_is_told()
    ensures { (p : Values) (flutter : ℕ) → IsPowerOnText p flutter (power_on_text p flutter) }
{
    power_on_comes_into_sync();
}

/// A law: the bytes of the file decide what is written: two texts that the clause allows for the same bytes are one.
pub fn file_decides_the_power_on()
    ensures { (flutter : ℕ) → IsDecided (power_on_files flutter) }
{
    fr_params::one_answer();
}

/// A law: worked files of a cluster of four nodes are as the promise asks, of which node 1 leads the run.
pub fn a_run_that_is_led()
    ensures { WorkedRunIsLed }
{}
