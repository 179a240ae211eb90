ghost use Rattle.fr_worked.specs.HaltingRun.{CyclesKeepApartUnchecked, HaltingRunBegins, HaltingRunWalks};

use fr_history::one_lawful_run;

/// A law: the first of the sharper checks is needed. A run of three perfect clocks is in sharp sync, and the other checks
/// hold; but its delays flutter, so the rates of all three walk by 8 microticks a double cycle until the rate limit cuts
/// them, and all three halt. So without that check not even the cycles keep what is promised of them.
pub fn the_first_sharp_check_is_needed()
    ensures begins { HaltingRunBegins }
    ensures walks { HaltingRunWalks }
    ensures needed { CyclesKeepApartUnchecked → ⊥ }
{
    one_lawful_run();
}
