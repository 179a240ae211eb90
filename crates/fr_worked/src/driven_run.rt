ghost use Rattle.fr_worked.specs.DrivenRun.{DrivenRunBegins, DrivenRunReaches};

use fr_history::one_lawful_run;

/// A law: the sharper precision is nearly reached later too. A run of four nodes without an arbitrary one, whose clocks begin
/// within a microtick and a half, is in sharp sync from the start on, and reaches 90 hundredths of it, in ticks, in its fourth
/// double cycle.
pub fn a_driven_run()
    ensures begins { DrivenRunBegins }
    ensures reaches { DrivenRunReaches }
{
    one_lawful_run();
}
