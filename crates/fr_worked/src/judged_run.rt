ghost use Rattle.fr_worked.specs.WorkedJudged.{FarNumbersAreJudged, WorkedNumbersGoOn, WorkedRunGoesOn};

use fr_history::one_lawful_run;

/// A law: the first double cycle of the worked run is judged by its own numbers, 18,000,000 ticks of starts and 4,000,000 of
/// lengths, and goes on so, without an arbitrary node and beside one, whatever that says. Numbers far from sharp sync are
/// judged too; where the third check fails with them, or the rate limit cannot follow, they are not.
pub fn a_judged_run()
    ensures numbers { WorkedNumbersGoOn }
    ensures far { FarNumbersAreJudged }
    ensures goes { WorkedRunGoesOn }
{
    one_lawful_run();
}
