ghost use Rattle.fr_worked.specs.LongRun.{LongRunBegins, LongRunHalts, LongRunIsCut, LongRunWalks};

use fr_history::one_lawful_run;

/// A law: the same run with a rate limit of 601 microticks walks for 76 double cycles, by 8 microticks in each, where 62
/// double cycles are known beforehand; behind the last one the rate term of each node is cut, and each halts.
pub fn a_long_walk()
    ensures begins { LongRunBegins }
    ensures walks { LongRunWalks }
    ensures cut { LongRunIsCut }
    ensures halts { LongRunHalts }
{
    one_lawful_run();
}
