ghost use Rattle.fr_worked.specs.FarRun.{FarRunsReach, FarRunsReachSharply, FarSkewsAreNear, SomeRunComesNear, SomeRunComesNearSharply, WorkedFarRuns, WorkedOlderFarRun};

use fr_history::one_lawful_run;

/// A law: both precisions are tight where sync begins, in any cluster. A run in which one node begins first and is fast, and
/// all others begin later and are slow, each by as much as sharp sync takes, is in sharp sync, and where the offset correction
/// starts its clocks lie apart, in ticks, by both and by what the length adds up to there; so it is in the older sense with
/// the numbers of that. It is near the precision where the offset correction starts late.
pub fn far_runs_reach()
    ensures sharply { FarRunsReachSharply }
    ensures older { FarRunsReach }
    ensures near { FarSkewsAreNear }
    ensures met { WorkedFarRuns }
    ensures older_met { WorkedOlderFarRun }
{
    one_lawful_run();
}

/// A law: so there is such a run of any parameters of a cluster that has two nodes, in which a node shares a channel with each
/// other that has a key slot, and whose microticks may differ by as much as lengths may: a lawful run of one double cycle, in
/// sync or in sharp sync. Its skew stays below the precision, in ticks, by no more than the share of the lengths behind the
/// start of the offset correction, two ticks for each microtick of a cycle, two microticks and the greatest difference of two,
/// and what cycles change. The older precision is reached so where the older checks hold, the sharper one whatever they say.
pub fn each_cluster_has_a_far_run()
    ensures older { SomeRunComesNear }
    ensures sharply { SomeRunComesNearSharply }
{
    one_lawful_run();
}
