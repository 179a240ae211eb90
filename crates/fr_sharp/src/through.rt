ghost use Rattle.std.specs.Prelude.{◌≡◌, ◌≤◌};
ghost use Rattle.fr_coverage.specs.Coverage.{gap_from};
ghost use Rattle.fr_sharp.specs.LossRuns.{is_link_at_most, is_through_losses, through_checks, through_nodes};
ghost use Rattle.fr_sharp.specs.LossSteps.{most_lost};

use crate::loss_checks::{limits_hold, loss_side};
use crate::losses_of_runs::RunLosses;
use crate::sharp_covered::gap_from;
use fr_bound::Flutter;
use fr_cluster::Params;
use fr_coverage::Gap;
use fr_drift::Drift;
use fr_script::Script;
use fr_traffic::all_reach;

/// Whether a run is covered through what it loses, from a double cycle on, by its first gap from there on whatever the
/// checks say.
pub fn is_through(
    params: &Params,
    drift: &Drift,
    script: &Script,
    flutter: Flutter,
    losses: &RunLosses,
    from: u32,
) -> bool
    requires reach { losses.now.reach ≤ most_lost }
    ensures { result ≡ is_through_losses params.now script.now flutter
        (gap_from params.now drift.now script.now from) losses.now }
{
    losses.trusted
        && through_checks(params, flutter, losses.reach)
        && through_nodes(params, script, gap_from(params, drift, script, from))
}

fn through_checks(params: &Params, flutter: Flutter, reach: u128) -> bool
    requires reach { reach ≤ most_lost }
    ensures { result ≡ through_checks params.now flutter reach }
{
    loss_side(params, flutter, reach, 2).holds && limits_hold(params, flutter, reach)
}

fn through_nodes(params: &Params, script: &Script, gap: Option<Gap>) -> bool
    ensures { result ≡ through_nodes params.now script.now gap }
{
    is_link_at_most(gap) && all_reach(&params.nodes, script, &None)
}

fn is_link_at_most(gap: Option<Gap>) -> bool
    ensures { result ≡ is_link_at_most gap }
{
    match gap {
        None => true,
        Some(Gap::Link { .. }) => true,
        Some(_) => false,
    }
}
