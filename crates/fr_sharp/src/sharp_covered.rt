ghost use Rattle.std.specs.Prelude.{◌≡◌, ◌≤◌};
ghost use Rattle.fr_bound.specs.Settling.{IsSettleCheck};
ghost use Rattle.fr_coverage.specs.Coverage.{gap_from, some_join};
ghost use Rattle.fr_sharp.specs.SharpStatement.{has_arbitrary};
ghost use Rattle.fr_sharp.specs.SharpCovered.{failed_sharp, failed_sharp_join, first_sharp_gap, sharp_checks_gap};
ghost use Rattle.fr_sharp.specs.SharpCovered.{sharp_gap_to_join, sharp_join_checks_gap};

use crate::arbitrary::has_arbitrary;
use fr_bound::{Flutter, sharp_checks, sharp_side};
use fr_cluster::Params;
use fr_coverage::{Gap, run_covered, some_join};
use fr_drift::Drift;
use fr_promise::{sharp_join_checks, sharp_join_side};
use fr_script::Script;

// The first gap of the run from a double cycle on, whatever the checks say.
pub(crate) fn gap_from(params: &Params, drift: &Drift, script: &Script, from: u32) -> Option<Gap>
    ensures { result ≡ gap_from params.now drift.now script.now from }
{
    match run_covered(params, drift, script, from) {
        Ok(()) => None,
        Err(gap) => Some(gap),
    }
}

/// The first gap for which a run is not sharply covered from a double cycle on, where its delays flutter by so many ticks.
pub fn first_sharp_gap(
    params: &Params,
    drift: &Drift,
    script: &Script,
    from: u32,
    flutter: Flutter,
) -> Option<Gap>
    ensures { result ≡ first_sharp_gap params.now drift.now script.now from flutter }
{
    match failing_check(params, has_arbitrary(params, script), flutter) {
        Some(gap) => Some(gap),
        None => match gap_to_join(params, script, flutter) {
            Some(gap) => Some(gap),
            None => gap_from(params, drift, script, from),
        },
    }
}

// The first sharper check of nodes that join that fails, where one joins.
fn gap_to_join(params: &Params, script: &Script, flutter: Flutter) -> Option<Gap>
    ensures { result ≡
        sharp_gap_to_join (some_join params.now script.now) (has_arbitrary params.now script.now) params.now flutter }
{
    if some_join(&params.nodes, script) {
        failing_join_check(params, has_arbitrary(params, script), flutter)
    } else {
        None
    }
}

// The first sharper check that fails, from the second to the fifth.
fn failing_check(params: &Params, beside: bool, flutter: Flutter) -> Option<Gap>
    ensures { result ≡ sharp_checks_gap beside params.now flutter }
{
    match sharp_checks(params, beside, flutter) {
        Ok(()) => None,
        Err(number) => Some(failed(params, beside, flutter, number)),
    }
}

fn failed(params: &Params, beside: bool, flutter: Flutter, number: u8) -> Gap
    requires number { IsSettleCheck number }
    ensures { result ≡ failed_sharp beside params.now flutter number }
{
    let sides = sharp_side(params, beside, flutter, number);
    Gap::Check {
        number,
        left: sides.left,
        right: sides.right,
    }
}

// And from the sixth to the ninth.
fn failing_join_check(params: &Params, beside: bool, flutter: Flutter) -> Option<Gap>
    ensures { result ≡ sharp_join_checks_gap beside params.now flutter }
{
    match sharp_join_checks(params, beside, flutter) {
        Ok(()) => None,
        Err(number) => Some(failed_to_join(params, beside, flutter, number)),
    }
}

fn failed_to_join(params: &Params, beside: bool, flutter: Flutter, number: u8) -> Gap
    requires from { 6 ≤ number }
    requires to { number ≤ 9 }
    ensures { result ≡ failed_sharp_join beside params.now flutter number }
{
    let sides = sharp_join_side(params, beside, flutter, number);
    Gap::Check {
        number,
        left: sides.left,
        right: sides.right,
    }
}
