ghost use Rattle.std.specs.Prelude.{◌≡◌, ◌≤◌};
ghost use Rattle.fr_whole.specs.SharpGaps.{failing_at, failing_to_join, sharp_gaps_of};

use fr_bound::{Flutter, sharp_side};
use fr_cluster::Params;
use fr_coverage::{Gap, RunGaps, gaps_by_kind, some_join};
use fr_drift::Drift;
use fr_promise::sharp_join_side;
use fr_script::Script;
use fr_sharp::has_arbitrary;

/// The first gap of a run of each kind by the sharper bounds, in the order in which they are looked for.
#[derive(Clone, Copy, Debug, PartialEq, Eq)]
pub struct SharpGaps {
    /// The second sharper check, where it fails.
    pub second: Option<Gap>,
    /// The third.
    pub third: Option<Gap>,
    /// The fourth.
    pub fourth: Option<Gap>,
    /// The fifth.
    pub fifth: Option<Gap>,
    /// The sixth, which is asked where a correct node joins, as the three behind it are.
    pub sixth: Option<Gap>,
    /// The seventh.
    pub seventh: Option<Gap>,
    /// The eighth.
    pub eighth: Option<Gap>,
    /// The ninth.
    pub ninth: Option<Gap>,
    /// Those of the run itself.
    pub run: RunGaps,
}

impl SharpGaps {
    /// Those of the run of some files from a double cycle on, where its delays flutter by so many ticks.
    pub fn of(
        params: &Params,
        drift: &Drift,
        script: &Script,
        from: u32,
        flutter: Flutter,
    ) -> SharpGaps
        ensures { result ≡ sharp_gaps_of params.now drift.now script.now from flutter }
    {
        let beside = has_arbitrary(params, script);
        let joins = some_join(&params.nodes, script);
        SharpGaps {
            second: failing_at(params, beside, flutter, 2),
            third: failing_at(params, beside, flutter, 3),
            fourth: failing_at(params, beside, flutter, 4),
            fifth: failing_at(params, beside, flutter, 5),
            sixth: failing_to_join(params, joins, beside, flutter, 6),
            seventh: failing_to_join(params, joins, beside, flutter, 7),
            eighth: failing_to_join(params, joins, beside, flutter, 8),
            ninth: failing_to_join(params, joins, beside, flutter, 9),
            run: gaps_by_kind(params, drift, script, from),
        }
    }
}

// The sharper check of this number, 1 to 5, where it fails.
pub(crate) fn failing_at(params: &Params, beside: bool, flutter: Flutter, number: u8) -> Option<Gap>
    requires from { 1 ≤ number }
    requires to { number ≤ 5 }
    ensures { result ≡ failing_at beside params.now flutter number }
{
    let sides = sharp_side(params, beside, flutter, number);
    if sides.holds {
        None
    } else {
        Some(Gap::Check {
            number,
            left: sides.left,
            right: sides.right,
        })
    }
}

// The sharper check of this number, 6 to 9, where it is asked and fails.
pub(crate) fn failing_to_join(
    params: &Params,
    joins: bool,
    beside: bool,
    flutter: Flutter,
    number: u8,
) -> Option<Gap>
    requires from { 6 ≤ number }
    requires to { number ≤ 9 }
    ensures { result ≡ failing_to_join joins beside params.now flutter number }
{
    let sides = sharp_join_side(params, beside, flutter, number);
    if !joins || sides.holds {
        None
    } else {
        Some(Gap::Check {
            number,
            left: sides.left,
            right: sides.right,
        })
    }
}
