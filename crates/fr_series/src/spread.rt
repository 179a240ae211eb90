ghost use Rattle.std.specs.Prelude.{◌≡◌, nat_abs, All};
ghost use Rattle.std.specs.Option.{option_or};
ghost use Rattle.fr_time.specs.Placed.{IsPlacedRow};
ghost use Rattle.fr_series.specs.Scale.{IsScale, above_at, first_above};

use crate::scale::Scale;
use fr_base::NodeRow;
use fr_skew::{Peak, macroticks, spread_at};

// The first macrotick of a cycle at which the skew is above the precision, asked for each macrotick of each node.
pub(crate) fn searched(scale: &Scale, cycle: u32, rows: &[NodeRow]) -> Option<Peak>
    requires scale { IsScale scale.now }
    requires rows { All (IsPlacedRow scale.now.grid) rows.now }
    ensures { result ≡ first_above scale.now.grid cycle rows.now scale.now.precision (nat_abs scale.now.grid.macros) }
{
    let mut above = None;
    for macrotick in 0..macroticks(&scale.grid) {
        let skew = spread_at(&scale.grid, cycle, macrotick, rows);
        above = above_or(
            above,
            scale.precision,
            Peak {
                skew,
                cycle,
                macrotick,
            },
        );
    }
    above
}

// A skew that is above a limit, or else a later one where it is.
fn above_or(above: Option<Peak>, limit: i64, later: Peak) -> Option<Peak>
    ensures { result ≡ option_or above (above_at limit later) }
{
    match above {
        Some(earlier) => Some(earlier),
        None => {
            if limit < later.skew {
                Some(later)
            } else {
                None
            }
        }
    }
}
