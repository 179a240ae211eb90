ghost use Rattle.std.specs.Prelude.{◌≡◌, ◌≤◌, ◌+ℤ◌, pos};
ghost use Rattle.fr_base.specs.Within.{IsWithin};
ghost use Rattle.fr_time.specs.Position.{grid_for, CanPlace};

use fr_base::NodeRow;
use fr_cluster::Params;

/// How a cycle is divided: what the position of a macrotick rests on beside the correction terms.
#[derive(Clone, Copy, Debug, PartialEq, Eq)]
pub struct Grid {
    /// Macroticks per cycle, `gMacroPerCycle`.
    pub macros: i64,
    /// Microticks per cycle before correction, `pMicroPerCycle`.
    pub micros: i64,
    /// The macrotick at which the offset correction starts, `gOffsetCorrectionStart`.
    pub correction: i64,
}

/// The grid of a cluster.
pub fn grid_of(params: &Params) -> Grid
    ensures value { result ≡ grid_for params.now }
    ensures placeable { CanPlace params.now result }
{
    Grid {
        macros: params.macros,
        micros: params.micros,
        correction: params.correction,
    }
}

/// The macroticks of a cycle, `gMacroPerCycle`.
pub fn macros_of(params: &Params) -> u64
    ensures value { pos result ≡ params.now.macros }
    ensures some { 1 ≤ result }
    ensures most { result ≤ 16_000 }
{
    grid_of(params).macros as u64
}

/// The microticks of a cycle with its rate term and without its offset term.
pub fn micros_of(params: &Params, row: &NodeRow) -> u64
    requires { IsWithin params.now.rate_limit row.now.rate }
    ensures value { pos result ≡ params.now.micros +ℤ row.now.rate }
    ensures most { result ≤ 660_000 }
{
    (grid_of(params).micros + row.rate as i64) as u64
}
