ghost use Rattle.std.specs.Prelude.{◌≡◌, ◌<◌, ◌&&◌, not, false, All, None, option_and_then};
ghost use Rattle.fr_series.specs.Basis.{next_sharply};
ghost use Rattle.fr_series.specs.Scale.{IsScale};
ghost use Rattle.fr_skew.specs.Sync.{are_in_sync_by_even};
ghost use Rattle.fr_time.specs.Placed.{IsPlacedRow};
ghost use Rattle.fr_time.specs.Position.{grid_for};
ghost use Rattle.fr_trace.specs.Cycles.{kept_of};
ghost use Rattle.fr_trace.specs.Fits.{TraceFits};
ghost use Rattle.fr_verdict.specs.Alike.{first_unlike};
ghost use Rattle.fr_verdict.specs.Sound.{IsSound};
ghost use Rattle.fr_verdict.specs.Sync.{first_synced_of, is_early};
ghost use Rattle.fr_whole.specs.TracedFigures.{figures_of_kind, is_kind_beside, kind_from, recorded_figures, traced_figures_of};

use fr_base::NodeRow;
use fr_bound::DoubleNumber;
use fr_check::{first_unlike, sound_cycles};
use fr_cluster::Params;
use fr_series::{Scale, SharpFigures, are_in_sharp_sync, sharp_scale};
use fr_time::grid_of;
use fr_trace::{Trace, TracedCycle};
use fr_verdict::{is_early, recorded_flutter};

/// For which kind of cluster a trace counts.
#[derive(Clone, Copy, Debug, PartialEq, Eq)]
pub enum TracedKind {
    /// It names no sync node arbitrary.
    Alone,
    /// It names some, and from its first double cycle in sharp sync as without such nodes on each of them is alike.
    Alike,
    /// It names some, and that is not so.
    Beside,
}

impl TracedKind {
    /// Whether its numbers are those beside arbitrary sync nodes.
    pub fn is_beside(self) -> bool
        ensures { result ≡ is_kind_beside self }
    {
        matches!(self, TracedKind::Beside)
    }
}

/// What the sharper bounds say of a recorded trace.
#[derive(Clone, Copy, Debug, PartialEq, Eq)]
pub struct TracedFigures {
    /// The kind of cluster, by whose numbers the rest is.
    pub kind: TracedKind,
    /// Beside arbitrary nodes, the first double cycle from the first in sharp sync on in which some is not alike.
    pub unlike: Option<u32>,
    /// The first double cycle in sharp sync, and the skew since then, in ticks.
    pub sharp: SharpFigures,
}

impl TracedFigures {
    /// Those of a trace with this first double cycle in sync. It takes no memory.
    pub fn of(params: &Params, trace: &Trace, synced: Option<u32>) -> TracedFigures
        requires fits { TraceFits params.now trace.now }
        requires synced { synced ≡ first_synced_of params.now trace.now }
        ensures { result ≡ traced_figures_of params.now trace.now }
    {
        let alone = recorded_figures(params, trace, false, synced);
        if trace.arbitrary() == 0 {
            without_unlike(TracedKind::Alone, alone)
        } else {
            match kind_from(params, trace, alone.synced) {
                TracedKind::Beside => figures_beside(params, trace, synced),
                kind => without_unlike(kind, alone),
            }
        }
    }
}

fn without_unlike(kind: TracedKind, sharp: SharpFigures) -> TracedFigures
    ensures { result ≡ record { kind = kind; unlike = None; sharp = sharp } }
{
    TracedFigures {
        kind,
        unlike: None,
        sharp,
    }
}

// The kind where sync nodes are arbitrary, by the first double cycle in sharp sync as without such nodes.
fn kind_from(params: &Params, trace: &Trace, synced: Option<u32>) -> TracedKind
    ensures { result ≡ kind_from params.now trace.now synced }
{
    match synced {
        None => TracedKind::Beside,
        Some(double) => {
            if first_unlike(params, trace, double).is_none() {
                TracedKind::Alike
            } else {
                TracedKind::Beside
            }
        }
    }
}

fn figures_beside(params: &Params, trace: &Trace, synced: Option<u32>) -> TracedFigures
    requires fits { TraceFits params.now trace.now }
    requires synced { synced ≡ first_synced_of params.now trace.now }
    ensures { result ≡ figures_of_kind TracedKind.Beside params.now trace.now }
{
    let sharp = recorded_figures(params, trace, true, synced);
    TracedFigures {
        kind: TracedKind::Beside,
        unlike: unlike_since(params, trace, sharp.synced),
        sharp,
    }
}

fn unlike_since(params: &Params, trace: &Trace, synced: Option<u32>) -> Option<u32>
    ensures { result ≡ option_and_then (first_unlike params.now trace.now) synced }
{
    match synced {
        None => None,
        Some(double) => first_unlike(params, trace, double),
    }
}

// By the numbers beside arbitrary nodes or without, the figures of all double cycles.
fn recorded_figures(
    params: &Params,
    trace: &Trace,
    beside: bool,
    synced: Option<u32>,
) -> SharpFigures
    requires fits { TraceFits params.now trace.now }
    requires synced { synced ≡ first_synced_of params.now trace.now }
    ensures { result ≡ recorded_figures beside params.now trace.now }
{
    let scale = sharp_scale(params, beside, recorded_flutter(params));
    let cycles = sound_cycles(params, trace);
    let mut figures = SharpFigures::none();
    for double in 0..trace.doubles() {
        let even = &cycles[2 * double as usize];
        let odd = &cycles[2 * double as usize + 1];
        figures = with_double(params, &scale, (double, synced), even, odd, figures);
    }
    figures
}

// Those with one more double cycle, by its number and the first one in sync.
fn with_double(
    params: &Params,
    scale: &Scale,
    at: (u32, Option<u32>),
    even: &TracedCycle,
    odd: &TracedCycle,
    figures: SharpFigures,
) -> SharpFigures
    requires scale { IsScale scale.now }
    requires grid { scale.now.grid ≡ grid_for params.now }
    requires double { at.0 < 100_000 }
    requires even { IsSound params.now (kept_of even.now) }
    requires odd { IsSound params.now (kept_of odd.now) }
    ensures { result ≡ next_sharply scale.now at.0 even.now.rows.items odd.now.rows.items
        (not (is_early at.1 at.0) && are_in_sync_by_even scale.now.bounds even.now.rows.items odd.now.rows.items)
        false figures }
{
    let _grid = grid_of(params);
    let (double, synced) = at;
    with_rows(scale, synced, double, &even.rows, &odd.rows, figures)
}

fn with_rows(
    scale: &Scale,
    synced: Option<u32>,
    double: u32,
    even: &[NodeRow],
    odd: &[NodeRow],
    figures: SharpFigures,
) -> SharpFigures
    requires scale { IsScale scale.now }
    requires double { double < 100_000 }
    requires even { All (IsPlacedRow scale.now.grid) even.now }
    requires odd { All (IsPlacedRow scale.now.grid) odd.now }
    ensures { result ≡ next_sharply scale.now double even.now odd.now
        (not (is_early synced double) && are_in_sync_by_even scale.now.bounds even.now odd.now) false figures }
{
    let in_sync = !is_early(synced, double) && are_in_sharp_sync(scale, even, odd);
    figures.followed(scale, DoubleNumber(double), even, odd, in_sync, false)
}
