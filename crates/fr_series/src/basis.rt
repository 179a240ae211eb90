ghost use Rattle.std.specs.Prelude.{◌≡◌, ◌≤◌, IfSome};
ghost use Rattle.fr_coverage.specs.Flutter.{fluttering_from, ticks_of};
ghost use Rattle.fr_series.specs.Basis.{basis_by, basis_of, sharp_held, sync_held};
ghost use Rattle.fr_bound.specs.SharpBounds.{most_flutter};

use fr_bound::{Flutter, sharp_bounds, sharp_side};
use fr_cluster::Params;
use fr_coverage::{Fluttering, Gap, flutter, some_join, ticks_of};
use fr_drift::Drift;
use fr_promise::{first_rates_last, lasts_by};
use fr_script::Script;
use fr_sharp::{first_sharp_gap, has_arbitrary, is_through, run_losses};

/// What a sharper series rests on, besides the cycles of its run.
#[derive(Clone, Copy, Debug, PartialEq, Eq)]
pub struct Basis {
    /// From which double cycle on it is asked.
    pub from: u32,
    /// Where delays differ most between the two cycles of a double cycle from there on, if they do.
    pub fluttering: Option<Fluttering>,
    /// By how many ticks, 0 to 1,000,000,000.
    pub flutter: u64,
    /// Whether some sync node is arbitrary.
    pub beside: bool,
    /// For how many double cycles sharp sync lasts, 0 where the second check fails; where the run is not sharply
    /// covered, for how many the rate limit holds the walk of lengths; and where a correct node joins, for how many
    /// it suffices for first rates too, 0 where the sixth check fails. None: for ever.
    pub lasts: Option<u64>,
    /// Why the run is not sharply covered; None where it is.
    pub gap: Option<Gap>,
    /// In how many double cycles it loses frames.
    pub lost: u32,
    /// The last of them, if there is one.
    pub last_lost: Option<u32>,
    /// Whether it is covered through losses, and where a correct node joins, to join through losses.
    pub through: bool,
    /// How far macroticks may then lie apart in the double cycle in which they may lie furthest, in ticks.
    pub peak: u128,
    /// The first such double cycle.
    pub place: u32,
    /// The sharper precision, in ticks.
    pub precision: i64,
}

impl Basis {
    /// That of the run of some files from a double cycle on.
    pub fn of(params: &Params, drift: &Drift, script: &Script, from: u32) -> Basis
        ensures value { result ≡ basis_of params.now drift.now script.now from }
        ensures flutter { result.flutter ≤ most_flutter }
    {
        let place = flutter(params, drift, script, from);
        basis_by(params, drift, script, from, place)
    }
}

fn basis_by(
    params: &Params,
    drift: &Drift,
    script: &Script,
    from: u32,
    place: Option<Fluttering>,
) -> Basis
    requires value { place ≡ fluttering_from params.now drift.now script.now from }
    requires most { IfSome place (λ place. place.ticks ≤ most_flutter) }
    ensures value { result ≡ basis_by params.now drift.now script.now from (ticks_of place) }
    ensures flutter { result.flutter ≤ most_flutter }
{
    let flutter = Flutter(ticks_of(&place));
    let beside = has_arbitrary(params, script);
    let losses = run_losses(params, drift, script, from, flutter);
    let gap = first_sharp_gap(params, drift, script, from, flutter);
    let joins = some_join(&params.nodes, script);
    Basis {
        from,
        fluttering: place,
        flutter: flutter.0,
        beside,
        lasts: sharp_held(params, joins, gap.is_none(), beside, flutter),
        gap,
        lost: losses.doubles,
        last_lost: losses.last,
        through: is_through(params, drift, script, flutter, &losses, from),
        peak: losses.peak,
        place: losses.place,
        precision: sharp_bounds(params, beside, flutter).precision,
    }
}

fn sharp_held(
    params: &Params,
    joins: bool,
    covered: bool,
    beside: bool,
    flutter: Flutter,
) -> Option<u64>
    ensures { result ≡ sharp_held joins covered beside params.now flutter }
{
    if joins {
        first_rates_last(params, flutter)
    } else {
        sync_held(params, covered, beside, flutter)
    }
}

fn sync_held(params: &Params, covered: bool, beside: bool, flutter: Flutter) -> Option<u64>
    ensures { result ≡ sync_held covered beside params.now flutter }
{
    if sharp_side(params, beside, flutter, 2).holds {
        lasts_by(params, covered, flutter)
    } else {
        Some(0)
    }
}
