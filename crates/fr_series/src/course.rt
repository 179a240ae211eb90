ghost use Rattle.std.specs.Prelude.{◌≡◌, ◌+◌, unwrap_or};
ghost use Rattle.std.specs.Option.{option_map};
ghost use Rattle.fr_series.specs.Basis.{sharp_scale_of, stays_for, IsCourse};
ghost use Rattle.fr_series.specs.Scale.{IsScale};

use crate::scale::Scale;
use fr_bound::{DoubleNumber, Flutter, sharp_bounds};
use fr_cluster::Params;
use fr_coverage::{Fluttering, flutter, ticks_of};
use fr_drift::Drift;
use fr_script::Script;
use fr_sharp::has_arbitrary;
use fr_skew::{SyncBounds, sync_bounds};
use fr_time::grid_of;

/// By which numbers the double cycles of a run from one on are in sharp sync, beside arbitrary sync nodes or without.
#[derive(Clone, Copy, Debug, PartialEq, Eq)]
pub struct Course {
    /// Those for the flutter from there on.
    pub scale: Scale,
    /// The last double cycle from which on the flutter is the same, if there is one: else it stays so to the end.
    pub until: Option<u32>,
}

impl Course {
    /// Those of a double cycle.
    pub fn from(params: &Params, drift: &Drift, script: &Script, double: u32) -> Course
        ensures is { IsCourse params.now drift.now script.now double result }
        ensures proper { IsScale result.scale }
    {
        let place = flutter(params, drift, script, double);
        let beside = has_arbitrary(params, script);
        Course {
            scale: sharp_scale(params, beside, Flutter(ticks_of(&place))),
            until: last_of(&place),
        }
    }

    /// Those of the double cycle behind one, by the first one in sharp sync up to it: they stay from that one on.
    pub fn behind(
        self,
        params: &Params,
        drift: &Drift,
        script: &Script,
        synced: Option<u32>,
        double: DoubleNumber,
    ) -> Course
        requires is { IsCourse params.now drift.now script.now (unwrap_or synced double) self }
        requires proper { IsScale self.scale }
        ensures is { IsCourse params.now drift.now script.now (unwrap_or synced (double + 1)) result }
        ensures proper { IsScale result.scale }
    {
        match synced {
            Some(_) => self,
            None => self.next(params, drift, script, double),
        }
    }

    // Those of the double cycle behind one that is not in sharp sync.
    fn next(self, params: &Params, drift: &Drift, script: &Script, double: DoubleNumber) -> Course
        requires is { IsCourse params.now drift.now script.now double self }
        requires proper { IsScale self.scale }
        ensures is { IsCourse params.now drift.now script.now (double + 1) result }
        ensures proper { IsScale result.scale }
    {
        if stays(self.until, double.0 + 1) {
            self
        } else {
            Course::from(params, drift, script, double.0 + 1)
        }
    }
}

// Whether a double cycle is no later than another one, if there is that.
fn stays(until: Option<u32>, double: u32) -> bool
    ensures { result ≡ stays_for until double }
{
    match until {
        None => true,
        Some(last) => double <= last,
    }
}

fn last_of(place: &Option<Fluttering>) -> Option<u32>
    ensures { result ≡ option_map (λ place. place.double) place.now }
{
    match place {
        None => None,
        Some(place) => Some(place.double),
    }
}

/// The sharper numbers of a cluster, beside arbitrary sync nodes or without, where delays flutter by no more than so many
/// ticks.
pub fn sharp_scale(params: &Params, beside: bool, flutter: Flutter) -> Scale
    ensures value { result ≡ sharp_scale_of beside params.now flutter }
    ensures proper { IsScale result }
{
    let sharp = sharp_bounds(params, beside, flutter);
    let older = sync_bounds(params);
    Scale {
        grid: grid_of(params),
        bounds: SyncBounds {
            pi: sharp.pi,
            lambda: sharp.lambda,
            shortest: older.shortest,
            longest: older.longest,
            micros: older.micros,
        },
        precision: sharp.precision,
    }
}
