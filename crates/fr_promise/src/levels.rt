ghost use Rattle.std.specs.Prelude.{◌≡◌};
ghost use Rattle.fr_promise.specs.HeldWalks.{lasts_by, oscillators_stay, sync_lasts, walk_is_held, LevelsAreThere, LevelsHold};

use fr_bound::{Flutter, rate_room, rate_walk, sharp_lasts, shortest_microtick};
use fr_cluster::Params;

/// For how many double cycles from one in sharp sync the nodes stay so, under the second check; None where lengths do
/// not walk, or where their walk is held, so that they do for ever. Delays flutter by no more than so many ticks.
pub fn sync_lasts(params: &Params, flutter: Flutter) -> Option<u64>
    ensures { result ≡ sync_lasts params.now flutter }
{
    if walk_is_held(params, flutter) {
        None
    } else {
        sharp_lasts(params, flutter)
    }
}

/// For how many double cycles from one in sharp sync it lasts, under the second check: where all is heard, and else by the
/// walk of lengths alone; None for ever. Delays flutter by no more than so many ticks.
pub fn lasts_by(params: &Params, heard: bool, flutter: Flutter) -> Option<u64>
    ensures { result ≡ lasts_by heard params.now flutter }
{
    if heard {
        sync_lasts(params, flutter)
    } else {
        sharp_lasts(params, flutter)
    }
}

// Whether lengths walk and come less than a microtick beyond their range in all.
fn walk_is_held(params: &Params, flutter: Flutter) -> bool
    ensures { result ≡ walk_is_held params.now flutter }
{
    let (gain, loss) = rate_walk(params, flutter);
    let shortest = shortest_microtick(params);
    let room = rate_room(params);
    oscillators_stay(params)
        && loss < gain
        && 3 * (gain - loss) < 2 * shortest
        && shortest + (gain - loss) <= room + 1
}

// Whether microticks are as long in each cycle as in the one before.
fn oscillators_stay(params: &Params) -> bool
    ensures { result ≡ oscillators_stay params.now }
{
    params.change_bound == 0
}

/// The law of levels: where oscillators do not change, and lengths walk by less than two thirds of a microtick in a
/// double cycle, there is a length above their range, in ticks, and one below it, over which no receiver's next length
/// comes.
pub fn levels_hold()
    ensures there { LevelsAreThere }
    ensures hold { LevelsHold }
{}
