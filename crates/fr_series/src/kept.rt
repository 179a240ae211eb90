ghost use Rattle.std.specs.Prelude.{◌≡◌, ◌+◌, None, Some, IfSome};
ghost use Rattle.fr_traffic.specs.Traffic.{heard_in, traffic_in};
ghost use Rattle.fr_series.specs.SharpLosses.{bound_of, bound_since, from_of, kept_by, IsHeldSince, IsHeldBy};

use crate::basis::Basis;
use fr_bound::{DoubleNumber, Flutter};
use fr_precision::Kinds;
use fr_sharp::LossSpread;
use fr_traffic::{heard_in, is_whole};
use fr_world::World;

/// What the nodes hear in a double cycle, and how far macroticks may lie apart in it.
#[derive(Clone, Copy, Debug, PartialEq, Eq)]
pub struct Kept {
    /// Whether all is heard in it: between any two nodes one channel carries the frames of both its cycles.
    pub whole: bool,
    /// What is heard in it, of offsets and of rates: all of all, without arbitrary sync nodes; of any two nodes enough in
    /// common; or what there is. Senders that join count only where all is heard.
    pub heard: Kinds,
    /// How far macroticks may lie apart in it, in ticks, from the first double cycle in sharp sync on, where the run is
    /// covered through losses from there on, whoever joins.
    pub bound: Option<u128>,
}

// What a run rests on from its first double cycle in sharp sync on, by the first one up to a double cycle, if there is one:
// from there on numbers by what is heard are counted.
pub(crate) fn begun(
    world: &World,
    basis: Option<Basis>,
    synced: Option<u32>,
    double: u32,
    spread: &mut LossSpread,
) -> Option<Basis>
    requires held { IsHeldSince world.now.params world.now.drift world.now.script double basis spread.old }
    requires same { IfSome basis (λ basis. synced ≡ Some basis.from) }
    requires starts { basis ≡ None → IfSome synced (λ first. first ≡ double) }
    ensures held { IsHeldSince world.now.params world.now.drift world.now.script double result spread.new }
    ensures same { from_of result ≡ synced }
{
    match basis {
        Some(_) => basis,
        None => match synced {
            None => None,
            Some(_) => Some(begin(world, double, spread)),
        },
    }
}

// What a run rests on from a double cycle on.
fn begin(world: &World, double: u32, spread: &mut LossSpread) -> Basis
    ensures held { IsHeldBy world.now.params world.now.drift world.now.script double result spread.new }
    ensures from { result.from ≡ double }
{
    let basis = Basis::of(world.params(), world.drift(), world.script(), double);
    *spread = LossSpread::first(world.params(), basis.beside, Flutter(basis.flutter));
    basis
}

// What a double cycle hears and keeps; goes on to the one behind it.
pub(crate) fn next_kept(
    world: &World,
    basis: &Option<Basis>,
    double: DoubleNumber,
    spread: &mut LossSpread,
) -> Kept
    requires held { IsHeldSince world.now.params world.now.drift world.now.script double basis.now spread.old }
    ensures kept { result ≡ kept_by world.now.params world.now.drift world.now.script (from_of basis.now) double }
    ensures held { IsHeldSince world.now.params world.now.drift world.now.script (double + 1) basis.now spread.new }
{
    let params = world.params();
    let script = world.script();
    let whole = is_whole(params, script, double);
    let heard = heard_in(params, script, double, whole);
    Kept {
        whole,
        heard,
        bound: next_bound(world, basis, double, heard, spread),
    }
}

// Its number, where there is one; goes on to the one behind it.
fn next_bound(
    world: &World,
    basis: &Option<Basis>,
    double: DoubleNumber,
    heard: Kinds,
    spread: &mut LossSpread,
) -> Option<u128>
    requires heard { heard ≡ heard_in (traffic_in world.now.params world.now.script) double }
    requires held { IsHeldSince world.now.params world.now.drift world.now.script double basis.now spread.old }
    ensures bound { result ≡
        bound_since world.now.params world.now.drift world.now.script (from_of basis.now) double }
    ensures held { IsHeldSince world.now.params world.now.drift world.now.script (double + 1) basis.now spread.new }
{
    match basis {
        None => None,
        Some(basis) => {
            let apart = spread.apart(world.params(), Flutter(basis.flutter), heard);
            spread.step(world.params(), Flutter(basis.flutter), heard);
            bound_of(basis.through, apart)
        }
    }
}

fn bound_of(through: bool, apart: u128) -> Option<u128>
    ensures { result ≡ bound_of through apart }
{
    if through { Some(apart) } else { None }
}
