ghost use Rattle.std.specs.Prelude.{◌≡◌, ◌++◌, OnOk};
ghost use Rattle.std.specs.List.{flat_map};
ghost use Rattle.std.specs.Option.{option_or};
ghost use Rattle.fr_base.specs.Device.{Puts};
ghost use Rattle.fr_observe.specs.Faults.{fault_row, first_of_faults};
ghost use Rattle.fr_observe.specs.Scenes.{IsScene};
ghost use Rattle.fr_observe.specs.Telling.{TellsFaults};
ghost use Rattle.fr_judging.specs.Knowing.{JudgedBySmall, spread_told, standing_faults};
ghost use Rattle.fr_judging.specs.Missing.{missed_told};
ghost use Rattle.fr_findings.specs.Ground.{IsDouble, basis_in, double_in, scene_in, with_faults};
ghost use Rattle.fr_findings.specs.Verdict.{known_told, own_told, standing_told};

use crate::ground::{Double, Ground, Offending};
use crate::progress::Progress;
use fr_base::{PutFault, Sink};
use fr_bound::Known;
use fr_judging::{
    Obstacle, Standing, known_next, put_missed, put_moving_faults, put_spread, put_term_faults,
    standing,
};
use fr_observe::{Fault, Scene, put_own_faults, put_slot_faults};

// What contradicts any run, and any that sends each whole frame of the log in the slot of a node.
#[tactic(auto, unfolding(crate::specs::Verdict::own_told))]
pub(crate) fn put_own<'a, O: Sink>(
    ground: &'a Ground<'a>,
    double: &'a Double<'a>,
    first: &mut Option<Fault>,
    out: &mut O,
) -> Result<(), PutFault>
    requires double { IsDouble ground.now double.now }
    ensures { TellsFaults result (O.state out.old) (O.state out.new) first.old first.new
        (own_told (basis_in ground.now) (double_in double.now)) }
{
    let Offending {
        untimely,
        irregular,
    } = double.offending;
    put_own_faults(&scene_of(ground, double), untimely, first, out)?;
    put_slot_faults(ground.params, ground.log, irregular, first, out)
}

// The first one of two.
pub(crate) fn earlier(first: Option<Fault>, told: Option<Fault>) -> Option<Fault>
    ensures { result ≡ option_or first told }
{
    match first {
        Some(fault) => Some(fault),
        None => told,
    }
}

// What a double cycle is looked at with.
fn scene_of<'a>(ground: &'a Ground<'a>, double: &'a Double<'a>) -> Scene<'a>
    requires double { IsDouble ground.now double.now }
    ensures value { result ≡ scene_in ground.now double.now }
    ensures proper { IsScene result }
{
    Scene {
        params: ground.params,
        scale: ground.scale,
        log: ground.log,
        span: ground.span,
        before: double.before,
        here: double.here,
        number: double.number,
        senders: double.senders,
        skews: double.skews,
    }
}

// How it stands, where so much is known of it from the one before; `told` is the first fault in it that contradicts any run.
#[tactic(auto, unfolding(crate::specs::Verdict::standing_told))]
pub(crate) fn standing_of<'a>(
    ground: &'a Ground<'a>,
    double: &'a Double<'a>,
    known: Option<Known>,
    told: &Option<Fault>,
) -> Standing
    requires double { IsDouble ground.now double.now }
    requires told { told.now ≡ first_of_faults (own_told (basis_in ground.now) (double_in double.now)) }
    ensures value { result ≡ standing_told (basis_in ground.now) (double_in double.now) known }
    ensures small { JudgedBySmall result }
{
    standing(&scene_of(ground, double), ground.heard, known, *told)
}

// The faults of a double cycle that stands so, beside those that contradict any run.
pub(crate) fn put_faults<'a, O: Sink>(
    ground: &'a Ground<'a>,
    double: &'a Double<'a>,
    standing: &Standing,
    progress: &mut Progress,
    out: &mut O,
) -> Result<(), PutFault>
    requires double { IsDouble ground.now double.now }
    requires standing { standing.now ≡ standing_told (basis_in ground.now) (double_in double.now) progress.old.known }
    requires small { JudgedBySmall standing.now }
    ensures puts { Puts result (O.state out.old) (O.state out.new)
        (flat_map fault_row (known_told (basis_in ground.now) (double_in double.now) progress.old.known)) }
    ensures progress { OnOk result (progress.new ≡
        with_faults (basis_in ground.now) (double_in double.now) progress.old) }
{
    let scene = scene_of(ground, double);
    let mut moved = None;
    put_moving_faults(&scene, standing, &mut moved, out)?;
    let mut against = moved;
    put_term_faults(&scene, standing, &mut against, out)?;
    progress.known = known_next(ground.params, ground.log, standing, moved.is_none());
    progress.first = earlier(progress.first, against);
    progress.obstacle = Obstacle::farther(progress.obstacle, standing.obstacle);
    Ok(())
}

// How many senders its nodes must have missed, and the numbers that it is judged by; `against` is the first fault that put_faults
// tells of it.
pub(crate) fn put_numbers<'a, O: Sink>(
    ground: &'a Ground<'a>,
    double: &'a Double<'a>,
    standing: &Standing,
    against: &Option<Fault>,
    out: &mut O,
) -> Result<(), PutFault>
    requires double { IsDouble ground.now double.now }
    requires small { JudgedBySmall standing.now }
    requires against { against.now ≡ first_of_faults (standing_faults ground.now.params.now ground.now.scale.now
        ground.now.log.now ground.now.span double.now.before.now double.now.here.now double.now.number
        double.now.senders.now standing.now) }
    ensures { Puts result (O.state out.old) (O.state out.new)
        (missed_told ground.now.params.now ground.now.log.now ground.now.scale.now double.now.number
        double.now.senders.now standing.now
        ++ spread_told ground.now.params.now ground.now.log.now double.now.number standing.now) }
{
    let scene = scene_of(ground, double);
    put_missed(&scene, standing, against, out)?;
    put_spread(&scene, standing, out)
}
