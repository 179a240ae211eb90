ghost use Rattle.std.specs.Prelude.{◌≡◌, ◌*◌, ◌≤◌};
ghost use Rattle.fr_log.specs.Rows.{last_stamp};
ghost use Rattle.fr_cluster.specs.Questions.{has_channel, node_of};
ghost use Rattle.fr_observe.specs.Faults.{irregular_fault, slot_faults};
ghost use Rattle.fr_observe.specs.Telling.{TellsFaults};
ghost use Rattle.fr_sightings.specs.Ranges.{AreLogStamps};

use crate::fault::Fault;
use crate::own_faults::stamp_number;
use crate::telling::tell_one;
use fr_base::{PutFault, Sink};
use fr_cluster::Params;
use fr_log::Log;
use fr_sightings::Sighting;

// Whether a frame is on a channel of the node of its slot.
fn is_on_channel(params: &Params, sighting: &Sighting) -> bool
    ensures { result ≡ has_channel (node_of params.now sighting.now.node) sighting.now.channel }
{
    params.has_channel(sighting.node, sighting.channel)
}

// A frame is in the slot of a node that does not send it: what is on the node's channels is of another form.
fn irregular_fault(params: &Params, log: &Log, sighting: &Sighting) -> Fault
    requires { log.now.unit * sighting.now.stamp ≤ last_stamp }
    ensures { result ≡ irregular_fault params.now sighting.now }
{
    let Sighting {
        number: cycle,
        node,
        channel,
        slot,
        ..
    } = *sighting;
    let stamp = stamp_number(log, sighting.stamp);
    if is_on_channel(params, sighting) {
        Fault::Form {
            cycle,
            node,
            channel,
            stamp,
            slot,
        }
    } else {
        Fault::Stranger {
            cycle,
            node,
            channel,
            stamp,
            slot,
        }
    }
}

/// Tells what contradicts any run that sends each whole frame of the log in the slot of a node, by these irregular frames: a
/// line for each, and the first one of all that were told is kept.
#[tactic(auto, unfolding(crate::specs::Faults::slot_faults))]
pub fn put_slot_faults<O: Sink>(
    params: &Params,
    log: &Log,
    frames: &[Sighting],
    first: &mut Option<Fault>,
    out: &mut O,
) -> Result<(), PutFault>
    requires { AreLogStamps log.now frames.now }
    ensures { TellsFaults result (O.state out.old) (O.state out.new) first.old first.new
        (slot_faults params.now frames.now) }
{
    for sighting in frames {
        tell_one(&irregular_fault(params, log, sighting), first, out)?;
    }
    Ok(())
}
