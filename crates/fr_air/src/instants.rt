ghost use Rattle.std.specs.Prelude.{◌≡◌, ◌≤◌, ◌+ℤ◌, ◌*ℤ◌, pos, IfSome};
ghost use Rattle.fr_base.specs.Within.{IsBetween, IsWithin};
ghost use Rattle.fr_cluster.specs.Questions.{compensation_of};
ghost use Rattle.fr_cluster.specs.Values.{amount};
ghost use Rattle.fr_cluster.specs.declared.names.ParamName.TheVariants as name;
ghost use Rattle.fr_time.specs.Instant.{action_instant, IsSlotOf};
ghost use Rattle.fr_air.specs.Files.{setting_in};
ghost use Rattle.fr_air.specs.Sending.{sent_instant, said_instant, IsDue, IsEarlyRow, IsEarlyStart};
ghost use Rattle.fr_node.specs.Listening.{IsArrival};
ghost use Rattle.fr_drift.specs.Rows.{most_link_delay};

use crate::files::RunInputs;
use crate::turn::Turn;
use fr_base::{Channel, NodeId, NodeRow, Slot, ticks_of};
use fr_cluster::Params;
use fr_time::{action_instant, action_point, early_position};

// The instant at which a sender with this row sends, in ticks; 0 where there is no row.
pub fn due_at(files: &RunInputs, turn: &Turn, row: &Option<NodeRow>) -> i64
    requires slot { turn.now.slot ≤ amount files.now.params name.gNumberOfStaticSlots }
    requires row { IfSome row.now (IsEarlyRow files.now.params) }
    ensures { IfSome row.now (λ sender. IsDue files.now turn.now sender result) }
{
    match row {
        Some(row) => action_instant(&files.params, row, turn.slot),
        None => 0,
    }
}

// The instant at which the frame of a sender with this row, which is due at an instant, comes to a receiver, in
// ticks.
pub fn sent_at(files: &RunInputs, turn: &Turn, sender: &NodeRow, due: i64, receiver: NodeId) -> i64
    requires { IsDue files.now turn.now sender.now due }
    ensures value { result ≡ sent_instant (setting_in files.now) turn.now sender.now receiver }
    ensures within { IsWithin (pos 2_000_000_000_000_000_000) result }
    ensures soon { IsBetween due (due +ℤ pos most_link_delay) result }
{
    let delay = files
        .drift
        .delay(sender.node, receiver, turn.channel, turn.cycle);
    due + delay
}

// The instant at which a sender with this row sends that started early, in ticks.
fn early_due_at(files: &RunInputs, turn: &Turn, sender: &NodeRow) -> i64
    requires slot { turn.now.slot ≤ amount files.now.params name.gNumberOfStaticSlots }
    requires row { IsEarlyRow files.now.params sender.now }
    requires start { IsEarlyStart sender.now.start }
    ensures due { IsDue files.now turn.now sender.now result }
    ensures early { IsBetween (pos 0) (pos 800_000_000_000_000_000) result }
{
    let position = early_position(
        &files.params,
        sender.rate,
        action_point(&files.params, turn.slot),
    );
    sender.start + ticks_of(position, sender.length)
}

// The instant at which the frame of such a sender comes to a receiver, in ticks.
pub fn caught_at(files: &RunInputs, turn: &Turn, sender: &NodeRow, receiver: NodeId) -> i64
    requires slot { turn.now.slot ≤ amount files.now.params name.gNumberOfStaticSlots }
    requires row { IsEarlyRow files.now.params sender.now }
    requires start { IsEarlyStart sender.now.start }
    ensures value { result ≡ sent_instant (setting_in files.now) turn.now sender.now receiver }
    ensures within { IsArrival result }
{
    let due = early_due_at(files, turn, sender);
    sent_at(files, turn, sender, due, receiver)
}

// The instant at which what is said so much later than expected comes to a receiver with this row, in
// ticks.
pub fn said_at(files: &RunInputs, turn: &Turn, receiver: &NodeRow, shift: i64) -> i64
    requires row { IsSlotOf files.now.params receiver.now turn.now.slot }
    requires shift { IsWithin (pos 1_000_000_000_000) shift }
    ensures value { result ≡ said_instant (setting_in files.now) turn.now receiver.now shift }
    ensures within { IsWithin (pos 2_000_000_000_000_000_000) result }
{
    expected_at(&files.params, receiver, turn.slot, turn.channel) + shift
}

// The instant at which a receiver with this row expects the frame of a slot, in ticks.
fn expected_at(params: &Params, receiver: &NodeRow, slot: Slot, channel: Channel) -> i64
    requires { IsSlotOf params.now receiver.now slot }
    ensures value { result
        ≡ action_instant params.now receiver.now slot +ℤ (compensation_of params.now channel *ℤ receiver.now.length) }
    ensures within { IsWithin (pos 1_200_000_000_000_000_000) result }
{
    action_instant(params, receiver, slot) + ticks_of(params.compensation(channel), receiver.length)
}
