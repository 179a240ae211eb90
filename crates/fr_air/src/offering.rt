ghost use Rattle.std.specs.Prelude.{◌≡◌, ℕ, ◌+◌, ◌-◌, ◌≤◌, true, List, All, Some, length, map, IfSome, IsSome};
ghost use Rattle.fr_base.specs.Counts.{AreAtMost};
ghost use Rattle.fr_node.specs.View.{node_row_of};
ghost use Rattle.fr_node.specs.declared.answers.Reception.TheVariants as Reception;
ghost use Rattle.fr_reception.specs.declared.heard.Ignored.TheVariants as reason;
ghost use Rattle.fr_time.specs.Instant.{IsSlotOf};
ghost use Rattle.fr_air.specs.Cycling.{IsReady};
ghost use Rattle.fr_air.specs.Files.{setting_in};
ghost use Rattle.fr_air.specs.Memory.{frame_on};
ghost use Rattle.fr_air.specs.Reaching.{listening_on, IsReach, SendsAmong};
ghost use Rattle.fr_air.specs.Sending.{carried, coming_offer, hears, offer_heard, said_by, said_with, sent_with, ComesAs, IsComing, IsDue, IsEarlyRow};
ghost use Rattle.fr_air.specs.Turns.{most_in_a_cycle, most_adding, heard_on_air, offer_on, AreReady, CanHear, HasHeard, HaveHeard, IsOnAir, IsSent};

use crate::files::RunInputs;
use crate::flipping::arrived;
use crate::instants::{said_at, sent_at};
use crate::memory::Memory;
use crate::reach::Reach;
use crate::tally::count;
use crate::turn::{Air, Bytes, Coming, Turn};
use fr_base::{Channel, Counts, NodeId, NodeRow, Slot, State};
use fr_node::{Node, Reception};
use fr_reception::Ignored;
use fr_script::Event;

// Whether a receiver with this row hears a sender on a channel.
fn hears(files: &RunInputs, receiver: &NodeRow, sender: NodeId, channel: Channel) -> bool
    ensures { result ≡ hears (setting_in files.now) receiver.now sender channel }
{
    let node = receiver.node;
    !matches!(receiver.state, State::Halt)
        && files.params.common(node, node, channel)
        && sender != node
}

// What comes to a receiver of the frame of a correct sender with this row.
fn sent_to<'a>(
    files: &'a RunInputs,
    turn: &Turn,
    sender: &NodeRow,
    due: i64,
    receiver: NodeId,
) -> Option<Coming<'a>>
    requires due { IsDue files.now turn.now sender.now due }
    ensures { (frame : List ℕ) →
        ComesAs turn.now frame (sent_with (setting_in files.now) turn.now sender.now frame receiver) result }
{
    let arrival = sent_at(files, turn, sender, due, receiver);
    let event = files
        .script
        .at(turn.cycle, sender.node, receiver, turn.channel);
    match arrived(&event) {
        Some(bit) => Some(Coming {
            arrival,
            bytes: carried(bit),
        }),
        None => None,
    }
}

// The bytes that come of a frame with this bit inverted, if one is.
fn carried<'a>(bit: Option<u32>) -> Bytes<'a>
    ensures { result ≡ carried bit }
{
    match bit {
        None => Bytes::Frame,
        Some(bit) => Bytes::Flipped(bit),
    }
}

// The bytes of what an arbitrary sender says.
fn said_by(bytes: Option<&[u8]>) -> Bytes<'_>
    ensures { result ≡ said_by bytes.entry }
{
    match bytes {
        None => Bytes::Frame,
        Some(bytes) => Bytes::Said(bytes),
    }
}

// What comes to a receiver of an arbitrary sender, which has this regular frame: what it says, if it says
// something.
fn said_to<'a>(
    files: &'a RunInputs,
    turn: &Turn,
    sender: NodeId,
    receiver: &NodeRow,
) -> Option<Coming<'a>>
    requires receiver { IsSlotOf files.now.params receiver.now turn.now.slot }
    ensures { (frame : List ℕ) →
        ComesAs turn.now frame (said_with (setting_in files.now) turn.now sender frame receiver.now) result }
{
    match files
        .script
        .at(turn.cycle, sender, receiver.node, turn.channel)
    {
        Event::Say { shift, bytes } => Some(Coming {
            arrival: said_at(files, turn, receiver, shift),
            bytes: said_by(bytes),
        }),
        _ => None,
    }
}

// What comes to a receiver of a frame on the air, where it hears its sender.
fn coming_to<'a>(files: &'a RunInputs, air: &Air<'_>, receiver: &NodeRow) -> Option<Coming<'a>>
    requires sent { IsSent files.now air.now }
    requires receiver { IsEarlyRow files.now.params receiver.now }
    ensures { (frame : List ℕ) → ComesAs air.now.turn.now frame
        (offer_heard (setting_in files.now) air.now.turn.now air.now.sender.now.node air.now.sender.now.row
        frame receiver.now)
        result }
{
    let sender = air.sender;
    if !hears(files, receiver, sender.node, air.turn.channel) {
        return None;
    }
    match &sender.row {
        Some(row) => sent_to(files, air.turn, row, air.due, receiver.node),
        None => said_to(files, air.turn, sender.node, receiver),
    }
}

// A node hears what comes to it of a frame on the air, and its answer is counted.
fn hear(
    files: &RunInputs,
    air: &Air<'_>,
    coming: &Coming<'_>,
    memory: &mut Memory,
    node: &mut Node,
    counts: &mut Counts,
)
    requires hears { CanHear files.now air.now.turn.now node.old }
    requires air { IsOnAir files.now air.now memory.old }
    requires coming { IsComing coming.now }
    requires few { AreAtMost most_adding counts.old }
    ensures heard { HasHeard files.now air.now.turn.now
        (Some (coming_offer air.now.turn.now (frame_on memory.old air.now.cell) coming.now))
        node.old counts.old node.new counts.new }
    ensures stays { memory.new ≡ memory.old }
{
    let heard = memory.hear(files, air, coming, node);
    count(counts, &heard);
}

// Offers a frame on the air to a node, where it hears its sender.
fn offer_to(
    files: &RunInputs,
    air: &Air<'_>,
    memory: &mut Memory,
    node: &mut Node,
    counts: &mut Counts,
)
    requires air { IsOnAir files.now air.now memory.old }
    requires ready { IsReady files.now air.now.turn.now.cycle node.old }
    requires few { AreAtMost most_adding counts.old }
    ensures heard { HasHeard files.now air.now.turn.now (offer_on files.now air.now memory.old (node_row_of node.old))
        node.old counts.old node.new counts.new }
    ensures stays { memory.new ≡ memory.old }
{
    let receiver = node.row();
    if let Some(coming) = coming_to(files, air, &receiver) {
        hear(files, air, &coming, memory, node, counts);
    }
}

// Offers a frame on the air to each node that hears its sender, and counts the answers.
pub fn offer_to_all(
    files: &RunInputs,
    air: &Air<'_>,
    memory: &mut Memory,
    nodes: &mut [Node],
    counts: &mut Counts,
)
    requires air { IsOnAir files.now air.now memory.old }
    requires ready { AreReady files.now air.now.turn.now.cycle most_in_a_cycle nodes.old counts.old }
    ensures heard { HaveHeard files.now air.now.turn.now.cycle (offer_on files.now air.now memory.old)
        nodes.old counts.old nodes.new counts.new }
    ensures stays { memory.new ≡ memory.old }
{
    for node in nodes.iter_mut() {
        offer_to(files, air, memory, node, counts);
    }
}

// How many nodes hear on a channel.
fn listening_on(reach: Reach, channel: Channel) -> usize
    ensures { result ≡ listening_on reach channel }
{
    match channel {
        Channel::A => reach.on_a,
        Channel::B => reach.on_b,
    }
}

// Counts a plain frame at all nodes that hear on its channel but its sender.
fn count_plain(reach: Reach, channel: Channel, counts: &mut Counts)
    requires some { 1 ≤ listening_on reach channel }
    requires few_nodes { listening_on reach channel ≤ 64 }
    requires few { AreAtMost most_in_a_cycle counts.old }
    ensures { counts.new ≡ record counts.old { plain = counts.old.plain + (listening_on reach channel - 1) } }
{
    let others = listening_on(reach, channel) - 1;
    counts.plain += others as u64;
}

// Whether receivers ignore a frame that arrives in its slot as a plain one.
fn is_plain(reception: &Reception) -> bool
    ensures { result ≡ true → reception.now ≡ Reception.Ignored reason.Plain }
{
    matches!(reception, Reception::Ignored(Ignored::Plain))
}

// What holds of each slot: the read of its number opens its invariant.
fn counted_from_one(slot: Slot)
    ensures { 1 ≤ slot }
{
    let _number = slot.0;
}

// Whether each node that hears a frame on the air ignores it as a plain one that came in its slot.
fn is_plain_to_all(air: &Air<'_>, reach: Reach) -> bool
    ensures slot { 1 ≤ air.now.turn.now.slot }
    ensures whole { result ≡ true → reach.whole ≡ true }
    ensures correct { result ≡ true → IsSome air.now.sender.now.row }
    ensures plain { result ≡ true → air.now.reception.now ≡ Reception.Ignored reason.Plain }
{
    counted_from_one(air.turn.slot);
    reach.whole && air.sender.row.is_some() && is_plain(air.reception)
}

// Offers a frame on the air to each node that hears its sender, and counts the answers. Where it is a plain one and
// comes to all in its slot, it is counted at once, since it changes no node.
pub fn offer_in_reach(
    files: &RunInputs,
    air: &Air<'_>,
    reach: Reach,
    memory: &mut Memory,
    nodes: &mut [Node],
    counts: &mut Counts,
)
    requires air { IsOnAir files.now air.now memory.old }
    requires ready { AreReady files.now air.now.turn.now.cycle most_in_a_cycle nodes.old counts.old }
    requires reach { IsReach files.now air.now.turn.now.cycle (map node_row_of nodes.old) reach }
    requires sends { IfSome air.now.sender.now.row (SendsAmong files.now air.now (map node_row_of nodes.old)) }
    ensures heard { HaveHeard files.now air.now.turn.now.cycle (offer_on files.now air.now memory.old)
        nodes.old counts.old nodes.new counts.new }
    ensures stays { memory.new ≡ memory.old }
{
    if is_plain_to_all(air, reach) {
        count_plain(reach, air.turn.channel, counts);
    } else {
        offer_to_all(files, air, memory, nodes, counts);
    }
}

// Offers it to each follower that hears its sender. What followers answer is not counted.
pub fn offer_to_followers(
    files: &RunInputs,
    air: &Air<'_>,
    memory: &mut Memory,
    followers: &mut [Node],
)
    requires air { IsOnAir files.now air.now memory.old }
    requires ready { All (IsReady files.now air.now.turn.now.cycle) followers.old }
    requires few { length followers.old ≤ 64 }
    ensures heard { followers.new ≡ map (heard_on_air files.now air.now memory.old) followers.old }
    ensures ready { All (IsReady files.now air.now.turn.now.cycle) followers.new }
    ensures stays { memory.new ≡ memory.old }
{
    if followers.is_empty() {
        return;
    }
    let mut uncounted = Counts::none();
    offer_to_all(files, air, memory, followers, &mut uncounted);
}
