ghost use Rattle.std.specs.Prelude.{◌≡◌, ◌+◌, ◌≤◌, ◌++◌, drop, length, map, take, true, All, Some, None};
ghost use Rattle.fr_cluster.specs.Values.{amount};
ghost use Rattle.fr_cluster.specs.declared.names.ParamName.TheVariants as name;
ghost use Rattle.fr_pool.specs.Pool.{HasFree};
ghost use Rattle.fr_reception.specs.Regular.{payload_bytes};
ghost use Rattle.fr_history.specs.Offers.{is_on};
ghost use Rattle.fr_script.specs.View.{join_of};
ghost use Rattle.fr_time.specs.Senders.{sender_of};
ghost use Rattle.fr_air.specs.Cells.{Stays};
ghost use Rattle.fr_air.specs.Files.{setting_in};
ghost use Rattle.fr_air.specs.Listening.{after_catch, after_frame, after_listening, frame_with, heard_by_listener, offer_caught, CanBeHeard, CatchesTurn, HasListened, IsListener};
ghost use Rattle.fr_air.specs.Sending.{offer_at, sending_row_in, sent_with, IsEarlyRow, IsEarlyStart};
ghost use Rattle.fr_air.specs.Turns.{frame_of_turn};
ghost use Rattle.fr_node.specs.Listening.{IsArrival};

use crate::cells::{give_back, take_spare, write_frame};
use crate::files::{RunInputs, sane};
use crate::flipping::{arrived, flip_front};
use crate::instants::caught_at;
use crate::memory::Memory;
use crate::senders::sending_row;
use crate::turn::Turn;
use fr_base::{Channel, NodeRow};
use fr_node::Listener;
use fr_pool::Pool;
use fr_time::{Sending, is_odd, sender};

// Inverts a bit of so many bytes at the front of others, if one is to be inverted.
fn invert_front(bytes: &mut [u8], count: usize, bit: Option<u32>)
    requires { count ≤ length bytes.old }
    ensures { bytes.new ≡ frame_with bit (take count bytes.old) ++ drop count bytes.old }
{
    if let Some(bit) = bit {
        flip_front(bytes, count, bit);
    }
}

// Writes the frame of a turn, with a bit inverted if one is, at the front of the bytes of a cell, and answers how many
// bytes it has.
fn write_inverted(
    files: &RunInputs,
    turn: &Turn,
    sending: &Sending,
    bit: Option<u32>,
    out: &mut [u8],
) -> usize
    requires sends { sender_of files.now.params turn.now.slot turn.now.cycle ≡ Some sending.now }
    requires room { 8 + payload_bytes files.now.params ≤ length out.old }
    ensures count { result ≡ length (frame_with bit (frame_of_turn files.now turn.now sending.now)) }
    ensures within { result ≤ length out.old }
    ensures written { out.new ≡ frame_with bit (frame_of_turn files.now turn.now sending.now) ++ drop result out.old }
{
    let count = write_frame(files, turn, sending, out);
    invert_front(out, count, bit);
    count
}

// A listener catches bytes that come in a turn at an instant.
fn catch_bytes(turn: &Turn, arrival: i64, bytes: &[u8], listener: &mut Listener)
    requires { IsArrival arrival }
    ensures { listener.new ≡ after_catch turn.now (Some (offer_at turn.now arrival bytes.now)) listener.old }
{
    listener.catch(turn.channel, is_odd(turn.cycle), arrival, bytes);
}

// A listener catches the frame of a turn, with a bit inverted if one is, at an instant. The bytes stand in a further cell
// for so long.
pub fn catch_copy(
    files: &RunInputs,
    turn: &Turn,
    sending: &Sending,
    arrival: i64,
    bit: Option<u32>,
    pool: &mut Pool,
    listener: &mut Listener,
)
    requires sends { sender_of files.now.params turn.now.slot turn.now.cycle ≡ Some sending.now }
    requires arrival { IsArrival arrival }
    requires spare { HasFree pool.old }
    requires whole { length pool.old.bytes ≡ length pool.old.out }
    ensures caught { listener.new
        ≡ after_frame turn.now arrival bit (frame_of_turn files.now turn.now sending.now) listener.old }
    ensures stays { Stays pool.old pool.new }
{
    sane(&files.params);
    let copy = take_spare(pool);
    let count = write_inverted(files, turn, sending, bit, pool.write(&copy));
    catch_bytes(turn, arrival, &pool.read(&copy)[..count], listener);
    give_back(pool, copy);
}

// A listener catches what comes to it in a turn of a sender with this row, which started early.
fn catch_sent(
    files: &RunInputs,
    turn: &Turn,
    sending: &Sending,
    row: &NodeRow,
    memory: &mut Memory,
    listener: &mut Listener,
)
    requires slot { turn.now.slot ≤ amount files.now.params name.gNumberOfStaticSlots }
    requires sends { sender_of files.now.params turn.now.slot turn.now.cycle ≡ Some sending.now }
    requires row { IsEarlyRow files.now.params row.now }
    requires start { IsEarlyStart row.now.start }
    ensures caught { listener.new ≡ after_catch turn.now
        (sent_with (setting_in files.now) turn.now row.now
        (frame_of_turn files.now turn.now sending.now) listener.old.id)
        listener.old }
    ensures stays { memory.new ≡ memory.old }
{
    let arrival = caught_at(files, turn, row, listener.id());
    let event = files
        .script
        .at(turn.cycle, row.node, listener.id(), turn.channel);
    if let Some(bit) = arrived(&event) {
        memory.catch(files, turn, sending, arrival, bit, listener);
    }
}

// A listener catches what comes to it in a turn of its sender, which joins nobody and has one of these rows where it sends.
fn catch_from(
    files: &RunInputs,
    turn: &Turn,
    sending: &Sending,
    rows: &[NodeRow],
    memory: &mut Memory,
    listener: &mut Listener,
)
    requires slot { turn.now.slot ≤ amount files.now.params name.gNumberOfStaticSlots }
    requires sends { sender_of files.now.params turn.now.slot turn.now.cycle ≡ Some sending.now }
    requires joins { join_of files.now.script sending.now.node ≡ None }
    requires rows { CanBeHeard files.now turn.now.cycle rows.now }
    ensures caught { listener.new ≡ after_catch turn.now
        (offer_caught (setting_in files.now) turn.now
        (sending_row_in (setting_in files.now) rows.now sending.now.node turn.now.channel)
        (frame_of_turn files.now turn.now sending.now) listener.old.id)
        listener.old }
    ensures stays { memory.new ≡ memory.old }
{
    if let Some(row) = sending_row(files, turn, rows, sending.node) {
        catch_sent(files, turn, sending, &row, memory, listener);
    }
}

// A listener that has the channel of a turn of its reference's key slot catches what comes to it there.
fn catch_in(
    files: &RunInputs,
    turn: &Turn,
    rows: &[NodeRow],
    memory: &mut Memory,
    listener: &mut Listener,
)
    requires listener { IsListener files.now listener.old }
    requires slot { turn.now.slot ≡ listener.old.reference }
    requires on { is_on (setting_in files.now) listener.old.id turn.now.channel ≡ true }
    requires rows { CanBeHeard files.now turn.now.cycle rows.now }
    ensures caught { listener.new
        ≡ heard_by_listener (setting_in files.now) turn.now.cycle rows.now turn.now.channel listener.old }
    ensures stays { memory.new ≡ memory.old }
{
    sane(&files.params);
    if let Some(sending) = sender(&files.params, turn.slot, turn.cycle) {
        catch_from(files, turn, &sending, rows, memory, listener);
    }
}

// A listener catches what comes to it in a turn of its reference's key slot, if it has the channel.
fn catch_on(
    files: &RunInputs,
    turn: &Turn,
    rows: &[NodeRow],
    memory: &mut Memory,
    listener: &mut Listener,
)
    requires listener { IsListener files.now listener.old }
    requires slot { turn.now.slot ≡ listener.old.reference }
    requires rows { CanBeHeard files.now turn.now.cycle rows.now }
    ensures caught { CatchesTurn files.now turn.now rows.now listener.old listener.new }
    ensures stays { memory.new ≡ memory.old }
{
    let id = listener.id();
    if files.params.common(id, id, turn.channel) {
        catch_in(files, turn, rows, memory, listener);
    }
}

// A listener catches its reference's frames of a cycle, on channel A and on channel B.
fn listen(
    files: &RunInputs,
    cycle: u32,
    rows: &[NodeRow],
    memory: &mut Memory,
    listener: &mut Listener,
)
    requires listener { IsListener files.now listener.old }
    requires rows { CanBeHeard files.now cycle rows.now }
    ensures caught { HasListened files.now cycle rows.now listener.old listener.new }
    ensures stays { memory.new ≡ memory.old }
{
    let slot = listener.reference();
    let on_a = Turn {
        cycle,
        slot,
        channel: Channel::A,
    };
    catch_on(files, &on_a, rows, memory, listener);
    let on_b = Turn {
        cycle,
        slot,
        channel: Channel::B,
    };
    catch_on(files, &on_b, rows, memory, listener);
}

// All listeners catch the frames of their references of a cycle.
pub fn listen_all(
    files: &RunInputs,
    cycle: u32,
    rows: &[NodeRow],
    memory: &mut Memory,
    listeners: &mut [Listener],
)
    requires listeners { All (IsListener files.now) listeners.old }
    requires rows { CanBeHeard files.now cycle rows.now }
    ensures caught { listeners.new ≡ map (after_listening (setting_in files.now) cycle rows.now) listeners.old }
    ensures listeners { All (IsListener files.now) listeners.new }
    ensures stays { memory.new ≡ memory.old }
{
    for listener in listeners.iter_mut() {
        listen(files, cycle, rows, memory, listener);
    }
}
