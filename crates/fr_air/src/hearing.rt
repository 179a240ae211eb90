ghost use Rattle.std.specs.Prelude.{◌≡◌, ℕ, ◌≤◌, List, length};
ghost use Rattle.fr_pool.specs.Pool.{HasFree};
ghost use Rattle.fr_reception.specs.Offers.{flipped};
ghost use Rattle.fr_air.specs.Cells.{StandsInCell, Stays};
ghost use Rattle.fr_air.specs.Memory.{frame_at};
ghost use Rattle.fr_air.specs.Sending.{coming_offer, offer_at, IsComing};
ghost use Rattle.fr_air.specs.Turns.{CanHear, HasAnswered, IsMadeOf};
ghost use Rattle.fr_node.specs.Arrivals.{IsOfferedAt};

use crate::cells::{give_back, put_front, take_spare};
use crate::files::RunInputs;
use crate::flipping::flip_front;
use crate::turn::{Bytes, Coming, Turn};
use fr_node::{Heard, Node, Reception};
use fr_pool::{Cell, Pool};

// A node hears a frame of which this is made where it arrives in its slot.
#[inline(always)]
fn hear_frame(
    files: &RunInputs,
    turn: &Turn,
    arrival: i64,
    reception: &Reception,
    node: &mut Node,
) -> Heard
    requires hears { CanHear files.now turn.now node.old }
    requires arrival { IsOfferedAt arrival }
    ensures { (frame : List ℕ) → IsMadeOf files.now turn.now frame reception.now →
        HasAnswered files.now turn.now (offer_at turn.now arrival frame) node.old node.new result }
{
    node.hear_received(&files.params, turn.slot, turn.channel, arrival, reception)
}

// A node hears bytes.
fn hear_bytes(files: &RunInputs, turn: &Turn, arrival: i64, bytes: &[u8], node: &mut Node) -> Heard
    requires hears { CanHear files.now turn.now node.old }
    requires arrival { IsOfferedAt arrival }
    ensures { HasAnswered files.now turn.now (offer_at turn.now arrival bytes.now) node.old node.new result }
{
    node.hear(&files.params, turn.slot, turn.channel, arrival, bytes)
}

// A node hears bytes that stand in a further cell.
#[inline(never)]
fn hear_copy(
    files: &RunInputs,
    turn: &Turn,
    arrival: i64,
    bytes: &[u8],
    pool: &mut Pool,
    node: &mut Node,
) -> Heard
    requires hears { CanHear files.now turn.now node.old }
    requires arrival { IsOfferedAt arrival }
    requires bytes { length bytes.now ≤ 262 }
    requires spare { HasFree pool.old }
    requires whole { length pool.old.bytes ≡ length pool.old.out }
    ensures answered { HasAnswered files.now turn.now (offer_at turn.now arrival bytes.now)
        node.old node.new result }
    ensures stays { Stays pool.old pool.new }
{
    let copy = take_spare(pool);
    put_front(pool.write(&copy), bytes);
    let heard = hear_bytes(files, turn, arrival, &pool.read(&copy)[..bytes.len()], node);
    give_back(pool, copy);
    heard
}

// A node hears the frame that stands in a cell with one bit inverted: a copy of it stands in a further cell, in which
// the bit is inverted.
#[inline(never)]
fn hear_flipped(
    files: &RunInputs,
    turn: &Turn,
    arrival: i64,
    pool: &mut Pool,
    cell: &Cell,
    bytes: usize,
    bit: u32,
    node: &mut Node,
) -> Heard
    requires hears { CanHear files.now turn.now node.old }
    requires arrival { IsOfferedAt arrival }
    requires stands { StandsInCell pool.old cell.now bytes }
    ensures answered { HasAnswered files.now turn.now
        (offer_at turn.now arrival (flipped bit (frame_at pool.old cell.now bytes)))
        node.old node.new result }
    ensures stays { Stays pool.old pool.new }
{
    let copy = take_spare(pool);
    pool.copy(cell, &copy);
    flip_front(pool.write(&copy), bytes, bit);
    let heard = hear_bytes(files, turn, arrival, &pool.read(&copy)[..bytes], node);
    give_back(pool, copy);
    heard
}

// What a node answers to what comes to it of the frame that stands in a cell.
pub fn answer(
    files: &RunInputs,
    turn: &Turn,
    coming: &Coming<'_>,
    pool: &mut Pool,
    cell: &Cell,
    bytes: usize,
    reception: &Reception,
    node: &mut Node,
) -> Heard
    requires hears { CanHear files.now turn.now node.old }
    requires coming { IsComing coming.now }
    requires stands { StandsInCell pool.old cell.now bytes }
    requires reception { IsMadeOf files.now turn.now (frame_at pool.old cell.now bytes) reception.now }
    ensures answered { HasAnswered files.now turn.now
        (coming_offer turn.now (frame_at pool.old cell.now bytes) coming.now) node.old node.new result }
    ensures stays { Stays pool.old pool.new }
{
    let arrival = coming.arrival;
    match coming.bytes {
        Bytes::Frame => hear_frame(files, turn, arrival, reception, node),
        Bytes::Flipped(bit) => hear_flipped(files, turn, arrival, pool, cell, bytes, bit, node),
        Bytes::Said(said) => hear_copy(files, turn, arrival, said, pool, node),
    }
}
