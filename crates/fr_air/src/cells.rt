ghost use Rattle.std.specs.Prelude.{◌≡◌, ◌+◌, ◌≤◌, ◌++◌, drop, length, Some};
ghost use Rattle.fr_pool.specs.Pool.{given_back, HasFree, IsOut, Takes};
ghost use Rattle.fr_reception.specs.Regular.{payload_bytes};
ghost use Rattle.fr_time.specs.Senders.{sender_of};
ghost use Rattle.fr_air.specs.Turns.{frame_of_turn};

use crate::files::RunInputs;
use crate::turn::Turn;
use fr_node::frame_of;
use fr_pool::{Cell, Pool};
use fr_time::Sending;

// Takes a cell of a pool that has one.
pub fn take_spare(pool: &mut Pool) -> Cell
    requires { HasFree pool.old }
    ensures { Takes pool.old result pool.new }
{
    match pool.take() {
        Some(cell) => cell,
        None => unreachable!(),
    }
}

// Gives a cell back to its pool.
pub fn give_back(pool: &mut Pool, copy: Cell)
    requires { IsOut pool.old copy }
    ensures { pool.new ≡ given_back copy pool.old }
{
    pool.give(copy);
}

// Writes bytes at the front of others.
pub fn put_front(out: &mut [u8], bytes: &[u8])
    requires { length bytes.now ≤ length out.old }
    ensures { out.new ≡ bytes.now ++ drop (length bytes.now) out.old }
{
    out[..bytes.len()].copy_from_slice(bytes);
}

// Writes the frame of a turn at the front of the bytes of a cell, and answers how many bytes it has.
pub fn write_frame(files: &RunInputs, turn: &Turn, sending: &Sending, out: &mut [u8]) -> usize
    requires sends { sender_of files.now.params turn.now.slot turn.now.cycle ≡ Some sending.now }
    requires room { 8 + payload_bytes files.now.params ≤ length out.old }
    ensures count { result ≡ 8 + payload_bytes files.now.params }
    ensures written { out.new ≡ frame_of_turn files.now turn.now sending.now ++ drop result out.old }
{
    frame_of(
        &files.params,
        sending,
        turn.slot,
        turn.cycle,
        turn.channel,
        out,
    )
}
