ghost use Rattle.std.specs.Prelude.{◌≡◌, ℕ, ◌+◌, ◌*◌, ◌<◌, ◌≤◌, ◌++◌, ◌∷◌, List, [], length, slice_index_or, None, option_copied, vec_capacity, IfOk, IfSome, Some};
ghost use Rattle.fr_base.specs.Counts.{AreAtMost};
ghost use Rattle.fr_pool.specs.Pool.{IsFree, IsOut};
ghost use Rattle.fr_reception.specs.Regular.{payload_bytes};
ghost use Rattle.fr_time.specs.Senders.{sender_of};
ghost use Rattle.fr_air.specs.Cells.{number_at, HaveCells, IsClaimed, IsMemory, IsThere};
ghost use Rattle.fr_air.specs.declared.memory.Message.{Message};
ghost use Rattle.fr_air.specs.Counting.{counted_sent};
ghost use Rattle.fr_air.specs.Listening.{after_frame};
ghost use Rattle.fr_air.specs.Memory.{cell_of, frame_in_cell, frame_on, held_at, IsPoolOf, memory_with, place_of_slot, sent_at, with_frame};
ghost use Rattle.fr_air.specs.Sending.{coming_offer, IsComing};
ghost use Rattle.fr_air.specs.Turns.{most_adding, frame_of_turn, CanHear, HasAnswered, IsOnAir, SendsInTurn};
ghost use Rattle.fr_node.specs.Listening.{IsArrival};

use crate::catching::catch_copy;
use crate::cells::{take_spare, write_frame};
use crate::fault::BuildFault;
use crate::files::{RunInputs, sane};
use crate::hearing::answer;
use crate::tally::count_sent;
use crate::turn::{Air, Coming, Turn};
use fr_base::{Channel, Counts, Slot};
use fr_cluster::{ParamName, Params};
use fr_node::{Heard, Listener, Node};
use fr_pool::{Cell, Pool};
use fr_time::Sending;
use std::alloc::Global;
use std::marker::Model;

// A cell, and the number of the slot and channel whose frame stands in it.
pub struct Message {
    pub place: usize,
    pub cell: Cell,
}

// The message memory of a world: what correct nodes sent last in each slot on each channel, each in a cell of its own.
pub struct Memory {
    pool: Pool,
    // The cells that are kept, in the order of their numbers.
    messages: Vec<Message>,
    // For each slot and channel the number of its cell.
    places: Vec<Option<usize>>,
    // How many bytes a frame has.
    bytes: usize,
    // The cell in which a frame stands while it is being said.
    said: Option<Cell>,
}

impl Model for Memory {
    ghost use Rattle.std.specs.Prelude.{◌≤◌, length, map, vec_capacity};
    ghost use Rattle.fr_air.specs.Cells.{held_of, bytes_said, IsMemory};
    ghost use Rattle.fr_air.specs.Memory.{MemoryView};

    ghost Value = { MemoryView };

    ghost view = { λ m. record { places = length m.places.items; bytes = m.bytes; held = map (held_of m.bytes m.pool) m.messages.items; said = bytes_said m.bytes m.pool m.said } };

    ghost invariant = { λ m. IsMemory m.pool m.messages.items m.places.items (vec_capacity m.messages) m.said × (m.bytes ≤ 262) };
}

impl Drop for Memory {
    fn drop(self) {
        let Memory {
            pool,
            messages,
            places: _,
            bytes: _,
            said,
        } = self;
        let _pool = give_all(give_said(pool, said), messages);
    }
}

// Gives the cell of what is being said back to its pool.
fn give_said(mut pool: Pool, said: Option<Cell>) -> Pool
    requires { IfSome said (IsOut pool) }
    ensures { (messages : List Message) → HaveCells pool messages said → HaveCells result messages None }
{
    match said {
        None => pool,
        Some(cell) => {
            pool.give(cell);
            pool
        }
    }
}

// Gives the cells of all messages back to their pool.
fn give_all(mut pool: Pool, mut messages: Vec<Message>) -> Pool
    requires { HaveCells pool messages.items None }
    ensures { (cell : ℕ) → cell < length result.out → IsFree result cell }
{
    while let Some(message) = messages.pop() {
        let Message { place: _, cell } = message;
        pool.give(cell);
    }
    messages.destroy_empty();
    pool
}

// The number of a slot on a channel.
pub fn place_of_slot(slot: Slot, channel: Channel) -> usize
    ensures value { result ≡ place_of_slot slot channel }
    ensures below { result < 2 * slot }
{
    let place = 2 * (usize::from(slot.0) - 1);
    match channel {
        Channel::A => place,
        Channel::B => place + 1,
    }
}

// Takes a cell for a slot on a channel that has none.
fn take_for(
    pool: &mut Pool,
    messages: &mut Vec<Message>,
    places: &mut Vec<Option<usize>>,
    place: usize,
) -> usize
    requires memory { IsMemory pool.old messages.old.items places.old.items (vec_capacity messages.old) None }
    requires within { place < length places.old.items }
    requires none { slice_index_or places.old.items place None ≡ None }
    ensures cell { result ≡ length messages.old.items }
    ensures message { messages.new.items ≡ messages.old.items ++ record { place = place; cell = result } ∷ [] }
    ensures bytes { pool.new.bytes ≡ pool.old.bytes }
    ensures long { length places.new.items ≡ length places.old.items }
    ensures memory { IsMemory pool.new messages.new.items places.new.items (vec_capacity messages.new) None }
{
    let cell = take_spare(pool);
    let number = messages.len();
    messages.push_reserved(Message { place, cell });
    places[place] = Some(number);
    number
}

// The cell of a message, by its number, or that of what is being said.
fn cell_at<'a>(messages: &'a Vec<Message>, said: &'a Option<Cell>, cell: Option<usize>) -> &'a Cell
    requires { IsThere messages.now.items said.now cell }
    ensures { result.now ≡ number_at messages.now.items said.now cell }
{
    match cell {
        Some(number) => &messages[number].cell,
        None => match said {
            Some(cell) => cell,
            None => unreachable!(),
        },
    }
}

impl Memory {
    // A memory with no frame, for the static slots of a cluster on both channels.
    pub fn new(alloc: Global, params: &Params) -> Result<Memory, BuildFault>
        ensures { IfOk result (λ memory. memory ≡ memory_with params.now []) }
    {
        sane(params);
        let slots = params.natural(ParamName::gNumberOfStaticSlots) as usize;
        let words = params.natural(ParamName::gPayloadLengthStatic) as usize;
        let pool = Pool::new(alloc, 2 * slots as u32 + 2)?;
        let places = vec![in alloc; None; 2 * slots]?;
        let messages = Vec::with_capacity(alloc, 2 * slots)?;
        Ok(Memory {
            pool,
            messages,
            places,
            bytes: 8 + 2 * words,
            said: None,
        })
    }

    // The pool, in which the cells that are kept are out and no others, where nothing is being said.
    pub fn pool(&self) -> &Pool
        requires { self.now.said ≡ None }
        ensures { IsPoolOf self.now result.now }
    {
        &self.pool
    }

    // The cell of a slot on a channel; None exactly where none was taken.
    pub fn cell(&self, place: usize) -> Option<&Cell>
        ensures { option_copied result ≡ cell_of self.now.held place }
    {
        if place >= self.places.len() {
            return None;
        }
        match self.places[place] {
            Some(cell) => Some(&self.messages[cell].cell),
            None => None,
        }
    }

    // What was sent last in a slot on a channel; None exactly where nothing was.
    pub fn last(&self, place: usize) -> Option<&[u8]>
        ensures { option_copied result ≡ frame_in_cell self.now.held place }
    {
        if place >= self.places.len() {
            return None;
        }
        match self.places[place] {
            Some(cell) => Some(&self.pool.read(&self.messages[cell].cell)[..self.bytes]),
            None => None,
        }
    }

    // The cell of a slot on a channel, which is taken where it has none.
    fn claim(&mut self, place: usize) -> usize
        requires within { place < self.old.places }
        requires none { self.old.said ≡ None }
        ensures claimed { IsClaimed self.old.held self.new.held place result }
        ensures rest { self.new ≡ record self.old { held = self.new.held } }
    {
        match self.places[place] {
            Some(cell) => cell,
            None => take_for(&mut self.pool, &mut self.messages, &mut self.places, place),
        }
    }

    // Writes the frame of a turn straight into a cell.
    fn encode(&mut self, files: &RunInputs, turn: &Turn, sending: &Sending, cell: usize)
        requires sends { sender_of files.now.params turn.now.slot turn.now.cycle ≡ Some sending.now }
        requires kept { cell < length self.old.held }
        requires bytes { self.old.bytes ≡ 8 + payload_bytes files.now.params }
        ensures written { self.new
            ≡ record self.old { held = with_frame cell (frame_of_turn files.now turn.now sending.now) self.old.held } }
        ensures long { length (frame_of_turn files.now turn.now sending.now) ≡ self.old.bytes }
    {
        sane(&files.params);
        write_frame(
            files,
            turn,
            sending,
            self.pool.write(&self.messages[cell].cell),
        );
    }

    // Counts the frame that stands in a cell as sent.
    pub fn count(&self, turn: &Turn, cell: usize, counts: &mut Counts)
        requires kept { cell < length self.now.held }
        requires long { 3 ≤ length (held_at self.now.held cell).frame }
        requires few { AreAtMost most_adding counts.old }
        ensures { counts.new ≡ counted_sent turn.now.channel (held_at self.now.held cell).frame counts.old }
    {
        let frame = &self.pool.read(&self.messages[cell].cell)[..self.bytes];
        count_sent(counts, turn.channel, frame);
    }

    // Writes the frame of a turn straight into the cell of its slot on its channel, and answers the cell's number.
    pub fn keep(&mut self, files: &RunInputs, turn: &Turn, sending: &Sending) -> usize
        requires sending { SendsInTurn files.now turn.now sending.now }
        requires memory { self.old ≡ memory_with files.now.params self.old.held }
        ensures kept { self.new ≡ record self.old {
          held = sent_at (place_of_slot turn.now.slot turn.now.channel)
              (frame_of_turn files.now turn.now sending.now) self.old.held;
        } }
        ensures within { result < length self.new.held }
        ensures frame { (held_at self.new.held result).frame ≡ frame_of_turn files.now turn.now sending.now }
        ensures long { 8 ≤ length (frame_of_turn files.now turn.now sending.now) }
    {
        let cell = self.claim(place_of_slot(turn.slot, turn.channel));
        self.encode(files, turn, sending, cell);
        cell
    }

    // Writes the frame of a turn into a further cell, where it stands while it is being said.
    pub fn begin_saying(&mut self, files: &RunInputs, turn: &Turn, sending: &Sending)
        requires sends { sender_of files.now.params turn.now.slot turn.now.cycle ≡ Some sending.now }
        requires none { self.old.said ≡ None }
        requires bytes { self.old.bytes ≡ 8 + payload_bytes files.now.params }
        ensures { self.new ≡ record self.old { said = Some (frame_of_turn files.now turn.now sending.now) } }
    {
        sane(&files.params);
        let cell = take_spare(&mut self.pool);
        write_frame(files, turn, sending, self.pool.write(&cell));
        match self.said.replace(cell) {
            None => {}
            Some(former) => self.pool.give(former),
        }
    }

    // Gives the cell of what was said back.
    pub fn end_saying(&mut self)
        ensures { self.new ≡ record self.old { said = None } }
    {
        if let Some(cell) = self.said.take() {
            self.pool.give(cell);
        }
    }

    // What a node answers to what comes to it of a frame on the air.
    pub fn hear(
        &mut self,
        files: &RunInputs,
        air: &Air<'_>,
        coming: &Coming<'_>,
        node: &mut Node,
    ) -> Heard
        requires hears { CanHear files.now air.now.turn.now node.old }
        requires air { IsOnAir files.now air.now self.old }
        requires coming { IsComing coming.now }
        ensures answered { HasAnswered files.now air.now.turn.now
            (coming_offer air.now.turn.now (frame_on self.old air.now.cell) coming.now) node.old node.new result }
        ensures stays { self.new ≡ self.old }
    {
        // What is read says how many bytes there are.
        let _frame = self
            .pool
            .read(cell_at(&self.messages, &self.said, air.cell));
        answer(
            files,
            air.turn,
            coming,
            &mut self.pool,
            cell_at(&self.messages, &self.said, air.cell),
            self.bytes,
            air.reception,
            node,
        )
    }

    // A listener catches the frame of a turn, with a bit inverted if one is, at an instant.
    pub fn catch(
        &mut self,
        files: &RunInputs,
        turn: &Turn,
        sending: &Sending,
        arrival: i64,
        bit: Option<u32>,
        listener: &mut Listener,
    )
        requires sends { sender_of files.now.params turn.now.slot turn.now.cycle ≡ Some sending.now }
        requires arrival { IsArrival arrival }
        ensures caught { listener.new
            ≡ after_frame turn.now arrival bit (frame_of_turn files.now turn.now sending.now) listener.old }
        ensures stays { self.new ≡ self.old }
    {
        catch_copy(files, turn, sending, arrival, bit, &mut self.pool, listener);
    }
}
