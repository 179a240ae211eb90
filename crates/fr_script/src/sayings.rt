ghost use Rattle.std.specs.Prelude.{◌≡◌, ◌<◌, ◌≤◌, ◌^◌, ◌++◌, ◌∷◌, [], None, length, IsSome, IsTrue, OnErr, OnOk};
ghost use Rattle.std.specs.Option.{option_copied};
ghost use Rattle.fr_script.specs.Deeds.{IsNextCycle, deed_in, passage_of};
ghost use Rattle.fr_script.specs.Sayings.{is_before, is_later, AreAfter, AreBefore, AreInTurn};

use crate::deed::Deed;
use crate::deeds::Passage;
use fr_base::NodeId;
use std::alloc::{AllocError, Global};
use std::marker::Model;

/// Deeds in the order of cycle, then of sender, then of receiver. Each is put behind all others, so that those of one
/// cycle lie together, as a run goes from cycle to cycle.
pub(crate) struct Sayings {
    rows: Vec<(Passage, Deed)>,
    // For each cycle up to the last, how many rows there were as it began. A search begins there; that it may is seen
    // from the rows themselves.
    starts: Vec<usize>,
}

impl Model for Sayings {
    ghost use Rattle.std.specs.Prelude.{List};
    ghost use Rattle.fr_script.specs.declared.deeds.Passage.{Passage};
    ghost use Rattle.fr_script.specs.declared.deed.Deed.{Deed};
    ghost use Rattle.fr_script.specs.Sayings.{AreInTurn};

    ghost Value = { List (Passage × Deed) };

    ghost view = { λ a. a.rows.items };

    ghost invariant = { λ a. AreInTurn a.rows.items };
}

// One call: a derived drop is opened in each function that drops a value, and proved there.
impl Drop for Sayings {
    fn drop(self) {
        let Sayings { rows: _, starts: _ } = self;
    }
}

impl Sayings {
    pub(crate) fn new(alloc: Global) -> Sayings
        ensures { result ≡ [] }
    {
        Sayings {
            rows: Vec::new(alloc),
            starts: Vec::new(alloc),
        }
    }

    pub(crate) fn get(&self, passage: &Passage) -> Option<&Deed>
        ensures { option_copied result ≡ deed_in self.now passage.now }
    {
        let (low, high) = bounds(self.rows.as_slice(), self.starts.as_slice(), passage);
        search(self.rows.as_slice(), passage, low, high)
    }

    // The first cycle from `cycle` on, before `end`, in which a pair of nodes has a deed, or `end`. The rows of these
    // cycles are looked through.
    pub(crate) fn next(&self, sender: NodeId, receiver: NodeId, cycle: u32, end: u32) -> u32
        requires { cycle ≤ end }
        ensures { IsNextCycle (λ c. deed_in self.now (passage_of sender receiver c) ≡ None)
            (λ c. IsSome (deed_in self.now (passage_of sender receiver c))) cycle end result }
    {
        let rows = self.rows.as_slice();
        let first = Passage {
            sender,
            cycle,
            receiver,
        };
        let (low, _) = bounds(rows, self.starts.as_slice(), &first);
        next_from(rows, low, &first, end)
    }

    // Whether a passage comes after all that are there.
    pub(crate) fn is_behind(&self, passage: &Passage) -> bool
        ensures { IsTrue result → AreBefore self.now (length self.now) passage.now }
    {
        is_behind(self.rows.as_slice(), passage)
    }

    // Puts a deed behind all others.
    pub(crate) fn push(&mut self, passage: Passage, deed: Deed) -> Result<(), AllocError>
        requires { AreBefore self.old (length self.old) passage }
        ensures there { OnOk result (self.new ≡ self.old ++ (passage, deed) ∷ []) }
        ensures kept { OnErr result (self.new ≡ self.old) }
    {
        start(&mut self.starts, passage.cycle as usize, self.rows.len())?;
        self.rows.push((passage, deed))?;
        Ok(())
    }
}

// Notes for each cycle up to one that has no note how many rows there are.
fn start(starts: &mut Vec<usize>, cycle: usize, count: usize) -> Result<(), AllocError>
    requires { cycle < 2 ^ 32 }
{
    while starts.len() <= cycle {
        starts.push(count)?;
    }
    Ok(())
}

fn is_before(a: &Passage, b: &Passage) -> bool
    ensures { result ≡ is_before a.now b.now }
{
    a.cycle < b.cycle
        || (a.cycle == b.cycle
            && (a.sender.0 < b.sender.0 || (a.sender == b.sender && a.receiver.0 < b.receiver.0)))
}

fn is_behind(rows: &[(Passage, Deed)], passage: &Passage) -> bool
    requires { AreInTurn rows.now }
    ensures { IsTrue result → AreBefore rows.now (length rows.now) passage.now }
{
    let count = rows.len();
    count == 0 || is_before(&rows[count - 1].0, passage)
}

// Between which places a passage stands, if it does.
fn bounds(rows: &[(Passage, Deed)], starts: &[usize], passage: &Passage) -> (usize, usize)
    requires { AreInTurn rows.now }
    ensures before { AreBefore rows.now result.0 passage.now }
    ensures after { AreAfter rows.now result.1 passage.now }
    ensures within { result.1 ≤ length rows.now }
{
    let cycle = passage.cycle as usize;
    (
        low_of(rows, noted(starts, cycle, rows.len()), passage),
        high_of(rows, noted(starts, cycle + 1, rows.len()), passage),
    )
}

// What is noted of a cycle, or how many rows there are.
fn noted(starts: &[usize], cycle: usize, count: usize) -> usize {
    if cycle < starts.len() {
        starts[cycle]
    } else {
        count
    }
}

// A place before which all rows come before a passage: this one where that is seen, or else the first.
fn low_of(rows: &[(Passage, Deed)], place: usize, passage: &Passage) -> usize
    requires { AreInTurn rows.now }
    ensures { AreBefore rows.now result passage.now }
{
    if 0 < place && place <= rows.len() && is_before(&rows[place - 1].0, passage) {
        place
    } else {
        0
    }
}

// And one from which on all come after it: this one where that is seen, or else the end.
fn high_of(rows: &[(Passage, Deed)], place: usize, passage: &Passage) -> usize
    requires { AreInTurn rows.now }
    ensures after { AreAfter rows.now result passage.now }
    ensures within { result ≤ length rows.now }
{
    if place < rows.len() && is_before(passage, &rows[place].0) {
        place
    } else {
        rows.len()
    }
}

// The deed of a passage that stands between two places, if it does.
fn search<'a>(
    rows: &'a [(Passage, Deed)],
    passage: &Passage,
    mut low: usize,
    mut high: usize,
) -> Option<&'a Deed>
    requires turn { AreInTurn rows.now }
    requires before { AreBefore rows.now low passage.now }
    requires after { AreAfter rows.now high passage.now }
    requires within { high ≤ length rows.now }
    ensures { option_copied result ≡ deed_in rows.now passage.now }
{
    while low < high {
        let middle = low + (high - low) / 2;
        let (found, deed) = &rows[middle];
        if is_before(found, passage) {
            low = middle + 1;
        } else if is_before(passage, found) {
            high = middle;
        } else {
            return Some(deed);
        }
    }
    None
}

// The cycle of the first row from a place on that is of the pair of a passage, not before its cycle and before `end`;
// or `end`.
fn next_from(rows: &[(Passage, Deed)], mut place: usize, first: &Passage, end: u32) -> u32
    requires turn { AreInTurn rows.now }
    requires before { AreBefore rows.now place first.now }
    requires forward { first.now.cycle ≤ end }
    ensures { IsNextCycle (λ c. deed_in rows.now (passage_of first.now.sender first.now.receiver c) ≡ None)
        (λ c. IsSome (deed_in rows.now (passage_of first.now.sender first.now.receiver c))) first.now.cycle end result }
{
    while place < rows.len() {
        let passage = &rows[place].0;
        if end <= passage.cycle {
            return end;
        }
        if is_later(first, passage) {
            return passage.cycle;
        }
        place += 1;
    }
    end
}

// Whether a passage is of the pair of another, and not before its cycle.
fn is_later(first: &Passage, passage: &Passage) -> bool
    ensures { result ≡ is_later first.now passage.now }
{
    first.sender == passage.sender
        && first.receiver == passage.receiver
        && first.cycle <= passage.cycle
}
