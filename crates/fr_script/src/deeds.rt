ghost use Rattle.std.specs.Prelude.{◌≡◌, ◌≤◌, ◌<◌, ◌&&◌, ◌||◌, [], None, false, true, is_none, is_some, not, slice_index_or, IfOk, IsSome, OnErr, OnOk};
ghost use Rattle.std.specs.Option.{option_copied};
ghost use Rattle.fr_script.specs.Deeds.{DeedsAscend, HasNoDeed, IsDeedPut, IsNextCycle, IsQuiet, MarksSenders, deed_in, passage_of};

use crate::deed::{Deed, is_saying};
use crate::sayings::Sayings;
use fr_base::NodeId;
use std::alloc::{AllocError, Global};
use std::collections::BTreeMap;
use std::marker::Model;

/// The passage of a sender's frames to a receiver in a cycle. The map of a table holds passages in the order of these
/// fields, by sender, cycle and receiver: so what becomes of one sender's frames in one cycle, at each receiver, lies
/// together.
#[derive(Clone, Copy, Debug, PartialEq, Eq, PartialOrd, Ord)]
pub struct Passage {
    pub sender: NodeId,
    pub cycle: u32,
    pub receiver: NodeId,
}

/// The deeds of one channel by their passage, seen as a list in ascending order: by sender, then by receiver, then by
/// cycle.
pub struct DeedTable {
    // What arbitrary nodes say, by cycle, sender and receiver, as far as it comes in this order.
    said: Sayings,
    // All other deeds, by sender, cycle and receiver.
    rows: BTreeMap<Passage, Deed>,
    // Whether a sender, by its number, has a deed in either: most have none, and are not looked up.
    sayers: [bool; 65],
    senders: [bool; 65],
}

impl Model for DeedTable {
    ghost use Rattle.std.specs.Prelude.{List, ◌++◌};
    ghost use Rattle.fr_script.specs.declared.deeds.Passage.{Passage};
    ghost use Rattle.fr_script.specs.declared.deed.Deed.{Deed};
    ghost use Rattle.fr_script.specs.Deeds.{MarksSenders, in_order};

    ghost Value = { List (Passage × Deed) };

    ghost view = { λ a. in_order (a.rows.entries ++ a.said) };

    ghost invariant = { λ a. MarksSenders a.senders a.rows.entries × MarksSenders a.sayers a.said };
}

// One call: a derived drop is opened in each function that drops a value, and proved there.
impl Drop for DeedTable {
    fn drop(self) {
        let DeedTable {
            said: _,
            rows: _,
            sayers: _,
            senders: _,
        } = self;
    }
}

// The place of a sender's mark.
fn place(sender: NodeId) -> usize
    ensures value { result ≡ sender }
    ensures low { result ≤ 64 }
{
    usize::from(sender.0)
}

impl DeedTable {
    pub(crate) fn new(alloc: Global) -> DeedTable
        ensures { result ≡ [] }
    {
        DeedTable {
            said: Sayings::new(alloc),
            rows: BTreeMap::new(alloc),
            sayers: [false; 65],
            senders: [false; 65],
        }
    }

    pub(crate) fn get(&self, passage: &Passage) -> Option<&Deed>
        ensures { option_copied result ≡ deed_in self.now passage.now }
    {
        match row_at(&self.senders, &self.rows, passage) {
            Some(deed) => Some(deed),
            None => saying_at(&self.sayers, &self.said, passage),
        }
    }

    // Whether a sender may have a deed.
    pub(crate) fn may_have(&self, sender: NodeId) -> bool
        ensures { result ≡ false → HasNoDeed self.now sender }
    {
        either_of(
            is_marked(&self.senders, sender),
            is_marked(&self.sayers, sender),
        )
    }

    // Puts a deed under its passage in one search, and tells whether the passage was free.
    pub(crate) fn put(&mut self, passage: Passage, deed: Deed) -> Result<bool, AllocError>
        ensures there { OnOk result (IsDeedPut self.old self.new passage deed) }
        ensures ordered { OnOk result (DeedsAscend self.old → DeedsAscend self.new) }
        ensures free { IfOk result (λ free. free ≡ is_none (deed_in self.old passage)) }
        ensures kept { OnErr result (self.new ≡ self.old) }
    {
        let place = place(passage.sender);
        if is_saying(&deed) && !self.senders[place] && self.said.is_behind(&passage) {
            self.sayers[place] = true;
            self.said.push(passage, deed)?;
            return Ok(true);
        }
        let said = has_saying(&self.sayers, &self.said, &passage);
        self.senders[place] = true;
        let free = self.rows.insert(passage, deed)?.is_none();
        Ok(is_free(free, said))
    }

    // The first cycle from `cycle` on, before `end`, in which a pair of nodes has a deed, or `end`.
    pub(crate) fn next(&self, sender: NodeId, receiver: NodeId, cycle: u32, end: u32) -> u32
        requires { cycle ≤ end }
        ensures from { cycle ≤ result }
        ensures to { result ≤ end }
        ensures quiet { IsQuiet self.now sender receiver cycle result }
        ensures stands { result < end → IsSome (deed_in self.now (passage_of sender receiver result)) }
    {
        let said = next_said(&self.sayers, &self.said, sender, receiver, cycle, end);
        next_in(&self.rows, sender, receiver, cycle, said)
    }
}

// Whether a sender is marked.
fn is_marked(marks: &[bool; 65], sender: NodeId) -> bool
    ensures { result ≡ slice_index_or marks.now sender true }
{
    marks[place(sender)]
}

fn either_of(first: bool, second: bool) -> bool
    ensures { result ≡ (first || second) }
{
    first || second
}

// The deed of a passage in a map, where these are the senders that have one there.
fn row_at<'a>(
    senders: &[bool; 65],
    rows: &'a BTreeMap<Passage, Deed>,
    passage: &Passage,
) -> Option<&'a Deed>
    requires { MarksSenders senders.now rows.now.entries }
    ensures { option_copied result ≡ deed_in rows.now.entries passage.now }
{
    if senders[place(passage.sender)] {
        rows.get(passage)
    } else {
        None
    }
}

// And among those that came in the order of cycle, sender and receiver.
fn saying_at<'a>(sayers: &[bool; 65], said: &'a Sayings, passage: &Passage) -> Option<&'a Deed>
    requires { MarksSenders sayers.now said.now }
    ensures { option_copied result ≡ deed_in said.now passage.now }
{
    if sayers[place(passage.sender)] {
        said.get(passage)
    } else {
        None
    }
}

fn has_saying(sayers: &[bool; 65], said: &Sayings, passage: &Passage) -> bool
    requires { MarksSenders sayers.now said.now }
    ensures { result ≡ is_some (deed_in said.now passage.now) }
{
    saying_at(sayers, said, passage).is_some()
}

// Whether a passage is free, by whether it is so in the map and whether it is said.
fn is_free(free: bool, said: bool) -> bool
    ensures { result ≡ (free && not said) }
{
    free && !said
}

// The first cycle of a pair among those, from `cycle` on and before `end`, or `end`.
fn next_said(
    sayers: &[bool; 65],
    said: &Sayings,
    sender: NodeId,
    receiver: NodeId,
    cycle: u32,
    end: u32,
) -> u32
    requires marks { MarksSenders sayers.now said.now }
    requires forward { cycle ≤ end }
    ensures { IsNextCycle (λ c. deed_in said.now (passage_of sender receiver c) ≡ None)
        (λ c. IsSome (deed_in said.now (passage_of sender receiver c))) cycle end result }
{
    if sayers[place(sender)] {
        said.next(sender, receiver, cycle, end)
    } else {
        end
    }
}

// The same in a map: the entries of the sender from `cycle` on are looked through.
fn next_in(
    rows: &BTreeMap<Passage, Deed>,
    sender: NodeId,
    receiver: NodeId,
    cycle: u32,
    end: u32,
) -> u32
    requires { cycle ≤ end }
    ensures { IsNextCycle (λ c. deed_in rows.now.entries (passage_of sender receiver c) ≡ None)
        (λ c. IsSome (deed_in rows.now.entries (passage_of sender receiver c))) cycle end result }
{
    let first = Passage {
        sender,
        cycle,
        receiver,
    };
    let after = Passage {
        sender,
        cycle: end,
        receiver,
    };
    for (passage, _) in rows.range(first..after) {
        if passage.receiver == receiver {
            return passage.cycle;
        }
    }
    end
}
