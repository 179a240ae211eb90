ghost use Rattle.std.specs.Prelude.{◌≡◌, ◌<◌, ◌≤◌, ◌⊎◌, ℕ, Some, None, false, IsSome};
ghost use Rattle.std.specs.Option.{option_copied};
ghost use Rattle.fr_base.specs.declared.channel.Channel.{Channel as Line};
ghost use Rattle.fr_base.specs.declared.channel.Channel.TheVariants as line;
ghost use Rattle.fr_script.specs.View.{IsNextAct, IsScript, deed_of, deeds_on, is_arbitrary, join_of};
ghost use Rattle.fr_script.specs.Deeds.{HasNoDeed};
ghost use Rattle.fr_script.specs.Deed.{done_by, event_of_deed};
ghost use Rattle.fr_script.specs.Events.{IsProperEvent, event_by, event_of, event_seen};

use crate::deed::{Deed, done, said};
use crate::deeds::{DeedTable, Passage};
use fr_base::{Channel, NodeId};
use fr_cluster::Join;
use std::marker::Model;

/// What becomes of a frame between a sender and a receiver.
#[derive(Clone, Copy, Debug, Drop)]
pub enum Event<'a> {
    /// The regular frame comes.
    Regular,
    /// Nothing comes.
    Silent,
    /// The regular frame comes with one bit inverted, counted from 0, the first bit sent.
    Flip(u32),
    /// The sender says a frame, so many ticks later than expected: of these bytes, or else the regular one
    /// of its key slot.
    Say { shift: i64, bytes: Option<&'a [u8]> },
}

/// The faults of a run and the nodes that join it, as an accepted script says them.
pub struct Script {
    pub(crate) arbitrary: [bool; 65],
    pub(crate) joins: [Option<Join>; 65],
    pub(crate) on_a: DeedTable,
    pub(crate) on_b: DeedTable,
}

impl Model for Script {
    ghost use Rattle.fr_script.specs.View.{ScriptView, IsScript};

    ghost Value = { ScriptView };

    ghost use Rattle.fr_script.specs.Fields.{seen_of};

    ghost view = { seen_of };

    ghost invariant = { λ a. IsScript (seen_of a) };
}

// One call: a derived drop is opened in each function that drops a value, and proved there.
impl Drop for Script {
    fn drop(self) {
        let Script {
            arbitrary: _,
            joins: _,
            on_a: _,
            on_b: _,
        } = self;
    }
}

impl Script {
    // The script of these nodes, arbitrary and joining ones, by their number, and of the deeds of both channels.
    pub(crate) fn of(
        arbitrary: [bool; 65],
        joins: [Option<Join>; 65],
        on_a: DeedTable,
        on_b: DeedTable,
    ) -> Script
        requires { IsScript (record { arbitrary = arbitrary; joins = joins; on_a = on_a; on_b = on_b }) }
        ensures { result ≡ record { arbitrary = arbitrary; joins = joins; on_a = on_a; on_b = on_b } }
    {
        Script {
            arbitrary,
            joins,
            on_a,
            on_b,
        }
    }

    /// Whether the script names the node arbitrary.
    #[tactic(auto, unfolding(crate::specs::View::is_arbitrary))]
    pub fn arbitrary(&self, node: NodeId) -> bool
        ensures value { result ≡ is_arbitrary self.now node }
        ensures sane { IsScript self.now }
    {
        self.arbitrary[usize::from(node.0)]
    }

    /// How the node joins the running cluster, as a `join` row says; `None` exactly where none names it.
    #[tactic(auto, unfolding(crate::specs::View::join_of))]
    pub fn join(&self, node: NodeId) -> Option<Join>
        ensures { result ≡ join_of self.now node }
    {
        self.joins[usize::from(node.0)]
    }

    /// What becomes of each frame of a sender at a receiver, in a cycle on a channel. Of a correct sender: nothing
    /// comes where a `lose` row says so, one bit is inverted where a `flip` row does, otherwise it is regular. Of an
    /// arbitrary one: what a `say` row says, otherwise nothing.
    #[inline(always)]
    #[tactic(auto, unfolding(crate::specs::Events::event_of))]
    pub fn at(&self, cycle: u32, sender: NodeId, receiver: NodeId, channel: Channel) -> Event<'_>
        ensures value { event_seen result ≡ event_of self.now cycle sender receiver channel }
        ensures proper { IsProperEvent (event_of self.now cycle sender receiver channel) }
    {
        if self.may_have_deed(sender, channel) {
            self.by_deed(cycle, sender, receiver, channel)
        } else {
            self.without_deed(sender)
        }
    }

    // The same, by the deed of the passage.
    #[inline(never)]
    #[tactic(auto, unfolding(crate::specs::Events::event_of))]
    fn by_deed(&self, cycle: u32, sender: NodeId, receiver: NodeId, channel: Channel) -> Event<'_>
        ensures value { event_seen result ≡ event_of self.now cycle sender receiver channel }
        ensures proper { IsProperEvent (event_of self.now cycle sender receiver channel) }
    {
        let deed = self.deed(cycle, sender, receiver, channel);
        if self.arbitrary(sender) {
            said(deed)
        } else {
            done(deed)
        }
    }

    // What becomes of a frame of a sender without a deed.
    fn without_deed(&self, sender: NodeId) -> Event<'_>
        ensures value { event_seen result ≡ event_by (is_arbitrary self.now sender) None }
        ensures sane { IsScript self.now }
    {
        if self.arbitrary(sender) {
            Event::Silent
        } else {
            Event::Regular
        }
    }

    /// The first cycle from `cycle` on, before `end`, in which the script does anything to the frames of a sender
    /// at a receiver, or `end`.
    #[tactic(auto, unfolding(crate::specs::View::deed_of))]
    pub fn next_deed(&self, sender: NodeId, receiver: NodeId, cycle: u32, end: u32) -> u32
        requires { cycle ≤ end }
        ensures { IsNextAct self.now sender receiver cycle end result }
    {
        let on_a = self.on_a.next(sender, receiver, cycle, end);
        let on_b = self.on_b.next(sender, receiver, cycle, end);
        on_a.min(on_b)
    }

    // Whether a sender may have a deed on a channel.
    fn may_have_deed(&self, sender: NodeId, channel: Channel) -> bool
        ensures { result ≡ false → HasNoDeed (deeds_on self.now channel) sender }
    {
        match channel {
            Channel::A => self.on_a.may_have(sender),
            Channel::B => self.on_b.may_have(sender),
        }
    }

    #[tactic(auto, unfolding(crate::specs::View::deed_of))]
    fn deed(&self, cycle: u32, sender: NodeId, receiver: NodeId, channel: Channel) -> Option<&Deed>
        ensures { option_copied result ≡ deed_of self.now cycle sender receiver channel }
    {
        let passage = Passage {
            sender,
            receiver,
            cycle,
        };
        match channel {
            Channel::A => self.on_a.get(&passage),
            Channel::B => self.on_b.get(&passage),
        }
    }
}
