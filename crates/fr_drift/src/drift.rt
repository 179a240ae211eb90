ghost use Rattle.std.specs.Prelude.{◌≡◌, ◌≤◌, ◌<◌, ◌≤ℤ◌, ℕ, pos, negsuc, Some, None, IsSome, IfSome};
ghost use Rattle.std.specs.BTreeMap.{get};
ghost use Rattle.fr_cluster.specs.Values.{Values};
ghost use Rattle.fr_cluster.specs.Sane.{IsSane};
ghost use Rattle.fr_drift.specs.Keys.{delay_cmp, delay_key};
ghost use Rattle.fr_drift.specs.View.{compensation_on, delay_rows, length_rows, start_rows};
ghost use Rattle.fr_drift.specs.declared.keys.DelayKey.{DelayKey as Key};
ghost use Rattle.fr_drift.specs.Held.{IsNextChange, held};
ghost use Rattle.fr_drift.specs.Rows.{most_link_delay, IsProperDelay, IsMicrotickLength, IsProperStart};
ghost use Rattle.fr_drift.specs.Questions.{delay_of, doubles_of, length_of, rate_of, start_of};
ghost use Rattle.fr_drift.specs.Draft.{AreDelaysOn};
ghost use Rattle.fr_drift.specs.Files.{DriftFits, IsRateWithin};

use crate::keys::{DelayKey, LengthKey};
use crate::rows::Start;
use crate::spans::{held_delay, held_length, next_delay_row, next_length_row};
use fr_base::{Channel, NodeId};
use fr_cluster::Params;
use std::collections::BTreeMap;
use std::marker::Model;

// The nominal length of a microtick, in ticks.
const NOMINAL: i64 = 1_000_000;

/// What a drift file says of a cluster: how many double cycles a run has, where each node's clock starts,
/// how long its microticks are in each cycle, and how long frames travel.
///
/// It keeps the delay compensation of each channel of the parameters against which it was read.
pub struct Drift {
    pub(crate) doubles: u32,
    pub(crate) compensation_a: i64,
    pub(crate) compensation_b: i64,
    pub(crate) starts: BTreeMap<NodeId, Start>,
    pub(crate) lengths: BTreeMap<LengthKey, i64>,
    pub(crate) delays_a: BTreeMap<DelayKey, i64>,
    pub(crate) delays_b: BTreeMap<DelayKey, i64>,
}

impl Model for Drift {
    ghost use Rattle.fr_drift.specs.View.{DriftView, coded_view};

    ghost Value = { DriftView };

    ghost coded = { coded_view };

    ghost use Rattle.fr_drift.specs.Inside.{view_of};
    ghost use Rattle.fr_drift.specs.Sane.{IsDrift};

    ghost view = { view_of };

    ghost invariant = { λ a. IsDrift (view_of a) };
}

// One call: a derived drop is opened in each function that drops a value, and proved there.
impl Drop for Drift {
    fn drop(self) {
        let Drift {
            doubles: _,
            compensation_a: _,
            compensation_b: _,
            starts: _,
            lengths: _,
            delays_a: _,
            delays_b: _,
        } = self;
    }
}

impl Drift {
    /// How many double cycles a run has.
    #[tactic(auto, unfolding(crate::specs::Questions::doubles_of))]
    pub fn doubles(&self) -> u32
        ensures value { result ≡ doubles_of self.now }
        ensures from { 1 ≤ result }
        ensures to { result ≤ 100_000 }
    {
        self.doubles
    }

    /// The tick at which a node's first cycle starts: that of its row, 0 where it has none.
    #[tactic(auto, unfolding(crate::specs::Questions::start_of))]
    pub fn start(&self, node: NodeId) -> i64
        ensures value { result ≡ start_of self.now node }
        ensures from { pos 0 ≤ℤ result }
        ensures to { result ≤ℤ pos 1_000_000_000_000 }
    {
        match self.start_row(node) {
            Some(start) => start.ticks,
            None => 0,
        }
    }

    /// A node's first rate term in microticks: that of its row, 0 where it has none. It lies within the
    /// limit of rate terms of the parameters that the drift fits.
    #[tactic(auto, unfolding(crate::specs::Questions::rate_of))]
    pub fn rate(&self, node: NodeId) -> i32
        ensures value { result ≡ rate_of self.now node }
        ensures from { negsuc 1999 ≤ℤ result }
        ensures to { result ≤ℤ pos 2000 }
        ensures limited { (p : Values) → IsSane p → DriftFits p self.now → IsRateWithin p result }
    {
        match self.start_row(node) {
            Some(start) => start.rate,
            None => 0,
        }
    }

    /// How many ticks a microtick of a node lasts in a cycle: as its last row at that cycle or before it
    /// says, a million where there is none. It takes time as the logarithm of the number of rows.
    #[tactic(auto, unfolding(crate::specs::Questions::length_of))]
    pub fn length(&self, node: NodeId, cycle: u32) -> i64
        ensures value { result ≡ length_of self.now node cycle }
        ensures from { pos 500_000 ≤ℤ result }
        ensures to { result ≤ℤ pos 1_500_000 }
    {
        match self.length_row(node, cycle) {
            Some(ticks) => ticks,
            None => NOMINAL,
        }
    }

    /// From a cycle below `end`, the next cycle up to which the node's length does not change: that of its
    /// next row, `end` where there is none before it.
    pub fn next_length(&self, node: NodeId, cycle: u32, end: u32) -> u32
        requires { cycle < end }
        ensures { IsNextChange (length_rows self.now node) (length_of self.now node) cycle end result }
    {
        next_length_row(&self.lengths, node, cycle, end)
    }

    /// How many ticks a frame travels from one node to another on a channel in a cycle: as the last row of
    /// that link at that cycle or before it says, the channel's compensation where there is none. It takes
    /// time as the logarithm of the number of rows.
    #[tactic(auto, unfolding(crate::specs::Questions::delay_of))]
    pub fn delay(&self, sender: NodeId, receiver: NodeId, channel: Channel, cycle: u32) -> i64
        ensures value { result ≡ delay_of self.now sender receiver channel cycle }
        ensures from { pos 0 ≤ℤ result }
        ensures to { result ≤ℤ pos most_link_delay }
    {
        match self.delay_row(sender, receiver, channel, cycle) {
            Some(ticks) => ticks,
            None => self.compensation(channel) * NOMINAL,
        }
    }

    /// From a cycle below `end`, the next cycle up to which the link's delay does not change: that of its
    /// next row, `end` where there is none before it.
    pub fn next_delay(
        &self,
        sender: NodeId,
        receiver: NodeId,
        channel: Channel,
        cycle: u32,
        end: u32,
    ) -> u32
        requires { cycle < end }
        ensures { IsNextChange
            (delay_rows self.now sender receiver channel)
            (delay_of self.now sender receiver channel)
            cycle end result }
    {
        next_delay_row(self.delays(channel), sender, receiver, cycle, end)
    }

    fn start_row(&self, node: NodeId) -> Option<Start>
        ensures told { result ≡ start_rows self.now node }
        ensures proper { IfSome result IsProperStart }
    {
        match self.starts.get(&node) {
            Some(start) => Some(*start),
            None => None,
        }
    }

    fn length_row(&self, node: NodeId, cycle: u32) -> Option<i64>
        ensures told { result ≡ held (length_rows self.now node) cycle }
        ensures proper { IfSome result IsMicrotickLength }
    {
        held_length(&self.lengths, node, cycle)
    }

    fn delay_row(
        &self,
        sender: NodeId,
        receiver: NodeId,
        channel: Channel,
        cycle: u32,
    ) -> Option<i64>
        ensures told { result ≡ held (delay_rows self.now sender receiver channel) cycle }
        ensures proper { IfSome result IsProperDelay }
    {
        held_delay(self.delays(channel), sender, receiver, cycle)
    }

    fn compensation(&self, channel: Channel) -> i64
        ensures value { result ≡ compensation_on self.now channel }
        ensures from { pos 0 ≤ℤ result }
        ensures to { result ≤ℤ pos 200 }
    {
        match channel {
            Channel::A => self.compensation_a,
            Channel::B => self.compensation_b,
        }
    }

    fn delays(&self, channel: Channel) -> &BTreeMap<DelayKey, i64>
        ensures { AreDelaysOn self.now channel result.now }
    {
        match channel {
            Channel::A => &self.delays_a,
            Channel::B => &self.delays_b,
        }
    }
}
