ghost use Rattle.std.specs.Prelude.{◌≡◌, ◌≤◌, ◌<◌, ◌≤ℤ◌, pos, length, slice_set, All, IfOk, OnOk};
ghost use Rattle.fr_base.specs.Within.{IsBetween};
ghost use Rattle.fr_drift.specs.Questions.{delay_of};
ghost use Rattle.fr_air.specs.Kept.{place_of};
ghost use Rattle.fr_drift.specs.Rows.{most_link_delay};

use fr_base::{Channel, NodeId};
use fr_cluster::Params;
use fr_drift::Drift;
use std::alloc::{AllocError, Global};
use std::marker::Model;

// A link's delay in each cycle before one, in ticks.
#[derive(Clone, Copy)]
pub struct Kept {
    until: u32,
    ticks: i64,
}

// What decides the clocks of a run, with the delay of each link up to its first change at hand. It is seen as the
// drift alone: no answer depends on what is kept.
#[derive(Drop)]
pub struct KeptDrift {
    drift: Drift,
    delays: Vec<Kept>,
}

impl Model for KeptDrift {
    ghost use Rattle.fr_drift.specs.View.{DriftView};
    ghost use Rattle.fr_air.specs.Kept.{DelaysAreKept};

    ghost Value = { DriftView };

    ghost view = { λ k. k.drift };

    ghost invariant = { λ k. DelaysAreKept k.drift k.delays.items };
}

// Where a link's delay on a channel is kept.
fn place(sender: NodeId, receiver: NodeId, channel: Channel) -> usize
    ensures value { result ≡ place_of sender receiver channel }
    ensures within { result < 8450 }
    ensures sender { sender ≤ 64 }
    ensures receiver { receiver ≤ 64 }
{
    let place = usize::from(sender.0) * 65 + usize::from(receiver.0);
    match channel {
        Channel::A => place,
        Channel::B => 4225 + place,
    }
}

// Puts a delay at its place.
fn put(delays: &mut [Kept], place: usize, kept: Kept)
    requires { place < length delays.old }
    ensures { delays.new ≡ slice_set delays.old place kept }
{
    delays[place] = kept;
}

impl KeptDrift {
    // A drift with nothing kept.
    fn plain(alloc: Global, drift: Drift) -> Result<KeptDrift, AllocError>
        ensures { IfOk result (λ kept. kept ≡ drift) }
    {
        let none = Kept { until: 0, ticks: 0 };
        let delays = vec![in alloc; none; 8450]?;
        Ok(KeptDrift { drift, delays })
    }

    // Keeps the delay of a link on a channel up to its first change.
    fn keep(&mut self, sender: NodeId, receiver: NodeId, channel: Channel)
        ensures { self.new ≡ self.old }
    {
        let ticks = self.drift.delay(sender, receiver, channel, 0);
        let until = self.drift.next_delay(sender, receiver, channel, 0, 200_000);
        put(
            self.delays.as_mut_slice(),
            place(sender, receiver, channel),
            Kept { until, ticks },
        );
    }

    // The drift of a run.
    pub fn drift(&self) -> &Drift
        ensures { result.now ≡ self.now }
    {
        &self.drift
    }

    // How many ticks a frame travels from one node to another on a channel in a cycle.
    pub fn delay(&self, sender: NodeId, receiver: NodeId, channel: Channel, cycle: u32) -> i64
        ensures value { result ≡ delay_of self.now sender receiver channel cycle }
        ensures within { IsBetween (pos 0) (pos most_link_delay) result }
    {
        let kept = self.delays[place(sender, receiver, channel)];
        if cycle < kept.until {
            kept.ticks
        } else {
            self.drift.delay(sender, receiver, channel, cycle)
        }
    }

    // Keeps the delays from one node to all others.
    fn keep_from(&mut self, params: &Params, sender: NodeId)
        ensures { self.new ≡ self.old }
    {
        for place in 0..params.nodes.len() {
            if let Some(receiver) = params.nodes.get(place) {
                self.keep(sender, receiver.id, Channel::A);
                self.keep(sender, receiver.id, Channel::B);
            }
        }
    }

    // Keeps the delays between all nodes of a cluster.
    fn keep_all(&mut self, params: &Params)
        ensures { self.new ≡ self.old }
    {
        for place in 0..params.nodes.len() {
            if let Some(sender) = params.nodes.get(place) {
                self.keep_from(params, sender.id);
            }
        }
    }

    // The drift of a run of a cluster.
    pub fn of(alloc: Global, params: &Params, drift: Drift) -> Result<KeptDrift, AllocError>
        ensures { IfOk result (λ kept. kept ≡ drift) }
    {
        let mut kept = KeptDrift::plain(alloc, drift)?;
        kept.keep_all(params);
        Ok(kept)
    }
}
