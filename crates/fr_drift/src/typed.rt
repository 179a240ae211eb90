ghost use Rattle.std.specs.Prelude.{◌≡◌, ◌≤◌, [], ◌∷◌, None};
ghost use Rattle.std.specs.BTreeMap.{get};
ghost use Rattle.fr_drift.specs.Rows.{IsProperCount, IsProperDelay, IsMicrotickLength, IsProperStart};
ghost use Rattle.fr_drift.specs.Files.{DriftFits, DriftStandsFor};
ghost use Rattle.fr_drift.specs.Written.{delay_record, doubles_record, length_record, start_record};
ghost use Rattle.fr_drift.specs.Adding.{AddsDriftRecord, EntersRow, TakesDriftRecord};

use crate::draft::{Draft, put};
use crate::drift::Drift;
use crate::fault::DriftFault;
use crate::keys::{DelayKey, LengthKey};
use crate::rows::Start;
use fr_base::{Channel, NodeId};
use fr_cluster::Params;
use std::alloc::{AllocError, Global};
use std::collections::BTreeMap;

impl Drift {
    /// The drift of the file with the one record `doubles`, of so many double cycles, 1 to 100,000. It takes
    /// no memory.
    pub fn even(alloc: Global, params: &Params, doubles: u32) -> Drift
        requires { IsProperCount doubles }
        ensures stands { DriftStandsFor params.now result (doubles_record doubles ∷ []) }
        ensures fits { DriftFits params.now result }
    {
        let mut draft = Draft::new(alloc);
        let _ = draft.take_doubles(doubles);
        draft.into_drift(params, doubles)
    }

    /// Adds the record that starts a node's clock at a tick, 0 to 1,000,000,000,000, with a first rate term
    /// in microticks, within the rate limit of the parameters. They accept the record behind those that are
    /// there. `NoMemory` is its only refusal, and then nothing changed.
    pub fn set_start(
        &mut self,
        params: &Params,
        node: NodeId,
        ticks: i64,
        rate: i32,
    ) -> Result<(), DriftFault>
        requires proper { IsProperStart (record { ticks = ticks; rate = rate }) }
        requires taken { TakesDriftRecord params.now self.old (start_record node ticks rate) }
        ensures { AddsDriftRecord params.now self.old self.new (start_record node ticks rate) result }
    {
        let _number = node.0;
        enter(&mut self.starts, node, Start { ticks, rate })
    }

    /// Adds the record that makes a node's microticks last so many ticks, 500,000 to 1,500,000, from a cycle
    /// on. The parameters accept it behind those that are there. `NoMemory` is its only refusal, and then
    /// nothing changed.
    pub fn set_length(
        &mut self,
        params: &Params,
        node: NodeId,
        from: u32,
        ticks: i64,
    ) -> Result<(), DriftFault>
        requires proper { IsMicrotickLength ticks }
        requires limited { from ≤ 199_999 }
        requires taken { TakesDriftRecord params.now self.old (length_record node from ticks) }
        ensures { AddsDriftRecord params.now self.old self.new (length_record node from ticks) result }
    {
        let _number = node.0;
        enter(&mut self.lengths, LengthKey { node, from }, ticks)
    }

    /// Adds the record that makes frames travel for so many ticks, 0 to 1,000,000,000, from one node to
    /// another on a channel, from a cycle on. The parameters accept it behind those that are there.
    /// `NoMemory` is its only refusal, and then nothing changed.
    pub fn set_delay(
        &mut self,
        params: &Params,
        sender: NodeId,
        receiver: NodeId,
        channel: Channel,
        from: u32,
        ticks: i64,
    ) -> Result<(), DriftFault>
        requires proper { IsProperDelay ticks }
        requires limited { from ≤ 199_999 }
        requires taken { TakesDriftRecord params.now self.old (delay_record sender receiver channel from ticks) }
        ensures { AddsDriftRecord params.now self.old self.new
            (delay_record sender receiver channel from ticks) result }
    {
        let key = DelayKey {
            sender,
            receiver,
            from,
        };
        let _numbers = (sender.0, receiver.0);
        match channel {
            Channel::A => enter(&mut self.delays_a, key, ticks),
            Channel::B => enter(&mut self.delays_b, key, ticks),
        }
    }
}

// Puts a value under a key that has none, through the door of the reader.
fn enter<K: Ord + Copy, V: Drop>(
    rows: &mut BTreeMap<K, V>,
    key: K,
    value: V,
) -> Result<(), DriftFault>
    requires { get K.cmp rows.old key ≡ None }
    ensures { EntersRow K.cmp rows.old rows.new key value result }
{
    match put(rows, key, value) {
        Ok(_) => Ok(()),
        Err(AllocError) => Err(DriftFault::NoMemory),
    }
}
