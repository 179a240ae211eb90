ghost use Rattle.std.specs.Prelude.{◌≡◌, ◌≤◌, [], None, Ok, IsOk};
ghost use Rattle.fr_cluster.specs.Values.{Values};
ghost use Rattle.fr_script.specs.Deed.{IsProperSay};
ghost use Rattle.fr_script.specs.Files.{ScriptFits, ScriptStandsFor};
ghost use Rattle.fr_script.specs.Written.{arbitrary_record, say_record};
ghost use Rattle.fr_script.specs.Adding.{AddsScriptRecord, EntersDeed, TakesScriptRecord};

use crate::deed::Deed;
use crate::deeds::{DeedTable, Passage};
use crate::draft::mark;
use crate::fault::ScriptFault;
use crate::script::Script;
use fr_base::{Channel, NodeId};
use fr_cluster::Params;
use std::alloc::{AllocError, Global};

impl Script {
    /// The script of the empty file. It takes no memory, and fits all parameters.
    pub fn empty(alloc: Global) -> Script
        ensures stands { ScriptStandsFor result [] }
        ensures fits { (p : Values) → ScriptFits p result }
    {
        Script::of(
            [false; 65],
            [None; 65],
            DeedTable::new(alloc),
            DeedTable::new(alloc),
        )
    }

    /// Adds the record that names a node arbitrary. The parameters accept it behind those that are there. It
    /// takes no memory, and is never refused.
    pub fn add_arbitrary(&mut self, params: &Params, node: NodeId) -> Result<(), ScriptFault>
        requires { TakesScriptRecord params.now self.old (arbitrary_record node) }
        ensures adds { AddsScriptRecord params.now self.old self.new (arbitrary_record node) result }
        ensures taken { IsOk result }
    {
        mark(&mut self.arbitrary, node);
        Ok(())
    }

    /// Adds the record by which a node says its regular frame to another in a cycle on a channel, so many
    /// ticks later than expected, within 1,000,000,000,000 of 0. The parameters accept it behind those that
    /// are there. `NoMemory` is its only refusal, and then nothing changed.
    pub fn add_say(
        &mut self,
        params: &Params,
        cycle: u32,
        sender: NodeId,
        receiver: NodeId,
        channel: Channel,
        shift: i64,
    ) -> Result<(), ScriptFault>
        requires proper { IsProperSay shift None }
        requires limited { cycle ≤ 199_999 }
        requires taken { TakesScriptRecord params.now self.old (say_record cycle sender receiver channel shift) }
        ensures { AddsScriptRecord params.now self.old self.new
            (say_record cycle sender receiver channel shift) result }
    {
        let passage = Passage {
            sender,
            receiver,
            cycle,
        };
        let _numbers = (sender.0, receiver.0);
        let deed = Deed::Say { shift, bytes: None };
        match channel {
            Channel::A => enter(&mut self.on_a, passage, deed),
            Channel::B => enter(&mut self.on_b, passage, deed),
        }
    }
}

// Puts a deed under its passage, through the door of the reader.
fn enter(table: &mut DeedTable, passage: Passage, deed: Deed) -> Result<(), ScriptFault>
    ensures { EntersDeed table.old table.new passage deed result }
{
    match table.put(passage, deed) {
        Ok(_) => Ok(()),
        Err(AllocError) => Err(ScriptFault::NoMemory),
    }
}
