ghost use Rattle.std.specs.Prelude.{◌≡◌, [], List, Some, IfOk};
ghost use Rattle.std.specs.Option.{option_copied};
ghost use Rattle.fr_cluster.specs.Values.{Values};
ghost use Rattle.fr_cold.specs.Rows.{IsProperCycles};
ghost use Rattle.fr_cold.specs.Reasons.{is_out_of_turn};
ghost use Rattle.std.specs.BTreeMap.{IsOrdered};
ghost use Rattle.fr_text.specs.Records.{FileRecord};
ghost use Rattle.fr_cold.specs.Files.{PowerStandsFor};
ghost use Rattle.fr_cold.specs.Keys.{power_cmp};
ghost use Rattle.fr_cold.specs.Draft.{IsEntryPut, IsPowerDraft, TakesPowerRow, TakesPowerRowAtOnce};
ghost use Rattle.fr_cold.specs.declared.rows.Row.TheVariants as said;

use crate::Switch;
use crate::keys::PowerKey;
use crate::power::Power;
use crate::rows::SwitchRow;
use fr_base::{NodeId, Reason};
use fr_cluster::Params;
use std::alloc::{AllocError, Global};
use std::collections::BTreeMap;

// What a node's last record so far says.
#[derive(Clone, Copy, Debug, PartialEq, Eq)]
pub struct Last {
    pub at: u32,
    pub switch: Switch,
}

// What the records so far say: how many cycles the run has, the switches by macrotick and node, and the last of each
// node.
pub(crate) struct Draft {
    pub(crate) cycles: Option<u32>,
    pub(crate) switches: BTreeMap<PowerKey, Switch>,
    pub(crate) lasts: BTreeMap<NodeId, Last>,
}

// One call: a derived drop is opened in each function that drops a value, and proved there.
impl Drop for Draft {
    fn drop(self) {
        let Draft {
            cycles: _,
            switches: _,
            lasts: _,
        } = self;
    }
}

impl Draft {
    pub(crate) fn new(alloc: Global) -> Draft
        ensures { IsPowerDraft result [] }
    {
        Draft {
            cycles: None,
            switches: BTreeMap::new(alloc),
            lasts: BTreeMap::new(alloc),
        }
    }

    pub(crate) fn take_cycles(&mut self, count: u32) -> Option<Reason>
        requires { IsProperCycles count }
        ensures { (p : Values) → TakesPowerRowAtOnce p self.old self.new (said.Cycles count) result }
    {
        if self.cycles.is_some() {
            return Some(Reason::Repeated);
        }
        self.cycles = Some(count);
        None
    }

    pub(crate) fn take_switch(
        &mut self,
        params: &Params,
        row: SwitchRow,
    ) -> Result<Option<Reason>, AllocError>
        ensures { TakesPowerRow params.now self.old self.new (said.Switched row) result }
    {
        if !params.is_known(row.node) {
            return Ok(Some(Reason::UnknownNode));
        }
        if !params.is_coldstart(row.node) || is_out_of_turn(self.lasts.get(&row.node), row) {
            return Ok(Some(Reason::Role));
        }
        let key = PowerKey {
            at: row.at,
            node: row.node,
        };
        let last = Last {
            at: row.at,
            switch: row.switch,
        };
        put(&mut self.switches, key, row.switch)?;
        put(&mut self.lasts, row.node, last)?;
        Ok(None)
    }

    // What the tables stand for.
    pub(crate) fn into_power(self, cycles: u32) -> Power
        requires told { self.cycles ≡ Some cycles }
        requires proper { IsProperCycles cycles }
        requires ordered { IsOrdered power_cmp self.switches }
        ensures { (records : List FileRecord) → IsPowerDraft self records → PowerStandsFor result records }
    {
        let Draft {
            cycles: _,
            switches,
            lasts: _,
        } = self;
        Power { cycles, switches }
    }
}

// Puts a value under a key, in place of an earlier one.
fn put<K: Ord + Copy, V: Drop>(
    rows: &mut BTreeMap<K, V>,
    key: K,
    value: V,
) -> Result<(), AllocError>
    ensures { IfOk result (λ _. IsEntryPut K.cmp rows.old rows.new key value) }
{
    rows.insert(key, value)?;
    Ok(())
}

// Whether a record may not come after the last one of its node.
fn is_out_of_turn(last: Option<&Last>, row: SwitchRow) -> bool
    ensures { result ≡ is_out_of_turn (option_copied last.entry) row }
{
    match last {
        None => row.switch == Switch::Off,
        Some(last) => last.switch == row.switch || row.at <= last.at,
    }
}
