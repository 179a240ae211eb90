ghost use Rattle.std.specs.Prelude.{◌≡◌, ℕ, ◌+◌, ◌*◌, ◌≤◌, ◌↔◌, length, find, ◌==◌, All, IsNone, IfSome, IfOk};
ghost use Rattle.std.specs.Borrow.{sem};
ghost use Rattle.std.specs.Option.{option_copied};
ghost use Rattle.fr_cluster.specs.Sane.{IsSane};
ghost use Rattle.fr_drift.specs.Files.{DriftFits};
ghost use Rattle.fr_drift.specs.Questions.{doubles_of};
ghost use Rattle.fr_script.specs.Files.{ScriptFits};
ghost use Rattle.fr_script.specs.View.{IsScript};
ghost use Rattle.fr_air.specs.Listing.{HasRoom};
ghost use Rattle.fr_air.specs.Memory.{cell_of, frame_in_cell, place_of_slot, IsPoolOf};
ghost use Rattle.fr_world.specs.Standing.{nodes_kept};

use crate::building::{fresh_nodes, key_slots_of};
use crate::running::run_cycle;
use crate::stage::Stage;
use fr_air::fault::BuildFault;
use fr_air::files::{RunInputs, files_are_lawful, sane};
use fr_air::kept::KeptDrift;
use fr_air::memory::{Memory, place_of_slot};
use fr_base::{Channel, Counts, CycleRow, DevList, NodeId, RowList, Slot};
use fr_cluster::Params;
use fr_drift::Drift;
use fr_node::Node;
use fr_pool::{Cell, Pool};
use fr_script::{Script, joining_nodes_have_references};
use std::alloc::{AllocError, Global};
use std::marker::Model;

/// A cluster in a run: every correct node's clock, cycle after cycle, as the parameters, the oscillators and
/// the script decide it, with the nodes that join it. All memory is taken as it is built, and none grows with the
/// run: contracts see the three files and how many cycles were run, which determine the one lawful run.
pub struct World {
    files: RunInputs,
    // The key slots in ascending order.
    keys: Vec<Slot>,
    // The nodes with rows, those that follow and those that listen, and what was sent last, each frame in its cell.
    stage: Stage,
    // The row of the last cycle that was run.
    row: CycleRow,
    // The cycle that comes next.
    next: u32,
}

impl Model for World {
    ghost use Rattle.fr_world.specs.World.{WorldView};

    ghost Value = { WorldView };

    ghost use Rattle.fr_world.specs.World.{IsWorld};

    ghost view = { λ w. record { params = w.files.params; drift = w.files.drift; script = w.files.script; cycles = w.next } };

    ghost invariant = { λ w. IsWorld w.files w.keys.items w.stage w.row w.next };
}

// One call: a derived drop is opened in each function that drops a value, and proved there.
impl Drop for World {
    fn drop(self) {
        let World {
            files: _,
            keys: _,
            stage: _,
            row: _,
            next: _,
        } = self;
    }
}

impl World {
    /// A world before its first cycle, of files that fit one another: all memory of the run is taken here.
    /// `NoMemory` where there is not enough; the files are then dropped.
    pub fn build(
        alloc: Global,
        params: Params,
        drift: Drift,
        script: Script,
    ) -> Result<World, BuildFault>
        requires drift { DriftFits params drift }
        requires script { ScriptFits params script }
        ensures { IfOk result (λ world. world ≡ world_before params drift script) }
    {
        let drift = KeptDrift::of(alloc, &params, drift)?;
        let files = RunInputs {
            params,
            drift,
            script,
        };
        let keys = key_slots_of(alloc, &files.params)?;
        let nodes = fresh_nodes(alloc, &files)?;
        let memory = Memory::new(alloc, &files.params)?;
        let stage = Stage::new(alloc, nodes, memory)?;
        let row = blank_row(alloc, &keys)?;
        joining_nodes_have_references();
        Ok(World {
            files,
            keys,
            stage,
            row,
            next: 0,
        })
    }

    ghost use Rattle.fr_air.specs.Listening.{StartsEarly};
    ghost use Rattle.fr_world.specs.World.{followed_last, inputs_of, memory_of, node_seen, setting_after, world_before, world_cycles, IsLastRowOf, IsRowOf};
    ghost use Rattle.fr_world.specs.Ends.{LendsItsRow};

    /// Runs the next cycle of every node that takes part in it, and answers its row, without what followers do; None
    /// exactly after the last cycle of the run, and then nothing changes. A node that joins nobody starts cycle n,
    /// counted from 0, at tick 1,000,000,000,000 (n + 1) at the latest, so none of its starts is above
    /// 200,000,000,000,000,000. It takes no memory.
    pub fn cycle(&mut self) -> Option<&CycleRow>
        // What the world is once the answer is let go.
        ensures* ends { sem 𝓛 (LendsItsRow self.entry result) }
        ensures over { IsNone result ↔ (self.old.cycles ≡ 2 * doubles_of self.old.drift) }
        ensures row { IfSome result (λ row. IsRowOf (setting_after self.old) self.old.cycles row.now) }
        ensures early { IfSome result (λ row. All (StartsEarly (inputs_of self.old) self.old.cycles) row.now.rows) }
    {
        if self.next == 2 * self.files.drift.drift().doubles() {
            return None;
        }
        run_cycle(
            &self.files,
            self.keys.as_slice(),
            self.next,
            &mut self.stage,
            &mut self.row,
        );
        self.next += 1;
        Some(&self.row)
    }

    /// The row of the last cycle that was run; None exactly before the first.
    pub fn row(&self) -> Option<&CycleRow>
        ensures none { IsNone result ↔ (self.now.cycles ≡ 0) }
        ensures in_run { self.now.cycles ≤ 2 * doubles_of self.now.drift }
        ensures row { IfSome result (λ row. IsLastRowOf self.now row.now) }
    {
        if self.next == 0 {
            None
        } else {
            Some(&self.row)
        }
    }

    /// A node, as it stands before the next cycle; None exactly where it is arbitrary or unknown, or joins the run and
    /// had no row in the last cycle.
    pub fn node(&self, id: NodeId) -> Option<&Node>
        ensures value { option_copied result ≡ node_seen self.now id }
        // What is asked of a node between cycles can be asked of it.
        ensures between { IfSome result (λ node. IsNone node.now.length) }
    {
        files_are_lawful(&self.files);
        node_among(self.stage.nodes(), id)
    }

    /// The nodes that had a row in the last cycle, in ascending order, as they stand before the next one; before the
    /// first, those that join nobody.
    pub fn nodes(&self) -> &[Node]
        ensures value { result.now ≡ nodes_kept (setting_after self.now) (world_cycles self.now) }
        // What is asked of a node between cycles can be asked of each.
        ensures between { All (λ node. IsNone node.length) result.now }
    {
        self.stage.nodes()
    }

    /// Whether a node followed in the last cycle: it is about to join the run, and has no row yet. False before the
    /// first.
    pub fn following(&self) -> bool
        ensures { result ≡ followed_last (world_cycles self.now) }
    {
        self.stage.following()
    }

    /// The pool of the cells that its frames stand in: two for each static slot, and two more. The cells that are out
    /// are those that `cell` answers, and no others.
    pub fn pool(&self) -> &Pool
        ensures { IsPoolOf (memory_of self.now) result.now }
    {
        self.stage.memory().pool()
    }

    /// The cell of a slot on a channel, in `pool`; None exactly where no correct node sent a frame there so far.
    pub fn cell(&self, slot: Slot, channel: Channel) -> Option<&Cell>
        ensures { option_copied result ≡ cell_of (memory_of self.now).held (place_of_slot slot channel) }
    {
        self.stage.memory().cell(place_of_slot(slot, channel))
    }

    /// The last frame that a correct node sent in a slot on a channel, as it was sent: the bytes at the front of its
    /// cell. None exactly where no correct node sent a frame there so far.
    pub fn last(&self, slot: Slot, channel: Channel) -> Option<&[u8]>
        ensures { option_copied result ≡ frame_in_cell (memory_of self.now).held (place_of_slot slot channel) }
    {
        self.stage.memory().last(place_of_slot(slot, channel))
    }

    /// The parameters of the cluster.
    pub fn params(&self) -> &Params
        ensures value { result.now ≡ self.now.params }
        ensures sane { IsSane self.now.params }
    {
        sane(&self.files.params);
        &self.files.params
    }

    /// Its oscillators and delays.
    pub fn drift(&self) -> &Drift
        ensures value { result.now ≡ self.now.drift }
        ensures fits { DriftFits self.now.params self.now.drift }
    {
        self.files.drift.drift()
    }

    /// What is done to its frames, and which nodes join.
    pub fn script(&self) -> &Script
        ensures value { result.now ≡ self.now.script }
        ensures fits { ScriptFits self.now.params self.now.script }
        ensures proper { IsScript self.now.script }
    {
        // Each question to a script says that it is one.
        let _named = self.files.script.arbitrary(NodeId(1));
        &self.files.script
    }
}

// A row with nothing in it, and room for the deviations of a cycle in these key slots.
fn blank_row(alloc: Global, keys: &Vec<Slot>) -> Result<CycleRow, AllocError>
    requires { length keys.now.items ≤ 1023 }
    ensures { IfOk result (λ row. HasRoom keys.now.items row.devs) }
{
    Ok(CycleRow {
        cycle: 0,
        rows: RowList::new(),
        devs: DevList::with_room(alloc, 128 * keys.len())?,
        counts: Counts::none(),
    })
}

// The node of a number among these.
fn node_among(nodes: &[Node], id: NodeId) -> Option<&Node>
    ensures { option_copied result ≡ find (λ node. node.id == id) nodes.now }
{
    nodes.iter().find(|node| node.id() == id)
}
