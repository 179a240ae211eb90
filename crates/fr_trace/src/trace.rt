ghost use Rattle.std.specs.Prelude.{◌≡◌, ◌≤◌, length};
ghost use Rattle.fr_trace.specs.Cycles.{history_by};
ghost use Rattle.fr_trace.specs.Lasting.{IsTrace};

use fr_base::{Dev, NodeId, NodeRow};
use fr_cluster::Join;
use std::marker::Model;

/// What a trace records of one cycle.
pub struct TracedCycle {
    /// A row for each correct node that takes part, in ascending order of node: of one that joins, from its first row
    /// on. No trace records how many terms were cut, so 0 stands there.
    pub rows: Vec<NodeRow>,
    /// The deviations that the nodes measured, in ascending order of receiver, slot and channel.
    pub devs: Vec<Dev>,
}

// One call: a derived drop is opened in each function that drops a value, and proved there.
impl Drop for TracedCycle {
    fn drop(self) {
        let TracedCycle { rows: _, devs: _ } = self;
    }
}

/// That a node joins the running cluster, and how.
#[derive(Clone, Copy)]
pub struct TracedJoin {
    /// The node that joins.
    pub node: NodeId,
    /// The double cycle in which it listens, and the node to which.
    pub join: Join,
}

/// A recorded trace: contracts see how many double cycles it has, its arbitrary nodes and those that join the running
/// cluster, each in ascending order, and the history that it records, in which nothing is counted.
pub struct Trace {
    doubles: u32,
    arbitrary: Vec<NodeId>,
    joins: Vec<TracedJoin>,
    cycles: Vec<TracedCycle>,
}

impl Model for Trace {
    ghost use Rattle.fr_trace.specs.Trace.{TraceView};
    ghost use Rattle.fr_trace.specs.Cycles.{history_by};
    ghost use Rattle.fr_trace.specs.Lasting.{IsTrace};

    ghost Value = { TraceView };

    ghost view = { λ t.
        record { doubles = t.doubles; arbitrary = t.arbitrary.items; joins = t.joins.items; history = history_by t.cycles.items } };

    ghost invariant = { λ t.
        IsTrace (record { doubles = t.doubles; arbitrary = t.arbitrary.items; joins = t.joins.items; history = history_by t.cycles.items }) };
}

// One call: a derived drop is opened in each function that drops a value, and proved there.
impl Drop for Trace {
    fn drop(self) {
        let Trace {
            doubles: _,
            arbitrary: _,
            joins: _,
            cycles: _,
        } = self;
    }
}

impl Trace {
    // The trace of these double cycles, arbitrary nodes, nodes that join, and cycles, the earliest first.
    pub(crate) fn of(
        doubles: u32,
        arbitrary: Vec<NodeId>,
        joins: Vec<TracedJoin>,
        cycles: Vec<TracedCycle>,
    ) -> Trace
        requires { IsTrace (record {
          doubles = doubles;
          arbitrary = arbitrary.items;
          joins = joins.items;
          history = history_by cycles.items;
        }) }
        ensures { result ≡ record {
          doubles = doubles;
          arbitrary = arbitrary.items;
          joins = joins.items;
          history = history_by cycles.items;
        } }
    {
        Trace {
            doubles,
            arbitrary,
            joins,
            cycles,
        }
    }

    /// How many double cycles it has.
    pub fn doubles(&self) -> u32
        ensures value { result ≡ self.now.doubles }
        ensures sane { IsTrace self.now }
    {
        let _cycles = &self.cycles;
        self.doubles
    }

    /// How many nodes it names arbitrary, each in a record of its own.
    pub fn arbitrary(&self) -> u32
        ensures count { result ≡ length self.now.arbitrary }
        ensures most { result ≤ 64 }
    {
        self.arbitrary.len() as u32
    }

    /// The nodes that it names arbitrary, in ascending order.
    pub fn arbitrary_nodes(&self) -> &[NodeId]
        ensures { result.now ≡ self.now.arbitrary }
    {
        self.arbitrary.as_slice()
    }

    /// The nodes that join the running cluster, in ascending order.
    pub fn joins(&self) -> &[TracedJoin]
        ensures { result.now ≡ self.now.joins }
    {
        self.joins.as_slice()
    }

    /// Its cycles, the earliest first.
    pub fn cycles(&self) -> &[TracedCycle]
        ensures history { history_by result.now ≡ self.now.history }
        ensures sane { IsTrace self.now }
    {
        self.cycles.as_slice()
    }
}
