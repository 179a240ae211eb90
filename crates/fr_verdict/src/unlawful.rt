use fr_base::State;
use fr_coverage::Gap;

/// Why a trace is not that of a lawful and covered run: the number of the first record that breaks a law, from 1,
/// with what was kept and what was expected; or, where none does, the first gap.
#[derive(Clone, Copy, Debug, PartialEq, Eq)]
pub enum Unlawful {
    /// A cycle starts elsewhere than where the cycle before ends, in ticks (section 8.2). The first cycle of a node is
    /// free.
    Start {
        number: u64,
        kept: i64,
        wanted: i64,
    },
    /// A rate is not the term of the recorded deviations, in microticks (section 8.6.3).
    Rate {
        number: u64,
        kept: i32,
        wanted: i32,
    },
    /// A state is not that of operation control (chapter 2).
    Turn {
        number: u64,
        kept: State,
        wanted: State,
    },
    /// An offset is not the term of the recorded deviations, in microticks (section 8.6.2).
    Offset {
        number: u64,
        kept: i32,
        wanted: i32,
    },
    /// A deviation is about a correct node that did not send, or at one that did not receive: its state.
    Silent {
        number: u64,
        state: State,
    },
    /// A deviation about a correct node lies outside of what the recorded clocks allow, in microticks (section 8.5).
    Deviation {
        number: u64,
        kept: i32,
        low: i64,
        high: i64,
    },
    /// A deviation is about a correct node that has no row in its cycle; or a node has its first row in a double cycle
    /// whose rows are not in sync, and which is not before the first one in sync in which no node may follow: that
    /// double cycle.
    Apart {
        number: u64,
        double: u32,
    },
    /// No law is broken, and the trace is not covered by the precision theorem.
    Uncovered(Gap),
}

/// What is said of a lawful and covered trace.
#[derive(Clone, Copy, Debug, PartialEq, Eq)]
pub struct Verdict {
    /// The first double cycle in sync, in which no node that joins may follow; None where there is none.
    pub synced: Option<u32>,
    /// The greatest skew of its clocks, in ticks.
    pub skew: i64,
    /// The first cycle in which it occurs.
    pub cycle: u32,
    /// The first macrotick of that cycle at which it occurs.
    pub macrotick: i64,
}
