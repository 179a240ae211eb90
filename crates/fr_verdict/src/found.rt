ghost use Rattle.std.specs.Prelude.{◌≡◌, Contains, IfSome};
ghost use Rattle.std.specs.Option.{option_copied};
ghost use Rattle.fr_history.specs.History.{row_of};
ghost use Rattle.fr_trace.specs.Trace.{is_named};

use fr_base::{NodeId, NodeRow};
use fr_trace::Trace;

/// The row of a node among some rows; None exactly where it has none.
pub fn row_of(rows: &[NodeRow], node: NodeId) -> Option<&NodeRow>
    ensures value { option_copied result ≡ row_of rows.now node }
    ensures among { IfSome result (λ row. Contains rows.now row.now) }
{
    let wanted = node.0;
    rows.iter().find(|row| row.node.0 == wanted)
}

/// Whether a trace names a node arbitrary.
pub fn is_named(trace: &Trace, node: NodeId) -> bool
    ensures { result ≡ is_named trace.now node }
{
    let wanted = node.0;
    trace
        .arbitrary_nodes()
        .iter()
        .any(|other| other.0 == wanted)
}
