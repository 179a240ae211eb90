ghost use Rattle.std.specs.Prelude.{◌≡◌, All, IfSome, Some, None};
ghost use Rattle.std.specs.Option.{option_copied};
ghost use Rattle.fr_history.specs.History.{row_of as row_in};
ghost use Rattle.fr_air.specs.Files.{setting_in};
ghost use Rattle.fr_air.specs.Sending.{sending_row_by, sending_row_in, IsEarlyRow};
ghost use Rattle.fr_air.specs.Turns.{IsRowFound};

use crate::files::RunInputs;
use crate::turn::Turn;
use fr_base::{NodeId, NodeRow, State};

// The row of a node, if it is among these.
fn row_among(rows: &[NodeRow], id: NodeId) -> Option<&NodeRow>
    ensures { option_copied result ≡ row_in rows.now id }
{
    rows.iter().find(|row| row.node == id)
}

// The row of a node, if it sends on a channel: it is active and has the channel.
fn row_if_sends(files: &RunInputs, turn: &Turn, row: &NodeRow, id: NodeId) -> Option<NodeRow>
    requires { IsEarlyRow files.now.params row.now }
    ensures value { result ≡ sending_row_by (setting_in files.now) (Some row.now) id turn.now.channel }
    ensures early { IfSome result (IsEarlyRow files.now.params) }
{
    if matches!(row.state, State::Active) && files.params.common(id, id, turn.channel) {
        Some(*row)
    } else {
        None
    }
}

// The row of a node, if it is among these and sends on a channel.
pub fn sending_row(files: &RunInputs, turn: &Turn, rows: &[NodeRow], id: NodeId) -> Option<NodeRow>
    requires { All (IsEarlyRow files.now.params) rows.now }
    ensures { IsRowFound files.now (sending_row_in (setting_in files.now) rows.now id turn.now.channel) result }
{
    match row_among(rows, id) {
        Some(row) => row_if_sends(files, turn, row, id),
        None => None,
    }
}
