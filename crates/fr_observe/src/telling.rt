ghost use Rattle.std.specs.Prelude.{◌≡◌, ◌∷◌, [], Some};
ghost use Rattle.std.specs.Option.{option_or, option_to_list};
ghost use Rattle.fr_observe.specs.Telling.{TellsFaults};

use crate::fault::{Fault, fault_row};
use fr_base::{PutFault, Sink};
use fr_text::put_line;

/// Puts the row of a contradiction, in one put, if it is there, and keeps the first one.
pub fn tell<O: Sink>(
    fault: Option<Fault>,
    first: &mut Option<Fault>,
    out: &mut O,
) -> Result<(), PutFault>
    ensures { TellsFaults result (O.state out.old) (O.state out.new) first.old first.new (option_to_list fault) }
{
    match fault {
        None => Ok(()),
        Some(fault) => tell_one(&fault, first, out),
    }
}

// Puts the row of a contradiction, in one put, and keeps it if it is the first one that was told.
pub(crate) fn tell_one<O: Sink>(
    fault: &Fault,
    first: &mut Option<Fault>,
    out: &mut O,
) -> Result<(), PutFault>
    ensures { TellsFaults result (O.state out.old) (O.state out.new) first.old first.new (fault.now ∷ []) }
{
    keep(fault, first);
    put_line(&fault_row(fault), out)
}

fn keep(fault: &Fault, first: &mut Option<Fault>)
    ensures { first.new ≡ option_or first.old (Some fault.now) }
{
    if first.is_none() {
        *first = Some(*fault);
    }
}
