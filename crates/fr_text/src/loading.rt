ghost use Rattle.std.specs.Prelude.{◌≤◌, IfOk, IfErr, length};
ghost use Rattle.fr_base.specs.Device.{IsOneLoadLater};
ghost use Rattle.fr_text.specs.Kind.{Has};
ghost use Rattle.fr_text.specs.Loading.{IsUnread, any_file};

use crate::Piece::Word;
use crate::line_of;
use crate::status::Status;
use crate::told::Told;
use fr_base::{LoadFault, MAX_FILE, Shelf};
use std::alloc::Global;

/// Loads a file of which all bytes are accepted, once; `role` is what it is called where that fails.
pub fn loaded<S: Shelf>(
    alloc: Global,
    role: &[u8],
    file: &str,
    shelf: &mut S,
) -> Result<Vec<u8>, Told>
    requires { length role.now ≤ 10 }
    ensures accepted { IfOk result (λ bytes. Has any_file (S.state shelf.old) file.now bytes.items) }
    ensures fits { IfOk result (λ bytes. length bytes.items ≤ MAX_FILE) }
    ensures stops { IfErr result (IsUnread role.now file.now (S.state shelf.old) (S.state shelf.new)) }
    ensures later { IsOneLoadLater (S.state shelf.old) (S.state shelf.new) file.now }
{
    let mut bytes = Vec::new(alloc);
    match shelf.load(file, &mut bytes) {
        Ok(()) => Ok(bytes),
        Err(LoadFault::Failed) => Err(Told {
            status: Status::ReadFault,
            line: line_of(&[Word(role), Word(b": read fault")]),
        }),
        Err(LoadFault::TooLong { .. }) => Err(Told {
            status: Status::TooLong,
            line: line_of(&[Word(role), Word(b": too long")]),
        }),
        Err(LoadFault::NoMemory) => Err(Told::no_memory()),
    }
}
