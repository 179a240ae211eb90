ghost use Rattle.std.specs.Prelude.{◌≡◌, ◌≢◌, ◌↔◌, IfOk, IfErr, IsTrue};
ghost use Rattle.fr_base.specs.Device.{IsOneLoadLater};
ghost use Rattle.fr_text.specs.Kind.{Has, Kind, Reads, StopsAt};
ghost use Rattle.fr_text.specs.declared.kind.Stop.TheVariants.{NoMemory, Refused};

use fr_base::{LoadFault, Shelf};
use std::alloc::Global;

/// Why a request stops at a file.
#[derive(Clone, Copy, Debug, PartialEq, Eq)]
pub enum Stop<F> {
    /// The shelf failed.
    ReadFault,
    /// The file has more bytes than a file may have.
    TooLong,
    /// Memory ran out.
    NoMemory,
    /// The file is not accepted: the first cause.
    Refused(F),
}

/// A kind of file, by its reader and what that depends on.
pub trait FileKind {
    type Value;

    type Fault: Drop;

    /// Which bytes are the file of a value, and which are refused.
    ghost kind: { Self → Kind Self.Value Self.Fault };

    /// Reads the bytes of a file.
    fn read(&self, alloc: Global, bytes: &[u8]) -> Result<Self::Value, Self::Fault>
        ensures reads { Reads (kind self.now) bytes.now result }
        ensures sound { IfOk result (kind self.now).is_sound };

    /// Whether a fault is want of memory.
    fn is_no_memory(&self, fault: &Self::Fault) -> bool
        ensures { IsTrue result ↔ fault.now ≡ (kind self.now).no_memory };
}

/// Loads a file of the kind, once, and reads it.
pub fn accepted<S: Shelf, K: FileKind>(
    alloc: Global,
    kind: &K,
    file: &str,
    shelf: &mut S,
) -> Result<K::Value, Stop<K::Fault>>
    ensures accepted { IfOk result (Has (K.kind kind.now) (S.state shelf.old) file.now) }
    ensures stops { IfErr result (StopsAt (K.kind kind.now) (S.state shelf.old) (S.state shelf.new) file.now) }
    ensures later { IsOneLoadLater (S.state shelf.old) (S.state shelf.new) file.now }
{
    let mut bytes = Vec::new(alloc);
    match shelf.load(file, &mut bytes) {
        Ok(()) => match kind.read(alloc, &bytes) {
            Ok(value) => Ok(value),
            Err(fault) => Err(stop_of(kind, fault)),
        },
        Err(LoadFault::Failed) => Err(Stop::ReadFault),
        Err(LoadFault::TooLong { .. }) => Err(Stop::TooLong),
        Err(LoadFault::NoMemory) => Err(Stop::NoMemory),
    }
}

// The stop at a file that is not accepted for this fault.
fn stop_of<K: FileKind>(kind: &K, fault: K::Fault) -> Stop<K::Fault>
    ensures memory { fault ≡ (K.kind kind.now).no_memory → result ≡ NoMemory }
    ensures refused { fault ≢ (K.kind kind.now).no_memory → result ≡ Refused fault }
{
    if kind.is_no_memory(&fault) {
        Stop::NoMemory
    } else {
        Stop::Refused(fault)
    }
}
