ghost use Rattle.std.specs.Prelude.{◌≡◌, [], OnOk, OnErr, IfErr};
ghost use Rattle.fr_base.specs.Device.{Shelved, IsLoaded, StopsLoad, IsOneLoadLater};

/// The greatest number of bytes of a file: 16 MiB.
pub const MAX_FILE: usize = 16_777_216;

/// Why a file was not loaded.
#[derive(Clone, Copy, Debug, PartialEq, Eq)]
pub enum LoadFault {
    /// The shelf failed, and counted it.
    Failed,
    /// The file has more than `MAX_FILE` bytes; this many were seen.
    TooLong { seen: u64 },
    /// Memory ran out.
    NoMemory,
}

/// Where files are loaded from, by name.
pub trait Shelf {
    /// The bytes under each name and the names that were asked for, where the shelf tells them, and its counts of faults.
    ghost state: { Self → Shelved };

    /// Loads the bytes under the name into a vector that is empty.
    fn load(&mut self, name: &str, into: &mut Vec<u8>) -> Result<(), LoadFault>
        requires { into.old.items ≡ [] }

        ensures loaded { OnOk result (IsLoaded (state self.old) name.now into.new.items) }

        // It fails only where the count of this name rose. A file that is too long is never loaded, and
        // none but such a file is called too long. Want of memory is free.
        ensures stops { IfErr result (StopsLoad (state self.old) (state self.new) name.now) }
        ensures emptied { OnErr result (into.new.items ≡ []) }

        ensures later { IsOneLoadLater (state self.old) (state self.new) name.now };
}
