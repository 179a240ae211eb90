ghost use Rattle.std.specs.Prelude.{◌≡◌};

use fr_base::Channel;
use std::marker::Model;

/// What an entry has of its frame.
#[derive(Clone, Copy, Debug, PartialEq, Eq)]
pub enum EntryKind {
    /// All its bytes.
    Frame,
    /// Its header bytes: the analyzer took it for whole, and left the rest away.
    Head,
}

/// The bytes of an entry, at most 262, seen as their list.
pub struct EntryBytes {
    bytes: Vec<u8>,
}

impl Model for EntryBytes {
    ghost use Rattle.std.specs.Prelude.{List, ℕ};

    ghost Value = { List ℕ };

    ghost view = { λ a. a.bytes.items };
}

// One call: a derived drop is opened in each function that drops a value, and proved there.
impl Drop for EntryBytes {
    fn drop(self) {
        let EntryBytes { bytes: _ } = self;
    }
}

impl EntryBytes {
    pub(crate) fn of(bytes: Vec<u8>) -> EntryBytes
        ensures { result ≡ bytes.items }
    {
        EntryBytes { bytes }
    }

    /// The bytes, in the order in which they came.
    pub fn as_slice(&self) -> &[u8]
        ensures { result.now ≡ self.now }
    {
        self.bytes.as_slice()
    }
}

/// A frame that came: its stamp in units of the log, its channel, and what the log has of its bytes.
pub struct Entry {
    pub kind: EntryKind,
    pub stamp: u64,
    pub channel: Channel,
    pub bytes: EntryBytes,
}

// One call: a derived drop is opened in each function that drops a value, and proved there.
impl Drop for Entry {
    fn drop(self) {
        let Entry {
            kind: _,
            stamp: _,
            channel: _,
            bytes: _,
        } = self;
    }
}
