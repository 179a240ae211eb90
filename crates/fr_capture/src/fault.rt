ghost use Rattle.std.specs.Prelude.{◌≡◌};
ghost use Rattle.fr_capture.specs.Rest.{capture_fault_of};

use fr_frame::FrameFault;

/// Why no frame begins the bytes behind the last one. Of several causes it is the first in this order, but that
/// a cut frame is looked for twice: where not even the header is there, and where its frame is not whole.
#[derive(Clone, Copy, Debug, PartialEq, Eq)]
pub enum CaptureFault {
    /// The bytes end before the frame does: so many bytes it needs, 8 where its header is not there yet.
    Cut { needed: usize, given: usize },
    /// The header CRC in the bytes differs from the one that is computed of the header's fields.
    HeaderCrc { kept: u16, computed: u16 },
    /// The last three bytes differ from the frame CRC that is computed of all bytes before them.
    FrameCrc { kept: u32, computed: u32 },
    /// The frame ID is 0.
    ZeroId,
    /// The startup indicator is set and the sync indicator is not.
    StartupNotSync,
}

// The fault of a frame as one of a capture.
pub(crate) fn capture_fault_of(fault: FrameFault) -> CaptureFault
    ensures { result ≡ capture_fault_of fault }
{
    match fault {
        FrameFault::Short { given } => CaptureFault::Cut { needed: 8, given },
        FrameFault::HeaderCrc { kept, computed } => CaptureFault::HeaderCrc { kept, computed },
        FrameFault::Length { stated, given } => CaptureFault::Cut {
            needed: stated,
            given,
        },
        FrameFault::FrameCrc { kept, computed } => CaptureFault::FrameCrc { kept, computed },
        FrameFault::ZeroId => CaptureFault::ZeroId,
        FrameFault::StartupNotSync => CaptureFault::StartupNotSync,
    }
}
