/// Why bytes are no frame. Of several causes it is the first in this order.
#[derive(Clone, Copy, Debug, PartialEq, Eq)]
pub enum FrameFault {
    /// Fewer than 8 bytes are given.
    Short { given: usize },
    /// The header CRC in the bytes differs from the one that is computed of the header's fields.
    HeaderCrc { kept: u16, computed: u16 },
    /// The number of bytes is not the one that the payload length states.
    Length { stated: usize, given: usize },
    /// The last three bytes differ from the frame CRC that is computed of all bytes before them.
    FrameCrc { kept: u32, computed: u32 },
    /// The frame ID is 0.
    ZeroId,
    /// The startup indicator is set and the sync indicator is not.
    StartupNotSync,
}

/// Why a frame is not written. Of several causes it is the first in this order.
#[derive(Clone, Copy, Debug, PartialEq, Eq)]
pub enum EncodeFault {
    /// The frame ID is 0 or above 2047.
    BadId,
    /// The cycle count is above 63.
    BadCycle,
    /// The payload length is above 127 words, or the payload has not two bytes for each word.
    BadPayload { given: usize, words: u8 },
    /// The startup indicator is set and the sync indicator is not.
    StartupNotSync,
    /// The place for the frame has fewer bytes than it needs.
    Room { needed: usize, given: usize },
}
