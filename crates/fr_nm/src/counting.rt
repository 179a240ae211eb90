ghost use Rattle.std.specs.Prelude.{◌≡◌, ◌≤◌};
ghost use Rattle.fr_nm.specs.Vectors.{has_vector, vector_in, vector_record};

use crate::vector::placed;
use fr_base::Channel;
use fr_frame::{Header, decode};

// The vector of a record, where the record counts.
pub(crate) fn vector_of(
    width: usize,
    cycle: u32,
    channel: Channel,
    bytes: &[u8],
) -> Option<[u8; 12]>
    requires { width ≤ 12 }
    ensures { result ≡ vector_in width (vector_record cycle channel bytes.now) }
{
    let Ok(frame) = decode(channel, bytes) else {
        return None;
    };
    if has_vector(width, cycle, &frame.header) {
        Some(placed(width, frame.payload))
    } else {
        None
    }
}

// Whether a frame has a vector of this width in this cycle.
fn has_vector(width: usize, cycle: u32, header: &Header) -> bool
    ensures { result ≡ has_vector width cycle header.now }
{
    header.preamble
        && header.null_bit
        && u32::from(header.cycle) == cycle % 64
        && width <= 2 * usize::from(header.words)
}
