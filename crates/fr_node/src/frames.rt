ghost use Rattle.std.specs.Prelude.{◌≡◌, ◌+◌, ◌≤◌, ◌++◌, true, false, Some, length, take, drop};
ghost use Rattle.fr_cluster.specs.Values.{amount};
ghost use Rattle.fr_cluster.specs.declared.names.ParamName.TheVariants as name;
ghost use Rattle.fr_frame.specs.Reading.{read_as};
ghost use Rattle.fr_time.specs.Cycles.{cycle_count};
ghost use Rattle.fr_time.specs.Senders.{sender_of};
ghost use Rattle.fr_reception.specs.Regular.{has_payload, is_sync_frame, payload_byte, payload_bytes, payload_of, regular_frame, regular_header};

use crate::own::sane;
use fr_base::{Channel, Slot};
use fr_cluster::{ParamName, Params};
use fr_frame::{FrameFault, Header, seal};
use fr_time::{Kind, Sending, cycle_count};

/// Writes the regular frame of a static slot in a cycle, as its sender sends it on a channel, to the start
/// of `out`, and leaves the rest (chapters 4 and 5). Answers how many bytes it has: as many as each frame
/// of the cluster.
pub fn frame_of(
    params: &Params,
    sending: &Sending,
    slot: Slot,
    cycle: u32,
    channel: Channel,
    out: &mut [u8],
) -> usize
    requires sends { sender_of params.now slot cycle ≡ Some sending.now }
    requires room { 8 + payload_bytes params.now ≤ length out.old }
    ensures count { result ≡ 8 + payload_bytes params.now }
    ensures written { out.new ≡
        regular_frame params.now sending.now slot cycle channel ++ drop result out.old }
{
    let header = header_of(params, sending, slot, cycle);
    let end = 5 + 2 * usize::from(header.words);
    fill(&mut out[5..end], header.null_bit, slot, cycle);
    match seal(channel, &header, out) {
        Ok(written) => written,
        Err(_) => unreachable!(),
    }
}

/// What the regular frame of a static slot in a cycle is on its channel, without a look at its bytes: a frame with
/// its header.
pub fn regular_read(
    params: &Params,
    sending: &Sending,
    slot: Slot,
    cycle: u32,
    channel: Channel,
) -> Result<Header, FrameFault>
    requires sends { sender_of params.now slot cycle ≡ Some sending.now }
    ensures { result ≡ read_as channel (regular_frame params.now sending.now slot cycle channel) }
{
    sane(params);
    Ok(header_of(params, sending, slot, cycle))
}

// The header of the frame.
fn header_of(params: &Params, sending: &Sending, slot: Slot, cycle: u32) -> Header
    ensures value { result ≡ regular_header params.now sending.now slot cycle }
    ensures words { result.words ≤ 127 }
{
    let sync = matches!(sending.kind, Kind::SyncFrame);
    Header {
        reserved: false,
        preamble: false,
        null_bit: !matches!(sending.kind, Kind::NullFrame),
        sync,
        startup: sync && params.is_coldstart(sending.node),
        id: slot.0,
        words: params.natural(ParamName::gPayloadLengthStatic) as u8,
        cycle: cycle_count(cycle),
    }
}

// For each place its lowest byte, as far as a payload goes that begins with any byte.
static RAMP: [u8; 510] = [
    0, 1, 2, 3, 4, 5, 6, 7, 8, 9, 10, 11, 12, 13, 14, 15, 16, 17, 18, 19, 20, 21, 22, 23, 24, 25,
    26, 27, 28, 29, 30, 31, 32, 33, 34, 35, 36, 37, 38, 39, 40, 41, 42, 43, 44, 45, 46, 47, 48, 49,
    50, 51, 52, 53, 54, 55, 56, 57, 58, 59, 60, 61, 62, 63, 64, 65, 66, 67, 68, 69, 70, 71, 72, 73,
    74, 75, 76, 77, 78, 79, 80, 81, 82, 83, 84, 85, 86, 87, 88, 89, 90, 91, 92, 93, 94, 95, 96, 97,
    98, 99, 100, 101, 102, 103, 104, 105, 106, 107, 108, 109, 110, 111, 112, 113, 114, 115, 116,
    117, 118, 119, 120, 121, 122, 123, 124, 125, 126, 127, 128, 129, 130, 131, 132, 133, 134, 135,
    136, 137, 138, 139, 140, 141, 142, 143, 144, 145, 146, 147, 148, 149, 150, 151, 152, 153, 154,
    155, 156, 157, 158, 159, 160, 161, 162, 163, 164, 165, 166, 167, 168, 169, 170, 171, 172, 173,
    174, 175, 176, 177, 178, 179, 180, 181, 182, 183, 184, 185, 186, 187, 188, 189, 190, 191, 192,
    193, 194, 195, 196, 197, 198, 199, 200, 201, 202, 203, 204, 205, 206, 207, 208, 209, 210, 211,
    212, 213, 214, 215, 216, 217, 218, 219, 220, 221, 222, 223, 224, 225, 226, 227, 228, 229, 230,
    231, 232, 233, 234, 235, 236, 237, 238, 239, 240, 241, 242, 243, 244, 245, 246, 247, 248, 249,
    250, 251, 252, 253, 254, 255, 0, 1, 2, 3, 4, 5, 6, 7, 8, 9, 10, 11, 12, 13, 14, 15, 16, 17, 18,
    19, 20, 21, 22, 23, 24, 25, 26, 27, 28, 29, 30, 31, 32, 33, 34, 35, 36, 37, 38, 39, 40, 41, 42,
    43, 44, 45, 46, 47, 48, 49, 50, 51, 52, 53, 54, 55, 56, 57, 58, 59, 60, 61, 62, 63, 64, 65, 66,
    67, 68, 69, 70, 71, 72, 73, 74, 75, 76, 77, 78, 79, 80, 81, 82, 83, 84, 85, 86, 87, 88, 89, 90,
    91, 92, 93, 94, 95, 96, 97, 98, 99, 100, 101, 102, 103, 104, 105, 106, 107, 108, 109, 110, 111,
    112, 113, 114, 115, 116, 117, 118, 119, 120, 121, 122, 123, 124, 125, 126, 127, 128, 129, 130,
    131, 132, 133, 134, 135, 136, 137, 138, 139, 140, 141, 142, 143, 144, 145, 146, 147, 148, 149,
    150, 151, 152, 153, 154, 155, 156, 157, 158, 159, 160, 161, 162, 163, 164, 165, 166, 167, 168,
    169, 170, 171, 172, 173, 174, 175, 176, 177, 178, 179, 180, 181, 182, 183, 184, 185, 186, 187,
    188, 189, 190, 191, 192, 193, 194, 195, 196, 197, 198, 199, 200, 201, 202, 203, 204, 205, 206,
    207, 208, 209, 210, 211, 212, 213, 214, 215, 216, 217, 218, 219, 220, 221, 222, 223, 224, 225,
    226, 227, 228, 229, 230, 231, 232, 233, 234, 235, 236, 237, 238, 239, 240, 241, 242, 243, 244,
    245, 246, 247, 248, 249, 250, 251, 252, 253,
];

// Fills a payload: with the bytes of its pattern where it is valid, and else with zeros.
fn fill(bytes: &mut [u8], valid: bool, slot: Slot, cycle: u32)
    requires { length bytes.old ≤ 254 }
    ensures { bytes.new ≡ payload_of valid (length bytes.old) slot cycle }
{
    if valid {
        let first = first_byte(slot, cycle);
        bytes.copy_from_slice(&RAMP[first..first + bytes.len()]);
    } else {
        bytes.fill(0);
    }
}

// The first byte of a valid payload.
fn first_byte(slot: Slot, cycle: u32) -> usize
    ensures value { result ≡ payload_byte slot cycle 0 }
    ensures most { result ≤ 255 }
{
    (7 * usize::from(slot.0) + 3 * usize::from(cycle_count(cycle))) % 256
}
