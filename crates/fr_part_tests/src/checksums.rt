// The two checksums, by tables and bit by bit.
use fr_base::Channel;
use fr_crc::{
    frame_crc, frame_crc_by_bits, frame_entry, header_crc, header_crc_by_bits, header_entry,
};

// The sync frame indicator, the startup frame indicator, the ID, the words, and the header CRC.
const HEADERS: &[(bool, bool, u16, u8, u16)] = &[
    (true, true, 1, 0, 0x1BC),
    (false, false, 0, 0, 0x76A),
    (false, true, 1, 0, 0x47E),
    (false, false, 5, 1, 0x2CE),
    (false, false, 2047, 127, 0x135),
    (true, true, 1, 1, 0x239),
    (true, false, 0, 0, 0x2A8),
    (false, true, 0, 0, 0x58B),
    (true, false, 5, 1, 0x70C),
    (false, true, 5, 1, 0x02F),
    (true, false, 1024, 64, 0x322),
    (false, true, 1024, 64, 0x401),
    (true, false, 2047, 127, 0x4F7),
    (false, true, 2047, 127, 0x3D4),
];

// The bytes before a frame CRC, and the CRC on both channels. The last row has the published check values.
const BODIES: &[(&[u8], u32, u32)] = &[
    (b"", 0xFEDCBA, 0xABCDEF),
    (b"\x18", 0x0C9FA8, 0xFC63FE),
    (b"\x18\x01\x00\x6F\x00", 0x9AE525, 0x716B40),
    (b"\x18\x01\x00\x6F\x01", 0xC788EE, 0x2C068B),
    (b"\x00\x00\x01\xDA\x80", 0x5FA26B, 0xB42C0E),
    (b"\x08\x01\x01\x1F\x80", 0xF6C462, 0x1D4A07),
    (b"\x20\x05\x02\xB3\x89\x12\x34", 0x75126B, 0x5392BA),
    (b"\x18\x01\x00\x6F\x00\x9A\xE5\x25", 0x000000, 0x096A82),
    (
        b"\x18\x01\x00\x6F\x00\x9A\xE5\x25\x20\x05\x02\xB3\x89\x12\x34\x75\x12\x6B",
        0xEF6B2F,
        0xEFAEEF,
    ),
    (
        b"\x18\x01\x00\x6F\x00\x9A\xE5\x25\x20\x05\x02\xB3\x89\x12\x34\x75\x12\x6B\x18\x01\x00",
        0x14DCC1,
        0x069131,
    ),
    (b"123456789", 0x7979BD, 0x1F23B8),
];

// What stands for an index in the tables of the header CRC and of the frame CRC.
const ENTRIES: &[(u8, u16, u32)] = &[
    (0, 0x000, 0x000000),
    (1, 0x385, 0x5D6DCB),
    (2, 0x70A, 0xBADB96),
    (3, 0x48F, 0xE7B65D),
    (4, 0x591, 0x28DAE7),
];

// The header CRC by both ways; none outside of its ranges.
fn header_crcs(sync: bool, startup: bool, id: u16, words: u8) -> Option<[u16; 2]> {
    if id > 2047 || words > 127 {
        return None;
    }
    Some([
        header_crc(sync, startup, id, words),
        header_crc_by_bits(sync, startup, id, words),
    ])
}

// The frame CRC on each channel by both ways; none of more bytes than a frame has.
fn frame_crcs(body: &[u8]) -> Option<[u32; 4]> {
    if body.len() > 259 {
        return None;
    }
    Some([
        frame_crc(Channel::A, body),
        frame_crc_by_bits(Channel::A, body),
        frame_crc(Channel::B, body),
        frame_crc_by_bits(Channel::B, body),
    ])
}

fn entries(index: u8) -> Option<(u16, u32)> {
    if index < 16 {
        Some((header_entry(index), frame_entry(index)))
    } else {
        None
    }
}

#[test]
fn checksums_are_those_of_the_rows(rt: HostRuntime) {
    for (sync, startup, id, words, crc) in HEADERS {
        let told = header_crcs(*sync, *startup, *id, *words);
        assert!(rt; told == Some([*crc, *crc]));
    }
    for (body, on_a, on_b) in BODIES {
        assert!(rt; frame_crcs(body) == Some([*on_a, *on_a, *on_b, *on_b]));
    }
    for (index, header, frame) in ENTRIES {
        assert!(rt; entries(*index) == Some((*header, *frame)));
    }
}
