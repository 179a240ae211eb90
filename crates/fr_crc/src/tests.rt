use crate::checks::HEADER_START;
use crate::plain::HEADER;
use crate::register::after_bytes;

// The published check value of the header CRC, over the nine ASCII digits from 1: they are no header, so the
// register is asked.
#[test]
fn header_check_value(rt: HostRuntime) {
    assert_eq!(rt; after_bytes(HEADER, HEADER_START, b"123456789"), 0x5A3);
}
