ghost use Rattle.std.specs.Prelude.{◌≡◌, ◌<◌, ◌^◌, length};
ghost use Rattle.fr_crc.specs.Bits.{bits, message_of};
ghost use Rattle.fr_crc.specs.Crc.{frame_generator};
ghost use Rattle.fr_crc.specs.Register.{after};

use crate::entries::{
    before_eight, before_eleven, before_fifteen, before_five, before_four, before_fourteen,
    before_nine, before_one, before_seven, before_six, before_ten, before_thirteen, before_three,
    before_twelve, before_two,
};
use crate::tables::{after_each, frame_entry};

// The register of the frame CRC after bytes, any number of them: sixteen at a time, and then the last ones.
pub(crate) fn after_body(mut register: u32, bytes: &[u8]) -> u32
    requires { register < 2 ^ 24 }
    ensures fits { result < 2 ^ 24 }
    ensures after { bits 24 result ≡
        after frame_generator (bits 24 register) (message_of bytes.now) }
{
    let mut done = 0;
    'sixteens: while bytes.len() - done >= 16 {
        register = after_sixteen_bytes(register, &bytes[done..done + 16]);
        done += 16;
    }
    after_rest(register, &bytes[done..])
}

// The same, by eight bytes where there are so many, and then the last ones.
fn after_rest(register: u32, bytes: &[u8]) -> u32
    requires { register < 2 ^ 24 }
    ensures fits { result < 2 ^ 24 }
    ensures after { bits 24 result ≡
        after frame_generator (bits 24 register) (message_of bytes.now) }
{
    if bytes.len() < 8 {
        return after_last(register, bytes);
    }
    let register = after_eight_bytes(register, &bytes[..8]);
    after_last(register, &bytes[8..])
}

// The same, by four bytes where there are so many, and then one by one.
fn after_last(register: u32, bytes: &[u8]) -> u32
    requires { register < 2 ^ 24 }
    ensures fits { result < 2 ^ 24 }
    ensures after { bits 24 result ≡
        after frame_generator (bits 24 register) (message_of bytes.now) }
{
    if bytes.len() < 4 {
        return after_each(register, bytes);
    }
    let register = after_four_bytes(register, &bytes[..4]);
    after_each(register, &bytes[4..])
}

// The register after sixteen more bytes. The first three count by their sums with the register's own three bytes.
fn after_sixteen_bytes(register: u32, bytes: &[u8]) -> u32
    requires register { register < 2 ^ 24 }
    requires bytes { length bytes.now ≡ 16 }
    ensures fits { result < 2 ^ 24 }
    ensures next { bits 24 result ≡
        after frame_generator (bits 24 register) (message_of bytes.now) }
{
    let sum = before_one(bytes[14]) ^ frame_entry(bytes[15]);
    let sum = before_two(bytes[13]) ^ sum;
    let sum = before_three(bytes[12]) ^ sum;
    let sum = before_four(bytes[11]) ^ sum;
    let sum = before_five(bytes[10]) ^ sum;
    let sum = before_six(bytes[9]) ^ sum;
    let sum = before_seven(bytes[8]) ^ sum;
    let sum = before_eight(bytes[7]) ^ sum;
    let sum = before_nine(bytes[6]) ^ sum;
    let sum = before_ten(bytes[5]) ^ sum;
    let sum = before_eleven(bytes[4]) ^ sum;
    let sum = before_twelve(bytes[3]) ^ sum;
    let sum = before_thirteen((register % 256) as u8 ^ bytes[2]) ^ sum;
    let sum = before_fourteen((register / 256 % 256) as u8 ^ bytes[1]) ^ sum;
    before_fifteen((register / 65536) as u8 ^ bytes[0]) ^ sum
}

// The register after eight more bytes, in the same way.
fn after_eight_bytes(register: u32, bytes: &[u8]) -> u32
    requires register { register < 2 ^ 24 }
    requires bytes { length bytes.now ≡ 8 }
    ensures fits { result < 2 ^ 24 }
    ensures next { bits 24 result ≡
        after frame_generator (bits 24 register) (message_of bytes.now) }
{
    let sum = before_one(bytes[6]) ^ frame_entry(bytes[7]);
    let sum = before_two(bytes[5]) ^ sum;
    let sum = before_three(bytes[4]) ^ sum;
    let sum = before_four(bytes[3]) ^ sum;
    let sum = before_five((register % 256) as u8 ^ bytes[2]) ^ sum;
    let sum = before_six((register / 256 % 256) as u8 ^ bytes[1]) ^ sum;
    before_seven((register / 65536) as u8 ^ bytes[0]) ^ sum
}

// The register after four more bytes, in the same way.
fn after_four_bytes(register: u32, bytes: &[u8]) -> u32
    requires register { register < 2 ^ 24 }
    requires bytes { length bytes.now ≡ 4 }
    ensures fits { result < 2 ^ 24 }
    ensures next { bits 24 result ≡
        after frame_generator (bits 24 register) (message_of bytes.now) }
{
    let sum = before_one((register % 256) as u8 ^ bytes[2]) ^ frame_entry(bytes[3]);
    let sum = before_two((register / 256 % 256) as u8 ^ bytes[1]) ^ sum;
    before_three((register / 65536) as u8 ^ bytes[0]) ^ sum
}
