ghost use Rattle.std.specs.Prelude.{◌≡◌, ℕ, ◌+◌, ◌<◌, ◌≤◌, ◌^◌};
ghost use Rattle.fr_crc.specs.Bits.{bits, message_of};
ghost use Rattle.fr_crc.specs.Register.{register_stepped, after};

// A generator: its degree, and its terms below the first one as a number of that many bits.
#[derive(Clone, Copy)]
pub(crate) struct Generator {
    pub(crate) width: u32,
    pub(crate) terms: u32,
    ghost some: { 1 ≤ width },
    ghost room: { width ≤ 31 },
    ghost fits: { terms < 2 ^ width },
}

// The register after one more bit.
pub(crate) fn after_bit(generator: Generator, register: u32, bit: bool) -> u32
    requires { register < 2 ^ generator.width }
    ensures fits { result < 2 ^ generator.width }
    ensures next { bits generator.width result ≡
        register_stepped (bits generator.width generator.terms) (bits generator.width register) bit }
{
    let top = (register >> (generator.width - 1)) & 1 == 1;
    let shifted = (register << 1) & ((1 << generator.width) - 1);
    if top != bit {
        shifted ^ generator.terms
    } else {
        shifted
    }
}

// The register after the lowest `count` bits of a number, the most significant first.
pub(crate) fn after_bits(generator: Generator, mut register: u32, count: u32, number: u32) -> u32
    requires register { register < 2 ^ generator.width }
    requires count { count ≤ 32 }
    ensures fits { result < 2 ^ generator.width }
    ensures after { bits generator.width result ≡
        after (bits generator.width generator.terms) (bits generator.width register)
        (bits count number) }
{
    for place in (0..count).rev() {
        register = after_bit(generator, register, (number >> place) & 1 == 1);
    }
    register
}

// The register after bytes, any number of them, each with its most significant bit first.
pub(crate) fn after_bytes(generator: Generator, mut register: u32, bytes: &[u8]) -> u32
    requires { register < 2 ^ generator.width }
    ensures fits { result < 2 ^ generator.width }
    ensures after { bits generator.width result ≡
        after (bits generator.width generator.terms) (bits generator.width register)
        (message_of bytes.now) }
{
    for byte in bytes {
        register = after_bits(generator, register, 8, u32::from(*byte));
    }
    register
}
