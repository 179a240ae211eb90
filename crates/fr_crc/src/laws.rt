ghost use Rattle.std.specs.Prelude.{◌≡◌, ◌<◌, ℕ, Bool, List, length};
ghost use Rattle.fr_base.specs.declared.channel.Channel.{Channel};
ghost use Rattle.fr_crc.specs.Crc.{IsCrc, IsHeaderCrc, IsFrameCrc};
ghost use Rattle.fr_crc.specs.Computed.{header_crc_of, frame_crc_of};

/// A law: a message has a remainder at each generator and start value of its width.
pub fn a_remainder()
    ensures { (generator start message : List Bool) → 0 < length generator →
        length start ≡ length generator →
        (remainder : List Bool) × IsCrc generator start message remainder }
{}

/// A law: a message has no two remainders at one generator and start value.
pub fn one_remainder()
    ensures { (generator start message first second : List Bool) →
        IsCrc generator start message first → IsCrc generator start message second →
        first ≡ second }
{}

/// A law: the fields of a header have a header CRC, the one that the register ends with.
pub fn a_header_crc()
    ensures { (sync startup : Bool) (id words : ℕ) →
        IsHeaderCrc sync startup id words (header_crc_of sync startup id words) }
{}

/// A law: the fields of a header have no two header CRCs.
pub fn one_header_crc()
    ensures { (sync startup : Bool) (id words first second : ℕ) →
        IsHeaderCrc sync startup id words first → IsHeaderCrc sync startup id words second →
        first ≡ second }
{}

/// A law: bytes have a frame CRC on each channel, the one that the register ends with.
pub fn a_frame_crc()
    ensures { (channel : Channel) (body : List ℕ) →
        IsFrameCrc channel body (frame_crc_of channel body) }
{}

/// A law: bytes have no two frame CRCs on one channel.
pub fn one_frame_crc()
    ensures { (channel : Channel) (body : List ℕ) (first second : ℕ) →
        IsFrameCrc channel body first → IsFrameCrc channel body second → first ≡ second }
{}
