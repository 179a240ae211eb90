ghost use Rattle.std.specs.Prelude.{◌≡◌, ◌≢◌, ◌⊎◌, ◌+◌, ◌-◌, ◌*◌, ◌^◌, ◌<◌, ◌≤◌, ℕ, true, List, All, length};
ghost use Rattle.fr_base.specs.declared.channel.Channel.{Channel};
ghost use Rattle.fr_crc.specs.Bits.{bits, message_of, xor};
ghost use Rattle.fr_frame.specs.declared.header.Header.{Header};
ghost use Rattle.fr_frame.specs.Frame.{IsFrame, IsFrameWith, IsNoFrame};
ghost use Rattle.fr_frame.specs.Fault.{IsFirstFault};
ghost use Rattle.fr_frame.specs.declared.fault.FrameFault.TheVariants.{FrameCrc, HeaderCrc};
ghost use Rattle.fr_damage.specs.Damage.{DifferWithin, FailsFrameCrc, FailsHeaderCrc, IsInHeaderCode, IsOutsideHeaderCode, has_odd_ones, header_code, inverted, ones};

/// A law: a frame with one bit inverted is no frame on its channel. Its first fault is the header CRC where the bit
/// is one of the 20 bits that this covers or of its own 11 bits, and else the frame CRC. Bits count from 0, the
/// first one sent.
pub fn one_bit_leaves_no_frame()
    ensures none { (channel : Channel) (header : Header) (payload bytes damaged : List ℕ) (place : ℕ) →
        IsFrame channel header payload bytes → place < 8 * length bytes →
        message_of damaged ≡ inverted place (message_of bytes) → IsNoFrame channel damaged }
    ensures header { (channel : Channel) (header : Header) (payload bytes damaged : List ℕ) (place : ℕ) →
        IsFrame channel header payload bytes → All (λ b. b < 2 ^ 8) damaged →
        IsInHeaderCode place →
        message_of damaged ≡ inverted place (message_of bytes) → FailsHeaderCrc channel damaged }
    ensures frame { (channel : Channel) (header : Header) (payload bytes damaged : List ℕ) (place : ℕ) →
        IsFrame channel header payload bytes → All (λ b. b < 2 ^ 8) damaged →
        IsOutsideHeaderCode place → place < 8 * length bytes →
        message_of damaged ≡ inverted place (message_of bytes) → FailsFrameCrc channel damaged }
{}

/// A law: the first fault of a frame with one bit inverted names a CRC of the frame beside another number. Where the
/// bit is one of those that the CRC covers, it is kept, and another is computed; where it is one of the CRC's own, it
/// is computed, and with that bit inverted it is kept. Bits 3 to 22 are covered by the header CRC, bits 23 to 33 are
/// this CRC, and the last 24 bits are the frame CRC.
pub fn one_bit_leaves_its_crc()
    ensures covered { (channel : Channel) (header : Header) (payload bytes damaged : List ℕ)
        (header_crc frame_crc place : ℕ) →
        IsFrameWith channel header payload header_crc frame_crc bytes →
        All (λ b. b < 2 ^ 8) damaged → 3 ≤ place → place ≤ 22 →
        message_of damaged ≡ inverted place (message_of bytes) →
        (computed : ℕ) × IsFirstFault channel damaged (HeaderCrc header_crc computed) }
    ensures header_crc { (channel : Channel) (header : Header) (payload bytes damaged : List ℕ)
        (header_crc frame_crc place : ℕ) →
        IsFrameWith channel header payload header_crc frame_crc bytes →
        All (λ b. b < 2 ^ 8) damaged → 23 ≤ place → place ≤ 33 →
        message_of damaged ≡ inverted place (message_of bytes) →
        (kept : ℕ) × ((bits 11 kept ≡ inverted (place - 23) (bits 11 header_crc)) ×
        IsFirstFault channel damaged (HeaderCrc kept header_crc)) }
    ensures body { (channel : Channel) (header : Header) (payload bytes damaged : List ℕ)
        (header_crc frame_crc place : ℕ) →
        IsFrameWith channel header payload header_crc frame_crc bytes →
        All (λ b. b < 2 ^ 8) damaged →
        IsOutsideHeaderCode place → place + 24 < 8 * length bytes →
        message_of damaged ≡ inverted place (message_of bytes) →
        (computed : ℕ) × IsFirstFault channel damaged (FrameCrc frame_crc computed) }
    ensures frame_crc { (channel : Channel) (header : Header) (payload bytes damaged : List ℕ)
        (header_crc frame_crc place : ℕ) →
        IsFrameWith channel header payload header_crc frame_crc bytes →
        All (λ b. b < 2 ^ 8) damaged →
        8 * length bytes ≤ place + 24 → place < 8 * length bytes →
        message_of damaged ≡ inverted place (message_of bytes) →
        (kept : ℕ) × ((bits 24 kept ≡ inverted (place + 24 - 8 * length bytes) (bits 24 frame_crc)) ×
        IsFirstFault channel damaged (FrameCrc kept frame_crc)) }
{}

/// A law: a frame with two bits inverted is no frame on its channel. Its first fault is the header CRC where one of
/// the two at least is a bit that this covers or of its own, and else the frame CRC.
pub fn two_bits_leave_no_frame()
    ensures none { (channel : Channel) (header : Header) (payload bytes damaged : List ℕ)
        (place distance : ℕ) →
        IsFrame channel header payload bytes →
        1 ≤ distance → place + distance < 8 * length bytes →
        message_of damaged ≡ inverted place (inverted (place + distance) (message_of bytes)) →
        IsNoFrame channel damaged }
    ensures header { (channel : Channel) (header : Header) (payload bytes damaged : List ℕ)
        (place distance : ℕ) →
        IsFrame channel header payload bytes → All (λ b. b < 2 ^ 8) damaged →
        1 ≤ distance → IsInHeaderCode place ⊎ IsInHeaderCode (place + distance) →
        message_of damaged ≡ inverted place (inverted (place + distance) (message_of bytes)) →
        FailsHeaderCrc channel damaged }
    ensures frame { (channel : Channel) (header : Header) (payload bytes damaged : List ℕ)
        (place distance : ℕ) →
        IsFrame channel header payload bytes → All (λ b. b < 2 ^ 8) damaged →
        IsOutsideHeaderCode place → IsOutsideHeaderCode (place + distance) →
        1 ≤ distance → place + distance < 8 * length bytes →
        message_of damaged ≡ inverted place (inverted (place + distance) (message_of bytes)) →
        FailsFrameCrc channel damaged }
{}

/// A law: bytes as many as those of a frame that differ from it in an odd number of bits are no frame on its
/// channel. The first fault is the header CRC where an odd number of them is among the bits that this covers and its
/// own, and the frame CRC where none is.
pub fn an_odd_number_of_bits_leaves_no_frame()
    ensures none { (channel : Channel) (header : Header) (payload bytes damaged : List ℕ) →
        IsFrame channel header payload bytes → length damaged ≡ length bytes →
        has_odd_ones (xor (message_of bytes) (message_of damaged)) ≡ true → IsNoFrame channel damaged }
    ensures header { (channel : Channel) (header : Header) (payload bytes damaged : List ℕ) →
        IsFrame channel header payload bytes → All (λ b. b < 2 ^ 8) damaged →
        length damaged ≡ length bytes →
        has_odd_ones (xor (header_code (message_of bytes)) (header_code (message_of damaged))) ≡ true →
        FailsHeaderCrc channel damaged }
    ensures frame { (channel : Channel) (header : Header) (payload bytes damaged : List ℕ) →
        IsFrame channel header payload bytes → All (λ b. b < 2 ^ 8) damaged →
        length damaged ≡ length bytes →
        header_code (message_of damaged) ≡ header_code (message_of bytes) →
        has_odd_ones (xor (message_of bytes) (message_of damaged)) ≡ true → FailsFrameCrc channel damaged }
{}

/// A law: bytes as many as those of a frame that differ from it in one, two or three bits are no frame on its channel.
/// Where of the bits that the header CRC covers and of its own one to five differ, the first fault is the header CRC,
/// whatever else differs; where none of them does, and one to three others, it is the frame CRC.
pub fn three_bits_leave_no_frame()
    ensures none { (channel : Channel) (header : Header) (payload bytes damaged : List ℕ) →
        IsFrame channel header payload bytes → length damaged ≡ length bytes →
        1 ≤ ones (xor (message_of bytes) (message_of damaged)) →
        ones (xor (message_of bytes) (message_of damaged)) ≤ 3 → IsNoFrame channel damaged }
    ensures header { (channel : Channel) (header : Header) (payload bytes damaged : List ℕ) →
        IsFrame channel header payload bytes → All (λ b. b < 2 ^ 8) damaged →
        length damaged ≡ length bytes →
        header_code (message_of damaged) ≢ header_code (message_of bytes) →
        ones (xor (header_code (message_of bytes)) (header_code (message_of damaged))) ≤ 5 →
        FailsHeaderCrc channel damaged }
    ensures frame { (channel : Channel) (header : Header) (payload bytes damaged : List ℕ) →
        IsFrame channel header payload bytes → All (λ b. b < 2 ^ 8) damaged →
        length damaged ≡ length bytes →
        header_code (message_of damaged) ≡ header_code (message_of bytes) →
        1 ≤ ones (xor (message_of bytes) (message_of damaged)) →
        ones (xor (message_of bytes) (message_of damaged)) ≤ 3 → FailsFrameCrc channel damaged }
{}

/// A law: bytes that differ from those of a frame only within a window of 24 bits, wherever it stands, are no frame
/// on its channel. Where the header's covered bits and its CRC are as they were, the first fault is the frame CRC.
/// Where they are not, and the window has 11 bits at most, it is the header CRC.
pub fn a_burst_leaves_no_frame()
    ensures none { (channel : Channel) (header : Header) (payload bytes damaged : List ℕ) →
        IsFrame channel header payload bytes →
        DifferWithin 24 (message_of bytes) (message_of damaged) → IsNoFrame channel damaged }
    ensures header { (channel : Channel) (header : Header) (payload bytes damaged : List ℕ) →
        IsFrame channel header payload bytes → All (λ b. b < 2 ^ 8) damaged →
        DifferWithin 11 (message_of bytes) (message_of damaged) →
        header_code (message_of damaged) ≢ header_code (message_of bytes) →
        FailsHeaderCrc channel damaged }
    ensures frame { (channel : Channel) (header : Header) (payload bytes damaged : List ℕ) →
        IsFrame channel header payload bytes → All (λ b. b < 2 ^ 8) damaged →
        DifferWithin 24 (message_of bytes) (message_of damaged) →
        header_code (message_of damaged) ≡ header_code (message_of bytes) →
        FailsFrameCrc channel damaged }
{}

/// A law: a frame of one channel is no frame on the other. Its first fault there is the frame CRC, of which the bytes
/// keep the one of their own channel.
pub fn a_frame_is_none_on_the_other_channel()
    ensures none { (channel other : Channel) (header : Header) (payload bytes : List ℕ) →
        channel ≢ other → IsFrame channel header payload bytes → IsNoFrame other bytes }
    ensures fault { (channel other : Channel) (header : Header) (payload bytes : List ℕ)
        (header_crc frame_crc : ℕ) →
        channel ≢ other → IsFrameWith channel header payload header_crc frame_crc bytes →
        (computed : ℕ) × IsFirstFault other bytes (FrameCrc frame_crc computed) }
{}
