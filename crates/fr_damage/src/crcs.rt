ghost use Rattle.std.specs.Prelude.{◌≡◌, ◌≢◌, ◌↔◌, ◌+◌, ◌*◌, ◌<◌, ◌≤◌, ℕ, true, List, ◌∷◌, ◌++◌, Bool, length};
ghost use Rattle.fr_crc.specs.Bits.{xor, zeros};
ghost use Rattle.fr_crc.specs.Crc.{IsCrc, frame_generator, header_generator};
ghost use Rattle.fr_damage.specs.Damage.{DifferWithin, EndsInOne, has_odd_ones, inverted, ones};

/// A law: the remainder of a sum without carry of two messages of one length is the sum of their remainders,
/// with the sum of their start values.
pub fn the_crc_of_a_sum()
    ensures { (generator start other message further first second : List Bool) →
        0 < length generator → length message ≡ length further →
        IsCrc generator start message first → IsCrc generator other further second →
        IsCrc generator (xor start other) (xor message further) (xor first second) }
{}

/// A law: two messages of one length have the same CRC exactly where the generator divides their difference,
/// which is where the difference has remainder 0 with start value 0.
pub fn equal_crcs()
    ensures { (generator start message further first second : List Bool) →
        0 < length generator → length message ≡ length further →
        IsCrc generator start message first → IsCrc generator start further second →
        (first ≡ second) ↔ IsCrc generator (zeros (length generator)) (xor message further)
        (zeros (length generator)) }
{}

/// A law: a message and the same with one bit inverted have different CRCs, of any width and start value, where
/// the last bit of the generator is 1.
pub fn one_bit_changes_the_crc()
    ensures { (generator start message first second : List Bool) (place : ℕ) →
        EndsInOne generator → place < length message →
        IsCrc generator start message first →
        IsCrc generator start (inverted place message) second → first ≢ second }
{}

/// A law: two messages of one length that differ in an odd number of bits have different CRCs, where the
/// generator with its first bit has an even number of ones. Both generators have.
pub fn an_odd_number_of_bits_changes_the_crc()
    ensures any { (generator start message further first second : List Bool) →
        has_odd_ones generator ≡ true → length message ≡ length further →
        has_odd_ones (xor message further) ≡ true →
        IsCrc generator start message first → IsCrc generator start further second →
        first ≢ second }
    ensures header { has_odd_ones header_generator ≡ true }
    ensures frame { has_odd_ones frame_generator ≡ true }
{}

/// A law: two messages that differ only within a window as wide as the CRC have different CRCs, where the last bit
/// of the generator is 1. Both generators end in 1. Of a window one bit wider that holds the generator, with its first
/// bit, as what is inverted, the CRC sees nothing.
pub fn a_burst_changes_the_crc()
    ensures any { (generator start message further first second : List Bool) →
        EndsInOne generator → DifferWithin (length generator) message further →
        IsCrc generator start message first → IsCrc generator start further second →
        first ≢ second }
    ensures unseen { (generator start before middle behind first second : List Bool) →
        0 < length generator → length middle ≡ length generator + 1 →
        IsCrc generator start (before ++ middle ++ behind) first →
        IsCrc generator start (before ++ xor middle (true ∷ generator) ++ behind) second →
        first ≡ second }
    ensures header { EndsInOne header_generator }
    ensures frame { EndsInOne frame_generator }
{}

/// A law: a message and the same with two bits inverted, at most 30 places apart, have different header CRCs. Of
/// two bits 31 places apart the header CRC sees nothing.
pub fn two_bits_change_the_header_crc()
    ensures seen { (start message first second : List Bool) (place distance : ℕ) →
        1 ≤ distance → distance ≤ 30 → place + distance < length message →
        IsCrc header_generator start message first →
        IsCrc header_generator start (inverted place (inverted (place + distance) message)) second →
        first ≢ second }
    ensures unseen { (start message first second : List Bool) (place : ℕ) →
        place + 31 < length message →
        IsCrc header_generator start message first →
        IsCrc header_generator start (inverted place (inverted (place + 31) message)) second →
        first ≡ second }
{}

/// A law: a message and the same with two bits inverted, at most 4,093 places apart, have different frame CRCs. Of
/// two bits 4,094 places apart the frame CRC sees nothing. A frame has at most 2,096 bits.
pub fn two_bits_change_the_frame_crc()
    ensures seen { (start message first second : List Bool) (place distance : ℕ) →
        1 ≤ distance → distance ≤ 4093 → place + distance < length message →
        IsCrc frame_generator start message first →
        IsCrc frame_generator start (inverted place (inverted (place + distance) message)) second →
        first ≢ second }
    ensures unseen { (start message first second : List Bool) (place : ℕ) →
        place + 4094 < length message →
        IsCrc frame_generator start message first →
        IsCrc frame_generator start (inverted place (inverted (place + 4094) message)) second →
        first ≡ second }
{}

/// A law: two different messages of as many bits as the header CRC covers, each with its header CRC behind it, differ
/// in six bits at least. Two of at most 259 bytes, each with its frame CRC, differ in four at least.
pub fn code_words_lie_apart()
    ensures header { (start message further first second : List Bool) →
        length message ≤ 20 → length message ≡ length further → message ≢ further →
        IsCrc header_generator start message first →
        IsCrc header_generator start further second →
        6 ≤ ones (xor message further) + ones (xor first second) }
    ensures frame { (start message further first second : List Bool) →
        length message ≤ 8 * 259 → length message ≡ length further → message ≢ further →
        IsCrc frame_generator start message first →
        IsCrc frame_generator start further second →
        4 ≤ ones (xor message further) + ones (xor first second) }
{}
