// Laws: numbers that are written read back.
ghost use Rattle.fr_text.specs.ReadBack.{HexadecimalsArePlain, NaturalsArePlain, NaturalsAreReadBack, NumbersAreReadBack, SignedArePlain, SignedAreReadBack};

/// A law: a number of at most 18 digits that is written in decimal reads as itself, also where a range is asked for.
pub fn numbers_are_read_back()
    ensures number { NumbersAreReadBack }
    ensures natural { NaturalsAreReadBack }
    ensures signed { SignedAreReadBack }
{}

/// A law: a field that is written as a number, in decimal or with hexadecimal digits, is one without commas, quotes and
/// line ends.
pub fn fields_are_plain()
    ensures natural { NaturalsArePlain }
    ensures signed { SignedArePlain }
    ensures hexadecimal { HexadecimalsArePlain }
{}
