ghost use Rattle.std.specs.Prelude.{◌≡◌, pos, find};
ghost use Rattle.std.specs.Str.{bytes_eq};
ghost use Rattle.fr_cluster.specs.Ranges.{greatest, least};
ghost use Rattle.fr_params.specs.Names.{name_of, names_of, place, word_of};

use fr_cluster::ParamName;

/// The versions of a parameter file. Their tables differ in the delay compensation alone.
#[derive(Clone, Copy, Debug, PartialEq, Eq)]
pub enum Version {
    /// One delay compensation for both channels.
    One,
    /// A delay compensation for each channel.
    Two,
}

// The table of parameters: a line for each name with the range of its values, in the order of the enum. It stands in
// four groups, by the versions of a file that have the name. The constants below are made of it by macros, since the
// value of a constant calls no function.
macro_rules! of_table {
    ($made:ident) => {
        $made! {
            both {
                gMacroPerCycle(10..=16_000),
                pMicroPerCycle(10..=640_000),
                gNumberOfStaticSlots(1..=1023),
                gdStaticSlot(2..=1000),
                gdActionPointOffset(1..=63),
                gdNIT(1..=15_999),
                gPayloadLengthStatic(0..=127),
                gOffsetCorrectionStart(1..=15_999),
                gMaxWithoutClockCorrectionPassive(1..=15),
                gMaxWithoutClockCorrectionFatal(1..=15),
                pAllowHaltDueToClock(0..=1),
                pAllowPassiveToActive(0..=31),
                pClusterDriftDamping(0..=100),
                pOffsetCorrectionOut(1..=16_000),
                pRateCorrectionOut(1..=2000),
            }
            one {
                pDelayCompensation(0..=200),
            }
            two {
                pDelayCompensationA(0..=200),
                pDelayCompensationB(0..=200),
            }
            both {
                xRateBound(0..=1500),
                xChangeBound(0..=1500),
                xDelayError(0..=10_000_000),
            }
        }
    };
}

macro_rules! entries {
    ($($group:ident { $($name:ident($least:literal..=$greatest:literal),)* })*) => {
        [$($(Entry { word: stringify!($name), least: $least, greatest: $greatest },)*)*]
    };
}

macro_rules! all_names {
    ($($group:ident { $($name:ident $range:tt,)* })*) => {
        [$($(ParamName::$name,)*)*]
    };
}

macro_rules! names_of_one {
    (both $front:tt one $own:tt two $other:tt both $rest:tt) => {
        all_names! { both $front one $own both $rest }
    };
}

macro_rules! names_of_two {
    (both $front:tt one $other:tt two $own:tt both $rest:tt) => {
        all_names! { both $front two $own both $rest }
    };
}

// What a file has of a name: how it is spelt, and the range of its values.
struct Entry {
    word: &'static str,
    least: i64,
    greatest: i64,
}

const TABLE: [Entry; 21] = of_table!(entries);

/// All names of both versions.
pub const NAMES: [ParamName; 21] = of_table!(all_names);

/// The table of the first version, in its order.
pub const NAMES_OF_ONE: [ParamName; 19] = of_table!(names_of_one);

/// The table of the second version, in its order.
pub const NAMES_OF_TWO: [ParamName; 20] = of_table!(names_of_two);

/// The names of a version's table, in its order.
pub fn names_of(version: Version) -> &'static [ParamName]
    ensures { result.now ≡ names_of version }
{
    match version {
        Version::One => &NAMES_OF_ONE,
        Version::Two => &NAMES_OF_TWO,
    }
}

/// The name of a version that a text spells, if it spells one: a name of the other version alone is none.
pub fn name_of(version: Version, text: &[u8]) -> Option<ParamName>
    ensures { result ≡ name_of version text.now }
{
    first_spelt(names_of(version), text)
}

/// The name as a parameter file spells it.
pub fn word_of(name: ParamName) -> &'static [u8]
    ensures { result.now ≡ word_of name }
{
    entry_of(name).word.as_bytes()
}

/// Its place among the names of both versions, from 0.
pub fn place_of(name: ParamName) -> usize
    ensures { result ≡ place name }
{
    name as usize
}

/// The least value that it may have.
pub fn least_of(name: ParamName) -> i64
    ensures { result ≡ pos (least name) }
{
    entry_of(name).least
}

/// The greatest value that it may have.
pub fn greatest_of(name: ParamName) -> i64
    ensures { result ≡ pos (greatest name) }
{
    entry_of(name).greatest
}

fn entry_of(name: ParamName) -> &'static Entry
    ensures word { result.now.word.now ≡ word_of name }
    ensures least { result.now.least ≡ pos (least name) }
    ensures greatest { result.now.greatest ≡ pos (greatest name) }
{
    &TABLE[name as usize]
}

fn first_spelt(names: &[ParamName], text: &[u8]) -> Option<ParamName>
    ensures { result ≡ find (λ name. bytes_eq text.now (word_of name)) names.now }
{
    names.iter().copied().find(|name| text == word_of(*name))
}
