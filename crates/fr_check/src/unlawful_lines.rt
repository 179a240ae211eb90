ghost use Rattle.std.specs.Prelude.{◌≡◌, ◌≤◌, codes, length};
ghost use Rattle.std.specs.Fmt.{decimal, signed_decimal};
ghost use Rattle.fr_text.specs.Pieces.{line, Spells};
ghost use Rattle.fr_check.specs.UnlawfulText.{apart_text, deviation_text, kept_text, silent_text, turn_text, unlawful_text};

use fr_base::State;
use fr_coverage::gap_line;
use fr_text::Piece::{Natural, Signed, Word};
use fr_text::{Line, Piece, line_of};
use fr_verdict::Unlawful;

/// The line of the first record that breaks a law of a trace, or of its first gap.
pub fn unlawful_line(why: &Unlawful) -> Line
    ensures { result ≡ line (unlawful_text why.now) }
{
    match *why {
        Unlawful::Start {
            number,
            kept,
            wanted,
        } => kept_line(number, b" start ", kept, wanted),
        Unlawful::Rate {
            number,
            kept,
            wanted,
        } => kept_line(number, b" rate ", i64::from(kept), i64::from(wanted)),
        Unlawful::Turn {
            number,
            kept,
            wanted,
        } => turn_line(number, kept, wanted),
        Unlawful::Offset {
            number,
            kept,
            wanted,
        } => offset_line(number, i64::from(kept), i64::from(wanted)),
        Unlawful::Silent { number, state } => silent_line(number, state),
        Unlawful::Deviation {
            number,
            kept,
            low,
            high,
        } => deviation_line(number, i64::from(kept), low, high),
        Unlawful::Apart { number, double } => apart_line(number, double),
        Unlawful::Uncovered(gap) => gap_line(b"trace: not covered ", gap),
    }
}

fn kept_line(number: u64, law: &[u8], kept: i64, wanted: i64) -> Line
    requires { length law.now ≤ 10 }
    ensures { result ≡ line (kept_text number law.now kept wanted) }
{
    line_of(&[
        Word(b"trace: record "),
        Natural(number),
        Word(law),
        Signed(kept),
        Word(b" expected "),
        Signed(wanted),
    ])
}

fn offset_line(number: u64, kept: i64, wanted: i64) -> Line
    ensures { result ≡ line (kept_text number (codes " offset ") kept wanted) }
{
    kept_line(number, b" offset ", kept, wanted)
}

fn turn_line(number: u64, kept: State, wanted: State) -> Line
    ensures { result ≡ line (turn_text number kept wanted) }
{
    line_of(&[
        Word(b"trace: record "),
        Natural(number),
        Word(b" state "),
        Word(kept.word()),
        Word(b" expected "),
        Word(wanted.word()),
    ])
}

fn silent_line(number: u64, state: State) -> Line
    ensures { result ≡ line (silent_text number state) }
{
    line_of(&[
        Word(b"trace: record "),
        Natural(number),
        Word(b" silent "),
        Word(state.word()),
    ])
}

fn deviation_line(number: u64, kept: i64, low: i64, high: i64) -> Line
    ensures { result ≡ line (deviation_text number kept low high) }
{
    line_of(&[
        Word(b"trace: record "),
        natural(number),
        Word(b" deviation "),
        signed(kept),
        Word(b" expected "),
        signed(low),
        Word(b" to "),
        signed(high),
    ])
}

fn apart_line(number: u64, double: u32) -> Line
    ensures { result ≡ line (apart_text number double) }
{
    line_of(&[
        Word(b"trace: record "),
        Natural(number),
        Word(b" apart "),
        Natural(u64::from(double)),
    ])
}

fn natural(value: u64) -> Piece<'static>
    ensures { Spells result (decimal value) 20 }
{
    Natural(value)
}

fn signed(value: i64) -> Piece<'static>
    ensures { Spells result (signed_decimal value) 20 }
{
    Signed(value)
}
