ghost use Rattle.std.specs.Prelude.{◌≡◌};
ghost use Rattle.fr_text.specs.Pieces.{line};
ghost use Rattle.fr_coverage.specs.Phrases.{precision_text, skew_text, sync_text};

use fr_text::Piece::{Natural, Signed, Word};
use fr_text::{Line, line_of};

/// The line of the precision, in ticks.
pub fn precision_line(precision: u64) -> Line
    ensures { result ≡ line (precision_text precision) }
{
    line_of(&[Word(b"precision "), Natural(precision)])
}

/// The line of the first double cycle in sync, or that there is none.
pub fn sync_line(synced: Option<u32>) -> Line
    ensures { result ≡ line (sync_text synced) }
{
    match synced {
        None => line_of(&[Word(b"in sync never")]),
        Some(double) => line_of(&[Word(b"in sync "), Natural(u64::from(double))]),
    }
}

/// The line of the greatest skew, in ticks, with the first cycle and macrotick at which it occurs.
pub fn skew_line(skew: i64, cycle: u32, macrotick: i64) -> Line
    ensures { result ≡ line (skew_text skew cycle macrotick) }
{
    line_of(&[
        Word(b"greatest skew "),
        Signed(skew),
        Word(b" cycle "),
        Natural(u64::from(cycle)),
        Word(b" macrotick "),
        Signed(macrotick),
    ])
}
