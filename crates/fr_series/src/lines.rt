ghost use Rattle.std.specs.Prelude.{◌≡◌};
ghost use Rattle.fr_series.specs.SeriesText.{above_text, series_row, series_end, greatest_text, series_head, synced_text, within_text, yes_or_no};
ghost use Rattle.fr_text.specs.Lines.{joined_lines};
ghost use Rattle.fr_text.specs.Pieces.{Spells, line};

use crate::figures::Figures;
use fr_skew::Peak;
use fr_text::Piece::{Natural, Signed, Word};
use fr_text::{Line, Piece, line_of};

pub(crate) fn head_line() -> Line
    ensures { result ≡ line series_head }
{
    line_of(&[Word(b"cycle,in_sync,skew,macrotick")])
}

pub(crate) fn cycle_line(cycle: u32, in_sync: bool, peak: Option<Peak>) -> Line
    ensures { result ≡ line (series_row cycle in_sync peak) }
{
    match peak {
        None => line_of(&[
            Natural(u64::from(cycle)),
            Word(b","),
            yes_or_no(in_sync),
            Word(b","),
            Word(b"-,-"),
        ]),
        Some(peak) => line_of(&[
            Natural(u64::from(cycle)),
            Word(b","),
            yes_or_no(in_sync),
            Word(b","),
            Signed(peak.skew),
            Word(b","),
            Natural(u64::from(peak.macrotick)),
        ]),
    }
}

pub(crate) fn yes_or_no<'a>(is: bool) -> Piece<'a>
    ensures { Spells result (yes_or_no is) 3 }
{
    if is { Word(b"yes") } else { Word(b"no") }
}

// The lines at the end.
#[tactic(auto, unfolding(crate::specs::SeriesText::series_end))]
pub(crate) fn end_lines(figures: &Figures) -> [Option<Line>; 3]
    ensures { joined_lines result ≡ series_end figures.now }
{
    [
        Some(greatest_line(figures.greatest)),
        Some(synced_line(figures.lost)),
        Some(within_line(figures.synced, figures.above)),
    ]
}

fn greatest_line(greatest: Option<Peak>) -> Line
    ensures { result ≡ line (greatest_text greatest) }
{
    match greatest {
        None => line_of(&[Word(b"greatest,-,-,-")]),
        Some(peak) => line_of(&[
            Word(b"greatest,"),
            Signed(peak.skew),
            Word(b","),
            Natural(u64::from(peak.cycle)),
            Word(b","),
            Natural(u64::from(peak.macrotick)),
        ]),
    }
}

fn synced_line(lost: Option<u32>) -> Line
    ensures { result ≡ line (synced_text lost) }
{
    match lost {
        None => line_of(&[Word(b"synced,yes,,")]),
        Some(double) => line_of(&[Word(b"synced,no,"), Natural(u64::from(double)), Word(b",")]),
    }
}

fn within_line(synced: Option<u32>, above: Option<Peak>) -> Line
    ensures { result ≡ line (within_text synced above) }
{
    match synced {
        None => line_of(&[Word(b"within,-,,")]),
        Some(_) => above_line(above),
    }
}

fn above_line(above: Option<Peak>) -> Line
    ensures { result ≡ line (above_text above) }
{
    match above {
        None => line_of(&[Word(b"within,yes,,")]),
        Some(peak) => line_of(&[
            Word(b"within,no,"),
            Natural(u64::from(peak.cycle)),
            Word(b","),
            Natural(u64::from(peak.macrotick)),
        ]),
    }
}
