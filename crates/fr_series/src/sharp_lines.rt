ghost use Rattle.std.specs.Prelude.{◌≡◌, ◌++◌, ◌≤◌, codes, length, IfSome};
ghost use Rattle.std.specs.Fmt.{decimal};
ghost use Rattle.fr_series.specs.SharpLosses.{bound_or_none, hearing_text, last_lost_text, lost_text, most_or_any, worse};
ghost use Rattle.fr_series.specs.SeriesText.{above_text, greatest_text, synced_text, within_text};
ghost use Rattle.fr_series.specs.SharpText.{beside_or_alone, doubles_or_on, flutter_text, older_end, sharp_covered_text, sharp_end};
ghost use Rattle.fr_series.specs.SharpText.{sharp_head, sharp_precision_text, sharp_row, sharp_synced_text};
ghost use Rattle.fr_text.specs.Lines.{joined_lines};
ghost use Rattle.fr_text.specs.Pieces.{Spells, line};

use crate::basis::Basis;
use crate::kept::Kept;
use crate::lines::yes_or_no;
use crate::tally::Tally;
use fr_bound::Heard;
use fr_coverage::{Fluttering, Gap, gap_line};
use fr_sharp::Digits;
use fr_skew::Peak;
use fr_text::Piece::{Natural, Signed, Word};
use fr_text::{Line, Piece, letter_of, line_of};

pub(crate) fn sharp_head_line() -> Line
    ensures { result ≡ line sharp_head }
{
    line_of(&[Word(b"cycle,in_sync,skew,macrotick,sharp,heard,bound")])
}

pub(crate) fn sharp_cycle_line(
    cycle: u32,
    in_sync: bool,
    sharp: bool,
    kept: Kept,
    peak: Option<Peak>,
) -> Line
    ensures { result ≡ line (sharp_row cycle in_sync sharp kept peak) }
{
    let digits = digits_of(kept.bound);
    let bound = bound_piece(kept.bound, &digits);
    let heard = heard_piece(kept);
    match peak {
        None => line_of(&[
            Natural(u64::from(cycle)),
            Word(b","),
            yes_or_no(in_sync),
            Word(b",-,-,"),
            yes_or_no(sharp),
            Word(b","),
            heard,
            Word(b","),
            bound,
        ]),
        Some(peak) => line_of(&[
            Natural(u64::from(cycle)),
            Word(b","),
            yes_or_no(in_sync),
            Word(b","),
            Signed(peak.skew),
            Word(b","),
            Natural(u64::from(peak.macrotick)),
            Word(b","),
            yes_or_no(sharp),
            Word(b","),
            heard,
            Word(b","),
            bound,
        ]),
    }
}

fn heard_piece<'a>(kept: Kept) -> Piece<'a>
    ensures { Spells result (hearing_text kept) 4 }
{
    if kept.whole {
        Word(b"all")
    } else {
        most_piece(worse(kept.heard.offsets, kept.heard.rates))
    }
}

// The worse of two kinds.
fn worse(one: Heard, other: Heard) -> Heard
    ensures { result ≡ worse one other }
{
    match one {
        Heard::Clean => other,
        Heard::Meeting => match other {
            Heard::Poor => Heard::Poor,
            Heard::Clean | Heard::Meeting => Heard::Meeting,
        },
        Heard::Poor => Heard::Poor,
    }
}

fn most_piece<'a>(heard: Heard) -> Piece<'a>
    ensures { Spells result (most_or_any heard) 4 }
{
    match heard {
        Heard::Clean => Word(b"all"),
        Heard::Meeting => Word(b"most"),
        Heard::Poor => Word(b"any"),
    }
}

fn digits_of(bound: Option<u128>) -> Digits
    ensures { IfSome bound (λ ticks. result ≡ decimal ticks) }
{
    match bound {
        None => Digits::of(0),
        Some(ticks) => Digits::of(ticks),
    }
}

fn bound_piece<'a>(bound: Option<u128>, digits: &'a Digits) -> Piece<'a>
    requires { IfSome bound (λ ticks. digits.now ≡ decimal ticks) }
    ensures { Spells result (bound_or_none bound) 40 }
{
    match bound {
        None => Word(b"-"),
        Some(_) => Word(digits.bytes()),
    }
}

// The lines of a series at its end, with one column more.
#[tactic(auto, unfolding(crate::specs::SharpText::older_end))]
pub(crate) fn older_lines(tally: &Tally) -> [Option<Line>; 3]
    ensures { joined_lines result ≡ older_end tally.now }
{
    let figures = tally.older;
    [
        Some(greatest_line(b"", figures.greatest)),
        Some(synced_line(figures.lost)),
        Some(within_line(b"", figures.synced, figures.above)),
    ]
}

// Those of sharp sync.
#[tactic(auto, unfolding(crate::specs::SharpText::sharp_end))]
pub(crate) fn sharp_lines(basis: &Basis, tally: &Tally) -> [Option<Line>; 7]
    ensures { joined_lines result ≡ sharp_end basis.now tally.now }
{
    let figures = tally.sharp;
    [
        Some(flutter_line(basis.fluttering)),
        Some(precision_line(basis.precision, basis.beside)),
        Some(covered_line(basis.gap)),
        Some(sharp_synced_line(figures.synced, basis.lasts)),
        Some(greatest_line(b"sharp ", figures.greatest)),
        Some(within_line(b"sharp ", figures.synced, figures.above)),
        Some(lost_line(basis)),
    ]
}

// A line of a series with one column more, behind a word of its own or none.
fn greatest_line(front: &[u8], greatest: Option<Peak>) -> Line
    requires { length front.now ≤ 10 }
    ensures { result ≡ line (front.now ++ greatest_text greatest ++ codes ",") }
{
    match greatest {
        None => line_of(&[Word(front), Word(b"greatest,-,-,-,")]),
        Some(peak) => line_of(&[
            Word(front),
            Word(b"greatest,"),
            Signed(peak.skew),
            Word(b","),
            Natural(u64::from(peak.cycle)),
            Word(b","),
            Natural(u64::from(peak.macrotick)),
            Word(b","),
        ]),
    }
}

fn synced_line(lost: Option<u32>) -> Line
    ensures { result ≡ line (synced_text lost ++ codes ",") }
{
    match lost {
        None => line_of(&[Word(b"synced,yes,,,")]),
        Some(double) => line_of(&[Word(b"synced,no,"), Natural(u64::from(double)), Word(b",,")]),
    }
}

fn within_line(front: &[u8], synced: Option<u32>, above: Option<Peak>) -> Line
    requires { length front.now ≤ 10 }
    ensures { result ≡ line (front.now ++ within_text synced above ++ codes ",") }
{
    match synced {
        None => line_of(&[Word(front), Word(b"within,-,,,")]),
        Some(_) => above_line(front, above),
    }
}

fn above_line(front: &[u8], above: Option<Peak>) -> Line
    requires { length front.now ≤ 10 }
    ensures { result ≡ line (front.now ++ above_text above ++ codes ",") }
{
    match above {
        None => line_of(&[Word(front), Word(b"within,yes,,,")]),
        Some(peak) => line_of(&[
            Word(front),
            Word(b"within,no,"),
            Natural(u64::from(peak.cycle)),
            Word(b","),
            Natural(u64::from(peak.macrotick)),
            Word(b","),
        ]),
    }
}

fn flutter_line(place: Option<Fluttering>) -> Line
    ensures { result ≡ line (flutter_text place) }
{
    match place {
        None => line_of(&[Word(b"flutter,0,,,")]),
        Some(place) => line_of(&[
            Word(b"flutter,"),
            Natural(place.ticks),
            Word(b",,,delay "),
            Natural(u64::from(place.sender.0)),
            Word(b" "),
            Natural(u64::from(place.receiver.0)),
            Word(b" "),
            letter_of(place.channel),
            Word(b" "),
            Natural(u64::from(place.double)),
        ]),
    }
}

fn precision_line(precision: i64, beside: bool) -> Line
    ensures { result ≡ line (sharp_precision_text precision beside) }
{
    line_of(&[
        Word(b"sharp,"),
        Signed(precision),
        Word(b","),
        kind(beside),
        Word(b",,"),
    ])
}

/// Whether the numbers are those beside arbitrary sync nodes.
pub fn kind(beside: bool) -> Piece<'static>
    ensures { Spells result (beside_or_alone beside) 6 }
{
    if beside {
        Word(b"beside")
    } else {
        Word(b"alone")
    }
}

fn covered_line(gap: Option<Gap>) -> Line
    ensures { result ≡ line (sharp_covered_text gap) }
{
    match gap {
        None => line_of(&[Word(b"sharp covered,yes,,,")]),
        Some(gap) => gap_line(b"sharp covered,no,,,", gap),
    }
}

fn sharp_synced_line(synced: Option<u32>, lasts: Option<u64>) -> Line
    ensures { result ≡ line (sharp_synced_text synced lasts) }
{
    match synced {
        None => line_of(&[Word(b"sharp synced,-,,,")]),
        Some(double) => line_of(&[
            Word(b"sharp synced,"),
            Natural(u64::from(double)),
            Word(b","),
            lasts_piece(lasts),
            Word(b",,"),
        ]),
    }
}

/// For how many double cycles, or `on`.
pub fn lasts_piece(lasts: Option<u64>) -> Piece<'static>
    ensures { Spells result (doubles_or_on lasts) 20 }
{
    match lasts {
        None => Word(b"on"),
        Some(doubles) => Natural(doubles),
    }
}

// How many double cycles lose frames, the last one, and the greatest bound with its place, if there is one.
fn lost_line(basis: &Basis) -> Line
    ensures { result ≡ line (lost_text basis.now) }
{
    let doubles = Natural(u64::from(basis.lost));
    let last = last_piece(basis.last_lost);
    if basis.through {
        let digits = Digits::of(basis.peak);
        line_of(&[
            Word(b"lost,"),
            doubles,
            Word(b","),
            last,
            Word(b","),
            Word(digits.bytes()),
            Word(b","),
            Natural(u64::from(basis.place)),
        ])
    } else {
        line_of(&[Word(b"lost,"), doubles, Word(b","), last, Word(b",-,-")])
    }
}

/// The last double cycle that loses frames, or `-`.
pub fn last_piece<'a>(last: Option<u32>) -> Piece<'a>
    ensures { Spells result (last_lost_text last) 20 }
{
    match last {
        None => Word(b"-"),
        Some(double) => Natural(u64::from(double)),
    }
}
