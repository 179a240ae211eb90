ghost use Rattle.std.specs.Prelude.{◌≡◌, ◌++◌, ◌≤◌, codes, length};
ghost use Rattle.std.specs.Fmt.{decimal, signed_decimal};
ghost use Rattle.std.specs.Option.{option_map};
ghost use Rattle.fr_whole.specs.SharpReport.{above_told, covered_shown, flutter_told, gap_shown, greatest_shown, lost_told, precision_told, sharp_lines_of, synced_told, within_told};
ghost use Rattle.fr_text.specs.Lines.{joined_lines};
ghost use Rattle.fr_text.specs.Pieces.{line};

use crate::sharp_gaps::SharpGaps;
use fr_coverage::{Fluttering, Gap, gap_line};
use fr_series::{Basis, SharpFigures, kind, last_piece, lasts_piece};
use fr_sharp::Digits;
use fr_skew::Peak;
use fr_text::Piece::{Natural, Signed, Word};
use fr_text::{Line, letter_of, line_of};

// What the sharper bounds say of a run.
#[tactic(auto, unfolding(crate::specs::SharpReport::sharp_lines_of))]
pub(crate) fn sharp_report_lines(
    basis: &Basis,
    gaps: &SharpGaps,
    figures: &SharpFigures,
) -> [Option<Line>; 20]
    ensures { joined_lines result ≡ sharp_lines_of basis.now gaps.now figures.now }
{
    [
        Some(flutter_line(basis.fluttering)),
        Some(precision_line(basis.precision, basis.beside)),
        covered_line(basis.gap),
        gap_shown(gaps.second),
        gap_shown(gaps.third),
        gap_shown(gaps.fourth),
        gap_shown(gaps.fifth),
        gap_shown(gaps.sixth),
        gap_shown(gaps.seventh),
        gap_shown(gaps.eighth),
        gap_shown(gaps.ninth),
        gap_shown(gaps.run.count),
        gap_shown(gaps.run.lengths),
        gap_shown(gaps.run.changes),
        gap_shown(gaps.run.delays),
        gap_shown(gaps.run.links),
        Some(synced_line(figures.synced, basis.lasts)),
        greatest_line(figures.greatest),
        Some(within_line(figures.synced, figures.above)),
        Some(lost_line(basis)),
    ]
}

fn flutter_line(place: Option<Fluttering>) -> Line
    ensures { result ≡ line (flutter_told place) }
{
    match place {
        None => line_of(&[Word(b"sharp flutter 0")]),
        Some(place) => line_of(&[
            Word(b"sharp flutter "),
            Natural(place.ticks),
            Word(b" delay "),
            Natural(u64::from(place.sender.0)),
            Word(b" "),
            Natural(u64::from(place.receiver.0)),
            Word(b" "),
            letter_of(place.channel),
            Word(b" "),
            Natural(u64::from(place.double)),
        ]),
    }
}

fn precision_line(precision: i64, beside: bool) -> Line
    ensures { result ≡ line (precision_told precision beside) }
{
    line_of(&[
        Word(b"sharp precision "),
        Signed(precision),
        Word(b" "),
        kind(beside),
    ])
}

fn covered_line(gap: Option<Gap>) -> Option<Line>
    ensures { result ≡ covered_shown gap }
{
    match gap {
        None => Some(line_of(&[Word(b"sharp covered yes")])),
        Some(_) => None,
    }
}

fn gap_shown(gap: Option<Gap>) -> Option<Line>
    ensures { result ≡ option_map gap_shown gap }
{
    match gap {
        None => None,
        Some(gap) => Some(gap_line(b"sharp covered no ", gap)),
    }
}

fn synced_line(synced: Option<u32>, lasts: Option<u64>) -> Line
    ensures { result ≡ line (synced_told synced lasts) }
{
    match synced {
        None => line_of(&[Word(b"sharp in sync no")]),
        Some(double) => line_of(&[
            Word(b"sharp in sync "),
            Natural(u64::from(double)),
            Word(b" "),
            lasts_piece(lasts),
        ]),
    }
}

fn greatest_line(greatest: Option<Peak>) -> Option<Line>
    ensures { result ≡ option_map greatest_shown greatest }
{
    match greatest {
        None => None,
        Some(peak) => Some(place_line(b"sharp greatest skew ", peak)),
    }
}

fn within_line(synced: Option<u32>, above: Option<Peak>) -> Line
    ensures { result ≡ line (within_told synced above) }
{
    match synced {
        None => line_of(&[Word(b"sharp within -")]),
        Some(_) => above_line(above),
    }
}

fn above_line(above: Option<Peak>) -> Line
    ensures { result ≡ line (above_told above) }
{
    match above {
        None => line_of(&[Word(b"sharp within yes")]),
        Some(peak) => place_line(b"sharp within no ", peak),
    }
}

// A skew and its place, behind a word.
fn place_line(front: &[u8], peak: Peak) -> Line
    requires { length front.now ≤ 20 }
    ensures { result ≡ line (front.now ++ signed_decimal peak.skew
        ++ codes " cycle " ++ decimal peak.cycle ++ codes " macrotick " ++ decimal peak.macrotick) }
{
    line_of(&[
        Word(front),
        Signed(peak.skew),
        Word(b" cycle "),
        Natural(u64::from(peak.cycle)),
        Word(b" macrotick "),
        Natural(u64::from(peak.macrotick)),
    ])
}

fn lost_line(basis: &Basis) -> Line
    ensures { result ≡ line (lost_told basis.now) }
{
    let doubles = Natural(u64::from(basis.lost));
    let last = last_piece(basis.last_lost);
    if basis.through {
        let digits = Digits::of(basis.peak);
        line_of(&[
            Word(b"sharp lost "),
            doubles,
            Word(b" last "),
            last,
            Word(b" bound "),
            Word(digits.bytes()),
            Word(b" double "),
            Natural(u64::from(basis.place)),
        ])
    } else {
        line_of(&[
            Word(b"sharp lost "),
            doubles,
            Word(b" last "),
            last,
            Word(b" bound -"),
        ])
    }
}
