ghost use Rattle.std.specs.Prelude.{◌≡◌, ◌≤◌, ◌++◌, codes, length};
ghost use Rattle.std.specs.Fmt.{decimal};
ghost use Rattle.std.specs.Option.{option_map};
ghost use Rattle.fr_answer.specs.SharpText.{sharp_check_line};
ghost use Rattle.fr_bound.specs.SharpBounds.{sharp_precision};
ghost use Rattle.fr_text.specs.Lines.{joined_lines};
ghost use Rattle.fr_text.specs.Pieces.{line};
ghost use Rattle.fr_verdict.specs.SharpTraces.{recorded_flutter};
ghost use Rattle.fr_whole.specs.SharpCheckText.{greatest_skew_shown, sharp_check_lines, skew_place_text, traced_above_text, traced_kind_text, traced_sync_text, traced_within_text, unlike_shown};
ghost use Rattle.fr_whole.specs.TracedMeaning.{traced_lasts};

use crate::traced_figures::{TracedFigures, TracedKind};
use fr_bound::{CheckSides, sharp_bounds, sharp_lasts, sharp_side};
use fr_cluster::Params;
use fr_series::lasts_piece;
use fr_skew::Peak;
use fr_text::Piece::{Natural, Signed, Word};
use fr_text::{Line, line_of};
use fr_verdict::recorded_flutter;

// What the sharper bounds say of a trace, by its figures.
#[tactic(auto, unfolding(crate::specs::SharpCheckText::sharp_check_lines))]
pub(crate) fn sharp_check_lines(params: &Params, figures: &TracedFigures) -> [Option<Line>; 10]
    ensures { joined_lines result ≡ sharp_check_lines params.now figures.now }
{
    let beside = figures.kind.is_beside();
    [
        Some(flutter_line(params)),
        Some(kind_line(figures.kind)),
        Some(precision_line(params, beside)),
        Some(check_line(params, beside, 1)),
        Some(check_line(params, beside, 2)),
        Some(check_line(params, beside, 3)),
        Some(synced_line(figures.sharp.synced, traced_lasts(params, beside))),
        unlike_line(figures.unlike),
        greatest_line(figures.sharp.greatest),
        Some(within_line(figures.sharp.synced, figures.sharp.above)),
    ]
}

fn flutter_line(params: &Params) -> Line
    ensures { result ≡ line (codes "flutter " ++ decimal (recorded_flutter params.now)) }
{
    line_of(&[Word(b"flutter "), Natural(recorded_flutter(params).0)])
}

fn kind_line(kind: TracedKind) -> Line
    ensures { result ≡ line (traced_kind_text kind) }
{
    match kind {
        TracedKind::Alone => line_of(&[Word(b"kind alone")]),
        TracedKind::Alike => line_of(&[Word(b"kind alike")]),
        TracedKind::Beside => line_of(&[Word(b"kind beside")]),
    }
}

fn precision_line(params: &Params, beside: bool) -> Line
    ensures { result ≡
        line (codes "precision " ++ decimal (sharp_precision beside params.now (recorded_flutter params.now))) }
{
    let bounds = sharp_bounds(params, beside, recorded_flutter(params));
    line_of(&[Word(b"precision "), Natural(bounds.precision as u64)])
}

fn check_line(params: &Params, beside: bool, number: u8) -> Line
    requires from { 1 ≤ number }
    requires to { number ≤ 5 }
    ensures { result ≡ sharp_check_line (codes "") beside (recorded_flutter params.now) number params.now }
{
    let CheckSides { left, right, holds } = sharp_side(
        params,
        beside,
        recorded_flutter(params),
        number,
    );
    line_of(&[
        Word(b"C"),
        Natural(u64::from(number)),
        Word(if holds { b" holds " } else { b" fails " }),
        Natural(left as u64),
        Word(b" "),
        Natural(right as u64),
    ])
}

// For how many double cycles sharp sync lasts: for none where the second or the third check fails; None: for ever.
fn traced_lasts(params: &Params, beside: bool) -> Option<u64>
    ensures { result ≡ traced_lasts beside params.now }
{
    let flutter = recorded_flutter(params);
    if sharp_side(params, beside, flutter, 2).holds
        && sharp_side(params, beside, flutter, 3).holds
    {
        sharp_lasts(params, flutter)
    } else {
        Some(0)
    }
}

fn synced_line(synced: Option<u32>, lasts: Option<u64>) -> Line
    ensures { result ≡ line (traced_sync_text synced lasts) }
{
    match synced {
        None => line_of(&[Word(b"in sync never")]),
        Some(double) => line_of(&[
            Word(b"in sync "),
            Natural(u64::from(double)),
            Word(b" "),
            lasts_piece(lasts),
        ]),
    }
}

fn unlike_line(unlike: Option<u32>) -> Option<Line>
    ensures { result ≡ option_map unlike_shown unlike }
{
    match unlike {
        None => None,
        Some(double) => Some(line_of(&[Word(b"unlike "), Natural(u64::from(double))])),
    }
}

fn greatest_line(greatest: Option<Peak>) -> Option<Line>
    ensures { result ≡ option_map greatest_skew_shown greatest }
{
    match greatest {
        None => None,
        Some(peak) => Some(place_line(b"greatest skew ", peak)),
    }
}

fn within_line(synced: Option<u32>, above: Option<Peak>) -> Line
    ensures { result ≡ line (traced_within_text synced above) }
{
    match synced {
        None => line_of(&[Word(b"within -")]),
        Some(_) => above_line(above),
    }
}

fn above_line(above: Option<Peak>) -> Line
    ensures { result ≡ line (traced_above_text above) }
{
    match above {
        None => line_of(&[Word(b"within yes")]),
        Some(peak) => place_line(b"within no ", peak),
    }
}

// A skew and its place, behind a word.
fn place_line(front: &[u8], peak: Peak) -> Line
    requires { length front.now ≤ 20 }
    ensures { result ≡ line (skew_place_text front.now peak) }
{
    line_of(&[
        Word(front),
        Signed(peak.skew),
        Word(b" cycle "),
        Natural(u64::from(peak.cycle)),
        Word(b" macrotick "),
        Natural(u64::from(peak.macrotick)),
    ])
}
