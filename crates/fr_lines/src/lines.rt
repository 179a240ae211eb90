ghost use Rattle.std.specs.Prelude.{◌≡◌};
ghost use Rattle.std.specs.Option.{option_map};
ghost use Rattle.fr_lines.specs.Text.{node_text, covered_text, cut_text, heard_text, nodes_text, greatest_line, sent_text};
ghost use Rattle.fr_text.specs.Pieces.{line};

use crate::clocks::Clock;
use crate::told::Told;
use fr_base::{Channel, Counts};
use fr_coverage::{Gap, gap_line, skew_line};
use fr_skew::Peak;
use fr_text::Piece::{Hex, Natural, Signed, Word};
use fr_text::{Line, letter_of, line_of, state_of};

pub(crate) fn nodes_line(told: &Told) -> Line
    ensures { result ≡ line (nodes_text told.now) }
{
    line_of(&[
        Word(b"nodes "),
        Natural(told.nodes),
        Word(b" sync "),
        Natural(told.sync),
        Word(b" arbitrary "),
        Natural(told.arbitrary),
        Word(b" doubles "),
        Natural(u64::from(told.doubles)),
    ])
}

pub(crate) fn covered_line(gap: &Option<Gap>) -> Line
    ensures { result ≡ line (covered_text gap.now) }
{
    match gap {
        None => line_of(&[Word(b"covered yes")]),
        Some(gap) => gap_line(b"covered no ", *gap),
    }
}

pub(crate) fn greatest_line(greatest: Option<Peak>) -> Option<Line>
    ensures { result ≡ option_map greatest_line greatest }
{
    match greatest {
        None => None,
        Some(peak) => Some(skew_line(peak.skew, peak.cycle, i64::from(peak.macrotick))),
    }
}

pub(crate) fn sent_line(channel: Channel, sent: u64, crcs: u32) -> Line
    ensures { result ≡ line (sent_text channel sent crcs) }
{
    line_of(&[
        Word(b"sent "),
        letter_of(channel),
        Word(b" "),
        Natural(sent),
        Word(b" xor "),
        Hex(crcs, 6),
    ])
}

pub(crate) fn heard_line(sums: &Counts) -> Line
    ensures { result ≡ line (heard_text sums.now) }
{
    line_of(&[
        Word(b"heard stored "),
        Natural(sums.stored),
        Word(b" outside "),
        Natural(sums.outside),
        Word(b" damaged "),
        Natural(sums.damaged),
        Word(b" id "),
        Natural(sums.wrong_id),
        Word(b" cycle "),
        Natural(sums.wrong_cycle),
        Word(b" length "),
        Natural(sums.wrong_length),
        Word(b" plain "),
        Natural(sums.plain),
    ])
}

pub(crate) fn cut_line(cut: u64) -> Line
    ensures { result ≡ line (cut_text cut) }
{
    line_of(&[Word(b"cut "), Natural(cut)])
}

pub(crate) fn clock_line(clock: &Clock) -> Line
    ensures { result ≡ line (node_text clock.now) }
{
    line_of(&[
        Word(b"node "),
        Natural(u64::from(clock.node.0)),
        Word(b" "),
        state_of(clock.state),
        Word(b" next "),
        Signed(clock.start),
        Word(b" rate "),
        Signed(i64::from(clock.rate)),
        Word(b" offset "),
        Signed(i64::from(clock.offset)),
    ])
}
