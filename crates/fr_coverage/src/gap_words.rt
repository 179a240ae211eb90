ghost use Rattle.std.specs.Prelude.{◌≡◌, ◌≤◌, length};
ghost use Rattle.fr_coverage.specs.declared.gap.Gap.TheVariants as Gap;
ghost use Rattle.fr_coverage.specs.Phrases.{gap_text};
ghost use Rattle.fr_text.specs.Pieces.{line};

use crate::Gap;
use fr_base::{Channel, NodeId};
use fr_text::Piece::{Natural, Signed, Word};
use fr_text::{Line, letter_of, line_of};

/// The line of a gap, after words in front.
pub fn gap_line(front: &[u8], gap: Gap) -> Line
    requires { length front.now ≤ 30 }
    ensures { result ≡ line (gap_text front.now gap) }
{
    match gap {
        Gap::Check {
            number,
            left,
            right,
        } => check_line(front, number, left, right),
        Gap::Count { correct, arbitrary } => count_line(front, correct, arbitrary),
        Gap::Length { node, cycle, ticks } => length_line(front, node, cycle, ticks),
        Gap::Change { node, cycle, ticks } => change_line(front, node, cycle, ticks),
        Gap::Delay {
            sender,
            receiver,
            channel,
            cycle,
            ticks,
        } => delay_line(front, sender, receiver, channel, cycle, ticks),
        Gap::Link {
            sender,
            receiver,
            double,
        } => link_line(front, sender, receiver, double),
    }
}

fn check_line(front: &[u8], number: u8, left: i64, right: i64) -> Line
    requires { length front.now ≤ 30 }
    ensures { result ≡ line (gap_text front.now (Gap.Check number left right)) }
{
    line_of(&[
        Word(front),
        Word(b"check "),
        Natural(u64::from(number)),
        Word(b" "),
        Signed(left),
        Word(b" "),
        Signed(right),
    ])
}

fn count_line(front: &[u8], correct: u32, arbitrary: u32) -> Line
    requires { length front.now ≤ 30 }
    ensures { result ≡ line (gap_text front.now (Gap.Count correct arbitrary)) }
{
    line_of(&[
        Word(front),
        Word(b"count "),
        Natural(u64::from(correct)),
        Word(b" "),
        Natural(u64::from(arbitrary)),
    ])
}

fn length_line(front: &[u8], node: NodeId, cycle: u32, ticks: i64) -> Line
    requires { length front.now ≤ 30 }
    ensures { result ≡ line (gap_text front.now (Gap.Length node cycle ticks)) }
{
    line_of(&[
        Word(front),
        Word(b"length "),
        Natural(u64::from(node.0)),
        Word(b" "),
        Natural(u64::from(cycle)),
        Word(b" "),
        Signed(ticks),
    ])
}

fn change_line(front: &[u8], node: NodeId, cycle: u32, ticks: i64) -> Line
    requires { length front.now ≤ 30 }
    ensures { result ≡ line (gap_text front.now (Gap.Change node cycle ticks)) }
{
    line_of(&[
        Word(front),
        Word(b"change "),
        Natural(u64::from(node.0)),
        Word(b" "),
        Natural(u64::from(cycle)),
        Word(b" "),
        Signed(ticks),
    ])
}

fn delay_line(
    front: &[u8],
    sender: NodeId,
    receiver: NodeId,
    channel: Channel,
    cycle: u32,
    ticks: i64,
) -> Line
    requires { length front.now ≤ 30 }
    ensures { result ≡ line (gap_text front.now (Gap.Delay sender receiver channel cycle ticks)) }
{
    line_of(&[
        Word(front),
        Word(b"delay "),
        Natural(u64::from(sender.0)),
        Word(b" "),
        Natural(u64::from(receiver.0)),
        Word(b" "),
        letter_of(channel),
        Word(b" "),
        Natural(u64::from(cycle)),
        Word(b" "),
        Signed(ticks),
    ])
}

fn link_line(front: &[u8], sender: NodeId, receiver: NodeId, double: u32) -> Line
    requires { length front.now ≤ 30 }
    ensures { result ≡ line (gap_text front.now (Gap.Link sender receiver double)) }
{
    line_of(&[
        Word(front),
        Word(b"link "),
        Natural(u64::from(sender.0)),
        Word(b" "),
        Natural(u64::from(receiver.0)),
        Word(b" "),
        Natural(u64::from(double)),
    ])
}
