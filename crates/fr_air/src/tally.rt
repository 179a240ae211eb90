ghost use Rattle.std.specs.Prelude.{◌≡◌, ◌≤◌, length};
ghost use Rattle.fr_reception.specs.Regular.{carried_crc};
ghost use Rattle.fr_air.specs.Counting.{with_answer, counted_sent};
ghost use Rattle.fr_base.specs.Counts.{AreAtMost};
ghost use Rattle.fr_air.specs.Turns.{most_adding};

use fr_base::{Channel, Counts};
use fr_reception::{Heard, Ignored};

// Counts an answer.
pub fn count(counts: &mut Counts, heard: &Heard)
    requires { AreAtMost most_adding counts.old }
    ensures { counts.new ≡ with_answer heard.now counts.old }
{
    match heard {
        Heard::Stored(_) => counts.stored += 1,
        Heard::Ignored(why) => count_ignored(counts, why),
    }
}

fn count_ignored(counts: &mut Counts, why: &Ignored)
    requires { AreAtMost most_adding counts.old }
    ensures { counts.new ≡ with_answer (Heard.Ignored why.now) counts.old }
{
    match why {
        Ignored::Outside { .. } => counts.outside += 1,
        Ignored::Damaged(_) => counts.damaged += 1,
        Ignored::WrongId { .. } => counts.wrong_id += 1,
        Ignored::WrongCycle { .. } => counts.wrong_cycle += 1,
        Ignored::WrongLength { .. } => counts.wrong_length += 1,
        Ignored::Plain => counts.plain += 1,
    }
}

// Counts a frame that a correct node sends on a channel.
pub fn count_sent(counts: &mut Counts, channel: Channel, frame: &[u8])
    requires few { AreAtMost most_adding counts.old }
    requires frame { 3 ≤ length frame.now }
    ensures { counts.new ≡ counted_sent channel frame.now counts.old }
{
    let crc = crc_of(frame);
    match channel {
        Channel::A => {
            counts.sent_a += 1;
            counts.xor_a ^= crc;
        }
        Channel::B => {
            counts.sent_b += 1;
            counts.xor_b ^= crc;
        }
    }
}

// The frame CRC that a frame carries.
#[tactic(auto, unfolding(fr_reception::specs::Regular::carried_crc))]
fn crc_of(frame: &[u8]) -> u32
    requires { 3 ≤ length frame.now }
    ensures { result ≡ carried_crc frame.now }
{
    let at = frame.len() - 3;
    let high = u32::from(frame[at]);
    let middle = u32::from(frame[at + 1]);
    let low = u32::from(frame[at + 2]);
    256 * (256 * high + middle) + low
}
