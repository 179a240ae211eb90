ghost use Rattle.std.specs.Prelude.{◌≡◌};
ghost use Rattle.fr_base.specs.Device.{Puts};
ghost use Rattle.fr_lines.specs.Text.{clocks_text, told_lines, told_text};
ghost use Rattle.fr_text.specs.Lines.{joined_lines};

use crate::clocks::{Clock, ClockList};
use crate::lines::{
    clock_line, covered_line, cut_line, greatest_line, heard_line, nodes_line, sent_line,
};
use fr_base::{Channel, Counts, PutFault, Sink};
use fr_coverage::{Gap, precision_line, sync_line};
use fr_skew::Peak;
use fr_text::{Line, put_line, put_lines};

/// What is told of a run.
#[derive(Debug, Drop)]
pub struct Told {
    /// How many nodes there are.
    pub nodes: u64,
    /// How many of them have a key slot.
    pub sync: u64,
    /// How many are arbitrary.
    pub arbitrary: u64,
    /// How many double cycles the run has.
    pub doubles: u32,
    /// The precision, in ticks.
    pub precision: u64,
    /// The first gap, where the run is not covered.
    pub gap: Option<Gap>,
    /// The first double cycle in sync in which no node follows, if there was one.
    pub synced: Option<u32>,
    /// The greatest skew and its first place, where a cycle was run.
    pub greatest: Option<Peak>,
    /// What became of the frames.
    pub sums: Counts,
    /// How many correction terms were cut.
    pub cut: u64,
    /// The nodes that had a row in the last cycle; before the first, those that do not join.
    pub clocks: ClockList,
}

impl Told {
    /// Writes the text: the numbers of the cluster, its precision, whether the run is covered, from when on the
    /// clocks are in sync, their greatest skew, the frames that were sent on channel A and on channel B, what
    /// receivers made of them, how many terms were cut, and each node that had a row in the last cycle. Puts
    /// have whole lines. A fault comes only where the sink counted it, and then a front of the text was put.
    pub fn write<O: Sink>(&self, out: &mut O) -> Result<(), PutFault>
        ensures { Puts result (O.state out.old) (O.state out.new) (told_text self.now) }
    {
        put_lines(&self.lines(), out)?;
        put_clocks(self.clocks.as_slice(), out)
    }

    #[tactic(auto, unfolding(crate::specs::Text::told_lines))]
    fn lines(&self) -> [Option<Line>; 9]
        ensures { joined_lines result ≡ told_lines self.now }
    {
        [
            Some(nodes_line(self)),
            Some(precision_line(self.precision)),
            Some(covered_line(&self.gap)),
            Some(sync_line(self.synced)),
            greatest_line(self.greatest),
            Some(sent_line(Channel::A, self.sums.sent_a, self.sums.xor_a)),
            Some(sent_line(Channel::B, self.sums.sent_b, self.sums.xor_b)),
            Some(heard_line(&self.sums)),
            Some(cut_line(self.cut)),
        ]
    }
}

fn put_clocks<O: Sink>(clocks: &[Clock], out: &mut O) -> Result<(), PutFault>
    ensures { Puts result (O.state out.old) (O.state out.new) (clocks_text clocks.now) }
{
    match clocks.split_first() {
        Some((clock, rest)) => {
            put_line(&clock_line(clock), out)?;
            put_clocks(rest, out)
        }
        None => Ok(()),
    }
}
