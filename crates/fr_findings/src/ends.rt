ghost use Rattle.std.specs.Prelude.{◌≡◌, ◌≤◌, ◌+◌, ◌*◌, length};
ghost use Rattle.fr_text.specs.Pieces.{Spells};
ghost use Rattle.fr_time.specs.Cycles.{double_cycle_of};
ghost use Rattle.fr_observe.specs.Observing.{known_count};
ghost use Rattle.fr_findings.specs.Counting.{cycles_told, first_row_cycle, last_row_cycle, log_row};
ghost use Rattle.fr_findings.specs.Text.{first_judged, numbers_row, sure_word, sync_row, sync_word, verdict_row, why_cycle, why_node, why_unjudged, why_word};

use crate::counts::Counts;
use crate::progress::{OverRow, Progress, Reach};
use crate::verdict::{Partly, Verdict, or_none_seen};
use fr_base::NodeId;
use fr_judging::Obstacle;
use fr_observe::{Fault, known_count, known_node};
use fr_sightings::{Sighting, Tally};
use fr_text::Piece::{Natural, Signed, Word};
use fr_text::{Line, Piece, row_of};

// What became of the entries of a log.
pub(crate) fn log_row(tally: &Tally) -> Line
    ensures { result ≡ log_row tally.now }
{
    row_of(
        b"log",
        &[
            Natural(tally.judged),
            Natural(tally.damaged),
            Natural(tally.arbitrary),
            Natural(tally.other),
            Natural(tally.stray),
            Natural(tally.behind),
            Word(b""),
        ],
    )
}

// The even and the odd cycle of the double cycle of a cycle.
fn even_of(number: u32) -> u64
    ensures { result ≡ 2 * double_cycle_of number }
{
    u64::from(2 * (number / 2))
}

fn odd_of(number: u32) -> u64
    ensures { result ≡ 2 * double_cycle_of number + 1 }
{
    u64::from(2 * (number / 2) + 1)
}

fn first_row_cycle(seen: &[Sighting]) -> Option<u64>
    ensures { result ≡ first_row_cycle seen.now }
{
    match seen.first() {
        None => None,
        Some(first) => Some(even_of(first.number)),
    }
}

fn last_row_cycle(seen: &[Sighting]) -> Option<u64>
    ensures { result ≡ last_row_cycle seen.now }
{
    match seen.last() {
        None => None,
        Some(last) => Some(odd_of(last.number)),
    }
}

// The first and the last cycle with a row, and how many of them say what.
pub(crate) fn cycles_told(seen: &[Sighting], counts: &Counts) -> Line
    ensures { result ≡ cycles_told seen.now counts.now }
{
    row_of(
        b"cycles",
        &[
            known_count(first_row_cycle(seen)),
            known_count(last_row_cycle(seen)),
            Natural(counts.within),
            Natural(counts.over),
            Natural(counts.neither),
            Word(b""),
            Word(b""),
        ],
    )
}

fn sure_word(sure: bool) -> &'static [u8]
    ensures text { result.now ≡ sure_word sure }
    ensures short { length result.now ≤ 7 }
{
    if sure { b"sure" } else { b"premise" }
}

// Whether it is sure that frames come in time.
pub(crate) fn numbers_row(sure: bool) -> Line
    ensures { result ≡ numbers_row sure }
{
    row_of(
        b"numbers",
        &[
            Word(sure_word(sure)),
            Word(b""),
            Word(b""),
            Word(b""),
            Word(b""),
            Word(b""),
            Word(b""),
        ],
    )
}

fn sync_word(first: Option<u64>) -> &'static [u8]
    ensures text { result.now ≡ sync_word first }
    ensures short { length result.now ≤ 6 }
{
    match first {
        None => b"open",
        Some(_) => b"judged",
    }
}

// What is told of why a double cycle is not judged, if there is one.
fn why_unjudged(first: Option<u64>, why: Option<Obstacle>) -> Option<Obstacle>
    ensures { result ≡ why_unjudged first why }
{
    match first {
        None => Some(or_none_seen(why)),
        Some(_) => why,
    }
}

fn why_word(why: &Option<Obstacle>) -> &'static [u8]
    ensures text { result.now ≡ why_word why.now }
    ensures short { length result.now ≤ 6 }
{
    match why {
        None => b"-",
        Some(why) => why.kind.word(),
    }
}

// A cycle, if it is known.
pub(crate) fn known_cycle(cycle: Option<u32>) -> Piece<'static>
    ensures { Spells result (known_count cycle) 20 }
{
    match cycle {
        None => Word(b"-"),
        Some(cycle) => Natural(u64::from(cycle)),
    }
}

fn why_cycle(why: &Option<Obstacle>) -> Option<u32>
    ensures { result ≡ why_cycle why.now }
{
    match why {
        None => None,
        Some(why) => why.cycle,
    }
}

fn why_node(why: &Option<Obstacle>) -> Option<NodeId>
    ensures { result ≡ why_node why.now }
{
    match why {
        None => None,
        Some(why) => why.node,
    }
}

// The first double cycle that is judged.
fn first_judged(span: Option<Reach>) -> Option<u64>
    ensures { result ≡ first_judged span }
{
    match span {
        None => None,
        Some(span) => Some(u64::from(span.from / 2)),
    }
}

// The same, how many are judged, and why others are not.
pub(crate) fn sync_row(progress: &Progress) -> Line
    ensures { result ≡ sync_row progress.now }
{
    let first = first_judged(progress.judged.span);
    let why = why_unjudged(first, progress.obstacle);
    row_of(
        b"sync",
        &[
            known_count(first),
            Word(sync_word(first)),
            Natural(progress.judged.doubles),
            Natural(progress.doubles),
            Word(why_word(&why)),
            known_cycle(why_cycle(&why)),
            known_node(why_node(&why)),
        ],
    )
}

fn no_row(fault: &Fault) -> Line
    ensures { result ≡ verdict_row (Verdict.No fault.now) }
{
    row_of(
        b"verdict",
        &[
            Word(b"no"),
            Natural(u64::from(fault.cycle())),
            Word(fault.word()),
            known_node(fault.node()),
            Word(b""),
            Word(b""),
            Word(b""),
        ],
    )
}

fn over_row(first: OverRow, count: u64) -> Line
    ensures { result ≡ verdict_row (Verdict.Over first count) }
{
    row_of(
        b"verdict",
        &[
            Word(b"over"),
            Natural(u64::from(first.cycle)),
            Signed(first.low),
            Natural(count),
            Word(b""),
            Word(b""),
            Word(b""),
        ],
    )
}

fn open_row(why: Obstacle) -> Line
    ensures { result ≡ verdict_row (Verdict.Open why) }
{
    row_of(
        b"verdict",
        &[
            Word(b"open"),
            Word(why.kind.word()),
            known_cycle(why.cycle),
            known_node(why.node),
            Word(b""),
            Word(b""),
            Word(b""),
        ],
    )
}

fn within_row(reach: Reach) -> Line
    ensures { result ≡ verdict_row (Verdict.Within reach) }
{
    row_of(
        b"verdict",
        &[
            Word(b"within"),
            Natural(u64::from(reach.from)),
            Natural(u64::from(reach.to)),
            Word(b""),
            Word(b""),
            Word(b""),
            Word(b""),
        ],
    )
}

fn partly_row(part: Partly) -> Line
    ensures { result ≡ verdict_row (Verdict.Partly part) }
{
    row_of(
        b"verdict",
        &[
            Word(b"partly"),
            Natural(u64::from(part.span.from)),
            Natural(u64::from(part.span.to)),
            Natural(part.within),
            Natural(part.neither),
            Natural(part.judged),
            Natural(part.doubles),
        ],
    )
}

// The verdict.
pub(crate) fn verdict_row(verdict: Verdict) -> Line
    ensures { result ≡ verdict_row verdict }
{
    match verdict {
        Verdict::No(fault) => no_row(&fault),
        Verdict::Over { first, count } => over_row(first, count),
        Verdict::Open(why) => open_row(why),
        Verdict::Within(reach) => within_row(reach),
        Verdict::Partly(part) => partly_row(part),
    }
}
