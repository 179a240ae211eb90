ghost use Rattle.std.specs.Prelude.{◌≡◌};
ghost use Rattle.fr_findings.specs.Verdict.{or_none_seen, partly_of, reaches_end, verdict_by, verdict_unless_over, verdict_where, verdict_within};

use crate::progress::{OverRow, Progress, Reach};
use fr_judging::{Obstacle, ObstacleKind};
use fr_observe::Fault;

/// Of the rows of judged double cycles, from the first to the last, how many say what.
#[derive(Clone, Copy, Debug, PartialEq, Eq)]
pub struct Partly {
    /// The first judged cycle and the last.
    pub span: Reach,
    /// How many of the rows say within.
    pub within: u64,
    /// How many say neither.
    pub neither: u64,
    /// How many double cycles are judged.
    pub judged: u64,
    /// How many there are.
    pub doubles: u64,
}

/// What a log comes to.
#[derive(Clone, Copy, Debug, PartialEq, Eq)]
pub enum Verdict {
    /// Something contradicts it: the first fault of its text.
    No(Fault),
    /// Nothing does, and so many rows say over: the first of them.
    Over { first: OverRow, count: u64 },
    /// None of both, and no double cycle is judged: why the one that came farthest is not.
    Open(Obstacle),
    /// Each double cycle from a first one on is judged, and each of their rows but the last says within.
    Within(Reach),
    /// Some double cycles are judged.
    Partly(Partly),
}

impl Verdict {
    // Behind all double cycles of a log.
    #[tactic(auto, unfolding(crate::specs::Verdict::verdict_by))]
    pub(crate) fn of(progress: &Progress) -> Verdict
        ensures { result ≡ verdict_by progress.now }
    {
        match progress.first {
            Some(fault) => Verdict::No(fault),
            None => uncontradicted(progress),
        }
    }
}

fn uncontradicted(progress: &Progress) -> Verdict
    ensures { result ≡ verdict_unless_over progress.now.over progress.now }
{
    match progress.over {
        Some(first) => Verdict::Over {
            first,
            count: progress.counts.over,
        },
        None => not_over(progress),
    }
}

fn not_over(progress: &Progress) -> Verdict
    ensures { result ≡ verdict_where progress.now.judged.span progress.now }
{
    match progress.judged.span {
        None => Verdict::Open(or_none_seen(progress.obstacle)),
        Some(span) => judged_from(span, progress),
    }
}

/// Why no double cycle is judged, where this is what is told of some: without any no node was seen.
pub(crate) fn or_none_seen(why: Option<Obstacle>) -> Obstacle
    ensures { result ≡ or_none_seen why }
{
    match why {
        Some(why) => why,
        None => Obstacle {
            kind: ObstacleKind::Unseen,
            cycle: None,
            node: None,
        },
    }
}

fn judged_from(span: Reach, progress: &Progress) -> Verdict
    ensures { result ≡ verdict_within progress.now.reach span progress.now }
{
    match progress.reach {
        None => Verdict::Partly(partly_of(span, progress)),
        Some(reach) => {
            if reaches_end(reach, span) {
                Verdict::Within(reach)
            } else {
                Verdict::Partly(partly_of(span, progress))
            }
        }
    }
}

// Each row says within from the first judged cycle to the last but one.
fn reaches_end(reach: Reach, span: Reach) -> bool
    ensures { result ≡ reaches_end reach span }
{
    reach.from == span.from && reach.to < span.to && span.to - reach.to == 1
}

fn partly_of(span: Reach, progress: &Progress) -> Partly
    ensures { result ≡ partly_of span progress.now }
{
    Partly {
        span,
        within: progress.judged.said.within,
        neither: progress.judged.said.neither,
        judged: progress.judged.doubles,
        doubles: progress.doubles,
    }
}
