ghost use Rattle.std.specs.Prelude.{◌≡◌, ◌≤◌, ◌<◌, ◌∷◌, [], true};
ghost use Rattle.fr_findings.specs.Ground.{CountsFew, reach_passed, with_both};
ghost use Rattle.fr_findings.specs.Counting.{AreFewCycles, counted};
ghost use Rattle.fr_findings.specs.Verdict.{further_within, judged_by, no_progress, none_judged, reach_behind, reach_by, reach_where, span_to};
ghost use Rattle.fr_bound.specs.DoubleNumbers.{too_many_doubles};

use crate::counts::Counts;
use fr_bound::{DoubleNumber, Known};
use fr_judging::Obstacle;
use fr_observe::{Fault, Says};

/// Cycles all of whose rows say that the skew is within the precision.
#[derive(Clone, Copy, Debug, PartialEq, Eq)]
pub struct Reach {
    /// The number of the first one in the log.
    pub from: u32,
    /// That of the last one.
    pub to: u32,
}

/// The row of a cycle that says over.
#[derive(Clone, Copy, Debug, PartialEq, Eq)]
pub struct OverRow {
    /// The number of the cycle in the log.
    pub cycle: u32,
    /// The least that the skew can be, in ticks.
    pub low: i64,
}

/// The double cycles that are judged: those in which more is held against the log than what contradicts any run, which is what
/// their own numbers exclude.
#[derive(Clone, Copy, Debug, PartialEq, Eq)]
pub struct Judged {
    /// How many they are.
    pub doubles: u64,
    /// How many of their cycles say what.
    pub said: Counts,
    /// The first and the last of these cycles.
    pub span: Option<Reach>,
}

/// What is known of a log behind some of its double cycles.
#[derive(Clone, Copy, Debug, PartialEq, Eq)]
pub struct Progress {
    /// What is known of the clocks in the next double cycle, in ticks: where the last one is judged, and nothing contradicts its
    /// numbers.
    pub known: Option<Known>,
    /// The first contradiction.
    pub first: Option<Fault>,
    /// How many cycles say what.
    pub counts: Counts,
    /// From the first judged cycle on, those that say within without a gap; none behind a double cycle that is not judged.
    pub reach: Option<Reach>,
    /// Whether one of them said something else, or was not judged.
    pub is_ended: bool,
    /// The first row that says over.
    pub over: Option<OverRow>,
    /// How many double cycles there are.
    pub doubles: u64,
    /// Those of them that are judged.
    pub judged: Judged,
    /// Why one of the others is not: the one that came farthest, of equal ones the first.
    pub obstacle: Option<Obstacle>,
}

/// What a double cycle comes to.
#[derive(Clone, Copy)]
pub(crate) struct Outcome {
    /// Its number.
    pub(crate) double: u32,
    /// Whether it is judged.
    pub(crate) is_judged: bool,
    /// What its even and its odd cycle say.
    pub(crate) said: (Says, Says),
}

impl Judged {
    // None.
    fn none() -> Judged
        ensures { result ≡ none_judged }
    {
        Judged {
            doubles: 0,
            said: Counts::new(),
            span: None,
        }
    }

    // One more, whose cycles say this.
    fn pass(&mut self, double: DoubleNumber, even: Says, odd: Says)
        requires few { AreFewCycles 900_000 self.old.said }
        requires doubles { self.old.doubles ≤ 900_000 }
        ensures { self.new ≡ judged_by true self.old double (even ∷ odd ∷ []) }
    {
        self.doubles += 1;
        count_both(even, odd, &mut self.said);
        self.span = Some(span_to(self.span, double));
    }
}

impl Progress {
    // Before the first double cycle.
    pub(crate) fn none() -> Progress
        ensures { result ≡ no_progress }
    {
        Progress {
            known: None,
            first: None,
            counts: Counts::new(),
            reach: None,
            is_ended: false,
            over: None,
            doubles: 0,
            judged: Judged::none(),
            obstacle: None,
        }
    }

    // How far rows say within, and whether one of them said something else, behind a double cycle.
    pub(crate) fn reach_passed(&self, outcome: &Outcome) -> (Option<Reach>, bool)
        requires { outcome.now.double < too_many_doubles }
        ensures { result ≡ reach_passed self.now outcome.now.double outcome.now.is_judged outcome.now.said.0
            outcome.now.said.1 }
    {
        let reach = (self.reach, self.is_ended);
        behind_judged(
            outcome.is_judged,
            self.judged.span,
            DoubleNumber(outcome.double),
            outcome.said,
            reach,
        )
    }

    // Behind a double cycle the first row of which that says over is this one, and behind which rows reach so far.
    pub(crate) fn pass(
        &mut self,
        outcome: &Outcome,
        reach: (Option<Reach>, bool),
        over: Option<OverRow>,
    )
        requires double { outcome.now.double < too_many_doubles }
        requires few { CountsFew 900_000 self.old }
        ensures { self.new ≡ with_both self.old outcome.now.double outcome.now.is_judged outcome.now.said.0
            outcome.now.said.1 reach over }
    {
        self.reach = reach.0;
        self.is_ended = reach.1;
        self.doubles += 1;
        judge(
            outcome.is_judged,
            DoubleNumber(outcome.double),
            outcome.said.0,
            outcome.said.1,
            &mut self.judged,
        );
        self.over = self.over.or(over);
        count_both(outcome.said.0, outcome.said.1, &mut self.counts);
    }
}

fn count_both(even: Says, odd: Says, counts: &mut Counts)
    requires { AreFewCycles 900_000 counts.old }
    ensures { counts.new ≡ counted counts.old (even ∷ odd ∷ []) }
{
    counts.add(even);
    counts.add(odd);
}

fn judge(is_judged: bool, double: DoubleNumber, even: Says, odd: Says, judged: &mut Judged)
    requires few { AreFewCycles 900_000 judged.old.said }
    requires doubles { judged.old.doubles ≤ 900_000 }
    ensures { judged.new ≡ judged_by is_judged judged.old double (even ∷ odd ∷ []) }
{
    if is_judged {
        judged.pass(double, even, odd);
    }
}

fn span_to(span: Option<Reach>, double: DoubleNumber) -> Reach
    ensures { result ≡ span_to span double }
{
    let to = 2 * double.0 + 1;
    match span {
        None => Reach {
            from: 2 * double.0,
            to,
        },
        Some(span) => Reach {
            from: span.from,
            to,
        },
    }
}

fn further(reach: Option<Reach>, cycle: u32) -> Reach
    ensures { result ≡ further_within reach cycle }
{
    match reach {
        None => Reach {
            from: cycle,
            to: cycle,
        },
        Some(reach) => Reach {
            from: reach.from,
            to: cycle,
        },
    }
}

// How far the rows of judged cycles say within, and whether one of them said something else: behind one that says this.
fn behind_one(reach: Option<Reach>, cycle: u32, says: Says) -> (Option<Reach>, bool)
    ensures { result ≡ reach_by reach cycle says }
{
    match says {
        Says::Within => (Some(further(reach, cycle)), false),
        Says::Over | Says::Open => (reach, true),
    }
}

fn behind(reach: (Option<Reach>, bool), cycle: u32, says: Says) -> (Option<Reach>, bool)
    ensures { result ≡ reach_behind reach cycle says }
{
    if reach.1 {
        reach
    } else {
        behind_one(reach.0, cycle, says)
    }
}

// The same behind both cycles of a double cycle; one that is not judged is a gap behind those that are.
fn behind_judged(
    is_judged: bool,
    span: Option<Reach>,
    double: DoubleNumber,
    said: (Says, Says),
    reach: (Option<Reach>, bool),
) -> (Option<Reach>, bool)
    ensures { result ≡ reach_where is_judged span double said.0 said.1 reach }
{
    if is_judged {
        behind(
            behind(reach, 2 * double.0, said.0),
            2 * double.0 + 1,
            said.1,
        )
    } else {
        match span {
            None => reach,
            Some(_) => (None, true),
        }
    }
}
