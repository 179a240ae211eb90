ghost use Rattle.std.specs.Prelude.{◌≡◌, ◌≢◌, ◌≤◌};
ghost use Rattle.fr_poc.specs.Control.{first_status, worse_of, exceeded_from, missing_from, state_after_bad, status_after, after_double, ArePocLimits, ControlStepsAlong, EitherIsWorse};

use fr_base::{Outcome, State};
use std::marker::Model;

/// The parameters of operation control, all counted in double cycles but `halt_allowed`.
#[derive(Clone, Copy, Debug, PartialEq, Eq)]
pub struct PocLimits {
    /// `gMaxWithoutClockCorrectionPassive`, 1 to 15.
    pub passive: u8,
    /// `gMaxWithoutClockCorrectionFatal`, 1 to 15.
    pub fatal: u8,
    /// `pAllowHaltDueToClock`.
    pub halt_allowed: bool,
    /// `pAllowPassiveToActive`, 0 to 31; at 0 a passive node stays passive.
    pub to_active: u8,
}

/// Operation control of one node: its limits, its state, and two counters of double cycles (chapter 2,
/// protocol operation control).
#[derive(Debug, Drop)]
pub struct Poc {
    limits: PocLimits,
    state: State,
    bad: u8,
    good: u8,
}

impl Model for Poc {
    ghost use Rattle.std.specs.Prelude.{ℕ, ◌≤◌};
    ghost use Rattle.fr_poc.specs.Control.{Control};

    ghost Value = { Control };

    ghost view = { λ poc. record { limits = poc.limits; status = record { state = poc.state; bad = poc.bad; good = poc.good } } };

    ghost invariant = { λ poc. (poc.bad ≤ 15) × (poc.good ≤ 31) };
}

impl Poc {
    /// Operation control as a node begins: active, with both counters at 0.
    pub fn new(limits: PocLimits) -> Poc
        requires { ArePocLimits limits }
        ensures limits { result.limits ≡ limits }
        ensures begins { result.status ≡ first_status }
    {
        Poc {
            limits,
            state: State::Active,
            bad: 0,
            good: 0,
        }
    }

    /// The state, which holds for the double cycle after the last step.
    pub fn state(&self) -> State
        ensures { result ≡ self.now.status.state }
    {
        self.state
    }

    /// How many double cycles had a correction missing, and none outside its limit, since the last one with
    /// both within their limits; at most 15.
    pub fn bad(&self) -> u8
        ensures count { result ≡ self.now.status.bad }
        ensures most { result ≤ 15 }
    {
        self.bad
    }

    /// How many double cycles in a row a passive node had both corrections within their limits, at most
    /// 31.
    pub fn good(&self) -> u8
        ensures count { result ≡ self.now.status.good }
        ensures most { result ≤ 31 }
    {
        self.good
    }

    /// Takes the step at the end of an odd cycle, by how the offset and the rate correction ended,
    /// and returns the state for the next double cycle (chapter 2, protocol operation control).
    pub fn step(&mut self, offset: Outcome, rate: Outcome) -> State
        ensures steps { self.new ≡ after_double self.old offset rate }
        ensures state { result ≡ self.new.status.state }
    {
        if matches!(self.state, State::Halt) {
            return State::Halt;
        }
        match worse(offset, rate) {
            Outcome::Exceeded => self.exceed(),
            Outcome::Missing => self.miss(),
            Outcome::Within => self.correct(),
        }
        self.state()
    }

    /// Begins again: active, with both counters at 0, and with the same limits.
    pub fn restart(&mut self)
        ensures { self.new ≡ record self.old { status = first_status } }
    {
        self.forget();
        self.enter(State::Active);
    }

    // Counts no double cycle with a correction missing.
    fn forget(&mut self)
        ensures { self.new ≡ record self.old { status = record self.old.status { bad = 0 } } }
    {
        self.bad = 0;
    }

    // Enters a state, and sets `good` to 0.
    fn enter(&mut self, state: State)
        ensures { self.new ≡ record self.old { status = record self.old.status { state = state; good = 0 } } }
    {
        self.state = state;
        self.good = 0;
    }

    // A correction lay outside its limit.
    fn exceed(&mut self)
        ensures { self.new ≡ record self.old { status = exceeded_from self.old.limits self.old.status } }
    {
        self.enter(if self.limits.halt_allowed {
            State::Halt
        } else {
            State::Passive
        });
    }

    // A correction was missing.
    fn miss(&mut self)
        ensures { self.new ≡ record self.old { status = missing_from self.old.limits self.old.status } }
    {
        self.bad = (self.bad + 1).min(15);
        let state = after_bad(&self.limits, self.state, self.bad);
        self.enter(state);
    }

    // Both corrections were within their limits; the node is not halted.
    fn correct(&mut self)
        requires { self.old.status.state ≢ State.Halt }
        ensures { self.new ≡ record self.old {
          status = status_after self.old.limits self.old.status self.old.status.state Outcome.Within;
        } }
    {
        self.forget();
        self.good = match self.state {
            State::Passive => (self.good + 1).min(31),
            State::Active | State::Halt => 0,
        };
        if self.limits.to_active > 0 && self.good >= self.limits.to_active {
            self.enter(State::Active);
        }
    }
}

// The worse of two outcomes.
fn worse(offset: Outcome, rate: Outcome) -> Outcome
    ensures { result ≡ worse_of offset rate }
{
    match (offset, rate) {
        (Outcome::Exceeded, _) | (_, Outcome::Exceeded) => Outcome::Exceeded,
        (Outcome::Missing, _) | (_, Outcome::Missing) => Outcome::Missing,
        (Outcome::Within, Outcome::Within) => Outcome::Within,
    }
}

// The state after so many double cycles in a row without correction.
fn after_bad(limits: &PocLimits, state: State, bad: u8) -> State
    ensures { result ≡ state_after_bad limits.now state bad }
{
    if limits.halt_allowed && bad >= limits.fatal {
        State::Halt
    } else if bad >= limits.passive {
        State::Passive
    } else {
        state
    }
}

/// The law that a list of pairs of outcomes is gone through step by step: with no pair a node is as it
/// began, and each further pair is one more step. It does not matter which of both outcomes is which.
pub fn control_steps_along()
    ensures along { ControlStepsAlong }
    ensures either { EitherIsWorse }
{}
