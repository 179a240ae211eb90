// What a coldstart node does at a macrotick, where a cycle has 10 macroticks and its action point is 3 behind its begin.
ghost use Rattle.std.specs.Prelude.{IfSome};
ghost use Rattle.fr_cold.specs.Moves.{IsTimely};

use fr_cold::ColdState::{Leading, Listening, Off, Resolving};
use fr_cold::{ColdState, Switch, is_leading, moved, quiet_before, ready, resolves, sends};
use std::test::Fail;

// How its power is switched, its state, a macrotick, its state behind the first two parts of it, and whether it begins to lead.
const READY: &[(Option<Switch>, ColdState, u32, ColdState, bool)] = &[
    (None, Off, 5, Off, false),
    (Some(Switch::On), Off, 5, Listening(5), false),
    (Some(Switch::On), Leading(1), 5, Listening(5), false),
    (Some(Switch::Off), Leading(1), 5, Off, false),
    (None, Resolving(20), 60, Resolving(20), false),
    (None, Resolving(20), 61, Leading(20), true),
    (Some(Switch::Off), Resolving(20), 61, Off, false),
];

// Its state, a macrotick, and whether it sends there.
const SENDS: &[(ColdState, u32, bool)] = &[
    (Off, 20, false),
    (Listening(0), 19, false),
    (Listening(0), 20, true),
    (Resolving(20), 23, false),
    (Resolving(20), 24, true),
    (Resolving(20), 34, true),
    (Leading(20), 64, true),
    (Leading(20), 65, false),
];

// Whether it hears something, its state, a macrotick, its state behind that, and whether it leads then.
const MOVED: &[(bool, ColdState, u32, ColdState, bool)] = &[
    (true, Off, 3, Off, false),
    (false, Listening(0), 19, Listening(0), false),
    (false, Listening(0), 20, Resolving(20), false),
    (true, Listening(0), 20, Listening(20), false),
    (false, Resolving(20), 25, Resolving(20), false),
    (true, Resolving(20), 25, Listening(25), false),
    (true, Leading(20), 65, Leading(20), true),
];

// Its state, a macrotick, the end, and up to where it does nothing by itself.
const QUIET: &[(ColdState, u32, u32, u32)] = &[
    (Off, 5, 100, 100),
    (Listening(0), 5, 100, 20),
    (Listening(0), 5, 15, 15),
    (Listening(0), 21, 100, 100),
    (Resolving(20), 21, 100, 24),
    (Resolving(20), 55, 100, 61),
    (Leading(20), 55, 100, 64),
    (Leading(20), 64, 100, 64),
];

const CYCLE: u32 = 10;

const ACTION: u32 = 3;

// The state, where its time lies in a run.
fn timely(state: ColdState) -> Option<ColdState>
    ensures { IfSome result IsTimely }
{
    match state {
        Off => Some(Off),
        Listening(since) => {
            if 1000 < since {
                None
            } else {
                Some(Listening(since))
            }
        }
        Resolving(begun) => {
            if 1000 < begun {
                None
            } else {
                Some(Resolving(begun))
            }
        }
        Leading(begun) => {
            if 1000 < begun {
                None
            } else {
                Some(Leading(begun))
            }
        }
    }
}

fn ready_of(switch: Option<Switch>, state: ColdState, tick: u32) -> Option<(ColdState, bool)> {
    let state = timely(state)?;
    if 1000 < tick {
        return None;
    }
    Some((
        ready(CYCLE, tick, switch, state),
        resolves(CYCLE, tick, switch, state),
    ))
}

fn sends_at(state: ColdState, tick: u32) -> Option<bool> {
    let state = timely(state)?;
    Some(sends(CYCLE, ACTION, tick, state))
}

fn moved_of(hears: bool, state: ColdState, tick: u32) -> Option<(ColdState, bool)> {
    let state = timely(state)?;
    if 1000 < tick {
        return None;
    }
    let state = moved(CYCLE, tick, hears, state);
    Some((state, is_leading(state)))
}

fn quiet_of(state: ColdState, tick: u32, end: u32) -> Option<u32> {
    let state = timely(state)?;
    if end < tick || 1000 < end {
        return None;
    }
    Some(quiet_before(CYCLE, ACTION, state, tick, end))
}

// The place of the first row that comes otherwise.
fn first_ready() -> Option<usize> {
    for (place, (switch, state, tick, behind, leads)) in READY.iter().enumerate() {
        if ready_of(*switch, *state, *tick) != Some((*behind, *leads)) {
            return Some(place);
        }
    }
    None
}

fn first_sent() -> Option<usize> {
    for (place, (state, tick, is_sent)) in SENDS.iter().enumerate() {
        if sends_at(*state, *tick) != Some(*is_sent) {
            return Some(place);
        }
    }
    None
}

fn first_moved() -> Option<usize> {
    for (place, (hears, state, tick, behind, leads)) in MOVED.iter().enumerate() {
        if moved_of(*hears, *state, *tick) != Some((*behind, *leads)) {
            return Some(place);
        }
    }
    None
}

fn first_quiet() -> Option<usize> {
    for (place, (state, tick, end, quiet)) in QUIET.iter().enumerate() {
        if quiet_of(*state, *tick, *end) != Some(*quiet) {
            return Some(place);
        }
    }
    None
}

#[test]
fn does_what_a_coldstart_node_does(rt: HostRuntime) -> Result<(), Fail> {
    assert_eq!(rt; first_ready(), None);
    assert_eq!(rt; first_sent(), None);
    assert_eq!(rt; first_moved(), None);
    assert_eq!(rt; first_quiet(), None);
    Ok(())
}
