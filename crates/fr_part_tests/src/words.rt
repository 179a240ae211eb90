// What is told of states, channels, reasons and statuses.
use fr_base::{Channel, Reason, State};
use fr_text::{Status, letter_of, line_of, state_of};

// A state, its name, and whether a node in it sends, and whether it neither sends nor receives.
const STATES: &[(State, &[u8], bool, bool)] = &[
    (State::Active, b"active", true, false),
    (State::Passive, b"passive", false, false),
    (State::Halt, b"halt", false, true),
];

const CHANNELS: &[(Channel, &[u8])] = &[(Channel::A, b"A"), (Channel::B, b"B")];

// A reason, its number and its name.
const REASONS: &[(Reason, u8, &[u8])] = &[
    (Reason::Shape, 1, b"Shape"),
    (Reason::UnknownName, 2, b"UnknownName"),
    (Reason::NotNumber, 3, b"NotNumber"),
    (Reason::OutOfRange, 4, b"OutOfRange"),
    (Reason::UnknownNode, 5, b"UnknownNode"),
    (Reason::BadChannel, 6, b"BadChannel"),
    (Reason::Role, 7, b"Role"),
    (Reason::Link, 8, b"Link"),
    (Reason::NotHex, 9, b"NotHex"),
    (Reason::Repeated, 10, b"Repeated"),
];

const STATUSES: &[(Status, u8)] = &[
    (Status::Done, 0),
    (Status::No, 1),
    (Status::Usage, 2),
    (Status::ReadFault, 3),
    (Status::WriteFault, 4),
    (Status::Refused, 5),
    (Status::NoMemory, 6),
    (Status::TooLong, 7),
];

fn is_named(state: State, name: &[u8]) -> bool {
    state.word() == name && line_of(&[state_of(state)]).bytes().strip_suffix(b"\n") == Some(name)
}

fn is_lettered(channel: Channel, letter: &[u8]) -> bool {
    channel.letter() == letter
        && line_of(&[letter_of(channel)]).bytes().strip_suffix(b"\n") == Some(letter)
}

#[test]
fn states_and_channels_are_named(rt: HostRuntime) {
    for (state, name, active, halted) in STATES {
        assert!(rt; is_named(*state, name));
        assert!(rt; (state.is_active(), state.is_halted()) == (*active, *halted));
    }
    for (channel, letter) in CHANNELS {
        assert!(rt; is_lettered(*channel, letter));
    }
}

#[test]
fn reasons_and_statuses_are_numbered(rt: HostRuntime) {
    for (reason, rank, name) in REASONS {
        assert!(rt; (reason.rank(), reason.word()) == (*rank, *name));
    }
    for (status, code) in STATUSES {
        assert!(rt; status.code() == *code);
    }
}
