ghost use Rattle.fr_base.specs.Channels.{letter};
ghost use Rattle.fr_base.specs.States.{state_text};
ghost use Rattle.fr_text.specs.Pieces.{Spells};

use crate::piece::Piece;
use crate::piece::Piece::Word;
use fr_base::{Channel, State};

/// The letter of a channel.
pub fn letter_of(channel: Channel) -> Piece<'static>
    ensures { Spells result (letter channel) 1 }
{
    match channel {
        Channel::A => Word(b"A"),
        Channel::B => Word(b"B"),
    }
}

/// The word for a state.
pub fn state_of(state: State) -> Piece<'static>
    ensures { Spells result (state_text state) 10 }
{
    match state {
        State::Active => Word(b"active"),
        State::Passive => Word(b"passive"),
        State::Halt => Word(b"halt"),
    }
}
