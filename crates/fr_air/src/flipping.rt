ghost use Rattle.std.specs.Prelude.{◌≡◌, ◌-◌, ◌^◌, ◌<◌, ◌≤◌, ◌++◌, ℕ, List, drop, length, take};
ghost use Rattle.std.specs.Option.{option_map};
ghost use Rattle.fr_history.specs.Offers.{arrived_of};
ghost use Rattle.fr_reception.specs.Offers.{flipped};
ghost use Rattle.fr_script.specs.Events.{event_seen};
ghost use Rattle.fr_air.specs.Listening.{frame_with};

use fr_script::Event;

// What arrives of the frame of a correct sender, by what becomes of it: with which bit inverted, if one is; None where
// nothing arrives.
pub fn arrived(event: &Event<'_>) -> Option<Option<u32>>
    ensures { (frame : List ℕ) →
        option_map (λ bit. frame_with bit frame) result ≡ arrived_of (event_seen event.now) frame }
{
    match event {
        Event::Regular => Some(None),
        Event::Flip(bit) => Some(Some(*bit)),
        Event::Silent | Event::Say { .. } => None,
    }
}

// Inverts a bit of so many bytes at the front of others. The bit counts from 0, the first bit sent.
pub fn flip_front(bytes: &mut [u8], count: usize, bit: u32)
    requires { count ≤ length bytes.old }
    ensures { bytes.new ≡ flipped bit (take count bytes.old) ++ drop count bytes.old }
{
    flip(&mut bytes[..count], bit);
}

// Inverts a bit of bytes.
#[tactic(auto, unfolding(fr_reception::specs::Offers::flipped))]
fn flip(bytes: &mut [u8], bit: u32)
    ensures { bytes.new ≡ flipped bit bytes.old }
{
    let place = (bit / 8) as usize;
    if place < bytes.len() {
        bytes[place] ^= mask(bit % 8);
    }
}

// A byte with this bit alone, counted from the most significant.
fn mask(bit: u32) -> u8
    requires { bit < 8 }
    ensures { result ≡ 2 ^ (7 - bit) }
{
    1 << (7 - bit)
}
