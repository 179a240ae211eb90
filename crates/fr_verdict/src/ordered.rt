ghost use Rattle.std.specs.Prelude.{◌≡◌, ◌==◌, ◌≤◌, ◌<◌, ℕ, false, true, filter, length, slice_index_or};
ghost use Rattle.fr_base.specs.Rows.{AreAscendingDevs};
ghost use Rattle.fr_base.specs.declared.dev.Dev.{Dev as Deviation};

use fr_base::{Dev, NodeId};

// How many deviations a search goes over at a time, until it is near.
const STRIDE: usize = 8;

/// The deviations of a receiver among some that are in ascending order.
pub fn devs_of(devs: &[Dev], receiver: NodeId) -> &[Dev]
    requires { AreAscendingDevs devs.now }
    ensures { result.now ≡ filter (λ dev. dev.receiver == receiver) devs.now }
{
    let from = first_place(devs, receiver.0);
    let rest = &devs[from..];
    let count = first_place(rest, receiver.0 + 1);
    &rest[..count]
}

// The place of the first deviation whose receiver has this number or a greater one.
pub(crate) fn first_place(devs: &[Dev], receiver: u8) -> usize
    requires { AreAscendingDevs devs.now }
    ensures within { result ≤ length devs.now }
    ensures below { (k : ℕ) (d : Deviation) → k < result → (slice_index_or devs.now k d).receiver < receiver }
    ensures above { (k : ℕ) (d : Deviation) → result ≤ k → k < length devs.now →
        receiver ≤ (slice_index_or devs.now k d).receiver }
{
    let mut place = near_place(devs, receiver);
    while is_below(devs, place, receiver) {
        place += 1;
    }
    place
}

// A place near to it, at it or before it.
fn near_place(devs: &[Dev], receiver: u8) -> usize
    requires { AreAscendingDevs devs.now }
    ensures within { result ≤ length devs.now }
    ensures below { (k : ℕ) (d : Deviation) → k < result → (slice_index_or devs.now k d).receiver < receiver }
{
    let mut place = 0;
    while is_below(devs, place + STRIDE, receiver) {
        place += STRIDE;
    }
    place
}

// Whether there is a deviation at a place whose receiver has a smaller number.
fn is_below(devs: &[Dev], place: usize, receiver: u8) -> bool
    ensures within { result ≡ true → place < length devs.now }
    ensures below { result ≡ true → (d : Deviation) → (slice_index_or devs.now place d).receiver < receiver }
    ensures above { result ≡ false → place < length devs.now → (d : Deviation) →
        receiver ≤ (slice_index_or devs.now place d).receiver }
{
    if place < devs.len() {
        let dev = &devs[place];
        dev.receiver.0 < receiver
    } else {
        false
    }
}
