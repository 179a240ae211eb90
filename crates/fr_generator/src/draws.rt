ghost use Rattle.std.specs.Prelude.{◌≡◌, ◌%◌, ◌==◌};
ghost use Rattle.fr_generator.specs.Drawn.{draw, rest};
ghost use Rattle.fr_generator.specs.Steps.{delay_drawn, length_drawn, shift_drawn, start_drawn};

use rand_core::utils::NextWord;
use rand_pcg::Lcg64Xsh32;

// Each takes the next draw: the length of a microtick, a start, a delay and a shift, in ticks.
pub(crate) fn draw_length(words: &mut Lcg64Xsh32) -> i64
    ensures value { result ≡ length_drawn words.old }
    ensures rest { words.new ≡ rest words.old }
{
    999_800 + i64::from(words.next_word() % 401)
}

pub(crate) fn draw_start(words: &mut Lcg64Xsh32) -> i64
    ensures value { result ≡ start_drawn words.old }
    ensures rest { words.new ≡ rest words.old }
{
    i64::from(words.next_word() % 50_000_001)
}

pub(crate) fn draw_delay(words: &mut Lcg64Xsh32) -> i64
    ensures value { result ≡ delay_drawn words.old }
    ensures rest { words.new ≡ rest words.old }
{
    i64::from(words.next_word() % 500_001)
}

pub(crate) fn draw_shift(words: &mut Lcg64Xsh32) -> i64
    ensures value { result ≡ shift_drawn words.old }
    ensures rest { words.new ≡ rest words.old }
{
    i64::from(words.next_word() % 400_000_001) - 200_000_000
}

// Whether the next draw lets a chance pass.
pub(crate) fn draw_pass(words: &mut Lcg64Xsh32) -> bool
    ensures value { result ≡ (draw words.old % 4 == 0) }
    ensures rest { words.new ≡ rest words.old }
{
    words.next_word() % 4 == 0
}
