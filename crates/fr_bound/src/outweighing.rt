ghost use Rattle.std.specs.Prelude.{◌≡◌};
ghost use Rattle.fr_bound.specs.Outweighing.{outweighs};

/// Whether so many correct sync nodes outweigh so many arbitrary ones: one none, three one, six two.
pub fn outweighs(correct: u64, arbitrary: u64) -> bool
    ensures { result ≡ outweighs correct arbitrary }
{
    match arbitrary {
        0 => correct >= 1,
        1 => correct >= 3,
        2 => correct >= 6,
        _ => false,
    }
}
