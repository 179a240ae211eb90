ghost use Rattle.std.specs.Prelude.{◌≡◌};
ghost use Rattle.std.specs.Option.{option_or};

use fr_verdict::Unlawful;

// The first of two breaches, of which the second may be there alone.
pub(crate) fn first_of(first: Option<Unlawful>, second: Option<Unlawful>) -> Option<Unlawful>
    ensures { result ≡ option_or first second }
{
    match first {
        Some(breach) => Some(breach),
        None => second,
    }
}
