ghost use Rattle.std.specs.Prelude.{◌≡◌, ◌≤◌, ◌<◌, ◌+◌, ℕ, length};
ghost use Rattle.std.specs.List.{prefix_len};
ghost use Rattle.fr_log.specs.View.{LogView};
ghost use Rattle.fr_sightings.specs.Ranges.{AreSeenFrom, AreLogStamps, DoublesAscend};
ghost use Rattle.fr_sightings.specs.Senders.{is_in, is_of_earlier, sightings_in};

use crate::sighting::Sighting;
use fr_bound::DoubleNumber;

/// What is looked at of some sightings: those of a double cycle, those of the next one, and all behind the first.
#[derive(Clone, Copy)]
pub struct Window<'a> {
    pub here: &'a [Sighting],
    pub next: &'a [Sighting],
    pub behind: &'a [Sighting],
}

// How many of some sightings, from the first on, are of a double cycle.
fn count_in(seen: &[Sighting], double: u32) -> usize
    ensures value { result ≡ prefix_len (is_in double) seen.now }
    ensures within { result ≤ length seen.now }
{
    let mut count = 0;
    while count < seen.len() && seen[count].number / 2 == double {
        count += 1;
    }
    count
}

/// The sightings of a double cycle before which none is, and of the next one.
pub fn look_at(seen: &[Sighting], double: DoubleNumber) -> Window<'_>
    requires ascend { DoublesAscend seen.now }
    requires from { AreSeenFrom double seen.now }
    ensures here { result.here.now ≡ sightings_in seen.now double }
    ensures next { result.next.now ≡ sightings_in seen.now (double + 1) }
    ensures later { (later : ℕ) → double < later → sightings_in result.behind.now later ≡ sightings_in seen.now later }
    ensures ascend { DoublesAscend result.behind.now }
    ensures from { AreSeenFrom (double + 1) result.behind.now }
    ensures timed { (l : LogView) → AreLogStamps l seen.now →
        AreLogStamps l result.here.now × AreLogStamps l result.next.now × AreLogStamps l result.behind.now }
{
    let (here, behind) = seen.split_at(count_in(seen, double.0));
    let (next, _) = behind.split_at(count_in(behind, double.0 + 1));
    Window { here, next, behind }
}

// How many of some sightings, from the first on, are of double cycles before one.
fn count_before(seen: &[Sighting], double: u32) -> usize
    ensures value { result ≡ prefix_len (is_of_earlier double) seen.now }
    ensures within { result ≤ length seen.now }
{
    let mut count = 0;
    while count < seen.len() && seen[count].number / 2 < double {
        count += 1;
    }
    count
}

/// The sightings from a double cycle on.
pub fn look_from(seen: &[Sighting], double: u32) -> &[Sighting]
    requires { DoublesAscend seen.now }
    ensures same { (later : ℕ) → double ≤ later → sightings_in result.now later ≡ sightings_in seen.now later }
    ensures ascend { DoublesAscend result.now }
    ensures from { AreSeenFrom double result.now }
    ensures timed { (l : LogView) → AreLogStamps l seen.now → AreLogStamps l result.now }
{
    let (_, behind) = seen.split_at(count_before(seen, double));
    behind
}
