ghost use Rattle.std.specs.Prelude.{◌≡◌, ℤ, All, IfSome};
ghost use Rattle.fr_course.specs.Course.{is_empty};
ghost use Rattle.fr_course.specs.Near.{EndBetween};
ghost use Rattle.fr_course.specs.Readings.{meet, meet_all, meet_if};

/// From one number to another; where the one is above the other, nothing lies there.
#[derive(Clone, Copy, Debug, PartialEq, Eq)]
pub struct Interval {
    pub low: i128,
    pub high: i128,
}

/// What lies in both intervals. Where the ends of both lie between two numbers, so do its ends.
pub fn meet(one: &Interval, other: &Interval) -> Interval
    ensures value { result ≡ meet one.now other.now }
    ensures near { (least greatest : ℤ) →
        EndBetween least greatest one.now →
        EndBetween least greatest other.now →
        EndBetween least greatest result }
{
    Interval {
        low: one.low.max(other.low),
        high: one.high.min(other.high),
    }
}

/// What lies in one interval, which may be without limits, and in another.
pub fn meet_if(one: Option<Interval>, other: &Interval) -> Interval
    ensures value { result ≡ meet_if one other.now }
    ensures near { (least greatest : ℤ) →
        IfSome one (EndBetween least greatest) →
        EndBetween least greatest other.now →
        EndBetween least greatest result }
{
    match one {
        None => *other,
        Some(one) => meet(&one, other),
    }
}

/// What lies in all of some intervals; none without one. Where the ends of all lie between two numbers, so do its ends.
pub fn meet_all(intervals: &[Interval]) -> Option<Interval>
    ensures value { result ≡ meet_all intervals.now }
    ensures near { (least greatest : ℤ) →
        All (EndBetween least greatest) intervals.now →
        IfSome result (EndBetween least greatest) }
{
    let mut met = None;
    for place in (0..intervals.len()).rev() {
        met = Some(meet_if(met, &intervals[place]));
    }
    met
}

/// Whether nothing lies there.
pub fn is_empty(interval: &Interval) -> bool
    ensures { result ≡ is_empty interval.now }
{
    interval.high < interval.low
}
