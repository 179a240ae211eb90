ghost use Rattle.std.specs.Prelude.{◌≡◌, ◌≤◌, ◌*◌, pos, neg_ℤ, ◌+ℤ◌, ◌-ℤ◌, ◌*ℤ◌};
ghost use Rattle.fr_base.specs.Within.{IsBetween, IsWithin};
ghost use Rattle.fr_course.specs.Course.{breadth_of, span_of, stamped};
ghost use Rattle.fr_course.specs.Near.{AreDelays, IsBox, IsObserver, IsSpan};
ghost use Rattle.fr_course.specs.Readings.{least_reading, most_reading};
ghost use Rattle.fr_course.specs.Ranges.{greatest_breadth, greatest_off, greatest_stamp, IsSeenPoint, IsStamp};

use crate::intervals::Interval;
use crate::readings::{least_reading, most_reading};

/// The clock of an observer.
#[derive(Clone, Copy, Debug, PartialEq, Eq)]
pub struct Observer {
    /// A unit of its stamps, in ticks.
    pub unit: u64,
    /// By how many parts per million it may be off.
    pub drift: u64,
    /// By how many ticks a stamp may be off beside rounding.
    pub error: u64,
}

/// The limits of the delay of a sender's frames on a channel to the observer, in ticks.
#[derive(Clone, Copy, Debug, PartialEq, Eq)]
pub struct Delays {
    pub least: u64,
    pub most: u64,
    /// By how much two such delays in double cycles that follow each other, or in one, may differ.
    pub jitter: u64,
}

/// Where the action point of a stamped frame can lie, as readings; the stamp in units.
pub fn stamped(observer: &Observer, delays: &Delays, stamp: u64) -> Interval
    requires observer { IsObserver observer.now }
    requires delays { AreDelays delays.now }
    requires stamp { IsStamp observer.now.unit stamp }
    ensures value { result ≡ stamped observer.now delays.now (pos stamp) }
    ensures near { IsBox result }
{
    Interval {
        low: earliest(observer, delays, stamp),
        high: latest(observer, delays, stamp),
    }
}

/// How much later the action point of a frame is than that of another one of the same sender and channel, as readings;
/// the stamps in units.
pub fn span_of(observer: &Observer, delays: &Delays, stamp: u64, later: u64) -> Interval
    requires observer { IsObserver observer.now }
    requires delays { AreDelays delays.now }
    requires stamp { IsStamp observer.now.unit stamp }
    requires later { IsStamp observer.now.unit later }
    ensures value { result ≡ span_of observer.now delays.now (pos stamp) (pos later) }
    ensures near { IsSpan result }
{
    let units = units_apart(observer, stamp, later);
    let off = off_by(observer, delays);
    Interval {
        low: units - off,
        high: units + off,
    }
}

// The stamp in ticks.
fn ticks_at(observer: &Observer, stamp: u64) -> i128
    requires { IsStamp observer.now.unit stamp }
    ensures value { result ≡ pos observer.now.unit *ℤ pos stamp }
    ensures within { IsBetween (pos 0) (pos greatest_stamp) result }
{
    (observer.unit * stamp) as i128
}

// How far a stamp may lie before what it stamps.
fn breadth(observer: &Observer) -> i128
    requires { IsObserver observer.now }
    ensures value { result ≡ breadth_of observer.now }
    ensures within { IsBetween (pos 0) greatest_breadth result }
{
    (observer.unit + observer.error) as i128
}

fn earliest(observer: &Observer, delays: &Delays, stamp: u64) -> i128
    requires observer { IsObserver observer.now }
    requires delays { AreDelays delays.now }
    requires stamp { IsStamp observer.now.unit stamp }
    ensures value { result ≡
        (pos observer.now.unit *ℤ pos stamp)
        -ℤ most_reading observer.now.drift (pos delays.now.most) }
    ensures within { IsSeenPoint result }
{
    ticks_at(observer, stamp) - most_reading(observer.drift, delays.most as i128)
}

fn latest(observer: &Observer, delays: &Delays, stamp: u64) -> i128
    requires observer { IsObserver observer.now }
    requires delays { AreDelays delays.now }
    requires stamp { IsStamp observer.now.unit stamp }
    ensures value { result ≡
        ((pos observer.now.unit *ℤ pos stamp) +ℤ breadth_of observer.now)
        -ℤ least_reading observer.now.drift (pos delays.now.least) }
    ensures within { IsSeenPoint result }
{
    ticks_at(observer, stamp) + breadth(observer)
        - least_reading(observer.drift, delays.least as i128)
}

// By how much the units between two stamps lie apart.
fn units_apart(observer: &Observer, stamp: u64, later: u64) -> i128
    requires stamp { IsStamp observer.now.unit stamp }
    requires later { IsStamp observer.now.unit later }
    ensures value { result ≡ pos observer.now.unit *ℤ (pos later -ℤ pos stamp) }
    ensures within { IsWithin (pos greatest_stamp) result }
{
    ticks_at(observer, later) - ticks_at(observer, stamp)
}

// By how much they may be off.
fn off_by(observer: &Observer, delays: &Delays) -> i128
    requires observer { IsObserver observer.now }
    requires delays { AreDelays delays.now }
    ensures value { result ≡
        breadth_of observer.now +ℤ most_reading observer.now.drift (pos delays.now.jitter) }
    ensures within { IsWithin greatest_off result }
{
    breadth(observer) + most_reading(observer.drift, delays.jitter as i128)
}
