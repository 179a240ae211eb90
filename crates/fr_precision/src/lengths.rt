ghost use Rattle.fr_precision.specs.Lengths.{LengthsComeNear, NextLengthIsNear, RangeWalks};

/// The law of the range: where the rate limit suffices for how far lengths lie beyond their range, and for the
/// walk, no rate term is cut, and the next lengths, in ticks, lie no further beyond it than by the walk.
pub fn ranges_walk()
    ensures { RangeWalks }
{}

/// The law of rates: the lengths of two nodes' next even cycles, in ticks, lie half as far apart as those of the
/// senders, and half of the sharper lambda; without arbitrary nodes within it, whatever those of the senders are.
/// That of one node lies near each sender's even one.
pub fn lengths_come_near()
    ensures two { LengthsComeNear }
    ensures one { NextLengthIsNear }
{}
