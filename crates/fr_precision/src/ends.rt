ghost use Rattle.fr_precision.specs.Ends.{CorrectedEndIsNear, EndsComeNear};

/// The law of offsets: the starts of two nodes' next double cycles, in ticks, lie half as far apart as those of the
/// senders, and some; without arbitrary nodes those of the senders do not count. That of one node lies near each
/// sender's end.
pub fn ends_come_near()
    ensures two { EndsComeNear }
    ensures one { CorrectedEndIsNear }
{}
