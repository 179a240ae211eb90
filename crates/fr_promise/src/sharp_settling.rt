ghost use Rattle.fr_precision.specs.SharpSettling.{AloneSettlesSoon, BesideSettlesSoon, NextSpreadDraws, NextStartsFit, OlderWayFits, SettledStays};
ghost use Rattle.fr_promise.specs.SharpWay.{OneSharpWay};

/// The law of settling: how far starts and even lengths may lie apart, in ticks, draws together from one double cycle
/// to the next as the step does, and comes to rest in sharp sync: after two double cycles without arbitrary nodes,
/// and after 82 beside them, of numbers up to 1,000,000,000,000. From sync in the older sense it stays within the
/// older precision from the second double cycle on, where delays flutter by no more than twice the error of an arrival.
pub fn sharp_spreads_settle()
    ensures draws { NextSpreadDraws }
    ensures fit { NextStartsFit }
    ensures stays { SettledStays }
    ensures alone { AloneSettlesSoon }
    ensures beside { BesideSettlesSoon }
    ensures older { OlderWayFits }
{}

/// A law: what is told of the way to sharp sync is one answer.
pub fn one_sharp_way()
    ensures { OneSharpWay }
{}
