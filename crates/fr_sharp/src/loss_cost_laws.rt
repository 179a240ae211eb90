ghost use Rattle.fr_sharp.specs.LossBursts.{BurstsCostNoMore, BurstsKeepThePeak, CrossingBurstsCostNoMore, CrossingBurstsKeepThePeak, EverySecondCostsNoMore, EverySecondKeepsThePeak};
ghost use Rattle.fr_sharp.specs.LossCosts.{EverySecondIsReached, OneCrossingCost, OneLongest, OneLossCost, OneSecondCost, SomeCrossingCost, SomeLongest, SomeLossCost, SomeSecondCost};
ghost use Rattle.fr_sharp.specs.MeetingCosts.{OneMeetingCost, SomeMeetingCost};

use crate::losing::histories_keep_through_losses;
use fr_promise::heard_numbers;

/// A law: what losses cost, in ticks, is one answer, and so is how many double cycles in a row the limits bear.
pub fn costs_are_one()
    ensures row { OneLossCost }
    ensures crossing { OneCrossingCost }
    ensures second { OneSecondCost }
    ensures meeting { OneMeetingCost }
    ensures longest { OneLongest }
{}

/// A law: of sane parameters there is such an answer; and that of every second double cycle, in ticks, is the sharper
/// precision and what a loss adds to it.
pub fn costs_are_there()
    ensures row { SomeLossCost }
    ensures crossing { SomeCrossingCost }
    ensures second { SomeSecondCost }
    ensures meeting { SomeMeetingCost }
    ensures longest { SomeLongest }
    ensures reached { EverySecondIsReached }
{}

/// The promise where frames are lost in bursts, each of no more than so many double cycles and behind two in which all is
/// heard: no macroticks lie further apart than the peak of so many in a row, in ticks, and no action points than their
/// reach. So a run of files that are covered through losses from a double cycle on with that reach, without arbitrary sync
/// nodes, and that from there on loses frames in bursts, keeps within that peak, from each double cycle in sharp sync from
/// there on in which no node lacks values and as long as the walk lasts: no term is cut, none is missing but where a node has
/// no value of its kind, and every correct node is active.
pub fn bursts_keep_the_peak()
    ensures cost { BurstsCostNoMore }
    ensures keep { BurstsKeepThePeak }
{
    histories_keep_through_losses();
    heard_numbers();
}

/// The promise where frames are lost in bursts that do not begin with a double cycle: each of no more than so many odd cycles
/// and the even ones behind them, and behind two double cycles in which all is heard. No macroticks lie further apart than the
/// peak of that, in ticks, and no action points than its reach. So a run of files that are covered through losses from a double
/// cycle on with that reach, without arbitrary sync nodes, and that from there on loses frames so, keeps within that peak, as
/// one that loses them in bursts of whole double cycles keeps within theirs.
pub fn crossing_bursts_keep_the_peak()
    ensures cost { CrossingBurstsCostNoMore }
    ensures keep { CrossingBurstsKeepThePeak }
{
    histories_keep_through_losses();
    heard_numbers();
}

/// The promise where frames are lost in every second double cycle, for ever and whatever the pattern: of any two in a row
/// all is heard in one. No macroticks lie further apart than the peak of that, in ticks, and no action points than its reach.
/// So a run of files that are covered through losses from a double cycle on with that reach, without arbitrary sync nodes,
/// and that from there on loses frames so, keeps within that peak, as one that loses them in bursts keeps within theirs.
pub fn every_second_keeps_the_peak()
    ensures cost { EverySecondCostsNoMore }
    ensures keep { EverySecondKeepsThePeak }
{
    histories_keep_through_losses();
    heard_numbers();
}
