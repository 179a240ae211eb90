ghost use Rattle.fr_precision.specs.Lengths.{LaterStraysLess, NoneStrays, WalkIsHeldThrough};
ghost use Rattle.fr_precision.specs.Among.{CleanAgain, CrossingCosts, EndsComeAmong, EverySecondCosts, HeardAgain, HeardSpreadsGo, LaterSpreadsAreLess, LengthsComeAmong, LostIsBy, LostSpreadGoes, LossyDoublesKeep, LossyDoublesStayApart, MeetingStays, OneLossCosts, SpreadsAreBelowLost, SpreadsGo};

/// The laws of losses: whichever senders two nodes have heard, their next lengths and their next starts, in ticks,
/// lie no further apart than those of the senders, and some.
pub fn nodes_come_among()
    ensures lengths { LengthsComeAmong }
    ensures ends { EndsComeAmong }
{}

/// The law of a double cycle by what is heard in it: any two of its nodes come so near, in ticks, their next starts by what is
/// heard of offsets and their next lengths by what is heard of rates. Nodes that keep their rates come no less near than where
/// anything may be lost, and lie further beyond their range by no more than two changes of a cycle. And what one such double
/// cycle costs from sharp sync, without arbitrary nodes, and a burst over an odd cycle and the next even one.
pub fn losses_cost()
    ensures step { HeardSpreadsGo }
    ensures cost { OneLossCosts }
    ensures crossing { CrossingCosts }
{}

/// The law of many double cycles in some of which anything may be lost: nodes keep to numbers that go on by what was
/// heard, in ticks.
pub fn losses_last()
    ensures keep { LossyDoublesKeep }
    ensures apart { LossyDoublesStayApart }
{}

/// The law of nodes that keep their rates in some double cycles: by how much more than by the walk lengths may lie beyond
/// their range, in ticks, takes in what oscillators change, as long as the rate limit suffices for it. It is no greater
/// from a later double cycle on, and 0 where no node keeps its rate or oscillators do not change.
pub fn strays_are_held()
    ensures held { WalkIsHeldThrough }
    ensures later { LaterStraysLess }
    ensures none { NoneStrays }
{}

/// The law of the numbers by what is heard, in ticks: they go on as the step does, from a later double cycle on they are no
/// greater, they come back where all is heard twice, and where lists meet in each double cycle they never grow further than
/// beside arbitrary nodes.
pub fn heard_numbers()
    ensures goes { SpreadsGo }
    ensures later { LaterSpreadsAreLess }
    ensures again { CleanAgain }
    ensures meeting { MeetingStays }
    ensures below { SpreadsAreBelowLost }
{}

/// The law of the numbers where all is heard or anything may be lost, without arbitrary nodes: they are a case of those, and
/// never grow further than so where all is heard in one of any two adjacent double cycles.
pub fn lost_numbers()
    ensures case { LostIsBy }
    ensures goes { LostSpreadGoes }
    ensures again { HeardAgain }
    ensures second { EverySecondCosts }
{}
