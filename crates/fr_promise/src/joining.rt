ghost use Rattle.fr_promise.specs.SharpJoining.{FollowersComeNearer, GroupSpreadsGo, NextGroupSpreadGoes, OlderJoinChecksSuffice, SharpGroupSpreadGoes, SharpJoinChecksSuffice};

/// A law: the bounds of a node that follows come nearer, in ticks. Its second lengths may lie no further from the others'
/// than its first ones, and its second start no further than its first one; and the sharper reach takes in how far action
/// points may lie apart in its second double cycle, and in sharp sync. It is of the bounds alone: of how far each one may
/// lie, and not of where it lies.
pub fn followers_come_nearer()
    ensures { FollowersComeNearer }
{}

/// A law: the bounds of a cluster that nodes join go to those of the next double cycle, in ticks, whatever is heard, for as
/// many double cycles as one likes; from sharp sync on those of the nodes with rows are the ones of a run that no node
/// joins. Those of sharp sync stay where all is heard.
pub fn group_spreads_go()
    ensures next { NextGroupSpreadGoes }
    ensures through { GroupSpreadsGo }
    ensures sharp { SharpGroupSpreadGoes }
{}

/// A law: under the sharper checks of nodes that join the offset limit suffices for the sharper reach, slots leave room
/// for it, and the rate limit suffices for a first rate; the sharper checks from 2 to 5 hold. They hold where the older
/// checks of nodes that join do and delays flutter by no more than twice the error of an arrival, in ticks.
pub fn sharp_join_checks_suffice()
    ensures suffice { SharpJoinChecksSuffice }
    ensures older { OlderJoinChecksSuffice }
{}
