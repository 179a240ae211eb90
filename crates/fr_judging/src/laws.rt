ghost use Rattle.fr_judging.specs.LeastMissed.{FewerMissedContradict, MissedIsLeast};
ghost use Rattle.fr_judging.specs.LeastMissed.{NoneMissedSuffices, WhateverMissedContradicts};
ghost use Rattle.fr_judging.specs.Reasons.{ReasonsAreOfUnjudged};

/// The law of reasons: it is told why a double cycle is not judged exactly where it is not; a judged one has
/// numbers that it is judged by.
pub fn reasons_are_of_unjudged()
    ensures { ReasonsAreOfUnjudged }
{}

/// The law of what was missed: a term that contradicts a node that missed at most so many senders contradicts one
/// that missed at most fewer. The number that is told is the least that nothing contradicts, and from it on nothing
/// does; where none is, each number below that of the senders is contradicted, and for one of these each number at
/// all.
pub fn missed_is_least()
    ensures fewer { FewerMissedContradict }
    ensures least { MissedIsLeast }
    ensures none { NoneMissedSuffices }
    ensures whatever { WhateverMissedContradicts }
{}
