ghost use Rattle.fr_seen_runs.specs.ComputedValues.{OffsetsAreMidpoints, RatesGrowByMidpoints};
ghost use Rattle.fr_seen_runs.specs.JudgedTerms.{MissedIsSo, OffsetsAreComputed, RatesAreComputed};

use fr_course::{middles_hold, values_are_counted, values_are_placed};

/// The law of midpoints: of a node with a row in a double cycle that is judged, whatever frames are lost on their way to it,
/// the offset term is the midpoint of values of key slots, in microticks: 0 of itself, and of other nodes with rows
/// deviations, and one of each whose frames of both cycles one channel carries. So is, but for the damping, what its
/// rate term grows by, of rate values (sections 8.6.2 to 8.6.4).
pub fn nodes_apply_midpoints()
    ensures offset { OffsetsAreMidpoints }
    ensures rate { RatesGrowByMidpoints }
{}

/// The law of computed terms, where a double cycle is judged by what is known of it, whoever has joined the run by then: of a
/// log that is seen of the run, the offset term of each sender, and what its rate term grows by, in microticks, lie where
/// the courses of the senders have it computed, if its node misses at most so many of the others.
pub fn terms_are_computed()
    ensures offset { OffsetsAreComputed }
    ensures rate { RatesAreComputed }
{
    values_are_counted();
    values_are_placed();
    middles_hold();
}

/// The law of what a node missed: where a double cycle is judged by what is known of it, and what was seen of a term of a
/// sender in it has no microtick in common with what it must have computed if it missed at most so many of the others, its
/// node missed more of them in each such run that the log is seen of.
pub fn missed_senders_are_so()
    ensures { MissedIsSo }
{
    terms_are_computed();
}
