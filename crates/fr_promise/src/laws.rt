ghost use Rattle.fr_promise.specs.Files.{CoveredFilesAreStated, DriftOfAFileFits};
ghost use Rattle.fr_promise.specs.Files.{FilesKeepPrecision, GreatestSkewIsWithin};
ghost use Rattle.fr_promise.specs.Files.{LengthsAreNatural, RatesAreWithin, StartsAreNatural};
ghost use Rattle.fr_promise.specs.Statement.{TheHeadline};

/// A law: where sane parameters, a drift and a script that fit them have no gap, the run is a covered one: the clocks,
/// delays and links of its correct nodes are covered, each node that joins has a reference, and the checks of a cluster
/// that nodes join hold where some node does.
pub fn covered_files_are_stated()
    ensures { CoveredFilesAreStated }
{}

/// The promise: the run that three accepted files decide, where they have no gap, keeps its precision from its first double
/// cycle in sync on in which no node follows, whoever joins. No macrotick lies further apart than the precision, no term is
/// cut, every node that has a row is active, after the last cycle too, and each node that listens in double cycle `e`, from
/// there on, has a row in every cycle of the run from `2 e + 6` on.
pub fn the_headline()
    ensures { TheHeadline }
{}

/// A law: so it is of any parameters, drift and script that fit each other, and from each such double cycle on.
pub fn files_keep_precision()
    ensures { FilesKeepPrecision }
{}

/// A law: the greatest skew of a covered run that is in sync from its first cycle on is at most the precision.
pub fn greatest_skew_is_within()
    ensures { GreatestSkewIsWithin }
{}

/// A law: the drift of an accepted file fits the parameters with which the file is accepted.
pub fn drift_of_a_file_fits()
    ensures { DriftOfAFileFits }
{}

/// A law: the first rate terms of a drift that fits parameters lie within their limit, and it starts no cycle 0 below
/// tick 0; and none of its microticks lasts less than 0 ticks.
pub fn rates_are_within()
    ensures rates { RatesAreWithin }
    ensures starts { StartsAreNatural }
    ensures lengths { LengthsAreNatural }
{}
