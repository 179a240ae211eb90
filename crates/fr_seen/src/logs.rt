ghost use Rattle.fr_seen.specs.LogSeen.{EvenWordsHold, NoFrameIsUntimely, ObservedNextRowsHold, ObservedRowsHold, OddWordsHold, SendersAreOnCourse, SendersGoOn, SightingsAreSent};
ghost use Rattle.fr_seen.specs.OwnSlots.{NoFrameIsIrregular};

/// A law: each sighting of a log that is seen of a run is a frame that was sent there, in the cycle of its number.
pub fn sightings_are_sent()
    ensures { SightingsAreSent }
{}

/// A law: no judged frame of such a log comes at another time than its cycle count says, as counted from the sighting
/// before it. Where one does, no run can have given the log.
pub fn no_frame_of_a_seen_log_is_untimely()
    ensures { NoFrameIsUntimely }
{}

/// A law: no frame of a log is irregular where each whole frame in the slot of a node that the log does not name
/// arbitrary is one that the node sends there in some cycle of the run: on a channel that it has, and with the payload
/// length and the sync and startup indicators of its frames in that slot.
pub fn no_frame_of_own_slots_is_irregular()
    ensures { NoFrameIsIrregular }
{}

/// A law: the senders of a double cycle of such a log have rows in that of the run, in sync or not, and their courses
/// hold of these; where they are senders of the next double cycle too, they go on.
pub fn senders_are_on_course()
    ensures hold { SendersAreOnCourse }
    ensures on { SendersGoOn }
{}

/// The law of what is observed: of a log that is seen of a run, in sync or not, the skew of the senders in each cycle
/// of the run, in ticks, is within the limits of the `cycle` row of the log's text; the lengths of their cycles, in
/// ticks of the observer's clock, and their offset terms, in microticks, are within those of the `node` rows.
pub fn observed_rows_hold()
    ensures rows { ObservedRowsHold }
    ensures next { ObservedNextRowsHold }
{}

/// A law: where the row of a cycle says that the skew is over the precision, the instants of some macrotick of the cycle
/// lie further apart among its senders; where it says within, those of none do.
pub fn cycle_words_hold()
    ensures even { EvenWordsHold }
    ensures odd { OddWordsHold }
{}
