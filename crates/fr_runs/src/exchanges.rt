ghost use Rattle.fr_runs.specs.Exchange.{AbsentIsNotRecorded, RecordedIsPlaced, RegularIsRecorded};
ghost use Rattle.fr_runs.specs.Links.{AbsentIsNotStored, RegularIsStored, StoredIsPlaced};

/// The law of one link, by the rows of a correct sender and of any receiver within a reach, in ticks, for which
/// slots leave room: each deviation that the receiver stores of the sender's key slot is one of both rows,
/// whatever came of the frame; a regular frame of an active sender is stored where the receiver is not halted;
/// and in the key slot of a correct node without a row nothing is (chapter 5, and section 8.5).
pub fn linked_frames_are_stored()
    ensures placed { StoredIsPlaced }
    ensures stored { RegularIsStored }
    ensures absent { AbsentIsNotStored }
{}

/// The law of a cycle in which some correct nodes send and some receive, each sender within a reach, in ticks, of
/// each receiver for which slots leave room: each recorded deviation of a sender is one of both rows; there is
/// one where its frame is regular; and there is none of a correct node that is no sender.
pub fn exchanged_frames_are_recorded()
    ensures placed { RecordedIsPlaced }
    ensures recorded { RegularIsRecorded }
    ensures absent { AbsentIsNotRecorded }
{}
