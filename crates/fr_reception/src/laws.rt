ghost use Rattle.std.specs.Prelude.{◌≡◌, ◌+◌, ◌^◌, ◌<◌, ◌≤◌, ℕ, Bool, List, All, Some, length, pos};
ghost use Rattle.fr_base.specs.declared.channel.Channel.{Channel};
ghost use Rattle.fr_base.specs.declared.node_row.NodeRow.{NodeRow};
ghost use Rattle.fr_frame.specs.Frame.{IsFrame, IsFrameWith};
ghost use Rattle.fr_frame.specs.declared.header.Header.{Header};
ghost use Rattle.fr_cluster.specs.Values.{Values, amount};
ghost use Rattle.fr_cluster.specs.Sane.{IsSane};
ghost use Rattle.fr_cluster.specs.declared.names.ParamName.TheVariants as name;
ghost use Rattle.fr_time.specs.Instant.{early_instant, instant_of};
ghost use Rattle.fr_time.specs.Position.{grid_for};
ghost use Rattle.fr_time.specs.Senders.{sender_of};
ghost use Rattle.fr_time.specs.Slots.{slot_end_of};
ghost use Rattle.fr_time.specs.declared.senders.Sending.{Sending};
ghost use Rattle.fr_reception.specs.declared.heard.Heard.{Heard};
ghost use Rattle.fr_reception.specs.Answers.{IsAnswer, answer_of};
ghost use Rattle.fr_reception.specs.Offers.{Offer};
ghost use Rattle.fr_reception.specs.Regular.{carried_crc, payload_bytes, regular_frame, regular_header, regular_payload};

/// A law: the function of an offer gives an answer, where the offer is made of bytes.
pub fn an_answer()
    ensures { (p : Values) (cycle : ℕ) (row : NodeRow) (offer : Offer) →
        All (λ byte. byte < 2 ^ 8) offer.bytes →
        IsAnswer p cycle row offer (answer_of p cycle row offer) }
{}

/// A law: each answer to an offer is the one that the function gives.
pub fn the_answer_is_found()
    ensures { (p : Values) (cycle : ℕ) (row : NodeRow) (offer : Offer) (heard : Heard) →
        IsAnswer p cycle row offer heard → heard ≡ answer_of p cycle row offer }
{}

/// A law: a node has no two answers to an offer.
pub fn one_answer()
    ensures { (p : Values) (cycle : ℕ) (row : NodeRow) (offer : Offer) (first second : Heard) →
        IsAnswer p cycle row offer first → IsAnswer p cycle row offer second → first ≡ second }
{}

/// A law: in a cluster the regular frame of a slot is the frame of its header and payload, is made of bytes,
/// and has as many of them as each static frame.
pub fn a_regular_frame()
    ensures frame { (p : Values) (sending : Sending) (slot cycle : ℕ) (channel : Channel) →
        IsSane p → sender_of p slot cycle ≡ Some sending →
        IsFrame channel (regular_header p sending slot cycle) (regular_payload p sending slot cycle)
        (regular_frame p sending slot cycle channel) }
    ensures bytes { (p : Values) (sending : Sending) (slot cycle : ℕ) (channel : Channel) →
        IsSane p → sender_of p slot cycle ≡ Some sending →
        All (λ byte. byte < 2 ^ 8) (regular_frame p sending slot cycle channel) }
    ensures long { (p : Values) (sending : Sending) (slot cycle : ℕ) (channel : Channel) →
        IsSane p → sender_of p slot cycle ≡ Some sending →
        length (regular_frame p sending slot cycle channel) ≡ 8 + payload_bytes p }
{}

/// A law: a frame carries its frame CRC in its last three bytes.
pub fn a_frame_carries_its_crc()
    ensures { (channel : Channel) (header : Header) (payload bytes : List ℕ) (header_crc frame_crc : ℕ) →
        IsFrameWith channel header payload header_crc frame_crc bytes →
        carried_crc bytes ≡ frame_crc }
{}

/// A law: the static slots of a cluster lie before the start of the offset correction, so that the offset
/// term of a cycle moves none of their instants.
pub fn slots_lie_before_the_correction()
    ensures { (p : Values) (row : NodeRow) (odd : Bool) (slot macrotick : ℕ) → IsSane p →
        slot ≤ amount p name.gNumberOfStaticSlots → macrotick ≤ slot_end_of p slot →
        instant_of (grid_for p) row odd (pos macrotick) ≡ early_instant p row macrotick }
{}
