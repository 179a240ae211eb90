ghost use Rattle.std.specs.Prelude.{◌≡◌, ◌⊎◌, ◌+◌, ◌*◌, ◌^◌, ◌<◌, ◌≤◌, ℕ, ℤ, List, All, None, length};
ghost use Rattle.fr_base.specs.Rows.{dev_in};
ghost use Rattle.fr_base.specs.declared.channel.Channel.{Channel};
ghost use Rattle.fr_base.specs.declared.node_row.NodeRow.{NodeRow};
ghost use Rattle.fr_crc.specs.Bits.{message_of, xor};
ghost use Rattle.fr_frame.specs.Frame.{IsFrame, IsNoFrame};
ghost use Rattle.fr_frame.specs.declared.header.Header.{Header};
ghost use Rattle.fr_frame.specs.declared.fault.FrameFault.TheVariants.{FrameCrc, HeaderCrc};
ghost use Rattle.fr_cluster.specs.Sane.{IsSane};
ghost use Rattle.fr_cluster.specs.Setting.{Setting};
ghost use Rattle.fr_cluster.specs.Values.{Values};
ghost use Rattle.fr_coverage.specs.Decided.{setting_of};
ghost use Rattle.fr_drift.specs.View.{DriftView};
ghost use Rattle.fr_script.specs.Files.{ScriptFits};
ghost use Rattle.fr_script.specs.View.{ScriptView};
ghost use Rattle.fr_reception.specs.Answers.{ArrivesInSlot, IsAnswer, answer_of};
ghost use Rattle.fr_reception.specs.Listening.{good_arrival};
ghost use Rattle.fr_reception.specs.Offers.{Offer, flipped};
ghost use Rattle.fr_reception.specs.declared.heard.Heard.TheVariants.{Ignored, Stored};
ghost use Rattle.fr_reception.specs.declared.heard.Ignored.TheVariants as reason;
ghost use Rattle.fr_history.specs.Offers.{stored_in};
ghost use Rattle.fr_history.specs.Catching.{caught_arrival};
ghost use Rattle.fr_history.specs.Cycles.{Cycle, Cycles};
ghost use Rattle.fr_history.specs.Lawful.{FollowersObey, ToldObeys};
ghost use Rattle.fr_damage.specs.Damage.{FailsFrameCrc, FailsHeaderCrc, IsInHeaderCode, IsOutsideHeaderCode, ones};
ghost use Rattle.fr_damage.specs.Flips.{IsFlipped, ScriptFlips};

/// A law: a frame with one bit inverted, as a fault script inverts it, is no frame on its channel. Its first fault
/// is the header CRC where the bit is one of the 20 bits that this covers or of its own 11 bits, which are the bits
/// 3 to 33, and else the frame CRC.
pub fn a_flipped_frame_is_no_frame()
    ensures none { (channel : Channel) (header : Header) (payload frame : List ℕ) (bit : ℕ) →
        IsFrame channel header payload frame → bit < 8 * length frame →
        IsNoFrame channel (flipped bit frame) }
    ensures header { (channel : Channel) (header : Header) (payload frame : List ℕ) (bit : ℕ) →
        IsFrame channel header payload frame → All (λ b. b < 2 ^ 8) frame →
        IsInHeaderCode bit → FailsHeaderCrc channel (flipped bit frame) }
    ensures frame { (channel : Channel) (header : Header) (payload frame : List ℕ) (bit : ℕ) →
        IsFrame channel header payload frame → All (λ b. b < 2 ^ 8) frame →
        IsOutsideHeaderCode bit → bit < 8 * length frame →
        FailsFrameCrc channel (flipped bit frame) }
{}

/// A law: a frame with two bits inverted is no frame on its channel. Its first fault is the header CRC where one of
/// the two at least is among bits 3 to 33, and else the frame CRC.
pub fn a_twice_flipped_frame_is_no_frame()
    ensures none { (channel : Channel) (header : Header) (payload frame : List ℕ) (bit distance : ℕ) →
        IsFrame channel header payload frame →
        1 ≤ distance → bit + distance < 8 * length frame →
        IsNoFrame channel (flipped bit (flipped (bit + distance) frame)) }
    ensures header { (channel : Channel) (header : Header) (payload frame : List ℕ)
        (bit distance : ℕ) →
        IsFrame channel header payload frame → All (λ b. b < 2 ^ 8) frame →
        1 ≤ distance → bit + distance < 8 * length frame →
        IsInHeaderCode bit ⊎ IsInHeaderCode (bit + distance) →
        FailsHeaderCrc channel (flipped bit (flipped (bit + distance) frame)) }
    ensures frame { (channel : Channel) (header : Header) (payload frame : List ℕ)
        (bit distance : ℕ) →
        IsFrame channel header payload frame → All (λ b. b < 2 ^ 8) frame →
        1 ≤ distance → bit + distance < 8 * length frame →
        IsOutsideHeaderCode bit → IsOutsideHeaderCode (bit + distance) →
        FailsFrameCrc channel (flipped bit (flipped (bit + distance) frame)) }
{}

/// A law: no node stores a deviation of bytes that are no frame on their channel, whatever its row, the slot, the
/// cycle and the arrival.
pub fn what_is_no_frame_is_not_stored()
    ensures { (p : Values) (cycle : ℕ) (row : NodeRow) (offer : Offer) (value : ℤ) →
        IsNoFrame offer.channel offer.bytes →
        IsAnswer p cycle row offer (Stored value) → ⊥ }
{}

/// A law: no node stores a deviation of a flipped frame. Where it arrives in its slot the answer is that it is
/// damaged, with its first fault.
pub fn a_flipped_frame_is_ignored()
    ensures unstored { (p : Values) (cycle : ℕ) (row : NodeRow) (offer : Offer) (header : Header)
        (payload frame : List ℕ) (bit : ℕ) (value : ℤ) →
        IsFrame offer.channel header payload frame → bit < 8 * length frame →
        offer.bytes ≡ flipped bit frame → IsAnswer p cycle row offer (Stored value) → ⊥ }
    ensures function { (p : Values) (cycle : ℕ) (row : NodeRow) (offer : Offer) (header : Header)
        (payload frame : List ℕ) (bit : ℕ) (value : ℤ) →
        IsFrame offer.channel header payload frame → All (λ b. b < 2 ^ 8) frame →
        bit < 8 * length frame →
        offer.bytes ≡ flipped bit frame → answer_of p cycle row offer ≡ Stored value → ⊥ }
    ensures header { (p : Values) (cycle : ℕ) (row : NodeRow) (offer : Offer) (header : Header)
        (payload frame : List ℕ) (bit : ℕ) →
        IsFrame offer.channel header payload frame → All (λ b. b < 2 ^ 8) frame →
        IsInHeaderCode bit →
        offer.bytes ≡ flipped bit frame → ArrivesInSlot p row offer →
        (kept : ℕ) × ((computed : ℕ) ×
        IsAnswer p cycle row offer (Ignored (reason.Damaged (HeaderCrc kept computed)))) }
    ensures frame { (p : Values) (cycle : ℕ) (row : NodeRow) (offer : Offer) (header : Header)
        (payload frame : List ℕ) (bit : ℕ) →
        IsFrame offer.channel header payload frame → All (λ b. b < 2 ^ 8) frame →
        IsOutsideHeaderCode bit → bit < 8 * length frame →
        offer.bytes ≡ flipped bit frame → ArrivesInSlot p row offer →
        (kept : ℕ) × ((computed : ℕ) ×
        IsAnswer p cycle row offer (Ignored (reason.Damaged (FrameCrc kept computed)))) }
{}

/// A law: bytes that are no frame on their channel are no good arrival for a node that listens, in any slot. So it
/// is of bytes that differ from a frame in one, two or three bits.
pub fn what_is_no_frame_is_not_caught()
    ensures none { (slot : ℕ) (offer : Offer) →
        All (λ b. b < 2 ^ 8) offer.bytes → IsNoFrame offer.channel offer.bytes →
        good_arrival slot offer ≡ None }
    ensures bits { (slot : ℕ) (offer : Offer) (header : Header) (payload frame : List ℕ) →
        All (λ b. b < 2 ^ 8) offer.bytes →
        IsFrame offer.channel header payload frame → length offer.bytes ≡ length frame →
        1 ≤ ones (xor (message_of frame) (message_of offer.bytes)) →
        ones (xor (message_of frame) (message_of offer.bytes)) ≤ 3 → good_arrival slot offer ≡ None }
{}

/// A law: in a run no receiver stores a deviation in a slot and on a channel where the event of the slot's sender
/// inverts a bit of its frame, whatever the rows of the cycle. So no cycle of a lawful run, whoever joins, has a
/// deviation there, neither of a node with a row nor of one that follows; and no node that listens catches the frame.
pub fn no_run_stores_a_flipped_frame()
    ensures stored { (x : Setting) (cycle : ℕ) (rows : List NodeRow) (receiver : NodeRow) (slot : ℕ)
        (channel : Channel) →
        IsSane x.params → IsFlipped x cycle receiver.node slot channel →
        stored_in x cycle rows receiver slot channel ≡ None }
    ensures listed { (x : Setting) (h : Cycles) (c : Cycle) (receiver slot : ℕ) (channel : Channel) →
        IsSane x.params → ToldObeys x h c → IsFlipped x (length h) receiver slot channel →
        dev_in c.told.devs receiver slot channel ≡ None }
    ensures followed { (x : Setting) (h : Cycles) (c : Cycle) (receiver slot : ℕ) (channel : Channel) →
        IsSane x.params → FollowersObey x h c → IsFlipped x (length h) receiver slot channel →
        dev_in c.follower_devs receiver slot channel ≡ None }
    ensures caught { (x : Setting) (cycle : ℕ) (rows : List NodeRow) (node slot : ℕ) (channel : Channel) →
        IsSane x.params → IsFlipped x cycle node slot channel →
        caught_arrival x cycle rows node slot channel ≡ None }
{}

/// A law: so it is of every parameter file, drift file and fault script that fits the parameters, since a script
/// inverts bits of frames alone.
pub fn no_files_store_a_flipped_frame()
    ensures stored { (p : Values) (d : DriftView) (s : ScriptView) (cycle : ℕ) (rows : List NodeRow)
        (receiver : NodeRow) (slot : ℕ) (channel : Channel) →
        IsSane p → ScriptFits p s → ScriptFlips p s cycle receiver.node slot channel →
        stored_in (setting_of p d s) cycle rows receiver slot channel ≡ None }
    ensures listed { (p : Values) (d : DriftView) (s : ScriptView) (h : Cycles) (c : Cycle)
        (receiver slot : ℕ) (channel : Channel) →
        IsSane p → ScriptFits p s → ToldObeys (setting_of p d s) h c →
        ScriptFlips p s (length h) receiver slot channel →
        dev_in c.told.devs receiver slot channel ≡ None }
    ensures followed { (p : Values) (d : DriftView) (s : ScriptView) (h : Cycles) (c : Cycle)
        (receiver slot : ℕ) (channel : Channel) →
        IsSane p → ScriptFits p s → FollowersObey (setting_of p d s) h c →
        ScriptFlips p s (length h) receiver slot channel →
        dev_in c.follower_devs receiver slot channel ≡ None }
    ensures caught { (p : Values) (d : DriftView) (s : ScriptView) (cycle : ℕ) (rows : List NodeRow)
        (node slot : ℕ) (channel : Channel) →
        IsSane p → ScriptFits p s → ScriptFlips p s cycle node slot channel →
        caught_arrival (setting_of p d s) cycle rows node slot channel ≡ None }
{}
