ghost use Rattle.std.specs.Prelude.{◌≡◌, ℕ, ◌+◌, ◌*◌, ◌^◌, ◌<◌, ◌≤◌, ◌++◌, Ok, Err, List, All, length};
ghost use Rattle.fr_base.specs.declared.channel.Channel.{Channel};
ghost use Rattle.fr_frame.specs.declared.header.Header.{Header};
ghost use Rattle.fr_frame.specs.declared.fault.FrameFault.{FrameFault};
ghost use Rattle.fr_frame.specs.declared.fault.EncodeFault.{EncodeFault};
ghost use Rattle.fr_frame.specs.Refusal.{IsAccepted, IsFirstRefusal};
ghost use Rattle.fr_frame.specs.Frame.{IsFrame, IsNoFrame};
ghost use Rattle.fr_frame.specs.Fault.{IsFirstFault};
ghost use Rattle.fr_frame.specs.Reading.{frame_of, payload_in, read_as};

/// A law: on one channel equal headers and payloads have equal bytes.
pub fn one_spelling()
    ensures { (channel : Channel) (header : Header) (payload first second : List ℕ) →
        IsFrame channel header payload first → IsFrame channel header payload second →
        first ≡ second }
{}

/// A law: on one channel equal bytes have equal headers and payloads.
pub fn one_reading()
    ensures { (channel : Channel) (header other : Header) (payload rest bytes : List ℕ) →
        IsFrame channel header payload bytes → IsFrame channel other rest bytes →
        (header ≡ other) × (payload ≡ rest) }
{}

/// A law: a frame has as many bytes as its header states, 8 to 262.
pub fn frame_length()
    ensures { (channel : Channel) (header : Header) (payload bytes : List ℕ) →
        IsFrame channel header payload bytes →
        (length bytes ≡ 8 + 2 * header.words) × (length bytes ≤ 262) }
{}

/// A law: no frame's bytes are a proper front of another's on the same channel. Where two frames stand at
/// the front of the same bytes, they have the same bytes, and the same stands behind them.
pub fn no_frame_is_a_front()
    ensures { (channel : Channel) (header other : Header)
        (payload rest first second behind beyond : List ℕ) →
        IsFrame channel header payload first → IsFrame channel other rest second →
        first ++ behind ≡ second ++ beyond → (first ≡ second) × (behind ≡ beyond) }
{}

/// A law: bytes that have a first fault are no frame.
pub fn a_fault_is_no_frame()
    ensures { (channel : Channel) (bytes : List ℕ) (fault : FrameFault) →
        IsFirstFault channel bytes fault → IsNoFrame channel bytes }
{}

/// A law: bytes that are no frame have a first fault.
pub fn no_frame_has_a_fault()
    ensures { (channel : Channel) (bytes : List ℕ) → All (λ b. b < 2 ^ 8) bytes →
        IsNoFrame channel bytes → (fault : FrameFault) × IsFirstFault channel bytes fault }
{}

/// A law: bytes have no two first faults on one channel.
pub fn one_first_fault()
    ensures { (channel : Channel) (bytes : List ℕ) (first second : FrameFault) →
        IsFirstFault channel bytes first → IsFirstFault channel bytes second → first ≡ second }
{}

/// A law: what has a reason not to be written is not accepted.
pub fn a_refusal_is_not_accepted()
    ensures { (header : Header) (payload room : ℕ) (fault : EncodeFault) →
        IsFirstRefusal header payload room fault → IsAccepted header payload room → ⊥ }
{}

/// A law: there are no two first reasons not to write the same header and payload.
pub fn one_first_refusal()
    ensures { (header : Header) (payload room : ℕ) (first second : EncodeFault) →
        IsFirstRefusal header payload room first → IsFirstRefusal header payload room second →
        first ≡ second }
{}

/// A law: the bytes of a header and payload against which no reason stands are a frame.
pub fn a_frame()
    ensures { (channel : Channel) (header : Header) (payload : List ℕ) (room : ℕ) →
        IsAccepted header (length payload) room →
        IsFrame channel header payload (frame_of channel header payload) }
{}

/// A law: a frame is the bytes of its header and payload.
pub fn a_frame_is_spelled()
    ensures { (channel : Channel) (header : Header) (payload bytes : List ℕ) →
        IsFrame channel header payload bytes → bytes ≡ frame_of channel header payload }
{}

/// A law: a frame whose payload is made of bytes is made of bytes.
pub fn a_frame_is_of_bytes()
    ensures { (channel : Channel) (header : Header) (payload bytes : List ℕ) →
        IsFrame channel header payload bytes →
        All (λ b. b < 2 ^ 8) payload → All (λ b. b < 2 ^ 8) bytes }
{}

/// A law: a frame is read as its header, and bytes that have a first fault are read as that fault.
pub fn what_is_there_is_read()
    ensures frame { (channel : Channel) (header : Header) (payload bytes : List ℕ) →
        IsFrame channel header payload bytes → read_as channel bytes ≡ Ok header }
    ensures fault { (channel : Channel) (bytes : List ℕ) (fault : FrameFault) →
        IsFirstFault channel bytes fault → read_as channel bytes ≡ Err fault }
{}

/// A law: bytes that are read as a header are a frame with it, and bytes that are read as a fault have it
/// first.
pub fn what_is_read_is_there()
    ensures frame { (channel : Channel) (bytes : List ℕ) (header : Header) →
        All (λ b. b < 2 ^ 8) bytes → read_as channel bytes ≡ Ok header →
        IsFrame channel header (payload_in header bytes) bytes }
    ensures fault { (channel : Channel) (bytes : List ℕ) (fault : FrameFault) →
        All (λ b. b < 2 ^ 8) bytes → read_as channel bytes ≡ Err fault →
        IsFirstFault channel bytes fault }
{}
