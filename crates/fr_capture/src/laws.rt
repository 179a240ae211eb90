ghost use Rattle.std.specs.Prelude.{◌≡◌, ℕ, ◌<◌, ◌^◌, List, [], ◌∷◌, All, ◌++◌, Some, None, IfSome};
ghost use Rattle.fr_base.specs.declared.channel.Channel.{Channel};
ghost use Rattle.fr_frame.specs.declared.header.Header.{Header};
ghost use Rattle.fr_frame.specs.Frame.{IsFrame};
ghost use Rattle.fr_frame.specs.Reading.{payload_in};
ghost use Rattle.fr_capture.specs.declared.fault.CaptureFault.{CaptureFault};
ghost use Rattle.fr_capture.specs.Frames.{AreFrames, Found};
ghost use Rattle.fr_capture.specs.Rest.{IsLasting, fault_in};
ghost use Rattle.fr_capture.specs.View.{CaptureView, IsCompleted, IsStopped, StandsFor};
ghost use Rattle.fr_capture.specs.Walk.{frames_in};

/// A law: bytes have one longest list of frames on a channel, and one rest behind it.
pub fn one_list_of_frames()
    ensures { (channel : Channel) (bytes : List ℕ) (frames others : List Found) (rest other : List ℕ) →
        AreFrames channel bytes frames rest → AreFrames channel bytes others other →
        (frames ≡ others) × (rest ≡ other) }
{}

/// A law: those that are found by going from frame to frame are the frames of the bytes.
pub fn frames_are_found()
    ensures { (channel : Channel) (bytes : List ℕ) → All (λ b. b < 2 ^ 8) bytes →
        AreFrames channel bytes (frames_in channel bytes).frames (frames_in channel bytes).rest }
{}

/// A law: where a frame begins a rest there is no fault in it.
pub fn a_rest_begins_with_no_frame()
    ensures { (channel : Channel) (header : Header) (payload front behind : List ℕ) →
        IsFrame channel header payload front → fault_in channel (front ++ behind) ≡ None }
{}

/// A law: a fault of any kind but a cut stays, whatever stands behind it, and so do the frames before it.
pub fn a_shown_fault_stays()
    ensures { (channel : Channel) (bytes behind : List ℕ) (place : ℕ) (fault : CaptureFault) →
        (is : IsStopped channel bytes place fault) → IsLasting fault →
        (after : IsStopped channel (bytes ++ behind) place fault) × (after.frames ≡ is.frames) }
{}

/// A law: where a feed completed a frame, the frames of all bytes are those before and then this one.
pub fn a_completed_frame_is_the_last()
    ensures { (before after : CaptureView) (bytes taken : List ℕ) (place : ℕ) → (was : StandsFor before bytes) →
        after.channel ≡ before.channel → IsCompleted before after taken place →
        (is : StandsFor after (bytes ++ taken)) → IfSome after.whole (λ checks. is.frames ≡ was.frames ++
        record { place = place; header = checks.header; payload = payload_in checks.header after.kept } ∷ []) }
{}
