ghost use Rattle.std.specs.Prelude.{◌≡◌, ℕ, ◌++◌, List, take};
ghost use Rattle.fr_capture.specs.View.{CaptureView, IsUnfinished, StandsFor};

/// A law: where a feed tells no place, no frame was added: the frames of all bytes are those before.
pub fn a_feed_without_a_place_adds_no_frame()
    ensures { (before after : CaptureView) (bytes piece : List ℕ) (used : ℕ) → (was : StandsFor before bytes) →
        after.channel ≡ before.channel → IsUnfinished before after piece used →
        (is : StandsFor after (bytes ++ take used piece)) → is.frames ≡ was.frames }
{}
