ghost use Rattle.std.specs.Prelude.{◌≡◌, ℕ, ◌+◌, ◌<◌, ◌≤◌, ◌^◌, ◌⊎◌, List, [], ◌++◌, Some, None, IsSome, IfSome, length, take};
ghost use Rattle.fr_frame.specs.Frame.{IsFrameWith};
ghost use Rattle.fr_capture.specs.Rest.{ShowsFault};
ghost use Rattle.fr_capture.specs.View.{IsCompleted, IsEndOf, IsUnfinished, StandsFor, rest_after, unread_bytes};

use crate::fault::CaptureFault;
use crate::kept::Kept;
use crate::reading::{Checks, fault_of, fill, frame_in, whole_in};
use fr_base::Channel;
use fr_frame::Frame;
use std::marker::Model;

/// What became of a piece that was fed.
#[derive(Clone, Copy, Debug, PartialEq, Eq)]
pub struct Fed {
    /// How many bytes of it were used.
    pub used: usize,
    /// The place in bytes of the frame that it completed, counted from 0.
    pub at: Option<u64>,
}

/// The frames of bytes that are fed in pieces. It keeps the bytes behind the last frame, or that frame, and no
/// history. No call takes memory.
#[derive(Debug, Drop)]
pub struct Capture {
    channel: Channel,
    place: u64,
    kept: Kept,
    whole: Option<Checks>,
}

impl Model for Capture {
    ghost use Rattle.fr_capture.specs.View.{CaptureView, IsCapture};

    ghost Value = { CaptureView };

    ghost view = { λ c. record { channel = c.channel; place = c.place; kept = c.kept; whole = c.whole } };

    ghost invariant = { λ c. IsCapture c.channel c.kept c.whole };
}

impl Capture {
    /// A capture on a channel, of no bytes.
    pub fn new(channel: Channel) -> Capture
        ensures value { result ≡ record { channel = channel; place = 0; kept = []; whole = None } }
        ensures stands { StandsFor result [] }
    {
        Capture {
            channel,
            place: 0,
            kept: Kept::new(),
            whole: None,
        }
    }

    /// Takes bytes until one frame is whole, a fault is shown, or the piece ends. What is left of the piece is to
    /// be fed again. The bytes fed in all are fewer than 2^63.
    pub fn feed(&mut self, piece: &[u8]) -> Fed
        requires { self.old.place + length (unread_bytes self.old) + length piece.now < 2 ^ 63 }
        // It stands for what it stood for, and the bytes that were used.
        ensures goes_on { (bytes : List ℕ) → StandsFor self.old bytes →
            StandsFor self.new (bytes ++ take result.used piece.now) }
        ensures channel { self.new.channel ≡ self.old.channel }
        // No more bytes are used than there are, and none where a fault was shown before.
        ensures used { (result.used ≤ length piece.now) ×
            (ShowsFault self.old.channel (unread_bytes self.old) → result.used ≡ 0) }
        // Where there is a place, a frame was completed there.
        ensures found { IfSome result.at (IsCompleted self.old self.new (take result.used piece.now)) }
        // Else none was, and the piece was used up, or a fault is shown.
        ensures none { result.at ≡ None → IsUnfinished self.old self.new piece.now result.used }
        // A byte is used, unless there is none or a fault was shown before.
        ensures moves { 0 < length piece.now →
            (1 ≤ result.used) ⊎ ShowsFault self.old.channel (unread_bytes self.old) }
    {
        start_anew(&mut self.kept, self.whole);
        let used = fill(&mut self.kept, piece);
        self.whole = whole_in(self.channel, self.kept.as_slice());
        match self.whole {
            None => Fed { used, at: None },
            Some(_) => {
                let place = self.place;
                self.place += self.kept.as_slice().len() as u64;
                Fed {
                    used,
                    at: Some(place),
                }
            }
        }
    }

    /// The frame that the last feed completed.
    pub fn frame(&self) -> Frame<'_>
        requires { IsSome self.now.whole }
        ensures { IsFrameWith self.now.channel result.header result.payload.now result.header_crc result.frame_crc
            self.now.kept }
    {
        match &self.whole {
            Some(checks) => frame_in(self.channel, checks, self.kept.as_slice()),
            None => unreachable!(),
        }
    }

    /// The number of bytes where nothing stands behind the last frame, else the place behind it and the reason
    /// why no frame begins there.
    pub fn finish(&self) -> Result<u64, (u64, CaptureFault)>
        ensures { (bytes : List ℕ) → StandsFor self.now bytes → IsEndOf self.now.channel bytes result }
    {
        match self.whole {
            Some(_) => Ok(self.place),
            None => {
                let rest = self.kept.as_slice();
                if rest.is_empty() {
                    Ok(self.place)
                } else {
                    Err((self.place, fault_of(self.channel, rest)))
                }
            }
        }
    }
}

// Drops the bytes of a frame that is whole.
fn start_anew(kept: &mut Kept, whole: Option<Checks>)
    ensures { kept.new ≡ rest_after kept.old whole }
{
    if whole.is_some() {
        kept.clear();
    }
}
