ghost use Rattle.std.specs.Prelude.{◌≡◌, ◌⊎◌, length};
ghost use Rattle.flexray_c.specs.Shown.{IsHandedOver, IsUnanswered, places_of, shown_in};
ghost use Rattle.flexray_c.specs.Kept.{kept_bytes, kept_faults};

use crate::kept::KeptText;
use fr_text::Status;

/// The whole lengths of a text and of the line of a failure, in bytes.
#[derive(Clone, Copy)]
#[repr(C)]
pub struct Texts {
    /// Of the text.
    pub out_length: usize,
    /// Of the line.
    pub err_length: usize,
}

// Copies a text to the front of a place where it fits, and answers its length.
fn show(text: &[u8], place: &mut [u8]) -> usize
    ensures shown { place.new ≡ shown_in text.now place.old }
    ensures told { result ≡ length text.now }
{
    if text.len() <= place.len() {
        place[..text.len()].copy_from_slice(text);
    }
    text.len()
}

// Hands over what was kept of a call that ended so; where something of it was not kept, memory ran out.
pub(crate) fn hand_over(
    status: Status,
    text: &KeptText,
    line: &KeptText,
    out: &mut [u8],
    err: &mut [u8],
    told: &mut Texts,
) -> u32
    ensures { ((kept_faults text.now ≡ 0) × (kept_faults line.now ≡ 0)
        × IsHandedOver status (kept_bytes text.now) (kept_bytes line.now)
        (places_of out.old out.new err.old err.new told.new) result)
        ⊎ IsUnanswered (places_of out.old out.new err.old err.new told.new) result }
{
    if !text.is_whole() || !line.is_whole() {
        return unanswered(told);
    }
    told.out_length = show(text.bytes(), out);
    told.err_length = show(line.bytes(), err);
    u32::from(status.code())
}

// Memory ran out before there was an answer.
pub(crate) fn unanswered(told: &mut Texts) -> u32
    ensures result { result ≡ 6 }
    ensures out { told.new.out_length ≡ 0 }
    ensures err { told.new.err_length ≡ 0 }
{
    told.out_length = 0;
    told.err_length = 0;
    u32::from(Status::NoMemory.code())
}
