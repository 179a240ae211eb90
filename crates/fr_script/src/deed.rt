ghost use Rattle.std.specs.Prelude.{◌≡◌, ◌≤◌, length, IfOk, IfSome, neg_ℤ, ◌≤ℤ◌};
ghost use Rattle.std.specs.Option.{option_copied};
ghost use Rattle.fr_script.specs.Said.{AreSaidBytes};
ghost use Rattle.fr_script.specs.Columns.{as_record};
ghost use Rattle.fr_script.specs.Deed.{IsDeedRead, bits_of, done_by, event_of_deed, farthest, flip_row, is_after_frame, is_say, lose_row, said_in, say_deed, say_row, shift_in};
ghost use Rattle.fr_script.specs.Events.{event_seen};
ghost use Rattle.fr_script.specs.Rows.{IsProperScriptRow};

use crate::fields::Fields;
use crate::rows::{Row, deed_of, read_passage};
use crate::script::Event;
use fr_base::{NumberFault, Reason, number};
use fr_cluster::Params;
use fr_text::{both, hex_digits, natural, reason_of};
use hex::FromHexError;
use std::alloc::{AllocError, Global};
use std::marker::Model;

// The greatest distance of a shift from 0, in ticks.
const FARTHEST: i64 = 1_000_000_000_000;

// The last bit of the longest frame, which has 262 bytes.
const LAST_BIT: u64 = 2095;

/// The bytes of a frame that an arbitrary node says, at most 262, seen as their list.
pub struct SaidBytes {
    bytes: Vec<u8>,
}

impl Model for SaidBytes {
    ghost use Rattle.std.specs.Prelude.{List, ℕ};

    ghost Value = { List ℕ };

    ghost view = { λ a. a.bytes.items };
}

// One call: a derived drop is opened in each function that drops a value, and proved there.
impl Drop for SaidBytes {
    fn drop(self) {
        let SaidBytes { bytes: _ } = self;
    }
}

impl SaidBytes {
    pub(crate) fn of(bytes: Vec<u8>) -> SaidBytes
        ensures { result ≡ bytes.items }
    {
        SaidBytes { bytes }
    }

    pub(crate) fn as_slice(&self) -> &[u8]
        ensures { result.now ≡ self.now }
    {
        self.bytes.as_slice()
    }
}

/// What a record of a script does to the frames of a passage on a channel.
pub enum Deed {
    /// They are lost.
    Lose,
    /// Of each one bit is inverted, counted from 0, the first bit sent.
    Flip(u32),
    /// The sender says a frame, so many ticks later than expected: of these bytes, or else its regular one.
    Say {
        shift: i64,
        bytes: Option<SaidBytes>,
    },
}

// One call: a derived drop is opened in each function that drops a value, and proved there.
impl Drop for Deed {
    fn drop(self) {
        match self {
            Deed::Lose => {}
            Deed::Flip(_) => {}
            Deed::Say { shift: _, bytes: _ } => {}
        }
    }
}

// What a row says whose word is that of a deed. None where it is another word; `AllocError` where memory ran out.
pub(crate) fn read_deed(
    alloc: Global,
    row: &Fields<'_>,
) -> Result<Option<Result<Row, Reason>>, AllocError>
    ensures said { IfOk result (IsDeedRead (as_record row.now)) }
    ensures proper { IfOk result (λ said. IfSome said (λ row. IfOk row IsProperScriptRow)) }
{
    if row.kind == b"say".as_slice() {
        Ok(Some(read_say(alloc, row)?))
    } else if row.kind == b"lose".as_slice() {
        Ok(Some(read_lose(row)))
    } else if row.kind == b"flip".as_slice() {
        Ok(Some(read_flip(row)))
    } else {
        Ok(None)
    }
}

fn read_say(alloc: Global, row: &Fields<'_>) -> Result<Result<Row, Reason>, AllocError>
    ensures said { IfOk result (λ said. said ≡ say_row (as_record row.now)) }
    ensures proper { IfOk result (λ said. IfOk said IsProperScriptRow) }
{
    let text = row.bytes;
    let numbers = both(read_passage(row), both(read_shift(row), hex_digits(text)));
    match numbers {
        Err(fault) => Ok(Err(reason_of(fault))),
        Ok((passage, (shift, _))) => {
            let deed = say(shift, read_bytes(alloc, text)?);
            Ok(Ok(deed_of(row, passage, deed)))
        }
    }
}

fn read_lose(row: &Fields<'_>) -> Result<Row, Reason>
    ensures said { result ≡ lose_row (as_record row.now) }
    ensures proper { IfOk result IsProperScriptRow }
{
    if !row.number.is_empty() || !row.bytes.is_empty() {
        return Err(Reason::Shape);
    }
    match read_passage(row) {
        Ok(passage) => Ok(deed_of(row, passage, Some(Deed::Lose))),
        Err(fault) => Err(reason_of(fault)),
    }
}

fn read_flip(row: &Fields<'_>) -> Result<Row, Reason>
    ensures said { result ≡ flip_row (as_record row.now) }
    ensures proper { IfOk result IsProperScriptRow }
{
    if !row.bytes.is_empty() {
        return Err(Reason::Shape);
    }
    match both(read_passage(row), natural(row.number, 0, LAST_BIT)) {
        Ok((passage, bit)) => Ok(deed_of(row, passage, Some(Deed::Flip(bit as u32)))),
        Err(fault) => Err(reason_of(fault)),
    }
}

fn read_shift(row: &Fields<'_>) -> Result<i64, NumberFault>
    ensures said { result ≡ shift_in (as_record row.now) }
    ensures range { IfOk result (λ shift. (neg_ℤ farthest ≤ℤ shift) × (shift ≤ℤ farthest)) }
{
    number(row.number, -FARTHEST, FARTHEST)
}

// The frame that is to be said, None within where it is the regular one; None where the text is not
// hexadecimal. `AllocError` where memory ran out.
fn read_bytes(alloc: Global, text: &[u8]) -> Result<Option<Option<SaidBytes>>, AllocError>
    requires { length text.now ≤ 524 }
    ensures said { IfOk result (λ said. said ≡ said_in text.now) }
    ensures proper { IfOk result (λ said. IfSome said (λ bytes. IfSome bytes AreSaidBytes)) }
{
    if text.is_empty() {
        return Ok(Some(None));
    }
    match hex::decode(alloc, text) {
        Ok(bytes) => Ok(Some(Some(SaidBytes::of(bytes)))),
        Err(FromHexError::OutOfMemory) => Err(AllocError),
        Err(_) => Ok(None),
    }
}

fn say(shift: i64, bytes: Option<Option<SaidBytes>>) -> Option<Deed>
    ensures { result ≡ say_deed shift bytes }
{
    match bytes {
        Some(bytes) => Some(Deed::Say { shift, bytes }),
        None => None,
    }
}

// Whether a row is a `say` row: it is where its bytes are not hexadecimal.
pub(crate) fn says(deed: &Option<Deed>) -> bool
    ensures { result ≡ is_say deed.now }
{
    match deed {
        None | Some(Deed::Say { .. }) => true,
        Some(Deed::Lose | Deed::Flip(_)) => false,
    }
}

pub(crate) fn is_saying(deed: &Deed) -> bool {
    matches!(deed, Deed::Say { .. })
}

fn bits_of(params: &Params) -> usize
    ensures { result ≡ bits_of params.now }
{
    8 * params.frame_bytes()
}

// Whether a row inverts a bit after the end of the cluster's frames.
pub(crate) fn is_after_frame(params: &Params, deed: &Option<Deed>) -> bool
    ensures { result ≡ is_after_frame params.now deed.now }
{
    match deed {
        Some(Deed::Flip(bit)) => bits_of(params) <= *bit as usize,
        Some(Deed::Lose | Deed::Say { .. }) | None => false,
    }
}

// What a deed makes of the frames of a correct sender.
pub(crate) fn done(deed: Option<&Deed>) -> Event<'_>
    ensures { event_seen result ≡ done_by (option_copied deed.entry) }
{
    match deed {
        Some(Deed::Lose) => Event::Silent,
        Some(Deed::Flip(bit)) => Event::Flip(*bit),
        Some(Deed::Say { .. }) | None => Event::Regular,
    }
}

// And what an arbitrary sender says by it.
pub(crate) fn said(deed: Option<&Deed>) -> Event<'_>
    ensures { event_seen result ≡ event_of_deed (option_copied deed.entry) }
{
    match deed {
        Some(
            Deed::Say {
                shift,
                bytes: Some(bytes),
            },
        ) => Event::Say {
            shift: *shift,
            bytes: Some(bytes.as_slice()),
        },
        Some(Deed::Say { shift, bytes: None }) => Event::Say {
            shift: *shift,
            bytes: None,
        },
        Some(Deed::Lose | Deed::Flip(_)) | None => Event::Silent,
    }
}
