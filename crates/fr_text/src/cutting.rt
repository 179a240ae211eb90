ghost use Rattle.std.specs.Prelude.{◌≡◌, ◌≢◌, IfOk, IfSome, IsTrue};
ghost use Rattle.fr_text.specs.Plain.{IsBehindFeed, IsCut, bytes_of};
ghost use Rattle.fr_text.specs.Texts.{first_byte};

use std::alloc::AllocError;

// A text, without the line feed that it may begin with: the end of the line before it.
pub(crate) fn behind_feed(text: &[u8]) -> &[u8]
    ensures { IsBehindFeed text.now result.now }
{
    match text {
        [b'\n', rest @ ..] => rest,
        _ => text,
    }
}

// Whether the first line of a text may be cut: it has a byte, and does not begin as a byte order mark does.
pub(crate) fn may_be_cut(text: &[u8]) -> bool
    ensures { IsTrue result → (first_byte text.now ≢ 10) × (first_byte text.now ≢ 0xEF) }
{
    match text.first() {
        Some(byte) => *byte != b'\n' && *byte != 0xEF,
        None => false,
    }
}

// Cuts the first line of a text into its fields, and answers the rest from its end on. None where it has a quote, or
// another byte below the comma, or no end.
pub(crate) fn cut<'a>(
    text: &'a [u8],
    fields: &mut Vec<&'a [u8]>,
) -> Result<Option<&'a [u8]>, AllocError>
    ensures { IfOk result (λ cut. IfSome cut (λ rest. IsCut text.now (bytes_of fields.new.items) rest.now)) }
{
    fields.clear();
    let mut start = 0;
    let mut place = 0;
    'bytes: while place < text.len() {
        let byte = text[place];
        if byte > b',' {
            place += 1;
            continue;
        }
        fields.push(&text[start..place])?;
        if byte == b'\n' {
            return Ok(Some(&text[place..]));
        }
        if byte != b',' {
            return Ok(None);
        }
        place += 1;
        start = place;
    }
    Ok(None)
}
