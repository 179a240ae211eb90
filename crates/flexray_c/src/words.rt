ghost use Rattle.std.specs.Prelude.{◌≡◌, [], map, IfOk, IsUtf8};
ghost use Rattle.fr_program.specs.Program.{texts};
ghost use Rattle.flexray_c.specs.Words.{lines_in, unended};

use std::alloc::{AllocError, Global};
use std::str;

// The text without the line feed at its end, where it has one.
fn unended(text: &[u8]) -> &[u8]
    ensures { result.now ≡ unended text.now }
{
    match text {
        [front @ .., b'\n'] => front,
        _ => text,
    }
}

// The text of which a caller gave the bytes, without the line feed at its end; an empty one where they are no UTF-8.
pub(crate) fn text_of(bytes: &[u8]) -> &str
    ensures text { IsUtf8 (unended bytes.now) → result.now ≡ unended bytes.now }
    ensures no_text { ¬ IsUtf8 (unended bytes.now) → result.now ≡ [] }
{
    match str::from_utf8(unended(bytes)) {
        Ok(text) => text,
        Err(_) => "",
    }
}

// The lines of a text, each as a word.
pub(crate) fn words_of(alloc: Global, text: &str) -> Result<Vec<String>, AllocError>
    ensures { IfOk result (λ words. texts words.items ≡ lines_in text.now) }
{
    let parts = parts_in(alloc, text)?;
    owned(alloc, &parts)
}

fn parts_in(alloc: Global, text: &str) -> Result<Vec<&str>, AllocError>
    ensures { IfOk result (λ parts. map (λ part. part.now) parts.items ≡ lines_in text.now) }
{
    text.split('\n').collect(alloc)
}

fn owned(alloc: Global, parts: &[&str]) -> Result<Vec<String>, AllocError>
    ensures { IfOk result (λ words. texts words.items ≡ map (λ part. part.now) parts.now) }
{
    let mut words = Vec::new(alloc);
    'part: for part in parts {
        words.push(String::from_str(alloc, part)?)?;
    }
    Ok(words)
}
