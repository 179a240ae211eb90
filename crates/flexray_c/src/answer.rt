ghost use Rattle.std.specs.Prelude.{◌≡◌};
ghost use Rattle.fr_whole.specs.Whole.{flexray_program};
ghost use Rattle.fr_program.specs.Program.{texts};
ghost use Rattle.fr_series.specs.Request.{series_program};
ghost use Rattle.flexray_c.specs.Call.{CallEnds};
ghost use Rattle.flexray_c.specs.Shown.{places_of};
ghost use Rattle.flexray_c.specs.Lent.{lent_state};
ghost use Rattle.flexray_c.specs.Words.{lines_in};

use crate::kept::KeptText;
use crate::lent::LentFiles;
use crate::shown::{Texts, hand_over, unanswered};
use crate::words::words_of;
use std::alloc::Global;

// What `flexray` answers to the words in the lines of a text.
pub(crate) fn answer_flexray(
    alloc: Global,
    text: &str,
    files: LentFiles<'_>,
    out: &mut [u8],
    err: &mut [u8],
    told: &mut Texts,
) -> u32
    ensures { CallEnds flexray_program (lines_in text.now) (lent_state files.entry)
        (places_of out.old out.new err.old err.new told.new) result }
{
    match words_of(alloc, text) {
        Ok(words) => call_flexray(alloc, &words, files, out, err, told),
        Err(_) => unanswered(told),
    }
}

fn call_flexray(
    alloc: Global,
    words: &[String],
    files: LentFiles<'_>,
    out: &mut [u8],
    err: &mut [u8],
    told: &mut Texts,
) -> u32
    ensures { CallEnds flexray_program (texts words.now) (lent_state files.entry)
        (places_of out.old out.new err.old err.new told.new) result }
{
    let mut files = files;
    let mut text = KeptText::new(alloc);
    let mut line = KeptText::new(alloc);
    let status = fr_whole::flexray(alloc, words, &mut files, &mut text, &mut line);
    hand_over(status, &text, &line, out, err, told)
}

// What `flexray-series` answers to the words in the lines of a text.
pub(crate) fn answer_series(
    alloc: Global,
    text: &str,
    files: LentFiles<'_>,
    out: &mut [u8],
    err: &mut [u8],
    told: &mut Texts,
) -> u32
    ensures { CallEnds series_program (lines_in text.now) (lent_state files.entry)
        (places_of out.old out.new err.old err.new told.new) result }
{
    match words_of(alloc, text) {
        Ok(words) => call_series(alloc, &words, files, out, err, told),
        Err(_) => unanswered(told),
    }
}

fn call_series(
    alloc: Global,
    words: &[String],
    files: LentFiles<'_>,
    out: &mut [u8],
    err: &mut [u8],
    told: &mut Texts,
) -> u32
    ensures { CallEnds series_program (texts words.now) (lent_state files.entry)
        (places_of out.old out.new err.old err.new told.new) result }
{
    let mut files = files;
    let mut text = KeptText::new(alloc);
    let mut line = KeptText::new(alloc);
    let status = fr_series::flexray_series(alloc, words, &mut files, &mut text, &mut line);
    hand_over(status, &text, &line, out, err, told)
}
