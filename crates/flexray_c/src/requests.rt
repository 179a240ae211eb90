ghost use Rattle.std.specs.Prelude.{◌≡◌, ◌∷◌, [], codes, IsUtf8};
ghost use Rattle.fr_whole.specs.Whole.{flexray_program};
ghost use Rattle.fr_series.specs.Request.{series_program};
ghost use Rattle.flexray_c.specs.Call.{CallEnds};
ghost use Rattle.flexray_c.specs.Shown.{places_of};
ghost use Rattle.flexray_c.specs.Lent.{lent_shelf};
ghost use Rattle.flexray_c.specs.Words.{unended, words_in};

use crate::answer::{answer_flexray, answer_series};
use crate::lent::LentFiles;
use crate::shown::Texts;
use crate::words::text_of;
use std::alloc::Global;

/// The version of the library: 10,000 times the major one, 100 times the minor one, and the patch.
#[unsafe(no_mangle)]
pub extern "C" fn flexray_version() -> u32
    ensures { result ≡ 200 }
{
    200
}

/// What `flexray` answers to these words, one to a line, in which the files are called `first`, `second` and `third`. Words
/// that are no UTF-8 are answered as an empty text is.
#[unsafe(no_mangle)]
pub extern "C" fn flexray_request(
    alloc: Global,
    words: &[u8],
    first: &[u8],
    second: &[u8],
    third: &[u8],
    out: &mut [u8],
    err: &mut [u8],
    told: &mut Texts,
) -> u32
    ensures text { IsUtf8 (unended words.now) → CallEnds flexray_program (words_in words.now)
        (lent_shelf first.now second.now third.now 0) (places_of out.old out.new err.old err.new told.new) result }
    ensures no_text { ¬ IsUtf8 (unended words.now) → CallEnds flexray_program (words_in [])
        (lent_shelf first.now second.now third.now 0) (places_of out.old out.new err.old err.new told.new) result }
{
    answer_flexray(
        alloc,
        text_of(words),
        LentFiles::new(first, second, third),
        out,
        err,
        told,
    )
}

/// What `flexray-series` answers to these words, as `flexray_request`.
#[unsafe(no_mangle)]
pub extern "C" fn flexray_series_request(
    alloc: Global,
    words: &[u8],
    first: &[u8],
    second: &[u8],
    third: &[u8],
    out: &mut [u8],
    err: &mut [u8],
    told: &mut Texts,
) -> u32
    ensures text { IsUtf8 (unended words.now) → CallEnds series_program (words_in words.now)
        (lent_shelf first.now second.now third.now 0) (places_of out.old out.new err.old err.new told.new) result }
    ensures no_text { ¬ IsUtf8 (unended words.now) → CallEnds series_program (words_in [])
        (lent_shelf first.now second.now third.now 0) (places_of out.old out.new err.old err.new told.new) result }
{
    answer_series(
        alloc,
        text_of(words),
        LentFiles::new(first, second, third),
        out,
        err,
        told,
    )
}

/// The bounds and checks of a cluster, as `flexray bound PARAMS` prints them.
#[unsafe(no_mangle)]
pub extern "C" fn flexray_bound(
    alloc: Global,
    params: &[u8],
    out: &mut [u8],
    err: &mut [u8],
    told: &mut Texts,
) -> u32
    ensures { CallEnds flexray_program (codes "bound" ∷ codes "first" ∷ [])
        (lent_shelf params.now [] [] 0) (places_of out.old out.new err.old err.new told.new) result }
{
    answer_flexray(
        alloc,
        "bound\nfirst",
        LentFiles::new(params, b"", b""),
        out,
        err,
        told,
    )
}

/// The report of a run, as `flexray run PARAMS DRIFT SCRIPT` prints it.
#[unsafe(no_mangle)]
pub extern "C" fn flexray_run(
    alloc: Global,
    params: &[u8],
    drift: &[u8],
    script: &[u8],
    out: &mut [u8],
    err: &mut [u8],
    told: &mut Texts,
) -> u32
    ensures { CallEnds flexray_program
        (codes "run" ∷ codes "first" ∷ codes "second" ∷ codes "third" ∷ [])
        (lent_shelf params.now drift.now script.now 0) (places_of out.old out.new err.old err.new told.new) result }
{
    answer_flexray(
        alloc,
        "run\nfirst\nsecond\nthird",
        LentFiles::new(params, drift, script),
        out,
        err,
        told,
    )
}

/// The series of a run, as `flexray-series PARAMS DRIFT SCRIPT` prints it.
#[unsafe(no_mangle)]
pub extern "C" fn flexray_series(
    alloc: Global,
    params: &[u8],
    drift: &[u8],
    script: &[u8],
    out: &mut [u8],
    err: &mut [u8],
    told: &mut Texts,
) -> u32
    ensures { CallEnds series_program
        (codes "first" ∷ codes "second" ∷ codes "third" ∷ [])
        (lent_shelf params.now drift.now script.now 0) (places_of out.old out.new err.old err.new told.new) result }
{
    answer_series(
        alloc,
        "first\nsecond\nthird",
        LentFiles::new(params, drift, script),
        out,
        err,
        told,
    )
}
