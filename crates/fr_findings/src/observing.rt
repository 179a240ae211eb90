ghost use Rattle.std.specs.Prelude.{◌≡◌, ◌++◌, OnOk};
ghost use Rattle.std.specs.Option.{option_copied};
ghost use Rattle.fr_base.specs.Device.{Puts};
ghost use Rattle.fr_course.specs.Readings.{reading_scale};
ghost use Rattle.fr_text.specs.Lines.{joined_lines};
ghost use Rattle.fr_findings.specs.Census.{census_text};
ghost use Rattle.fr_findings.specs.Ground.{ComeInOrder, OffendInOrder, basis_in, offending_given};
ghost use Rattle.fr_observe.specs.Observing.{seen_doubles};
ghost use Rattle.fr_sightings.specs.Sure.{are_numbers_sure};
ghost use Rattle.fr_findings.specs.Text.{AreGathered, all_told, end_told, observe_text, text_with, whole_told};
ghost use Rattle.fr_findings.specs.Verdict.{log_span, no_progress, number_or_none, progress_of, told_of_doubles};
ghost use Rattle.fr_sightings.specs.Ranges.{IsScaleOf};

use crate::census::put_census;
use crate::ends::{cycles_told, log_row, numbers_row, sync_row, verdict_row};
use crate::ground::{Doubles, Frames, Ground, Offending};
use crate::progress::Progress;
use crate::verdict::Verdict;
use crate::writing::put_doubles;
use fr_base::{PutFault, Sink};
use fr_cluster::Params;
use fr_course::Scale;
use fr_judging::{heard, yardstick};
use fr_log::Log;
use fr_observe::{LogSpan, precision_row, stated_flutter};
use fr_sightings::{Sighting, SightingList, Tally, are_numbers_sure};
use fr_text::{Line, put_line, put_lines};

// The numbers of a cluster as readings of the clock of a log.
fn scale_of(params: &Params, log: &Log) -> Scale
    ensures value { result ≡ reading_scale log.now.drift params.now }
    ensures proper { IsScaleOf params.now result }
{
    Scale::of(params, log.drift())
}

// The cycles from the first sighting to the last.
fn number_or_none(sighting: Option<&Sighting>) -> u32
    ensures { result ≡ number_or_none (option_copied sighting.entry) }
{
    match sighting {
        None => 0,
        Some(sighting) => sighting.number,
    }
}

fn log_span(seen: &[Sighting]) -> LogSpan
    ensures { result ≡ log_span seen.now }
{
    LogSpan {
        first: number_or_none(seen.first()),
        last: number_or_none(seen.last()),
    }
}

// All double cycles.
#[tactic(auto, unfolding(fr_observe::specs::Observing::seen_doubles))]
fn put_all<O: Sink>(
    ground: &Ground<'_>,
    frames: &Frames<'_>,
    progress: &mut Progress,
    out: &mut O,
) -> Result<(), PutFault>
    requires seen { ComeInOrder ground.now.log.now frames.now.seen.now }
    requires offending { OffendInOrder ground.now.log.now (offending_given frames.now.offending) }
    requires progress { progress.old ≡ no_progress }
    ensures puts { Puts result (O.state out.old) (O.state out.new)
        (told_of_doubles (basis_in ground.now) frames.now.seen.now (offending_given frames.now.offending) no_progress
        (seen_doubles frames.now.seen.now)) }
    ensures progress { OnOk result (progress.new ≡
        progress_of (basis_in ground.now) frames.now.seen.now (offending_given frames.now.offending) no_progress
        (seen_doubles frames.now.seen.now)) }
{
    match frames.seen.first() {
        None => Ok(()),
        Some(first) => match frames.seen.last() {
            None => Ok(()),
            Some(last) => {
                let doubles = Doubles {
                    first: first.number / 2,
                    last: last.number / 2,
                };
                put_doubles(ground, frames, doubles, progress, out)
            }
        },
    }
}

// What holds of the whole log.
#[tactic(auto, unfolding(crate::specs::Text::end_told))]
fn end_lines(seen: &[Sighting], tally: &Tally, sure: bool, progress: &Progress) -> [Option<Line>; 5]
    ensures { joined_lines result ≡ end_told seen.now tally.now sure progress.now }
{
    [
        Some(log_row(tally)),
        Some(numbers_row(sure)),
        Some(sync_row(progress)),
        Some(cycles_told(seen, &progress.counts)),
        Some(verdict_row(Verdict::of(progress))),
    ]
}

// Behind all double cycles: the senders, and what holds of the whole log.
fn put_end<O: Sink>(
    ground: &Ground<'_>,
    seen: &[Sighting],
    tally: &Tally,
    progress: &Progress,
    out: &mut O,
) -> Result<(), PutFault>
    requires { ComeInOrder ground.now.log.now seen.now }
    ensures { Puts result (O.state out.old) (O.state out.new)
        (census_text ground.now.params.now ground.now.log.now seen.now
        ++ end_told seen.now tally.now (are_numbers_sure ground.now.params.now ground.now.log.now) progress.now) }
{
    let sure = are_numbers_sure(ground.params, ground.log);
    put_census(ground.params, ground.log, seen, out)?;
    put_lines(&end_lines(seen, tally, sure, progress), out)
}

// All behind the precision.
#[tactic(auto, unfolding(crate::specs::Text::all_told))]
fn put_rest<O: Sink>(
    ground: &Ground<'_>,
    frames: &Frames<'_>,
    tally: &Tally,
    out: &mut O,
) -> Result<(), PutFault>
    requires seen { ComeInOrder ground.now.log.now frames.now.seen.now }
    requires offending { OffendInOrder ground.now.log.now (offending_given frames.now.offending) }
    ensures { Puts result (O.state out.old) (O.state out.new)
        (all_told (basis_in ground.now) frames.now.seen.now (offending_given frames.now.offending) tally.now) }
{
    let mut progress = Progress::none();
    put_all(ground, frames, &mut progress, out)?;
    put_end(ground, frames.seen, tally, &progress, out)
}

#[tactic(auto, unfolding(crate::specs::Text::whole_told))]
fn put_whole<O: Sink>(
    ground: &Ground<'_>,
    frames: &Frames<'_>,
    tally: &Tally,
    out: &mut O,
) -> Result<(), PutFault>
    requires seen { ComeInOrder ground.now.log.now frames.now.seen.now }
    requires offending { OffendInOrder ground.now.log.now (offending_given frames.now.offending) }
    ensures { Puts result (O.state out.old) (O.state out.new)
        (whole_told (basis_in ground.now) frames.now.seen.now (offending_given frames.now.offending) tally.now) }
{
    let flutter = stated_flutter(ground.params, ground.log);
    put_line(
        &precision_row(ground.precision, flutter.0, ground.log.lost()),
        out,
    )?;
    put_rest(ground, frames, tally, out)
}

// What these frames of a log tell, and what became of its entries.
fn put_told<O: Sink>(
    params: &Params,
    log: &Log,
    frames: &Frames<'_>,
    tally: &Tally,
    out: &mut O,
) -> Result<(), PutFault>
    requires seen { ComeInOrder log.now frames.now.seen.now }
    requires offending { OffendInOrder log.now (offending_given frames.now.offending) }
    ensures { Puts result (O.state out.old) (O.state out.new)
        (text_with params.now log.now frames.now.seen.now (offending_given frames.now.offending) tally.now) }
{
    let scale = scale_of(params, log);
    let heard = heard(params, log);
    let ground = Ground {
        precision: yardstick(params, log, heard),
        scale: &scale,
        params,
        log,
        span: log_span(frames.seen),
        heard,
    };
    put_whole(&ground, frames, tally, out)
}

/// Writes what a log tells of a cluster's clocks, what contradicts it, and its verdict, by its sightings: records of
/// eight fields. Puts have whole lines. It takes no memory but what the sink does; a fault comes only where the sink
/// counted it, and then a front of the text was put.
#[tactic(auto, unfolding(crate::specs::Text::observe_text))]
pub fn write_observed<O: Sink>(
    params: &Params,
    log: &Log,
    sightings: &SightingList,
    out: &mut O,
) -> Result<(), PutFault>
    requires { AreGathered params.now log.now sightings.now }
    ensures { Puts result (O.state out.old) (O.state out.new) (observe_text params.now log.now) }
{
    let frames = Frames {
        seen: sightings.as_slice(),
        offending: Offending {
            untimely: sightings.untimely(),
            irregular: sightings.irregular(),
        },
    };
    put_told(params, log, &frames, &sightings.tally(), out)
}
