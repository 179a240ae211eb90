ghost use Rattle.std.specs.Prelude.{◌≡◌, ◌<◌, All, IfOk, IfSome, OnOk, length};
ghost use Rattle.std.specs.List.Sorted.{IsNonDecreasingBy};
ghost use Rattle.fr_time.specs.Cycles.{double_cycle_of};
ghost use Rattle.fr_log.specs.View.{IsEntry};
ghost use Rattle.fr_sightings.specs.Ranges.{AreLate};
ghost use Rattle.fr_sightings.specs.Passing.{last_sighting, with_fate};
ghost use Rattle.fr_sightings.specs.Sightings.{IsSighting, MayTally, all_tallied, fate_of, offending_frames_of, sightings_of, tally_of};

use crate::gathered::SightingList;
use crate::placing::{fate_of, sane};
use fr_cluster::Params;
use fr_log::{Entry, Log};
use std::alloc::{AllocError, Global};

/// The frames of a log that say where their senders' clocks were, in the order in which they came, those that do not
/// come in time, irregular ones, and how many of its entries have which fate. It reads each entry once; an Err is want of
/// memory.
pub fn sightings(alloc: Global, params: &Params, log: &Log) -> Result<SightingList, AllocError>
    ensures seen { IfOk result (λ found. found.list ≡ sightings_of params.now log.now) }
    ensures offending { IfOk result (λ found. found.offending ≡ offending_frames_of params.now log.now) }
    ensures tally { IfOk result (λ found. found.tally ≡ tally_of params.now log.now) }
    // No entry is left out.
    ensures all { IfOk result (λ found. all_tallied found.tally ≡ length log.now.entries) }
    ensures proper { IfOk result (λ found. All (IsSighting params.now log.now) found.list) }
    // No double cycle is before that of a sighting before it.
    ensures ascending { IfOk result (λ found.
        IsNonDecreasingBy (λ sighting. double_cycle_of sighting.number) found.list) }
    // Of those that do not come in time stamps lie within the limits of the log, numbers are those of its cycles, and no
    // double cycle is before that of one before it; of irregular ones too.
    ensures late { IfOk result (λ found. AreLate log.now found.offending.untimely) }
    ensures irregular { IfOk result (λ found. AreLate log.now found.offending.irregular) }
{
    sane(params);
    let mut seen = SightingList::none(alloc);
    let entries = log.entries();
    for place in 0..entries.len() {
        pass(&mut seen, params, log, &entries[place])?;
    }
    Ok(seen)
}

// Passes an entry.
fn pass(
    seen: &mut SightingList,
    params: &Params,
    log: &Log,
    entry: &Entry,
) -> Result<(), AllocError>
    requires room { MayTally seen.old.tally }
    requires last { IfSome (last_sighting seen.old.list) (IsSighting params.now log.now) }
    requires entry { IsEntry log.now.unit entry.now }
    ensures { OnOk result (seen.new ≡
        with_fate seen.old (fate_of params.now log.now (last_sighting seen.old.list) entry.now)) }
{
    let fate = fate_of(params, log, seen.last(), entry);
    seen.note(fate)
}
