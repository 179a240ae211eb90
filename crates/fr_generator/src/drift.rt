ghost use Rattle.std.specs.Prelude.{◌≡◌, ◌<◌, IfOk};
ghost use Rattle.fr_generator.specs.Cluster.{made_values};
ghost use Rattle.fr_generator.specs.Steps.{after_clock, after_delay};
ghost use Rattle.fr_generator.specs.Making.{AddsStep, TakesStep};
ghost use Rattle.fr_generator.specs.Generated.{IsDriftDrawn, IsMadeCount};

use crate::draws::{draw_delay, draw_length, draw_start};
use crate::places::{link_at, node_of};
use fr_cluster::Params;
use fr_drift::{Drift, DriftFault};
use rand_pcg::Lcg64Xsh32;
use std::alloc::Global;

// Draws the drift of the cluster: the clock of each node, then the delay of each link.
pub(crate) fn drift_of(
    alloc: Global,
    params: &Params,
    words: &mut Lcg64Xsh32,
    doubles: u32,
) -> Result<Drift, DriftFault>
    requires cluster { params.now ≡ made_values }
    requires proper { IsMadeCount doubles }
    ensures { IfOk result (IsDriftDrawn params.now words.old words.new doubles) }
{
    let mut drift = Drift::even(alloc, params, doubles);
    for clock in 0..8 {
        set_clock(&mut drift, params, words, clock)?;
    }
    for link in 0..112 {
        set_link(&mut drift, params, words, link)?;
    }
    Ok(drift)
}

// Draws the clock of a node: first its length, then its start.
fn set_clock(
    drift: &mut Drift,
    params: &Params,
    words: &mut Lcg64Xsh32,
    place: u32,
) -> Result<(), DriftFault>
    requires room { place < 8 }
    requires taken { TakesStep params.now drift.old words.old (after_clock place) }
    ensures { AddsStep params.now drift.old drift.new words.old words.new (after_clock place) result }
{
    let node = node_of(place + 1);
    let ticks = draw_length(words);
    drift.set_length(params, node, 0, ticks)?;
    let start = draw_start(words);
    drift.set_start(params, node, start, 0)
}

// Draws the delay of a link.
fn set_link(
    drift: &mut Drift,
    params: &Params,
    words: &mut Lcg64Xsh32,
    place: u32,
) -> Result<(), DriftFault>
    requires room { place < 112 }
    requires taken { TakesStep params.now drift.old words.old (after_delay place) }
    ensures { AddsStep params.now drift.old drift.new words.old words.new (after_delay place) result }
{
    let link = link_at(place);
    let ticks = draw_delay(words);
    drift.set_delay(params, link.sender, link.receiver, link.channel, 0, ticks)
}
