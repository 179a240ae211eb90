ghost use Rattle.std.specs.Prelude.{◌≡◌, ◌<◌, IfOk};
ghost use Rattle.fr_generator.specs.Cluster.{made_values};
ghost use Rattle.fr_generator.specs.Steps.{after_chance};
ghost use Rattle.fr_generator.specs.Making.{AddsSaid, TakesSaid};
ghost use Rattle.fr_generator.specs.Generated.{IsMadeCount, IsScriptDrawn};

use crate::draws::{draw_pass, draw_shift};
use crate::places::chance_at;
use fr_base::NodeId;
use fr_cluster::Params;
use fr_script::{Script, ScriptFault};
use rand_pcg::Lcg64Xsh32;
use std::alloc::Global;

// Draws the script of the cluster: nodes 7 and 8 are arbitrary, and say frames in each cycle.
pub(crate) fn script_of(
    alloc: Global,
    params: &Params,
    words: &mut Lcg64Xsh32,
    doubles: u32,
) -> Result<Script, ScriptFault>
    requires cluster { params.now ≡ made_values }
    requires proper { IsMadeCount doubles }
    ensures { IfOk result (IsScriptDrawn params.now words.old doubles) }
{
    let mut script = Script::empty(alloc);
    script.add_arbitrary(params, NodeId(7))?;
    script.add_arbitrary(params, NodeId(8))?;
    for place in 0..48 * doubles {
        take_chance(&mut script, params, words, place)?;
    }
    Ok(script)
}

// Takes a chance: one draw, and where it is not a multiple of 4 a second one, by which the frame is said.
fn take_chance(
    script: &mut Script,
    params: &Params,
    words: &mut Lcg64Xsh32,
    place: u32,
) -> Result<(), ScriptFault>
    requires room { place < 480_000 }
    requires taken { TakesSaid params.now script.old words.old (after_chance place) }
    ensures { AddsSaid script.old script.new words.old words.new (after_chance place) result }
{
    if draw_pass(words) {
        return Ok(());
    }
    let shift = draw_shift(words);
    let chance = chance_at(place);
    let link = chance.link;
    script.add_say(
        params,
        chance.cycle,
        link.sender,
        link.receiver,
        link.channel,
        shift,
    )
}
