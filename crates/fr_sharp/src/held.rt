ghost use Rattle.fr_sharp.specs.HeldHistories.{HeldHistoriesKeepSharpSync, HistoriesKeepForEver};

use fr_promise::levels_hold;

/// The law of a held walk: in a lawful history of a run that no node joins, from a double cycle in sharp sync on, under
/// the checks but the first, the nodes are in sharp sync to the end of the run, with lengths less than a microtick
/// beyond their range. No term is cut or missing, each node is active, and no corresponding macroticks lie further
/// apart than the sharper precision, in ticks. All that is so by the cycle too, and where the first check holds with
/// lengths in their range.
pub fn held_walks_keep_sharp_sync()
    ensures each { HeldHistoriesKeepSharpSync }
    ensures precise { HistoriesKeepForEver }
{
    levels_hold();
}
