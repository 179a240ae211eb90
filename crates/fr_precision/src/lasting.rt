ghost use Rattle.fr_precision.specs.SharpRun.{OlderSyncSettles, SharpDoublesDraw, SharpSpreadsKeep, SharpSyncIsReached, SharpSyncLasts};

/// The law of many double cycles: where all hear all senders in each of them, nodes draw together as the step does; and in
/// sharp sync they stay, with no term cut and no macrotick further apart than the sharper precision, in ticks, for as
/// many double cycles as the rate limit holds the walk: for ever where the first check holds. From stated numbers they
/// keep to the spreads by double cycle, and are in sharp sync when these have come to rest. So they do from sync in the
/// older sense, under the older checks, with no macrotick further apart than the older precision on the way.
pub fn sharp_sync_lasts()
    ensures draw { SharpDoublesDraw }
    ensures spreads { SharpSpreadsKeep }
    ensures lasts { SharpSyncLasts }
    ensures reached { SharpSyncIsReached }
    ensures older { OlderSyncSettles }
{}
