ghost use Rattle.fr_runs.specs.Room.{LastChecksSuffice, SeventhCheckSuffices, SixthCheckSuffices};

/// The law of room: where the checks of a cluster that nodes join hold, its rate limit suffices for a first rate, its
/// offset limit for the reach, in ticks, and each slot has room for whoever is within reach.
pub fn join_checks_suffice()
    ensures rate { SixthCheckSuffices }
    ensures limit { SeventhCheckSuffices }
    ensures slot { LastChecksSuffice }
{}
