ghost use Rattle.fr_sightings.specs.Sightings.{SilenceEndsAll};

/// A law: behind a silence that is too long to go on no entry of a log is a sighting any more, and none a stray, since
/// the last sighting stays and stamps do not fall.
pub fn silence_ends_all()
    ensures { SilenceEndsAll }
{}
