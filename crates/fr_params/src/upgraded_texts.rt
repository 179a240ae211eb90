ghost use Rattle.fr_params.specs.Upgrades.{AcceptedAreOnChannels, AcceptedAreSane, FilesAreUpgraded, TextsAreAccepted};

/// A law: each node of an accepted parameter file is on a channel.
pub fn accepted_are_on_channels()
    ensures { AcceptedAreOnChannels }
{}

/// A law: parameters whose nodes are on channels have a text that is accepted as a file and stands for them.
pub fn texts_are_accepted()
    ensures { TextsAreAccepted }
{}

/// A law: the parameters that an accepted file stands for lie in their ranges and meet the constraints, with nodes and
/// further slots in ascending order.
pub fn accepted_are_sane()
    ensures { AcceptedAreSane }
{
    crate::an_accepted_file_is_assembled();
}

/// A law: the text of the parameters of an accepted file, of either version, is accepted too. It stands for the
/// same parameters and for no others, and their text is the same again.
pub fn files_are_upgraded()
    ensures { FilesAreUpgraded }
{
    crate::one_answer();
    accepted_are_sane();
}
