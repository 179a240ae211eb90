ghost use Rattle.fr_generator.specs.MadeFiles.{MadeFilesAreAccepted};
ghost use Rattle.fr_generator.specs.Seeds.{DriftIsAccepted, OneCluster, ScriptIsAccepted};

/// A law: the records of a seed, over 1 to 10,000 double cycles, are accepted as a drift file and as a script against
/// the parameters of the cluster, and they decide the cluster: two of one seed are the same.
pub fn a_seed_decides_one_cluster()
    ensures drift { DriftIsAccepted }
    ensures script { ScriptIsAccepted }
    ensures one { OneCluster }
{}

/// A law: the texts of a seed, that of its parameters and those of the records of its drift and of its script, are
/// accepted as files, and stand for its cluster: so what is written of a made cluster is what is written of these files.
pub fn made_files_are_accepted()
    ensures { MadeFilesAreAccepted }
{}
