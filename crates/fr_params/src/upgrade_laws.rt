ghost use Rattle.fr_params.specs.UpgradeAnswer.{upgrade_files};
ghost use Rattle.fr_text.specs.Files.{IsDecided};

/// A law: the bytes of the file decide what is written. Two texts that the answer's clause allows for files of
/// the same bytes are the same.
pub fn file_decides_the_upgrade()
    ensures { IsDecided upgrade_files }
{
    crate::one_answer();
}
