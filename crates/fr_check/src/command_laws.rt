ghost use Rattle.fr_text.specs.Files.{IsDecided, said_of};
ghost use Rattle.fr_check.specs.CheckAnswer.{check_files};

/// A law: the bytes of the files decide what is written of a trace that passes, and what is said of one that
/// does not. Two texts that the answer's clause allows for files of the same bytes are the same.
pub fn files_decide_the_verdict()
    ensures written { IsDecided check_files }
    ensures told { IsDecided (said_of check_files) }
{
    fr_params::one_answer();
    fr_trace::one_answer();
    fr_verdict::one_answer();
}
