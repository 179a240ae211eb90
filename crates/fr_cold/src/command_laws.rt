ghost use Rattle.fr_cluster.specs.Sane.{IsSane};
ghost use Rattle.fr_cluster.specs.Values.{Values};
ghost use Rattle.fr_cold.specs.Files.{PowerFits};
ghost use Rattle.fr_cold.specs.View.{PowerView};
ghost use Rattle.fr_text.specs.Files.{IsDecided};
ghost use Rattle.fr_cold.specs.ColdAnswer.{cold_files};
ghost use Rattle.fr_cold.specs.ColdText.{IsColdText, cold_text};

use crate::{at_most_one_leads, switched_on_once, the_first_leads};

/// A law: what is printed of a startup says who leads; where every two coldstart nodes share a channel at most one
/// node leads at each macrotick, and where besides none is switched off, it is the first.
pub fn a_startup_has_one_leader()
    ensures { (p : Values) (v : PowerView) → IsSane p → PowerFits p v → IsColdText p v (cold_text p v) }
{
    at_most_one_leads();
    the_first_leads();
    switched_on_once();
}

/// A law: the bytes of the files decide what is written. Two texts that the answer's clause allows for files
/// of the same bytes are the same.
pub fn files_decide_the_leaders()
    ensures { IsDecided cold_files }
{
    fr_params::one_answer();
    crate::one_answer();
}
