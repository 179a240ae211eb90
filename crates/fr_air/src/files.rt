ghost use Rattle.std.specs.Prelude.{ℕ};
ghost use Rattle.fr_cluster.specs.Sane.{IsSane};
ghost use Rattle.fr_history.specs.Lawful.{IsLawful};
ghost use Rattle.fr_history.specs.Next.{cycles_of};
ghost use Rattle.fr_air.specs.Files.{setting_in};

use crate::kept::KeptDrift;
use fr_base::NodeId;
use fr_cluster::Params;
use fr_history::one_lawful_run;
use fr_script::{Script, events_are_proper};

// What decides a run.
pub struct RunInputs {
    pub params: Params,
    pub drift: KeptDrift,
    pub script: Script,
}

// One call: a derived drop is opened in each function that drops a value, and proved there.
impl Drop for RunInputs {
    fn drop(self) {
        let RunInputs {
            params: _,
            drift: _,
            script: _,
        } = self;
    }
}

// What holds of all parameters: the borrow of a field opens their invariant.
pub fn sane(params: &Params)
    ensures { IsSane params.now }
{
    let _nodes = &params.nodes;
}

// The cycles of the run that files decide are lawful.
pub fn files_are_lawful(files: &RunInputs)
    ensures { (n : ℕ) → IsLawful (setting_in files.now) (cycles_of (setting_in files.now) n) }
{
    sane(&files.params);
    // Each question to a script says that it is one.
    let _named = files.script.arbitrary(NodeId(1));
    one_lawful_run();
    events_are_proper();
}
