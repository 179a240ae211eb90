ghost use Rattle.std.specs.Prelude.{◌≡◌, ℕ, length};
ghost use Rattle.fr_cluster.specs.Sane.{IsSane};
ghost use Rattle.fr_cluster.specs.Values.{Values};
ghost use Rattle.fr_drift.specs.View.{DriftView};
ghost use Rattle.fr_script.specs.View.{IsScript, ScriptView};
ghost use Rattle.fr_cluster.specs.Setting.{IsSetting};
ghost use Rattle.fr_coverage.specs.Decided.{setting_of};
ghost use Rattle.fr_history.specs.Cycles.{Cycles};
ghost use Rattle.fr_history.specs.Lawful.{IsLawful};
ghost use Rattle.fr_history.specs.Next.{cycles_of};

use fr_history::one_lawful_run;
use fr_script::events_are_proper;

/// A law: the parameters of a cluster, a drift and a script decide one lawful run for each number of cycles, of whose
/// cycles `World::cycle` answers what is told. The premises are the invariants of `Params` and of `Script`.
pub fn files_decide_one_run()
    ensures setting { (p : Values) (d : DriftView) (s : ScriptView) → IsSane p → IsScript s →
        IsSetting (setting_of p d s) }
    ensures lawful { (p : Values) (d : DriftView) (s : ScriptView) (n : ℕ) → IsSane p → IsScript s →
        IsLawful (setting_of p d s) (cycles_of (setting_of p d s) n) }
    ensures only { (p : Values) (d : DriftView) (s : ScriptView) (h : Cycles) →
        IsLawful (setting_of p d s) h → h ≡ cycles_of (setting_of p d s) (length h) }
{
    one_lawful_run();
    events_are_proper();
}
