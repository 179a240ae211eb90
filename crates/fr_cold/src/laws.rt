ghost use Rattle.fr_text.specs.Kind.{HasOneAnswer, HasSomeAnswer};
ghost use Rattle.fr_text.specs.Least.{GivesLeast};
ghost use Rattle.fr_cluster.specs.Values.{Values};
ghost use Rattle.fr_cold.specs.Reasons.{power_reason_after};
ghost use Rattle.fr_cold.specs.Holding.{power_holds};
ghost use Rattle.fr_cold.specs.StartupLaws.{StaysOn, SwitchesStarters};
ghost use Rattle.fr_cold.specs.View.{PowerView};
ghost use Rattle.fr_cold.specs.Questions.{IsNeverOff, switches_of};
ghost use Rattle.fr_cold.specs.Files.{PowerFits, power_file};

/// The answer to a file is determined by its bytes and the parameters: two that are not want of memory are
/// the same. So a file stands for one `Power` at most, has one first cause at most, and is not both
/// accepted and refused.
pub fn one_answer()
    ensures { (p : Values) → HasOneAnswer (power_file p) }
{}

/// Each file has an answer that is not want of memory: it is accepted, or it is refused for a cause.
pub fn some_answer()
    ensures { (p : Values) → HasSomeAnswer (power_file p) }
{}

/// A record is refused for the least reason that holds of it after the records before it, and only where
/// one holds.
pub fn refused_for_the_least_reason()
    ensures { (p : Values) → GivesLeast (power_reason_after p) (power_holds p) }
{}

/// A law: only coldstart nodes are switched; and where an accepted file switches no node off, it switches none on a
/// second time.
pub fn switched_on_once()
    ensures starters { (p : Values) (v : PowerView) → SwitchesStarters p (switches_of p v) }
    ensures once { (p : Values) (v : PowerView) → PowerFits p v → IsNeverOff v → StaysOn (switches_of p v) }
{}
