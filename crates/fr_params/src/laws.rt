ghost use Rattle.std.specs.Prelude.{◌<◌, ◌↔◌};
ghost use Rattle.fr_cluster.specs.Values.{Values, amount};
ghost use Rattle.fr_cluster.specs.Constraints.{Amounts, CorrectsAfterSlots, LeavesMicroticks, LeavesSignedMicroticks};
ghost use Rattle.fr_cluster.specs.Sane.{IsSane};
ghost use Rattle.fr_cluster.specs.declared.names.ParamName.TheVariants as name;
ghost use Rattle.fr_text.specs.Kind.{HasOneAnswer, HasSomeAnswer};
ghost use Rattle.fr_text.specs.Least.{GivesLeast};
ghost use Rattle.fr_params.specs.Reasons.{param_reason_after};
ghost use Rattle.fr_params.specs.Holding.{param_holds};
ghost use Rattle.fr_params.specs.Assembling.{AssemblesFiles};
ghost use Rattle.fr_params.specs.Files.{params_file};

/// The answer to a file is determined by its bytes: two that are not want of memory are the same. So a
/// file stands for one `Params` at most, has one first cause at most, and is not both accepted and refused.
pub fn one_answer()
    ensures { HasOneAnswer params_file }
{}

/// Each file has an answer that is not want of memory: it is accepted, or it is refused for a cause.
pub fn some_answer()
    ensures { HasSomeAnswer params_file }
{}

/// A record is refused for the least reason that holds of it after the records before it, and only where
/// one holds.
pub fn refused_for_the_least_reason()
    ensures { GivesLeast param_reason_after param_holds }
{}

/// The numbers of an accepted file in the order of the table of version 2, its nodes and its further slots are
/// those of which `assemble` makes parameters, and what it makes of them are the parameters of the file.
pub fn an_accepted_file_is_assembled()
    ensures { AssemblesFiles }
{}

/// Under the constraints no difference of natural numbers in their definitions is cut off at 0.
pub fn no_difference_is_cut()
    ensures { (p : Values) → IsSane p →
        (amount p name.pRateCorrectionOut < amount p name.pMicroPerCycle) ×
        (amount p name.gOffsetCorrectionStart < amount p name.gMacroPerCycle) }
{}

/// The fourth constraint is said over natural numbers; where the third holds it is the one that is stated
/// over signed numbers.
pub fn fourth_constraint_is_signed()
    ensures { (f : Amounts) → CorrectsAfterSlots f → (LeavesMicroticks f ↔ LeavesSignedMicroticks f) }
{}
