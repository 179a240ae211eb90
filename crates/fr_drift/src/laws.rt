ghost use Rattle.std.specs.Prelude.{◌*ℤ◌, ℕ, pos};
ghost use Rattle.fr_base.specs.declared.channel.Channel.{Channel};
ghost use Rattle.fr_text.specs.Kind.{HasOneAnswer, HasSomeAnswer};
ghost use Rattle.fr_text.specs.Least.{GivesLeast};
ghost use Rattle.fr_cluster.specs.Values.{Values};
ghost use Rattle.fr_cluster.specs.Sane.{IsSane};
ghost use Rattle.fr_drift.specs.View.{DriftView, compensation_on, delay_rows, length_rows};
ghost use Rattle.fr_drift.specs.Questions.{FollowsRows, delay_of, length_of};
ghost use Rattle.fr_drift.specs.Reasons.{drift_reason_after};
ghost use Rattle.fr_drift.specs.Holding.{drift_holds};
ghost use Rattle.fr_drift.specs.Files.{drift_file};

/// The answer to a file is determined by its bytes and the parameters: two that are not want of memory are
/// the same. So a file stands for one `Drift` at most, has one first cause at most, and is not both
/// accepted and refused.
pub fn one_answer()
    ensures { (p : Values) → HasOneAnswer (drift_file p) }
{}

/// Each file has an answer that is not want of memory: it is accepted, or it is refused for a cause.
pub fn some_answer()
    ensures { (p : Values) → HasSomeAnswer (drift_file p) }
{}

/// A record is refused for the least reason that holds of it after the records before it, and only where
/// one holds.
pub fn refused_for_the_least_reason()
    ensures { (p : Values) → IsSane p → GivesLeast (drift_reason_after p) (drift_holds p) }
{}

/// A row holds from its cycle on until the next row of the same node or link; where none stands at a cycle
/// or before it the length is a million ticks, and the delay that of the channel's compensation.
pub fn a_row_holds_until_the_next()
    ensures length { (d : DriftView) (node : ℕ) → FollowsRows (length_rows d node) (length_of d node) (pos 1_000_000) }
    ensures delay { (d : DriftView) (sender receiver : ℕ) (ch : Channel) → FollowsRows
        (delay_rows d sender receiver ch)
        (delay_of d sender receiver ch)
        (compensation_on d ch *ℤ pos 1_000_000) }
{}
