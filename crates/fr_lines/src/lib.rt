//! What is told of a run, gathered cycle by cycle from rows: as a value, and as the lines of its report. It needs no
//! world: whoever has rows can gather them.
#![tactic(auto)]

ghost use Rattle.std.specs.Prelude.{Option};
ghost use Rattle.fr_cluster.specs.Setting.{Setting};
ghost use Rattle.fr_history.specs.Cycles.{Cycles};
ghost use Rattle.fr_coverage.specs.declared.gap.Gap.{Gap};
ghost use Rattle.fr_lines.specs.Text.{report_of};
ghost use Rattle.fr_base.specs.Device.{IsEnded};

mod clocks;
mod counting;
mod lines;
mod report;
mod rows;
mod told;

pub use clocks::{Clock, ClockList};
pub use report::Report;
pub use told::Told;

/// A law: the report ends with a line feed.
pub fn a_report_ends_its_last_line()
    ensures { (x : Setting) (gap : Option Gap) (h : Cycles) → IsEnded (report_of x gap h) }
{}
