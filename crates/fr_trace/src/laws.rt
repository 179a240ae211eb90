ghost use Rattle.std.specs.Prelude.{List, ℕ};
ghost use Rattle.fr_text.specs.Kind.{HasOneAnswer, HasSomeAnswer};
ghost use Rattle.fr_text.specs.Least.{GivesLeast};
ghost use Rattle.fr_cluster.specs.Sane.{IsSane};
ghost use Rattle.fr_cluster.specs.Values.{Values};
ghost use Rattle.fr_trace.specs.Files.{IsTraceFile, trace_file};
ghost use Rattle.fr_trace.specs.Holding.{trace_holds};
ghost use Rattle.fr_trace.specs.Reasons.{trace_reason_after};
ghost use Rattle.fr_trace.specs.Sound.{IsSoundTrace};
ghost use Rattle.fr_trace.specs.Trace.{TraceView};

/// The answer to a trace is determined by its bytes and the parameters: two that are not want of memory are the
/// same. So a file stands for one `Trace` at most, has one first cause at most, and is not both accepted and refused.
pub fn one_answer()
    ensures { (p : Values) → HasOneAnswer (trace_file p) }
{}

/// Each file has an answer that is not want of memory: it is accepted, or it is refused for a cause.
pub fn some_answer()
    ensures { (p : Values) → HasSomeAnswer (trace_file p) }
{}

/// A record is refused for the least reason that holds of it after the records before it, and only where one holds.
pub fn refused_for_the_least_reason()
    ensures { (p : Values) → IsSane p → GivesLeast (trace_reason_after p) (trace_holds p) }
{}

/// What holds of each trace that is read follows from its file alone: it is whole, its rows stand in their order with
/// numbers in their ranges, and it fits the parameters against which the file is accepted.
pub fn trace_of_a_file_is_sound()
    ensures { (p : Values) (t : TraceView) (bytes : List ℕ) → IsSane p → IsTraceFile p t bytes → IsSoundTrace p t }
{}
