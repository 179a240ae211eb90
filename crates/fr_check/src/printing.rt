ghost use Rattle.std.specs.Prelude.{◌≡◌};
ghost use Rattle.fr_base.specs.Device.{Puts};
ghost use Rattle.fr_text.specs.Lines.{joined_lines};
ghost use Rattle.fr_text.specs.Pieces.{line};
ghost use Rattle.fr_check.specs.VerdictText.{counts_text, verdict_text};

use fr_base::{PutFault, Sink};
use fr_bound::bounds;
use fr_cluster::Params;
use fr_coverage::{precision_line, skew_line, sync_line};
use fr_text::Piece::{Natural, Word};
use fr_text::{Line, line_of, put_lines};
use fr_trace::Trace;
use fr_verdict::Verdict;

// Writes the verdict on a trace. Puts have whole lines.
pub(crate) fn print<O: Sink>(
    params: &Params,
    trace: &Trace,
    verdict: &Verdict,
    out: &mut O,
) -> Result<(), PutFault>
    ensures { Puts result (O.state out.old) (O.state out.new) (verdict_text params.now trace.now verdict.now) }
{
    put_lines(&lines(params, trace, verdict), out)
}

fn lines(params: &Params, trace: &Trace, verdict: &Verdict) -> [Option<Line>; 4]
    ensures { joined_lines result ≡ verdict_text params.now trace.now verdict.now }
{
    [
        Some(counts_line(params, trace)),
        Some(precision_line(bounds(params).precision as u64)),
        Some(sync_line(verdict.synced)),
        Some(skew_line(verdict.skew, verdict.cycle, verdict.macrotick)),
    ]
}

fn counts_line(params: &Params, trace: &Trace) -> Line
    ensures { result ≡ line (counts_text params.now trace.now) }
{
    line_of(&[
        Word(b"trace nodes "),
        Natural(params.nodes.len() as u64),
        Word(b" arbitrary "),
        Natural(u64::from(trace.arbitrary())),
        Word(b" doubles "),
        Natural(u64::from(trace.doubles())),
    ])
}
