ghost use Rattle.std.specs.Prelude.{◌++◌};
ghost use Rattle.fr_base.specs.Device.{IsEnded, Puts};
ghost use Rattle.fr_text.specs.Lines.{joined_lines, shown};

use crate::line::Line;
use fr_base::{PutFault, Sink};

/// Puts a text of whole lines. A fault comes only where the sink counted it, and then a front of the text
/// was put.
pub fn put_text<O: Sink>(text: &[u8], out: &mut O) -> Result<(), PutFault>
    requires { IsEnded text.now }
    ensures { Puts result (O.state out.old) (O.state out.new) text.now }
{
    out.put(text)
}

/// Puts a line. A fault comes only where the sink counted it, and then a front of the line was put.
pub fn put_line<O: Sink>(line: &Line, out: &mut O) -> Result<(), PutFault>
    ensures { Puts result (O.state out.old) (O.state out.new) line.now }
{
    put_text(line.ended_bytes(), out)
}

/// Puts the lines that are there, one after the other, each whole. A fault comes only where the sink
/// counted it, and then a front of the text was put.
#[cycle(put)]
pub fn put_lines<O: Sink>(lines: &[Option<Line>], out: &mut O) -> Result<(), PutFault>
    ensures { Puts result (O.state out.old) (O.state out.new) (joined_lines lines.now) }
{
    match lines.split_first() {
        Some((line, rest)) => put_before(line, rest, out),
        None => Ok(()),
    }
}

#[cycle(put)]
fn put_before<O: Sink>(
    line: &Option<Line>,
    rest: &[Option<Line>],
    out: &mut O,
) -> Result<(), PutFault>
    ensures { Puts result (O.state out.old) (O.state out.new) (shown line.now ++ joined_lines rest.now) }
{
    match line {
        Some(line) => {
            put_line(line, out)?;
            put_lines(rest, out)
        }
        None => put_lines(rest, out),
    }
}
