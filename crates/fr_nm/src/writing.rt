ghost use Rattle.std.specs.Prelude.{◌≡◌, ◌≤◌};
ghost use Rattle.fr_base.specs.Device.{Puts};
ghost use Rattle.fr_nm.specs.Text.{nm_text, row_line, rows_text, total_line};

use crate::vector::Folded;
use crate::vectors::Vectors;
use fr_base::{PutFault, Sink};
use fr_text::Piece::{Bytes, Natural, Word};
use fr_text::{Line, line_of, put_line};
use std::collections::BTreeMap;

impl Vectors {
    /// Writes a line for each cycle with a record that counts, in ascending order, and then how many records count and
    /// how many do not. Puts have whole lines. It takes no memory but what the sink does; a fault comes only where the
    /// sink counted it.
    pub fn write<O: Sink>(&self, out: &mut O) -> Result<(), PutFault>
        ensures { Puts result (O.state out.old) (O.state out.new) (nm_text self.now) }
    {
        put_rows(self.width, &self.rows, out)?;
        put_line(&total_line(self.frames, self.ignored), out)
    }
}

fn put_rows<O: Sink>(
    width: usize,
    rows: &BTreeMap<u32, Folded>,
    out: &mut O,
) -> Result<(), PutFault>
    requires { width ≤ 12 }
    ensures { Puts result (O.state out.old) (O.state out.new) (rows_text width rows.now.entries) }
{
    for (cycle, row) in rows.iter() {
        put_line(&row_line(width, *cycle, row), out)?;
    }
    Ok(())
}

fn row_line(width: usize, cycle: u32, row: &Folded) -> Line
    requires { width ≤ 12 }
    ensures { result ≡ row_line width cycle row.now }
{
    line_of(&[
        Word(b"cycle "),
        Natural(u64::from(cycle)),
        Word(b" vector "),
        Bytes(&row.vector[..width]),
        Word(b" frames "),
        Natural(row.frames),
    ])
}

fn total_line(frames: u64, ignored: u64) -> Line
    ensures { result ≡ total_line frames ignored }
{
    line_of(&[
        Word(b"frames "),
        Natural(frames),
        Word(b" ignored "),
        Natural(ignored),
    ])
}
