//! Text that is read and written. A line is a list of pieces, words and numbers, and a text is a list of lines, which
//! are put whole. A file is a list of records: the reader over `csv`, the stream that cuts plain lines where they lie, what the
//! fields of a record say, and for either a loop that fills a table with the records of a file or names the first that is
//! refused. A kind of file has one way from a shelf
//! to its value. And how a command reads files one after the other: what it may write of them, why it stops, what is
//! told of that, and the exit statuses.
#![tactic(auto)]

mod cutting;
mod draft;
mod fields;
mod filling;
mod kind;
mod laws;
mod line;
mod lines;
mod loading;
mod numbers;
mod piece;
mod putting;
mod reader;
mod record;
mod records;
mod status;
mod stream;
mod table;
mod told;
mod words;

pub use draft::Draft;
pub use fields::{both, field, hex_digits, natural, reason_of};
pub use filling::{RecordTable, read_records};
pub use kind::{FileKind, Stop, accepted};
pub use laws::{first_refused_excludes_none, one_first_refused, refused_or_none};
pub use line::Line;
pub use lines::{line_of, row_of};
pub use loading::loaded;
pub use numbers::{fields_are_plain, numbers_are_read_back};
pub use piece::Piece;
pub use putting::{put_line, put_lines, put_text};
pub use reader::Records;
pub use record::Record;
pub use records::{records_are_read_back, rows_are_records};
pub use status::Status;
pub use stream::Stream;
pub use table::{RowFault, Table, read_all};
pub use told::{Shown, Told, record_line, stop_told};
pub use words::{letter_of, state_of};
