ghost use Rattle.std.specs.Prelude.{◌≡◌, ◌||◌, false, is_err};
ghost use Rattle.std.specs.Io.{ReadsAtMost};
ghost use Rattle.std.specs.Io.KnownBytes.{ReadConsumes};

use std::io;
use std::io::Read;

// A reader, and whether a read of it has failed.
#[derive(Drop)]
pub struct Watched<F: Read> {
    reader: F,
    failed: bool,
}

impl<F: Read> Watched<F> {
    ghost use Rattle.fr_program.specs.Watched.{has_failed, reader_of};

    // A reader of which no read has failed.
    pub fn new(reader: F) -> Watched<F>
        ensures reader { reader_of result ≡ reader }
        ensures unfailed { has_failed result ≡ false }
    {
        Watched {
            reader,
            failed: false,
        }
    }

    // Reads what the reader gives.
    pub fn read(&mut self, buf: &mut [u8]) -> io::Result<usize>
        ensures bound { ReadsAtMost result buf.new }
        ensures bytes { ReadConsumes (F.Read.remaining (reader_of self.old)) (F.Read.remaining (reader_of self.new))
            result buf.new }
        ensures noticed { has_failed self.new ≡ (has_failed self.old || is_err result) }
    {
        let given = self.reader.read(buf);
        self.failed = self.failed || given.is_err();
        given
    }
}
