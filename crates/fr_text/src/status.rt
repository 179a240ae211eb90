ghost use Rattle.std.specs.Prelude.{◌≡◌};
ghost use Rattle.fr_text.specs.Status.{code_of};

/// How a call of the program ended; its number is the exit status.
#[derive(Clone, Copy, Debug, PartialEq, Eq)]
pub enum Status {
    /// The text was written whole.
    Done = 0,
    /// The bytes of `frame` are no frame, or the trace of `check` is not that of a lawful and covered run.
    No = 1,
    /// The words are no request.
    Usage = 2,
    /// A file could not be read.
    ReadFault = 3,
    /// The text could not be written whole.
    WriteFault = 4,
    /// A file does not keep to its rules.
    Refused = 5,
    /// Memory ran out.
    NoMemory = 6,
    /// A file is longer than a file may be.
    TooLong = 7,
}

impl Status {
    /// The exit status.
    pub fn code(self) -> u8
        ensures { result ≡ code_of self }
    {
        self as u8
    }
}
