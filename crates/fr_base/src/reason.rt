ghost use Rattle.std.specs.Prelude.{◌≡◌};

/// Why a record of a file is refused, numbered 1 to 10 in this order. A record is refused for the reason
/// with the least number that holds.
#[derive(Clone, Copy, Debug, PartialEq, Eq, PartialOrd, Ord)]
pub enum Reason {
    /// It has not the file's number of fields, or one that its form leaves empty is not empty.
    Shape = 1,
    /// Its first field is none of the file's kinds, or a name is none that the file knows.
    UnknownName = 2,
    /// A field that is to be a number is none.
    NotNumber = 3,
    /// A number lies outside its range.
    OutOfRange = 4,
    /// It names a node that is not there.
    UnknownNode = 5,
    /// A field that is to name channels does not.
    BadChannel = 6,
    /// Its fields do not go together, or it may not stand here.
    Role = 7,
    /// Two nodes have no such channel in common.
    Link = 8,
    /// A field that is to be hexadecimal digits is not.
    NotHex = 9,
    /// An earlier record said the same thing.
    Repeated = 10,
}

impl Reason {
    ghost use Rattle.fr_base.specs.Reason.{reason_rank, reason_text};

    /// Its number, 1 to 10: a record is refused for the least that holds.
    pub fn rank(self) -> u8
        ensures { result ≡ reason_rank self }
    {
        self as u8
    }
    /// Its name.
    pub fn word(self) -> &'static [u8]
        ensures { result.now ≡ reason_text self }
    {
        match self {
            Reason::Shape => b"Shape",
            Reason::UnknownName => b"UnknownName",
            Reason::NotNumber => b"NotNumber",
            Reason::OutOfRange => b"OutOfRange",
            Reason::UnknownNode => b"UnknownNode",
            Reason::BadChannel => b"BadChannel",
            Reason::Role => b"Role",
            Reason::Link => b"Link",
            Reason::NotHex => b"NotHex",
            Reason::Repeated => b"Repeated",
        }
    }
}
