ghost use Rattle.std.specs.Prelude.{◌≡◌, ◌≤◌, ◌<◌, ◌+◌, ◌*◌, ◌/◌, ◌%◌};

// So many of the parts of a length, rounded down, one after the other: a whole step and a running remainder.
#[derive(Clone, Copy, Debug)]
pub(crate) struct Share {
    pub(crate) length: u32,
    pub(crate) parts: u32,
    pub(crate) count: u32,
    whole: u32,
    part: u32,
    pub(crate) at: u32,
    rest: u32,
    ghost some: { 0 < parts },
    ghost few: { parts ≤ 16_000 },
    ghost short: { length ≤ 700_000 },
    ghost within: { count ≤ parts },
    ghost whole_is: { whole ≡ length / parts },
    ghost part_is: { part ≡ length % parts },
    ghost at_is: { at ≡ count * length / parts },
    ghost rest_is: { rest ≡ count * length % parts },
    ghost at_to: { at ≤ length },
}

impl Share {
    // None of the parts; the one division.
    pub(crate) fn none(length: u32, parts: u32) -> Share
        requires some { 0 < parts }
        requires few { parts ≤ 16_000 }
        requires short { length ≤ 700_000 }
        ensures length { result.length ≡ length }
        ensures parts { result.parts ≡ parts }
        ensures count { result.count ≡ 0 }
    {
        Share {
            length,
            parts,
            count: 0,
            whole: length / parts,
            part: length % parts,
            at: 0,
            rest: 0,
        }
    }

    // So many of the parts.
    pub(crate) fn placed(self, count: u32) -> Share
        requires { count ≤ self.parts }
        ensures length { result.length ≡ self.length }
        ensures parts { result.parts ≡ self.parts }
        ensures count { result.count ≡ count }
    {
        Share {
            count,
            at: parts_of(count, self.length, self.parts),
            rest: left_over(count, self.length, self.parts),
            length: self.length,
            parts: self.parts,
            whole: self.whole,
            part: self.part,
        }
    }

    // One part more.
    pub(crate) fn more(self) -> Share
        requires { self.count < self.parts }
        ensures length { result.length ≡ self.length }
        ensures parts { result.parts ≡ self.parts }
        ensures count { result.count ≡ self.count + 1 }
    {
        let rest = self.rest + self.part;
        if rest < self.parts {
            self.within(rest)
        } else {
            self.over(rest)
        }
    }

    // One part more, where the remainders make none.
    fn within(self, rest: u32) -> Share
        requires more { self.count < self.parts }
        requires rest { rest ≡ self.rest + self.part }
        requires fits { rest < self.parts }
        ensures length { result.length ≡ self.length }
        ensures parts { result.parts ≡ self.parts }
        ensures count { result.count ≡ self.count + 1 }
    {
        Share {
            count: self.count + 1,
            at: self.at + self.whole,
            rest,
            length: self.length,
            parts: self.parts,
            whole: self.whole,
            part: self.part,
        }
    }

    // One part more, where the remainders make one.
    fn over(self, rest: u32) -> Share
        requires more { self.count < self.parts }
        requires rest { rest ≡ self.rest + self.part }
        requires over { self.parts ≤ rest }
        ensures length { result.length ≡ self.length }
        ensures parts { result.parts ≡ self.parts }
        ensures count { result.count ≡ self.count + 1 }
    {
        Share {
            count: self.count + 1,
            at: self.at + self.whole + 1,
            rest: rest - self.parts,
            length: self.length,
            parts: self.parts,
            whole: self.whole,
            part: self.part,
        }
    }
}

// So many of the parts of a length, rounded down.
fn parts_of(count: u32, length: u32, parts: u32) -> u32
    requires some { 0 < parts }
    requires few { parts ≤ 16_000 }
    requires short { length ≤ 700_000 }
    requires within { count ≤ parts }
    ensures value { result ≡ count * length / parts }
    ensures to { result ≤ length }
{
    (u64::from(count) * u64::from(length) / u64::from(parts)) as u32
}

// What the rounding leaves over.
fn left_over(count: u32, length: u32, parts: u32) -> u32
    requires some { 0 < parts }
    requires few { parts ≤ 16_000 }
    requires short { length ≤ 700_000 }
    requires within { count ≤ parts }
    ensures { result ≡ count * length % parts }
{
    (u64::from(count) * u64::from(length) % u64::from(parts)) as u32
}
