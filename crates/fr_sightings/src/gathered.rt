ghost use Rattle.std.specs.Prelude.{◌≡◌, ◌<◌, ◌++◌, [], OnOk};
ghost use Rattle.std.specs.Option.{option_copied, option_to_list};
ghost use Rattle.fr_sightings.specs.Passing.{last_sighting, with_fate};
ghost use Rattle.fr_sightings.specs.Sightings.{irregular_in, no_tally, sighting_in, untimely_in, fate_counted, MayTally};

use crate::sighting::{Fate, Sighting, Tally};
use std::alloc::{AllocError, Global};
use std::marker::Model;

/// The sightings of a log in the order of the log, its frames that do not come in time, its irregular ones, and how many of
/// its entries have which fate.
pub struct SightingList {
    list: Vec<Sighting>,
    untimely: Vec<Sighting>,
    irregular: Vec<Sighting>,
    tally: Tally,
}

impl Model for SightingList {
    ghost use Rattle.fr_sightings.specs.Sightings.{OffendingFrames, SightingsView};

    ghost Value = { SightingsView };

    ghost view = { λ a. record {
      list = a.list.items;
      offending = record { untimely = a.untimely.items; irregular = a.irregular.items };
      tally = a.tally;
    } };
}

// One call: a derived drop is opened in each function that drops a value, and proved there.
impl Drop for SightingList {
    fn drop(self) {
        let SightingList {
            list: _,
            untimely: _,
            irregular: _,
            tally: _,
        } = self;
    }
}

impl SightingList {
    /// The sightings, in the order in which they came.
    pub fn as_slice(&self) -> &[Sighting]
        ensures { result.now ≡ self.now.list }
    {
        self.list.as_slice()
    }

    /// The frames that come at another time than their cycle counts say, in the order in which they came, each with the
    /// number of the sighting before it.
    pub fn untimely(&self) -> &[Sighting]
        ensures { result.now ≡ self.now.offending.untimely }
    {
        self.untimely.as_slice()
    }

    /// The frames in the slots of nodes that do not send them, in the order in which they came, each with the number of the
    /// sighting before it.
    pub fn irregular(&self) -> &[Sighting]
        ensures { result.now ≡ self.now.offending.irregular }
    {
        self.irregular.as_slice()
    }

    /// How many entries have which fate.
    pub fn tally(&self) -> Tally
        ensures { result ≡ self.now.tally }
    {
        self.tally
    }

    // Those of no entries.
    pub(crate) fn none(alloc: Global) -> SightingList
        ensures list { result.list ≡ [] }
        ensures untimely { result.offending.untimely ≡ [] }
        ensures irregular { result.offending.irregular ≡ [] }
        ensures tally { result.tally ≡ no_tally }
    {
        SightingList {
            list: Vec::new(alloc),
            untimely: Vec::new(alloc),
            irregular: Vec::new(alloc),
            tally: Tally {
                judged: 0,
                damaged: 0,
                arbitrary: 0,
                other: 0,
                stray: 0,
                behind: 0,
            },
        }
    }

    // The last one.
    pub(crate) fn last(&self) -> Option<&Sighting>
        ensures { option_copied result ≡ last_sighting self.now.list }
    {
        self.list.as_slice().last()
    }

    // With one entry more.
    pub(crate) fn note(&mut self, fate: Fate) -> Result<(), AllocError>
        requires { MayTally self.old.tally }
        ensures { OnOk result (self.new ≡ with_fate self.old fate) }
    {
        count(&mut self.tally, &fate);
        keep(&mut self.list, sighting_in(&fate))?;
        keep(&mut self.untimely, untimely_in(&fate))?;
        keep(&mut self.irregular, irregular_in(&fate))
    }
}

// One entry more of its fate.
fn count(tally: &mut Tally, fate: &Fate)
    requires { MayTally tally.old }
    ensures { tally.new ≡ fate_counted tally.old fate.now }
{
    match fate {
        Fate::Damaged => tally.damaged += 1,
        Fate::Arbitrary => tally.arbitrary += 1,
        Fate::Other | Fate::Irregular(_) => tally.other += 1,
        Fate::Untimely(_) | Fate::Stray => tally.stray += 1,
        Fate::Behind => tally.behind += 1,
        Fate::Seen(_) => tally.judged += 1,
    }
}

// The sighting that an entry is.
fn sighting_in(fate: &Fate) -> Option<Sighting>
    ensures { result ≡ sighting_in fate.now }
{
    match fate {
        Fate::Seen(sighting) => Some(*sighting),
        Fate::Damaged
        | Fate::Arbitrary
        | Fate::Other
        | Fate::Irregular(_)
        | Fate::Untimely(_)
        | Fate::Stray
        | Fate::Behind => None,
    }
}

// The frame of one that does not come in time.
fn untimely_in(fate: &Fate) -> Option<Sighting>
    ensures { result ≡ untimely_in fate.now }
{
    match fate {
        Fate::Untimely(frame) => Some(*frame),
        Fate::Damaged
        | Fate::Arbitrary
        | Fate::Other
        | Fate::Irregular(_)
        | Fate::Stray
        | Fate::Behind
        | Fate::Seen(_) => None,
    }
}

// The frame of one that its sender does not send.
fn irregular_in(fate: &Fate) -> Option<Sighting>
    ensures { result ≡ irregular_in fate.now }
{
    match fate {
        Fate::Irregular(frame) => Some(*frame),
        Fate::Damaged
        | Fate::Arbitrary
        | Fate::Other
        | Fate::Untimely(_)
        | Fate::Stray
        | Fate::Behind
        | Fate::Seen(_) => None,
    }
}

// One more, where there is one.
fn keep(list: &mut Vec<Sighting>, frame: Option<Sighting>) -> Result<(), AllocError>
    ensures { OnOk result (list.new.items ≡ list.old.items ++ option_to_list frame) }
{
    match frame {
        None => Ok(()),
        Some(frame) => {
            list.push(frame)?;
            Ok(())
        }
    }
}
