ghost use Rattle.std.specs.Prelude.{◌≡◌, ◌≤◌, ◌*◌, [], List, IfOk, IfErr, IfSome, None, Some, slice_set, true, if◌then◌else◌};
ghost use Rattle.fr_text.specs.Records.{FileRecord};
ghost use Rattle.fr_cluster.specs.Questions.{is_common};
ghost use Rattle.fr_script.specs.Deed.{IsProperDeed};
ghost use Rattle.fr_script.specs.Rows.{IsProperScriptRow};
ghost use Rattle.fr_base.specs.declared.reason.Reason.TheVariants as reason;
ghost use Rattle.fr_script.specs.Reasons.{is_misplaced, is_named_in, knows_both, script_reason_after};
ghost use Rattle.fr_script.specs.View.{IsScript};
ghost use Rattle.fr_script.specs.Draft.{IsActOf, IsRefusedRow, IsScriptDraft, PutsAct, TakesScriptRow, TakesScriptRowAtOnce};
ghost use Rattle.fr_script.specs.declared.rows.Row.TheVariants as said;

use crate::deed::{Deed, is_after_frame, says};
use crate::deeds::{DeedTable, Passage};
use crate::rows::{DeedRow, Row, read_row};
use crate::script::Script;
use fr_base::{Channel, NodeId, Reason};
use fr_cluster::{Join, Params};
use fr_text::{Record, RecordTable};
use std::alloc::{AllocError, Global};

// What the records so far say: which nodes are arbitrary, which join and which are their references, by their number,
// what becomes of frames, by channel, and whether a record of another kind than `arbitrary` came.
pub(crate) struct Draft<'a> {
    pub(crate) alloc: Global,
    pub(crate) params: &'a Params,
    pub(crate) arbitrary: [bool; 65],
    pub(crate) joins: [Option<Join>; 65],
    pub(crate) references: [bool; 65],
    pub(crate) on_a: DeedTable,
    pub(crate) on_b: DeedTable,
    pub(crate) acted: bool,
}

// One call: a derived drop is opened in each function that drops a value, and proved there.
impl Drop for Draft<'_> {
    fn drop(self) {
        let Draft {
            alloc: _,
            params: _,
            arbitrary: _,
            joins: _,
            references: _,
            on_a: _,
            on_b: _,
            acted: _,
        } = self;
    }
}

// A deed that is taken.
#[derive(Drop)]
pub(crate) struct Act {
    passage: Passage,
    channel: Channel,
    deed: Deed,
}

impl<'a> Draft<'a> {
    pub(crate) fn new(alloc: Global, params: &'a Params) -> Draft<'a>
        ensures none { IsScriptDraft result [] }
        ensures params { result.params.now ≡ params.now }
    {
        Draft {
            alloc,
            params,
            arbitrary: [false; 65],
            joins: [None; 65],
            references: [false; 65],
            on_a: DeedTable::new(alloc),
            on_b: DeedTable::new(alloc),
            acted: false,
        }
    }

    // The script that the records stand for.
    pub(crate) fn into_script(self) -> Script
        requires { (done : List FileRecord) × IsScriptDraft self done }
        ensures script { result ≡ record {
          arbitrary = self.entry.arbitrary;
          joins = self.entry.joins;
          on_a = self.entry.on_a;
          on_b = self.entry.on_b;
        } }
        ensures sane { IsScript result }
    {
        let Draft {
            alloc: _,
            params: _,
            arbitrary,
            joins,
            references: _,
            on_a,
            on_b,
            acted: _,
        } = self;
        Script::of(arbitrary, joins, on_a, on_b)
    }

    pub(crate) fn is_arbitrary(&self, node: NodeId) -> bool
        ensures { (done : List FileRecord) → IsScriptDraft self.now done → result ≡ is_named_in node done }
    {
        self.arbitrary[usize::from(node.0)]
    }

    fn take_node(&mut self, node: NodeId) -> Option<Reason>
        ensures { TakesScriptRowAtOnce self.old self.new (said.Arbitrary node) result }
    {
        let params = self.params;
        match params.node(node) {
            None => return Some(Reason::UnknownNode),
            Some(spec) => {
                if spec.key.is_none() || self.acted {
                    return Some(Reason::Role);
                }
            }
        }
        if self.is_arbitrary(node) {
            return Some(Reason::Repeated);
        }
        mark(&mut self.arbitrary, node);
        None
    }

    fn take(&mut self, row: Row) -> Result<Option<Reason>, AllocError>
        requires { IsProperScriptRow row }
        ensures { TakesScriptRow self.old self.new row result }
    {
        match row {
            Row::Arbitrary(node) => Ok(self.take_node(node)),
            Row::Deed(deed) => self.take_deed(deed),
            Row::Join(join) => Ok(self.take_join(&join)),
        }
    }

    fn take_deed(&mut self, row: DeedRow) -> Result<Option<Reason>, AllocError>
        requires { IfSome row.deed IsProperDeed }
        ensures { TakesScriptRow self.old self.new (said.Deed row) result }
    {
        match self.checked(row) {
            Err(why) => Ok(Some(why)),
            Ok(act) => Ok(unless_free(self.put(act)?)),
        }
    }

    // What a row does, or the least reason for which it is not taken; but that its passage has a deed is told
    // only as that is put there.
    fn checked(&self, row: DeedRow) -> Result<Act, Reason>
        ensures act { IfOk result (IsActOf self.now row) }
        ensures why { IfErr result (IsRefusedRow self.now row) }
    {
        let DeedRow {
            passage,
            channel,
            deed,
        } = row;
        if is_after_frame(self.params, &deed) {
            return Err(Reason::OutOfRange);
        }
        if !self.knows_both(&passage) {
            return Err(Reason::UnknownNode);
        }
        let Some(channel) = channel else {
            return Err(Reason::BadChannel);
        };
        if self.is_misplaced(&passage, says(&deed)) {
            return Err(Reason::Role);
        }
        if !self.is_common(&passage, channel) {
            return Err(Reason::Link);
        }
        let Some(deed) = deed else {
            return Err(Reason::NotHex);
        };
        Ok(Act {
            passage,
            channel,
            deed,
        })
    }

    fn knows_both(&self, passage: &Passage) -> bool
        ensures { result ≡ knows_both self.now.params.now passage.now }
    {
        let params = self.params;
        params.is_known(passage.sender) && params.is_known(passage.receiver)
    }

    fn is_misplaced(&self, passage: &Passage, says: bool) -> bool
        ensures { (done : List FileRecord) → IsScriptDraft self.now done → result ≡ is_misplaced done passage.now says }
    {
        passage.sender == passage.receiver
            || self.is_arbitrary(passage.receiver)
            || self.is_arbitrary(passage.sender) != says
    }

    fn is_common(&self, passage: &Passage, channel: Channel) -> bool
        ensures { result ≡ is_common self.now.params.now passage.now.sender passage.now.receiver channel }
    {
        let params = self.params;
        params.common(passage.sender, passage.receiver, channel)
    }

    // Puts a deed under its passage, and tells whether that was free.
    fn put(&mut self, act: Act) -> Result<bool, AllocError>
        requires { IsProperDeed act.deed }
        ensures { PutsAct self.old self.new act result }
    {
        let Act {
            passage,
            channel,
            deed,
        } = act;
        self.acted = true;
        match channel {
            Channel::A => self.on_a.put(passage, deed),
            Channel::B => self.on_b.put(passage, deed),
        }
    }
}

// Marks a node as arbitrary.
pub(crate) fn mark(marks: &mut [bool; 65], node: NodeId)
    ensures marks { marks.new ≡ slice_set marks.old node true }
    ensures from { 1 ≤ node }
    ensures low { node ≤ 64 }
{
    marks[usize::from(node.0)] = true;
}

// The reason for which a deed is refused whose passage has one.
fn unless_free(free: bool) -> Option<Reason>
    ensures { result ≡ (if free then None else Some reason.Repeated) }
{
    if free { None } else { Some(Reason::Repeated) }
}

impl<'a> RecordTable for Draft<'a> {
    ghost reason = { λ draft. script_reason_after draft.params.now };

    ghost holds = { λ draft records. IsScriptDraft draft records };

    fn add(&mut self, row: &Record<'_>) -> Result<Option<Reason>, AllocError> {
        match read_row(self.alloc, row)? {
            Err(why) => Ok(Some(why)),
            Ok(said) => self.take(said),
        }
    }
}
