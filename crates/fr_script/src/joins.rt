ghost use Rattle.std.specs.Prelude.{◌≡◌, ◌≤◌, List, None, Some, is_some, slice_index_or, slice_set};
ghost use Rattle.fr_text.specs.Records.{FileRecord};
ghost use Rattle.fr_script.specs.Reasons.{is_reference, join_by, join_reason, knows_joining, may_not_join, share_channel};
ghost use Rattle.fr_script.specs.Draft.{IsScriptDraft, TakesScriptRowAtOnce};
ghost use Rattle.fr_script.specs.declared.rows.Row.TheVariants as said;

use crate::draft::{Draft, mark};
use crate::rows::JoinRow;
use fr_base::{Channel, NodeId, Reason};
use fr_cluster::{Join, Params};

impl<'a> Draft<'a> {
    pub(crate) fn take_join(&mut self, row: &JoinRow) -> Option<Reason>
        ensures { TakesScriptRowAtOnce self.old self.new (said.Join row.now) result }
    {
        if let Some(why) = self.join_reason(row) {
            return Some(why);
        }
        self.acted = true;
        note(&mut self.joins, row.node, row.join);
        mark(&mut self.references, row.join.reference);
        None
    }

    // The least reason for which a node does not join.
    fn join_reason(&self, row: &JoinRow) -> Option<Reason>
        ensures { (done : List FileRecord) → IsScriptDraft self.now done →
            result ≡ join_reason self.now.params.now done row.now }
    {
        if !knows_joining(self.params, row) {
            return Some(Reason::UnknownNode);
        }
        if self.may_not_join(row) {
            return Some(Reason::Role);
        }
        if !share_channel(self.params, row) {
            return Some(Reason::Link);
        }
        if self.joins(row.node) {
            return Some(Reason::Repeated);
        }
        None
    }

    // Whether a row is refused for its roles: a node joins another one, both are correct, and the reference has a key
    // slot and takes part from the first cycle on.
    fn may_not_join(&self, row: &JoinRow) -> bool
        ensures { (done : List FileRecord) → IsScriptDraft self.now done →
            result ≡ may_not_join self.now.params.now done row.now }
    {
        let params = self.params;
        let reference = row.join.reference;
        row.node == reference
            || self.is_arbitrary(row.node)
            || self.is_arbitrary(reference)
            || params.lacks_key(reference)
            || self.joins(reference)
            || self.is_reference(row.node)
    }

    fn joins(&self, node: NodeId) -> bool
        ensures { (done : List FileRecord) → IsScriptDraft self.now done → result ≡ is_some (join_by node done) }
    {
        is_noted(&self.joins, node)
    }

    fn is_reference(&self, node: NodeId) -> bool
        ensures { (done : List FileRecord) → IsScriptDraft self.now done → result ≡ is_reference node done }
    {
        self.references[usize::from(node.0)]
    }
}

fn knows_joining(params: &Params, row: &JoinRow) -> bool
    ensures { result ≡ knows_joining params.now row.now }
{
    params.is_known(row.node) && params.is_known(row.join.reference)
}

fn share_channel(params: &Params, row: &JoinRow) -> bool
    ensures { result ≡ share_channel params.now row.now }
{
    let reference = row.join.reference;
    params.common(row.node, reference, Channel::A) || params.common(row.node, reference, Channel::B)
}

// Whether it is noted how a node joins.
fn is_noted(joins: &[Option<Join>; 65], node: NodeId) -> bool
    ensures there { result ≡ is_some (slice_index_or joins.now node None) }
    ensures low { node ≤ 64 }
{
    joins[usize::from(node.0)].is_some()
}

// Notes how a node joins.
fn note(joins: &mut [Option<Join>; 65], node: NodeId, join: Join)
    ensures noted { joins.new ≡ slice_set joins.old node (Some join) }
    ensures low { node ≤ 64 }
{
    joins[usize::from(node.0)] = Some(join);
}
