ghost use Rattle.std.specs.Prelude.{◌≡◌, ◌≤◌, IfSome};
ghost use Rattle.std.specs.Option.{option_copied};
ghost use Rattle.fr_frame.specs.Reading.{read_as, read_checked};
ghost use Rattle.fr_reception.specs.Regular.{is_sync_frame, regular_header};
ghost use Rattle.fr_sightings.specs.Judging.{has_form_of, head_read, header_read, is_regular_of, is_same_indicator, judged_as, judgement_by, judgement_of, static_sending, whole_header};

use fr_base::{Channel, NodeId, Slot};
use fr_cluster::{ParamName, Params};
use fr_frame::{Header, decode, front_of};
use fr_log::{Entry, EntryKind, Log};
use fr_time::{Kind, Sending, sender};

// What a frame in the slot of a node tells: whose slot it is and which slot, on which channel it came, with which cycle
// count, and its stamp in units of the log.
#[derive(Clone, Copy, Debug, PartialEq, Eq)]
pub(crate) struct Judged {
    pub(crate) node: NodeId,
    pub(crate) slot: Slot,
    pub(crate) channel: Channel,
    pub(crate) count: u8,
    pub(crate) stamp: u64,
}

// What an entry is by itself.
#[derive(Clone, Copy, Debug, PartialEq, Eq)]
pub(crate) enum Judgement {
    Damaged,
    Arbitrary,
    Other,
    Irregular(Judged),
    Regular(Judged),
}

// What an entry is.
#[tactic(auto, unfolding(crate::specs::Judging::judgement_of))]
pub(crate) fn judgement_of(params: &Params, log: &Log, entry: &Entry) -> Judgement
    ensures { result ≡ judgement_of params.now log.now entry.now }
{
    match whole_header(entry.kind, entry.channel, entry.bytes.as_slice()) {
        None => Judgement::Damaged,
        Some(header) => whole_judgement(params, log, entry, &header),
    }
}

// What a whole one is.
fn whole_judgement(params: &Params, log: &Log, entry: &Entry, header: &Header) -> Judgement
    requires { 1 ≤ header.now.id }
    ensures { result ≡
        judgement_by params.now log.now entry.now header.now (static_sending params.now header.now) }
{
    let Some(sending) = static_sending(params, header) else {
        return Judgement::Other;
    };
    if log.is_arbitrary(sending.node) {
        return Judgement::Arbitrary;
    }
    if !is_regular_of(params, entry.channel, header, &sending) {
        return Judgement::Irregular(judged_as(entry, header, &sending));
    }
    if is_sync_frame(sending.kind) {
        Judgement::Regular(judged_as(entry, header, &sending))
    } else {
        Judgement::Other
    }
}

// What a frame in the slot of a node tells.
fn judged_as(entry: &Entry, header: &Header, sending: &Sending) -> Judged
    requires from { 1 ≤ header.now.id }
    requires to { header.now.id ≤ 1023 }
    ensures { result ≡ judged_as entry.now header.now sending.now }
{
    Judged {
        node: sending.node,
        slot: Slot(header.id),
        channel: entry.channel,
        count: header.cycle,
        stamp: entry.stamp,
    }
}

// The header of an entry that is whole.
fn whole_header(kind: EntryKind, channel: Channel, bytes: &[u8]) -> Option<Header>
    ensures value { result ≡ whole_header kind channel bytes.now }
    ensures id { IfSome result (λ header. 1 ≤ header.id) }
{
    match kind {
        EntryKind::Frame => framed_header(channel, bytes),
        EntryKind::Head => lone_header(bytes),
    }
}

// The header of a frame.
fn framed_header(channel: Channel, bytes: &[u8]) -> Option<Header>
    ensures value { result ≡ header_read (read_as channel bytes.now) }
    ensures id { IfSome result (λ header. 1 ≤ header.id) }
{
    match decode(channel, bytes) {
        Ok(frame) => Some(frame.header),
        Err(_) => None,
    }
}

// The header in five bytes with which a frame can begin.
fn lone_header(bytes: &[u8]) -> Option<Header>
    ensures value { result ≡ head_read bytes.now }
    ensures id { IfSome result (λ header. 1 ≤ header.id) }
{
    if bytes.len() != 5 {
        return None;
    }
    let front = front_of(bytes);
    if front.kept != front.computed {
        return None;
    }
    checked(&front.header)
}

// A header with which a frame can begin, where its CRC is right.
fn checked(header: &Header) -> Option<Header>
    ensures value { result ≡ header_read (read_checked header.now) }
    ensures id { IfSome result (λ header. 1 ≤ header.id) }
{
    if header.id == 0 || header.startup && !header.sync {
        None
    } else {
        Some(*header)
    }
}

// Who sends in the static slot of a header in cycles of its count.
fn static_sending(params: &Params, header: &Header) -> Option<Sending>
    requires { 1 ≤ header.now.id }
    ensures value { result ≡ static_sending params.now header.now }
    ensures slot { IfSome result (λ sending. header.now.id ≤ 1023) }
{
    if params.natural(ParamName::gNumberOfStaticSlots) < u64::from(header.id) {
        return None;
    }
    sender(params, Slot(header.id), u32::from(header.cycle))
}

// Whether a frame is as its sender sends it: on a channel of its node, and with the form of its regular frame.
fn is_regular_of(params: &Params, channel: Channel, header: &Header, sending: &Sending) -> bool
    ensures { result ≡ is_regular_of params.now channel header.now sending.now }
{
    params.has_channel(sending.node, channel) && has_form(params, header, sending)
}

// Whether a frame is one of a key slot.
fn is_sync_frame(kind: Kind) -> bool
    ensures { result ≡ is_sync_frame kind }
{
    matches!(kind, Kind::SyncFrame)
}

// Whether a header has the payload length and the indicators of the regular one.
fn has_form(params: &Params, header: &Header, sending: &Sending) -> bool
    ensures { result ≡
        has_form_of (regular_header params.now sending.now header.now.id header.now.cycle) header.now }
{
    let sync = is_sync_frame(sending.kind);
    u64::from(header.words) == params.natural(ParamName::gPayloadLengthStatic)
        && is_same(sync, header.sync)
        && is_same(sync && params.is_coldstart(sending.node), header.startup)
}

// Whether an indicator is as it should be.
fn is_same(regular: bool, got: bool) -> bool
    ensures { result ≡ is_same_indicator regular got }
{
    if regular { got } else { !got }
}
