ghost use Rattle.std.specs.Prelude.{◌≡◌, ℕ, ◌<◌, ◌≤◌, ◌++◌, ◌∷◌, ◌==◌, [], drop, length, if◌then◌else◌};
ghost use Rattle.fr_base.specs.Channels.{letter};
ghost use Rattle.fr_base.specs.Device.{Puts};
ghost use Rattle.fr_base.specs.Rows.{AreAscendingDevs, AreAscendingRows};
ghost use Rattle.fr_coverage.specs.Decided.{setting_of};
ghost use Rattle.fr_drift.specs.Questions.{doubles_of};
ghost use Rattle.fr_history.specs.History.{History};
ghost use Rattle.fr_history.specs.Recorded.{recorded};
ghost use Rattle.fr_script.specs.View.{is_arbitrary, join_of};
ghost use Rattle.fr_text.specs.Pieces.{line};
ghost use Rattle.fr_trace.specs.Text.{arbitrary_in, arbitrary_text, clock_text, cycle_text, dev_after, dev_front, devs_text, head_text, join_line, join_text, joining_in, joins_text, named_text, clock_rows_text, doubles_text};

use crate::dev_line::DevLine;
use fr_base::{Channel, CycleRow, Dev, NodeId, NodeRow, PutFault, Sink};
use fr_cluster::{Join, NodeList, Params};
use fr_drift::Drift;
use fr_script::Script;
use fr_text::Piece::{Natural, Signed, Word};
use fr_text::{Draft, Line, put_line, put_text, state_of};

// The greatest number of bytes in front of what is said of a deviation.
const FRONT_ROOM: usize = 50;

/// Writes the lines before the cycles of a run's trace: its number of double cycles, each arbitrary node, and each node
/// that joins the running cluster, in ascending order. Puts have whole lines. A fault comes only where the sink counted
/// it, and then a front of the text was put. It takes no memory but what the sink does.
pub fn write_head<O: Sink>(
    params: &Params,
    drift: &Drift,
    script: &Script,
    out: &mut O,
) -> Result<(), PutFault>
    ensures { Puts result (O.state out.old) (O.state out.new)
        (head_text (doubles_of drift.now) (arbitrary_in (setting_of params.now drift.now script.now))
        (joining_in (setting_of params.now drift.now script.now))) }
{
    let mut spelt = Line::new();
    spell_run(drift.doubles(), &mut spelt);
    put_line(&spelt, out)?;
    put_members(&params.nodes, script, &mut spelt, out)
}

/// Writes the lines of a cycle: each node's row, and then the deviations that it measured, by slot and then by
/// channel. Puts have whole lines. A fault comes only where the sink counted it, and then a front of the text was put.
/// It takes no memory but what the sink does.
pub fn write_cycle<O: Sink>(row: &CycleRow, out: &mut O) -> Result<(), PutFault>
    ensures { (h : History) → length h ≡ row.now.cycle →
        Puts result (O.state out.old) (O.state out.new) (cycle_text h (recorded row.now)) }
{
    let mut spelt = Line::new();
    put_rows(
        row.cycle,
        row.rows.as_slice(),
        row.devs.as_slice(),
        &mut spelt,
        out,
    )
}

// The lines of the arbitrary nodes and of those that join. Here and below each line is spelt in the place of the one
// before it.
fn put_members<O: Sink>(
    nodes: &NodeList,
    script: &Script,
    spelt: &mut Line,
    out: &mut O,
) -> Result<(), PutFault>
    ensures { Puts result (O.state out.old) (O.state out.new)
        (named_text (is_arbitrary script.now) nodes.now ++ joins_text (join_of script.now) nodes.now) }
{
    put_named(nodes, 0, script, spelt, out)?;
    put_joins(nodes, 0, script, spelt, out)
}

// The lines of the arbitrary nodes from a place on.
fn put_named<O: Sink>(
    nodes: &NodeList,
    place: usize,
    script: &Script,
    spelt: &mut Line,
    out: &mut O,
) -> Result<(), PutFault>
    ensures { Puts result (O.state out.old) (O.state out.new)
        (named_text (is_arbitrary script.now) (drop place nodes.now)) }
{
    if place >= nodes.len() {
        return Ok(());
    }
    put_node(nodes.node_at(place).id, script, spelt, out)?;
    put_named(nodes, place + 1, script, spelt, out)
}

fn put_node<O: Sink>(
    node: NodeId,
    script: &Script,
    spelt: &mut Line,
    out: &mut O,
) -> Result<(), PutFault>
    ensures { Puts result (O.state out.old) (O.state out.new)
        (if is_arbitrary script.now node then line (arbitrary_text node) else []) }
{
    if script.arbitrary(node) {
        spell_arbitrary(node, spelt);
        put_line(spelt, out)
    } else {
        Ok(())
    }
}

// The lines of the nodes that join from a place on.
fn put_joins<O: Sink>(
    nodes: &NodeList,
    place: usize,
    script: &Script,
    spelt: &mut Line,
    out: &mut O,
) -> Result<(), PutFault>
    ensures { Puts result (O.state out.old) (O.state out.new)
        (joins_text (join_of script.now) (drop place nodes.now)) }
{
    if place >= nodes.len() {
        return Ok(());
    }
    put_join(nodes.node_at(place).id, script, spelt, out)?;
    put_joins(nodes, place + 1, script, spelt, out)
}

fn put_join<O: Sink>(
    node: NodeId,
    script: &Script,
    spelt: &mut Line,
    out: &mut O,
) -> Result<(), PutFault>
    ensures { Puts result (O.state out.old) (O.state out.new)
        (join_line node (join_of script.now node)) }
{
    match script.join(node) {
        None => Ok(()),
        Some(join) => {
            spell_join(node, &join, spelt);
            put_line(spelt, out)
        }
    }
}

// The lines of some rows. The deviations of a row are looked for behind those of the row before it.
fn put_rows<O: Sink>(
    cycle: u32,
    rows: &[NodeRow],
    devs: &[Dev],
    spelt: &mut Line,
    out: &mut O,
) -> Result<(), PutFault>
    ensures { AreAscendingRows rows.now → AreAscendingDevs devs.now →
        Puts result (O.state out.old) (O.state out.new) (clock_rows_text cycle devs.now rows.now) }
{
    match rows.split_first() {
        Some((row, rest)) => {
            put_row(cycle, row, devs, spelt, out)?;
            put_rows(cycle, rest, devs_behind(row.node, devs), spelt, out)
        }
        None => Ok(()),
    }
}

fn put_row<O: Sink>(
    cycle: u32,
    row: &NodeRow,
    devs: &[Dev],
    spelt: &mut Line,
    out: &mut O,
) -> Result<(), PutFault>
    ensures { AreAscendingDevs devs.now → Puts result (O.state out.old) (O.state out.new)
        (line (clock_text cycle row.now) ++ devs_text cycle row.now.node devs.now) }
{
    spell_clock(cycle, row, spelt);
    put_line(spelt, out)?;
    put_devs(
        row.node,
        devs,
        dev_front(cycle, row.node).bytes(),
        &mut DevLine::new(),
        out,
    )
}

// The lines of those of some deviations that a node measured, by what is alike in front of all of them.
fn put_devs<O: Sink>(
    node: NodeId,
    devs: &[Dev],
    front: &[u8],
    spelt: &mut DevLine,
    out: &mut O,
) -> Result<(), PutFault>
    requires { length front.now ≤ FRONT_ROOM }
    ensures { (cycle : ℕ) → front.now ≡ dev_front cycle node → AreAscendingDevs devs.now →
        Puts result (O.state out.old) (O.state out.new) (devs_text cycle node devs.now) }
{
    match devs.split_first() {
        Some((dev, rest)) => {
            if node.0 < dev.receiver.0 {
                return Ok(());
            }
            put_dev(node, dev, front, spelt, out)?;
            put_devs(node, rest, front, spelt, out)
        }
        None => Ok(()),
    }
}

fn put_dev<O: Sink>(
    node: NodeId,
    dev: &Dev,
    front: &[u8],
    spelt: &mut DevLine,
    out: &mut O,
) -> Result<(), PutFault>
    requires { length front.now ≤ FRONT_ROOM }
    ensures { Puts result (O.state out.old) (O.state out.new)
        (if dev.now.receiver == node then line (dev_after front.now dev.now) else []) }
{
    if dev.receiver == node {
        spell_dev(front, dev, spelt);
        put_text(spelt.bytes(), out)
    } else {
        Ok(())
    }
}

// The deviations without those in front that a node or an earlier one measured. Nothing is missing for a later node.
fn devs_behind(node: NodeId, devs: &[Dev]) -> &[Dev]
    ensures later { (cycle other : ℕ) → node < other →
        devs_text cycle other result.now ≡ devs_text cycle other devs.now }
    ensures ascending { AreAscendingDevs devs.now → AreAscendingDevs result.now }
{
    match devs.split_first() {
        Some((dev, rest)) => {
            if node.0 < dev.receiver.0 {
                devs
            } else {
                devs_behind(node, rest)
            }
        }
        None => devs,
    }
}

fn spell_run(doubles: u32, spelt: &mut Line)
    ensures { spelt.new ≡ line (doubles_text doubles) }
{
    spelt.spell(&[Word(b"run,"), Natural(u64::from(doubles)), Word(b",,,,,,")]);
}

fn spell_arbitrary(node: NodeId, spelt: &mut Line)
    ensures { spelt.new ≡ line (arbitrary_text node) }
{
    spelt.spell(&[
        Word(b"arbitrary,"),
        Natural(u64::from(node.0)),
        Word(b",,,,,,"),
    ]);
}

fn spell_join(node: NodeId, join: &Join, spelt: &mut Line)
    ensures { spelt.new ≡ line (join_text (record { node = node; join = join.now })) }
{
    spelt.spell(&[
        Word(b"join,"),
        Natural(u64::from(node.0)),
        Word(b","),
        Natural(u64::from(join.reference.0)),
        Word(b","),
        Natural(u64::from(join.double)),
        Word(b",,,,"),
    ]);
}

fn spell_clock(cycle: u32, row: &NodeRow, spelt: &mut Line)
    ensures { spelt.new ≡ line (clock_text cycle row.now) }
{
    spelt.spell_row(
        b"cycle",
        &[
            Natural(u64::from(cycle)),
            Natural(u64::from(row.node.0)),
            Signed(row.start),
            Signed(row.length),
            Signed(i64::from(row.rate)),
            Signed(i64::from(row.offset)),
            state_of(row.state),
        ],
    );
}

fn spell_dev(front: &[u8], dev: &Dev, spelt: &mut DevLine)
    requires { length front.now ≤ FRONT_ROOM }
    ensures { spelt.new ≡ line (dev_after front.now dev.now) }
{
    spelt.clear();
    spelt.word(b",,\n");
    spelt.signed(i64::from(dev.value));
    spelt.byte(b',');
    spelt.byte(letter_byte(dev.channel));
    spelt.byte(b',');
    spelt.signed(i64::from(dev.slot.0));
    spelt.byte(b',');
    spelt.word(front);
}

fn letter_byte(channel: Channel) -> u8
    ensures { letter channel ≡ result ∷ [] }
{
    match channel {
        Channel::A => b'A',
        Channel::B => b'B',
    }
}

fn dev_front(cycle: u32, receiver: NodeId) -> Draft
    ensures text { result ≡ dev_front cycle receiver }
    ensures short { length result ≤ FRONT_ROOM }
{
    let mut front = Draft::new();
    front.spell_front(
        b"dev",
        &[Natural(u64::from(cycle)), Natural(u64::from(receiver.0))],
    );
    front
}
