ghost use Rattle.std.specs.Prelude.{◌≡◌, ℕ, true, All, List};
ghost use Rattle.fr_base.specs.declared.channel.Channel.{Channel};
ghost use Rattle.fr_base.specs.declared.node_row.NodeRow.{NodeRow};
ghost use Rattle.fr_air.specs.declared.files.RunInputs.{RunInputs};
ghost use Rattle.fr_air.specs.Files.{setting_in};
ghost use Rattle.fr_air.specs.Lines.{IsSight, LiesIn, LiesInSight};
ghost use Rattle.fr_air.specs.Reaching.{can_send, how_many_listen, listening_on, listens, AreRowsApart, IsReach, Reaches, ReachesAll};
ghost use Rattle.fr_air.specs.Sending.{IsEarlyRow};

use crate::files::RunInputs;
use crate::lines::{Sight, comes_inside, sight_of};
use fr_base::{Channel, NodeRow, State};
use fr_script::Event;

// What is known of a cycle before its slots: whether what each node sends comes to all others inside of its slots, with
// nothing done to it, and how many nodes hear on each channel.
#[derive(Clone, Copy)]
pub struct Reach {
    pub whole: bool,
    pub on_a: usize,
    pub on_b: usize,
}

// Whether a node with this row hears on a channel.
fn listens(files: &RunInputs, channel: Channel, row: &NodeRow) -> bool
    ensures { result ≡ listens (setting_in files.now) channel row.now }
{
    !matches!(row.state, State::Halt) && files.params.common(row.node, row.node, channel)
}

// How many of these do.
fn count_listening(files: &RunInputs, channel: Channel, rows: &[NodeRow]) -> usize
    ensures { result ≡ how_many_listen (setting_in files.now) channel rows.now }
{
    rows.iter()
        .filter(|row| listens(files, channel, row))
        .count()
}

// Whether a node with this row sends on a channel.
fn can_send(files: &RunInputs, channel: Channel, row: &NodeRow) -> bool
    ensures { result ≡ can_send (setting_in files.now) channel row.now }
{
    matches!(row.state, State::Active) && files.params.common(row.node, row.node, channel)
}

// Whether what a sender sends on a channel comes to a receiver inside of its slots, with nothing done to it, if the
// receiver is not halted.
fn reaches(
    files: &RunInputs,
    sight: &Sight,
    cycle: u32,
    sender: &NodeRow,
    channel: Channel,
    receiver: &NodeRow,
) -> bool
    requires sight { IsSight files.now.params sight.now }
    requires sender { LiesIn files.now.params sight.now.spread sender.now }
    requires receiver { LiesInSight files.now.params sight.now.spread receiver.now }
    ensures { result ≡ true → Reaches files.now cycle sender.now channel receiver.now }
{
    if matches!(receiver.state, State::Halt) {
        return true;
    }
    let (from, to) = (sender.node, receiver.node);
    if !matches!(files.script.at(cycle, from, to, channel), Event::Regular) {
        return false;
    }
    comes_inside(sight, files.drift.delay(from, to, channel, cycle))
}

// The same at all receivers, if the sender sends on the channel.
fn reaches_each(
    files: &RunInputs,
    sight: &Sight,
    cycle: u32,
    sender: &NodeRow,
    channel: Channel,
    rows: &[NodeRow],
) -> bool
    requires sight { IsSight files.now.params sight.now }
    requires sender { LiesInSight files.now.params sight.now.spread sender.now }
    requires rows { All (LiesInSight files.now.params sight.now.spread) rows.now }
    ensures { result ≡ true → can_send (setting_in files.now) channel sender.now ≡ true →
        All (Reaches files.now cycle sender.now channel) rows.now }
{
    if !can_send(files, channel, sender) {
        return true;
    }
    for row in rows {
        if !reaches(files, sight, cycle, sender, channel, row) {
            return false;
        }
    }
    true
}

// The same on both channels.
fn reaches_all(
    files: &RunInputs,
    sight: &Sight,
    cycle: u32,
    sender: &NodeRow,
    rows: &[NodeRow],
) -> bool
    requires sight { IsSight files.now.params sight.now }
    requires sender { LiesInSight files.now.params sight.now.spread sender.now }
    requires rows { All (LiesInSight files.now.params sight.now.spread) rows.now }
    ensures { result ≡ true → ReachesAll files.now cycle rows.now sender.now }
{
    reaches_each(files, sight, cycle, sender, Channel::A, rows)
        && reaches_each(files, sight, cycle, sender, Channel::B, rows)
}

// The same of all senders.
fn all_reach(files: &RunInputs, sight: &Sight, cycle: u32, rows: &[NodeRow]) -> bool
    requires sight { IsSight files.now.params sight.now }
    requires rows { All (LiesInSight files.now.params sight.now.spread) rows.now }
    ensures { result ≡ true → All (ReachesAll files.now cycle rows.now) rows.now }
{
    for row in rows {
        if !reaches_all(files, sight, cycle, row, rows) {
            return false;
        }
    }
    true
}

// Whether what each of these nodes sends comes to all of them inside of its slots, with nothing done to it.
fn is_whole(files: &RunInputs, cycle: u32, rows: &[NodeRow]) -> bool
    requires { All (IsEarlyRow files.now.params) rows.now }
    ensures { result ≡ true → All (ReachesAll files.now cycle rows.now) rows.now }
{
    match sight_of(&files.params, rows) {
        None => false,
        Some(sight) => all_reach(files, &sight, cycle, rows),
    }
}

// Nothing is known.
pub fn no_reach() -> Reach
    ensures { (f : RunInputs) (cycle : ℕ) (rows : List NodeRow) → IsReach f cycle rows result }
{
    Reach {
        whole: false,
        on_a: 0,
        on_b: 0,
    }
}

// What is known of a cycle with these rows that is whole.
fn whole_reach(files: &RunInputs, rows: &[NodeRow]) -> Reach
    ensures { (channel : Channel) →
        listening_on result channel ≡ how_many_listen (setting_in files.now) channel rows.now }
{
    Reach {
        whole: true,
        on_a: count_listening(files, Channel::A, rows),
        on_b: count_listening(files, Channel::B, rows),
    }
}

// What is known of a cycle with these rows, before its slots.
pub fn reach_of(files: &RunInputs, cycle: u32, rows: &[NodeRow]) -> Reach
    requires early { All (IsEarlyRow files.now.params) rows.now }
    requires apart { AreRowsApart rows.now }
    ensures { IsReach files.now cycle rows.now result }
{
    if is_whole(files, cycle, rows) {
        whole_reach(files, rows)
    } else {
        no_reach()
    }
}
