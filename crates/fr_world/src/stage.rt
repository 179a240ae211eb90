ghost use Rattle.std.specs.Prelude.{◌≡◌, ◌≤◌, ◌<◌, ◌-◌, ◌*◌, ◌↔◌, false, filter_map, length, map, true, vec_capacity, All, AllPairs, IfOk, IfSome, IsTrue, Some, None};
ghost use Rattle.fr_base.specs.Counts.{AreAtMost};
ghost use Rattle.fr_cluster.specs.Values.{amount};
ghost use Rattle.fr_cluster.specs.declared.names.ParamName.TheVariants as name;
ghost use Rattle.fr_reception.specs.Regular.{is_sync_frame};
ghost use Rattle.fr_air.specs.Files.{setting_in};
ghost use Rattle.fr_air.specs.Cycling.{begun_in, AreListable, HaveEnded, IsReady, IsWaiting};
ghost use Rattle.fr_air.specs.Listening.{after_listening, CanBeHeard, IsListener};
ghost use Rattle.fr_air.specs.Listing.{listed_among, HasRoom, IsListed};
ghost use Rattle.fr_air.specs.Memory.{frame_on, HasFrame};
ghost use Rattle.fr_air.specs.Walk.{after_both_channels};
ghost use Rattle.fr_air.specs.Reaching.{IsReach, SendsAmong};
ghost use Rattle.fr_air.specs.Sending.{offer_heard, sending_row_in, IsEarlyRow};
ghost use Rattle.fr_world.specs.Stage.{answered, answered_by_nodes, begun_nodes, begun_stage, ended_stage, heard_after, after_turn, saying, sent_on, stage_before, AllReady, CanAnswer, HearsTurn, IsBefore, IsStage};
ghost use Rattle.fr_world.specs.Succeeding.{first_now, followers_without, listeners_now, nodes_with, succeeded, AllFit, CanPass, HasFew, HasHeardBoth, HasPassed};
ghost use Rattle.fr_air.specs.Turns.{most_in_a_cycle, frame_of_turn, heard_on_air, offer_on, AreReady, IsOnAir};
ghost use Rattle.fr_node.specs.Cycle.{ended};
ghost use Rattle.fr_node.specs.Fits.{NodeFits};
ghost use Rattle.fr_node.specs.View.{node_row_of};
ghost use Rattle.fr_script.specs.Promises.{NodesJoinProperly};
ghost use Rattle.fr_script.specs.View.{is_arbitrary};
ghost use Rattle.fr_air.specs.Placing.{put_all};
ghost use Rattle.fr_time.specs.Cycles.{is_odd};
ghost use Rattle.fr_time.specs.Senders.{sender_of};

use crate::beginning::{begin_following, begin_listening};
use crate::cycling::{begin_all, end_all, end_followers, list_rows};
use crate::joining::pass_all;
use crate::listing::list_devs;
use fr_air::catching::listen_all;
use fr_air::files::{RunInputs, sane};
use fr_air::instants::due_at;
use fr_air::memory::Memory;
use fr_air::offering::{offer_in_reach, offer_to_followers};
use fr_air::reach::{Reach, no_reach, reach_of};
use fr_air::senders::sending_row;
use fr_air::turn::{Air, Sender, Turn};
use fr_base::{Channel, Counts, CycleRow, NodeId, NodeRow, RowList, Slot, State};
use fr_cluster::ParamName;
use fr_node::{Listener, Node, received, regular_read};
use fr_time::{Kind, Sending, is_odd, sender};
use std::alloc::{AllocError, Global};
use std::marker::Model;

// A cycle on its way: the nodes that have a row, those that follow and those that listen, each in ascending order, the row
// of each of the first before its corrections, what was counted so far, and what was sent last, each frame in its cell.
// There is room for all nodes of a cluster in each list, so that none takes memory as nodes go from one to another.
pub(crate) struct Stage {
    rows: RowList,
    nodes: Vec<Node>,
    followers: Vec<Node>,
    listeners: Vec<Listener>,
    counts: Counts,
    memory: Memory,
}

impl Model for Stage {
    ghost use Rattle.std.specs.Prelude.{vec_capacity};
    ghost use Rattle.fr_world.specs.Stage.{HasSpace, StageView};

    ghost Value = { StageView };

    ghost view = { λ s. record { rows = s.rows; nodes = s.nodes.items; followers = s.followers.items; listeners = s.listeners.items; counts = s.counts; memory = s.memory } };

    ghost invariant = { λ s. HasSpace (vec_capacity s.nodes) (vec_capacity s.followers) (vec_capacity s.listeners) };
}

// One call: a derived drop is opened in each function that drops a value, and proved there.
impl Drop for Stage {
    fn drop(self) {
        let Stage {
            rows: _,
            nodes: _,
            followers: _,
            listeners: _,
            counts: _,
            memory: _,
        } = self;
    }
}

// Whether a frame is one of a key slot.
fn is_sync(kind: Kind) -> bool
    ensures { result ≡ is_sync_frame kind }
{
    matches!(kind, Kind::SyncFrame)
}

impl Stage {
    // A stage before the first cycle: none follows, and none listens.
    pub(crate) fn new(alloc: Global, nodes: Vec<Node>, memory: Memory) -> Result<Stage, AllocError>
        requires { 64 ≤ vec_capacity nodes }
        ensures { IfOk result (λ stage. stage ≡ stage_before nodes.items memory) }
    {
        let followers = Vec::with_capacity(alloc, 64)?;
        let listeners = Vec::with_capacity(alloc, 64)?;
        Ok(Stage {
            rows: RowList::new(),
            nodes,
            followers,
            listeners,
            counts: Counts::none(),
            memory,
        })
    }

    // The nodes.
    pub(crate) fn nodes(&self) -> &[Node]
        ensures { result.now ≡ self.now.nodes }
    {
        self.nodes.as_slice()
    }

    // Whether a node follows.
    pub(crate) fn following(&self) -> bool
        ensures { IsTrue result ↔ (0 < length self.now.followers) }
    {
        !self.followers.is_empty()
    }

    // What was sent.
    pub(crate) fn memory(&self) -> &Memory
        ensures { result.now ≡ self.now.memory }
    {
        &self.memory
    }

    // The rows of the cycle.
    fn rows(&self) -> &[NodeRow]
        ensures { result.now ≡ self.now.rows }
    {
        self.rows.as_slice()
    }

    // As an even cycle begins, followers join or go on, listeners begin to follow, and others begin to listen.
    pub(crate) fn succeed(&mut self, files: &RunInputs, cycle: u32)
        requires in_run { cycle < 200_000 }
        requires proper { NodesJoinProperly files.now.params files.now.script }
        requires passed { is_odd cycle ≡ false → HasPassed files.now cycle self.old }
        requires fit { AllFit files.now self.old }
        requires listeners { All (IsListener files.now) self.old.listeners }
        requires few { HasFew (succeeded files.now cycle self.old) }
        ensures succeeded { self.new ≡ succeeded files.now cycle self.old }
        ensures fit { AllFit files.now self.new }
        ensures listeners { All (IsListener files.now) self.new.listeners }
    {
        if !is_odd(cycle) {
            self.pass(files, cycle / 2);
            self.begin_following(files, cycle);
            self.begin_listening(files, cycle / 2);
        }
    }

    // Followers join, go on or are let go.
    fn pass(&mut self, files: &RunInputs, double: u32)
        requires proper { NodesJoinProperly files.now.params files.now.script }
        requires nodes { CanPass files.now self.old.followers self.old.nodes }
        requires few { length (nodes_with files.now double 0 self.old.followers self.old.nodes) ≤ 64 }
        ensures passed { self.new ≡ record self.old {
          nodes = nodes_with files.now double 0 self.old.followers self.old.nodes;
          followers = followers_without files.now double 0 self.old.followers;
        } }
        ensures fit { AllFit files.now self.new }
    {
        pass_all(files, double, &mut self.followers, &mut self.nodes);
    }

    // Listeners begin to follow.
    fn begin_following(&mut self, files: &RunInputs, cycle: u32)
        requires even { is_odd cycle ≡ false }
        requires in_run { cycle < 200_000 }
        requires heard { All (HasHeardBoth files.now cycle) self.old.listeners }
        requires few { length (put_all (λ n. n.id) (filter_map (first_now files.now cycle) self.old.listeners)
            self.old.followers) ≤ 64 }
        requires fit { All (NodeFits files.now.params) self.old.followers }
        ensures begun { self.new ≡ record self.old {
          followers = put_all (λ n. n.id) (filter_map (first_now files.now cycle) self.old.listeners)
              self.old.followers;
        } }
        ensures fit { All (NodeFits files.now.params) self.new.followers }
    {
        begin_following(files, cycle, self.listeners.as_slice(), &mut self.followers);
    }

    // Others begin to listen.
    fn begin_listening(&mut self, files: &RunInputs, double: u32)
        requires { NodesJoinProperly files.now.params files.now.script }
        ensures begun { self.new ≡ record self.old { listeners = listeners_now files.now double } }
        ensures listeners { All (IsListener files.now) self.new.listeners }
    {
        begin_listening(files, double, &mut self.listeners);
    }

    // Begins a cycle.
    pub(crate) fn begin(&mut self, files: &RunInputs, cycle: u32)
        requires waiting { All (IsWaiting files.now cycle) self.old.nodes }
        requires nodes { AreListable self.old.nodes }
        requires followers { All (IsWaiting files.now cycle) self.old.followers }
        ensures begun { self.new ≡ begun_stage files.now cycle self.old }
        ensures ready { All (IsReady files.now cycle) self.new.nodes }
        ensures early { All (IsEarlyRow files.now.params) self.new.rows }
        ensures followers { All (IsReady files.now cycle) self.new.followers }
    {
        self.begin_followers(files, cycle);
        self.begin_nodes(files, cycle);
    }

    // Begins a cycle of the followers.
    fn begin_followers(&mut self, files: &RunInputs, cycle: u32)
        requires { All (IsWaiting files.now cycle) self.old.followers }
        ensures begun { self.new ≡ record self.old { followers = map (begun_in files.now cycle) self.old.followers } }
        ensures ready { All (IsReady files.now cycle) self.new.followers }
    {
        begin_all(files, cycle, self.followers.as_mut_slice());
    }

    // Begins a cycle of the nodes that have a row.
    fn begin_nodes(&mut self, files: &RunInputs, cycle: u32)
        requires waiting { All (IsWaiting files.now cycle) self.old.nodes }
        requires nodes { AreListable self.old.nodes }
        ensures begun { self.new ≡ begun_nodes files.now cycle self.old }
        ensures ready { All (IsReady files.now cycle) self.new.nodes }
        ensures early { All (IsEarlyRow files.now.params) self.new.rows }
    {
        begin_all(files, cycle, self.nodes.as_mut_slice());
        list_rows(files, cycle, self.nodes.as_slice(), &mut self.rows);
        self.counts = Counts::none();
    }

    // Offers a frame on the air to all nodes, and to all followers.
    fn offer(&mut self, files: &RunInputs, air: &Air<'_>, reach: Reach)
        requires air { IsOnAir files.now air.now self.old.memory }
        requires stage { CanAnswer files.now air.now.turn.now.cycle self.old }
        requires reach { IsReach files.now air.now.turn.now.cycle self.old.rows reach }
        requires sends { IfSome air.now.sender.now.row (SendsAmong files.now air.now self.old.rows) }
        ensures heard { self.new ≡ answered (setting_in files.now) air.now.turn.now.cycle
            (offer_on files.now air.now self.old.memory) self.old }
        ensures ready { AllReady files.now air.now.turn.now.cycle self.new }
    {
        self.offer_to_nodes(files, air, reach);
        self.offer_to_followers(files, air);
    }

    // Offers it to all followers.
    fn offer_to_followers(&mut self, files: &RunInputs, air: &Air<'_>)
        requires air { IsOnAir files.now air.now self.old.memory }
        requires ready { All (IsReady files.now air.now.turn.now.cycle) self.old.followers }
        requires few { length self.old.followers ≤ 64 }
        ensures heard { self.new ≡ record self.old {
          followers = map (heard_on_air files.now air.now self.old.memory) self.old.followers;
        } }
        ensures ready { All (IsReady files.now air.now.turn.now.cycle) self.new.followers }
    {
        offer_to_followers(files, air, &mut self.memory, self.followers.as_mut_slice());
    }

    // Offers it to all nodes that have a row.
    fn offer_to_nodes(&mut self, files: &RunInputs, air: &Air<'_>, reach: Reach)
        requires air { IsOnAir files.now air.now self.old.memory }
        requires rows { self.old.rows ≡ map node_row_of self.old.nodes }
        requires ready { AreReady files.now air.now.turn.now.cycle most_in_a_cycle self.old.nodes self.old.counts }
        requires reach { IsReach files.now air.now.turn.now.cycle self.old.rows reach }
        requires sends { IfSome air.now.sender.now.row (SendsAmong files.now air.now self.old.rows) }
        ensures heard { self.new ≡ answered_by_nodes (setting_in files.now) air.now.turn.now.cycle
            (offer_on files.now air.now self.old.memory) self.old }
        ensures ready { All (IsReady files.now air.now.turn.now.cycle) self.new.nodes }
    {
        offer_in_reach(
            files,
            air,
            reach,
            &mut self.memory,
            self.nodes.as_mut_slice(),
            &mut self.counts,
        );
    }

    // Writes the frame of a correct sender into its cell, and counts it; answers the number of the cell.
    fn keep(&mut self, files: &RunInputs, turn: &Turn, sending: &Sending) -> usize
        requires before { IsBefore files.now turn.now self.old }
        requires sends { sender_of files.now.params turn.now.slot turn.now.cycle ≡ Some sending.now }
        ensures sent { self.new ≡
            sent_on turn.now.slot turn.now.channel (Some (frame_of_turn files.now turn.now sending.now)) self.old }
        ensures kept { HasFrame self.new.memory (Some result) }
        ensures frame { frame_on self.new.memory (Some result) ≡ frame_of_turn files.now turn.now sending.now }
    {
        sane(&files.params);
        let cell = self.memory.keep(files, turn, sending);
        self.memory.count(turn, cell, &mut self.counts);
        cell
    }

    // Sends the frame of a correct sender with this row to all nodes: it is written once, into its cell, and counted.
    fn send(
        &mut self,
        files: &RunInputs,
        turn: &Turn,
        sending: &Sending,
        row: NodeRow,
        reach: Reach,
    )
        requires before { IsBefore files.now turn.now self.old }
        requires sends { sender_of files.now.params turn.now.slot turn.now.cycle ≡ Some sending.now }
        requires row { IsEarlyRow files.now.params row }
        requires among { sending_row_in (setting_in files.now) self.old.rows sending.now.node turn.now.channel
            ≡ Some row }
        requires reach { IsReach files.now turn.now.cycle self.old.rows reach }
        ensures heard { self.new ≡ answered (setting_in files.now) turn.now.cycle
            (offer_heard (setting_in files.now) turn.now sending.now.node (Some row)
            (frame_of_turn files.now turn.now sending.now))
            (sent_on turn.now.slot turn.now.channel (Some (frame_of_turn files.now turn.now sending.now)) self.old) }
        ensures ready { AllReady files.now turn.now.cycle self.new }
    {
        sane(&files.params);
        let cell = self.keep(files, turn, sending);
        let sender = Sender {
            node: sending.node,
            row: Some(row),
        };
        let due = due_at(files, turn, &sender.row);
        let told = regular_read(&files.params, sending, turn.slot, turn.cycle, turn.channel);
        let reception = received(&files.params, turn.cycle, turn.slot, &told);
        let air = Air {
            turn,
            sender: &sender,
            due,
            cell: Some(cell),
            reception: &reception,
        };
        self.offer(files, &air, reach);
    }

    // Writes the frame of an arbitrary sender into a further cell.
    fn begin_saying(&mut self, files: &RunInputs, turn: &Turn, sending: &Sending)
        requires before { IsBefore files.now turn.now self.old }
        requires sends { sender_of files.now.params turn.now.slot turn.now.cycle ≡ Some sending.now }
        ensures { self.new ≡ saying (Some (frame_of_turn files.now turn.now sending.now)) self.old }
    {
        self.memory.begin_saying(files, turn, sending);
    }

    // Gives that cell back.
    fn end_saying(&mut self)
        ensures { self.new ≡ saying None self.old }
    {
        self.memory.end_saying();
    }

    // Says the frame of an arbitrary sender to all nodes: it stands in a further cell all the while.
    fn say(&mut self, files: &RunInputs, turn: &Turn, sending: &Sending)
        requires before { IsBefore files.now turn.now self.old }
        requires sends { sender_of files.now.params turn.now.slot turn.now.cycle ≡ Some sending.now }
        ensures heard { self.new ≡ answered (setting_in files.now) turn.now.cycle
            (offer_heard (setting_in files.now) turn.now sending.now.node None
            (frame_of_turn files.now turn.now sending.now)) self.old }
        ensures ready { AllReady files.now turn.now.cycle self.new }
    {
        sane(&files.params);
        self.begin_saying(files, turn, sending);
        let sender = Sender {
            node: sending.node,
            row: None,
        };
        let told = regular_read(&files.params, sending, turn.slot, turn.cycle, turn.channel);
        let reception = received(&files.params, turn.cycle, turn.slot, &told);
        let air = Air {
            turn,
            sender: &sender,
            due: 0,
            cell: None,
            reception: &reception,
        };
        self.offer(files, &air, no_reach());
        self.end_saying();
    }

    // What an arbitrary sender says in a slot on a channel is heard.
    fn hear_said(&mut self, files: &RunInputs, turn: &Turn, sending: &Sending)
        requires before { IsBefore files.now turn.now self.old }
        requires sends { sender_of files.now.params turn.now.slot turn.now.cycle ≡ Some sending.now }
        requires arbitrary { is_arbitrary files.now.script sending.now.node ≡ true }
        ensures { HearsTurn files.now turn.now self.old self.new }
    {
        if is_sync(sending.kind) {
            self.say(files, turn, sending);
        }
    }

    // What a correct sender sends in a slot on a channel is heard.
    fn hear_sent(&mut self, files: &RunInputs, turn: &Turn, sending: &Sending, reach: Reach)
        requires before { IsBefore files.now turn.now self.old }
        requires sends { sender_of files.now.params turn.now.slot turn.now.cycle ≡ Some sending.now }
        requires correct { is_arbitrary files.now.script sending.now.node ≡ false }
        requires reach { IsReach files.now turn.now.cycle self.old.rows reach }
        ensures { HearsTurn files.now turn.now self.old self.new }
    {
        if let Some(row) = sending_row(files, turn, self.rows(), sending.node) {
            self.send(files, turn, sending, row, reach);
        }
    }

    // The nodes hear a slot on a channel, in which a node sends.
    fn hear_on(&mut self, files: &RunInputs, turn: &Turn, sending: &Sending, reach: Reach)
        requires before { IsBefore files.now turn.now self.old }
        requires sends { sender_of files.now.params turn.now.slot turn.now.cycle ≡ Some sending.now }
        requires reach { IsReach files.now turn.now.cycle self.old.rows reach }
        ensures { HearsTurn files.now turn.now self.old self.new }
    {
        if files.script.arbitrary(sending.node) {
            self.hear_said(files, turn, sending);
        } else {
            self.hear_sent(files, turn, sending, reach);
        }
    }

    // The nodes hear a slot in which a node sends, first on channel A and then on channel B.
    fn hear_both(
        &mut self,
        files: &RunInputs,
        cycle: u32,
        slot: Slot,
        sending: &Sending,
        reach: Reach,
    )
        requires slot { slot ≤ amount files.now.params name.gNumberOfStaticSlots }
        requires stage { IsStage files.now cycle (130 * (slot - 1)) self.old }
        requires sends { sender_of files.now.params slot cycle ≡ Some sending.now }
        requires reach { IsReach files.now cycle self.old.rows reach }
        ensures heard { self.new ≡ after_both_channels (after_turn (setting_in files.now) cycle) slot self.old }
        ensures stage { IsStage files.now cycle (130 * slot) self.new }
    {
        let on_a = Turn {
            cycle,
            slot,
            channel: Channel::A,
        };
        self.hear_on(files, &on_a, sending, reach);
        let on_b = Turn {
            cycle,
            slot,
            channel: Channel::B,
        };
        self.hear_on(files, &on_b, sending, reach);
    }

    // The nodes hear a slot: who sends in it is asked once for both channels.
    fn hear_slot(&mut self, files: &RunInputs, cycle: u32, slot: Slot, reach: Reach)
        requires slot { slot ≤ amount files.now.params name.gNumberOfStaticSlots }
        requires stage { IsStage files.now cycle (130 * (slot - 1)) self.old }
        requires reach { IsReach files.now cycle self.old.rows reach }
        ensures heard { self.new ≡ after_both_channels (after_turn (setting_in files.now) cycle) slot self.old }
        ensures stage { IsStage files.now cycle (130 * slot) self.new }
    {
        if let Some(sending) = sender(&files.params, slot, cycle) {
            self.hear_both(files, cycle, slot, &sending, reach);
        }
    }

    // The nodes hear all static slots of a cycle. What is known of it before them spares offers of plain frames.
    pub(crate) fn hear_all(&mut self, files: &RunInputs, cycle: u32)
        requires stage { IsStage files.now cycle 0 self.old }
        requires nodes { AreListable self.old.nodes }
        ensures heard { self.new ≡ heard_after (setting_in files.now) cycle
            (amount files.now.params name.gNumberOfStaticSlots) self.old }
        ensures few { AreAtMost most_in_a_cycle self.new.counts }
        ensures ready { AllReady files.now cycle self.new }
        ensures early { All (IsEarlyRow files.now.params) self.new.rows }
    {
        let reach = reach_of(files, cycle, self.rows());
        self.hear_slots(files, cycle, reach);
    }

    // They hear them one after the other.
    fn hear_slots(&mut self, files: &RunInputs, cycle: u32, reach: Reach)
        requires stage { IsStage files.now cycle 0 self.old }
        requires reach { IsReach files.now cycle self.old.rows reach }
        ensures heard { self.new ≡ heard_after (setting_in files.now) cycle
            (amount files.now.params name.gNumberOfStaticSlots) self.old }
        ensures few { AreAtMost most_in_a_cycle self.new.counts }
        ensures ready { AllReady files.now cycle self.new }
        ensures early { All (IsEarlyRow files.now.params) self.new.rows }
    {
        let slots = files.params.natural(ParamName::gNumberOfStaticSlots);
        for earlier in 0..slots {
            let slot = Slot(earlier as u16 + 1);
            self.hear_slot(files, cycle, slot, reach);
        }
    }

    // The listeners catch the frames of their references, behind all slots of the cycle.
    pub(crate) fn listen(&mut self, files: &RunInputs, cycle: u32)
        requires listeners { All (IsListener files.now) self.old.listeners }
        requires rows { CanBeHeard files.now cycle self.old.rows }
        ensures caught { self.new ≡ record self.old {
          listeners = map (after_listening (setting_in files.now) cycle self.old.rows) self.old.listeners;
        } }
        ensures listeners { All (IsListener files.now) self.new.listeners }
    {
        listen_all(
            files,
            cycle,
            self.rows.as_slice(),
            &mut self.memory,
            self.listeners.as_mut_slice(),
        );
    }

    // Ends the cycle, and writes its row.
    pub(crate) fn end(&mut self, files: &RunInputs, keys: &[Slot], cycle: u32, row: &mut CycleRow)
        requires keys { AllPairs (λ a b. a < b) keys.now }
        requires ready { AllReady files.now cycle self.old }
        requires nodes { AreListable self.old.nodes }
        requires room { HasRoom keys.now row.old.devs }
        ensures rest { self.new ≡ ended_stage files.now self.old }
        ensures ended { HaveEnded files.now self.old.nodes self.new.nodes row.new.rows }
        ensures fitting { All (NodeFits files.now.params) self.new.followers }
        ensures listed { IsListed keys.now
            (listed_among files.now.params (is_odd cycle) keys.now self.old.nodes) row.new.devs }
        ensures counts { row.new.counts ≡ self.old.counts }
        ensures cycle { row.new.cycle ≡ cycle }
    {
        self.end_followers(files, cycle);
        self.end_nodes(files, keys, cycle, row);
    }

    // Ends the cycle of the followers.
    fn end_followers(&mut self, files: &RunInputs, cycle: u32)
        requires { All (IsReady files.now cycle) self.old.followers }
        ensures ended { self.new ≡ record self.old { followers = map (ended files.now.params) self.old.followers } }
        ensures fitting { All (NodeFits files.now.params) self.new.followers }
    {
        end_followers(files, cycle, self.followers.as_mut_slice());
    }

    // Ends the cycle of the nodes that have a row, and writes it.
    fn end_nodes(&mut self, files: &RunInputs, keys: &[Slot], cycle: u32, row: &mut CycleRow)
        requires keys { AllPairs (λ a b. a < b) keys.now }
        requires ready { All (IsReady files.now cycle) self.old.nodes }
        requires nodes { AreListable self.old.nodes }
        requires room { HasRoom keys.now row.old.devs }
        ensures rest { self.new ≡ record self.old { nodes = self.new.nodes } }
        ensures ended { HaveEnded files.now self.old.nodes self.new.nodes row.new.rows }
        ensures listed { IsListed keys.now
            (listed_among files.now.params (is_odd cycle) keys.now self.old.nodes) row.new.devs }
        ensures counts { row.new.counts ≡ self.old.counts }
        ensures cycle { row.new.cycle ≡ cycle }
    {
        list_devs(
            &files.params,
            is_odd(cycle),
            keys,
            self.nodes.as_slice(),
            &mut row.devs,
        );
        end_all(files, cycle, self.nodes.as_mut_slice(), &mut row.rows);
        row.counts = self.counts;
        row.cycle = cycle;
    }
}
