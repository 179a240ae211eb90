ghost use Rattle.std.specs.Prelude.{◌≡◌, ◌≤◌, All, IfSome};
ghost use Rattle.std.specs.List.Sorted.{IsNonDecreasingBy};
ghost use Rattle.fr_log.specs.Numbers.{most_head_ticks};
ghost use Rattle.fr_log.specs.Rows.{most_delay};
ghost use Rattle.fr_log.specs.View.{AreDelayLimits, IsEntry, IsEvenCycle, IsLog, delay_limits_of, is_arbitrary_in, jitter_of, jitter_within, own_limits};

use crate::entry::Entry;
use crate::rows::DelayLimits;
use fr_base::{Channel, NodeId};
use std::marker::Model;

/// What an observer of a cluster says of itself and of the frames that came: its log, as an accepted file has it.
pub struct Log {
    pub(crate) unit: u64,
    pub(crate) drift: u64,
    pub(crate) error: u64,
    pub(crate) jitter: Option<u64>,
    pub(crate) flutter: Option<u64>,
    pub(crate) lost: u64,
    pub(crate) since: Option<u32>,
    pub(crate) whole: bool,
    pub(crate) arbitrary: [bool; 65],
    pub(crate) on_a: [Option<DelayLimits>; 65],
    pub(crate) on_b: [Option<DelayLimits>; 65],
    pub(crate) each: Option<DelayLimits>,
    pub(crate) entries: Vec<Entry>,
}

impl Model for Log {
    ghost use Rattle.fr_log.specs.View.{IsLog, LogView};

    ghost Value = { LogView };

    ghost use Rattle.fr_log.specs.Fields.{log_seen};

    ghost view = { log_seen };

    ghost invariant = { λ a. IsLog (log_seen a) };
}

// One call: a derived drop is opened in each function that drops a value, and proved there.
impl Drop for Log {
    fn drop(self) {
        let Log {
            unit: _,
            drift: _,
            error: _,
            jitter: _,
            flutter: _,
            lost: _,
            since: _,
            whole: _,
            arbitrary: _,
            on_a: _,
            on_b: _,
            each: _,
            entries: _,
        } = self;
    }
}

impl Log {
    /// How long a unit of stamps is on the observer's clock, in ticks.
    pub fn unit(&self) -> u64
        ensures value { result ≡ self.now.unit }
        ensures from { 1 ≤ result }
        ensures to { result ≤ most_head_ticks }
    {
        self.unit
    }

    /// How far the observer's clock is off at most, in parts per million.
    pub fn drift(&self) -> u64
        ensures value { result ≡ self.now.drift }
        ensures to { result ≤ 1000 }
    {
        self.drift
    }

    /// What a stamp is off beside rounding, in ticks: 0 where no record says it.
    pub fn error(&self) -> u64
        ensures value { result ≡ self.now.error }
        ensures to { result ≤ most_head_ticks }
    {
        self.error
    }

    /// How far the delays of a correct sender's frames at a correct node on a channel differ at most between both
    /// cycles of a double cycle, in ticks, where the log says it: else what is stated of delays suffices.
    pub fn flutter(&self) -> Option<u64>
        ensures value { result ≡ self.now.flutter }
        ensures to { IfSome result (λ flutter. flutter ≤ most_head_ticks) }
    {
        self.flutter
    }

    /// How many correct sync senders' frames a correct node may miss in a double cycle: 0 where no record says it.
    pub fn lost(&self) -> u64
        ensures value { result ≡ self.now.lost }
        ensures to { result ≤ 14 }
    {
        self.lost
    }

    /// The limits of the delay of a node's frames on a channel to the observer, in ticks: those of its row, or those of
    /// all delays that have none; `None` exactly where no record says either.
    #[tactic(auto, unfolding(crate::specs::View::delay_limits_of))]
    pub fn limits_of(&self, node: NodeId, channel: Channel) -> Option<DelayLimits>
        ensures value { result ≡ delay_limits_of self.now node channel }
        ensures proper { IfSome result AreDelayLimits }
    {
        self.own_limits(node, channel).or(self.each)
    }

    /// How much two delays of a node's frames on a channel differ at most, in ticks: what lies between their limits, or
    /// what the log says where that is less; `None` exactly where the delay has no limits.
    #[tactic(auto, unfolding(crate::specs::View::jitter_of))]
    pub fn jitter_of(&self, node: NodeId, channel: Channel) -> Option<u64>
        ensures value { result ≡ jitter_of self.now node channel }
        ensures most { IfSome result (λ jitter. jitter ≤ most_delay) }
    {
        match self.limits_of(node, channel) {
            Some(limits) => Some(self.jitter_within(&limits)),
            None => None,
        }
    }

    /// Whether the log names the node arbitrary.
    #[tactic(auto, unfolding(crate::specs::View::is_arbitrary_in))]
    pub fn is_arbitrary(&self, node: NodeId) -> bool
        ensures { result ≡ is_arbitrary_in self.now node }
    {
        self.arbitrary[usize::from(node.0)]
    }

    /// Whether the observer missed no frame.
    pub fn is_whole(&self) -> bool
        ensures { result ≡ self.now.whole }
    {
        self.whole
    }

    /// The even cycle of the log in whose double cycle the cluster is in sync by the sharper bounds, where the log says
    /// one.
    pub fn since(&self) -> Option<u32>
        ensures value { result ≡ self.now.since }
        ensures proper { IfSome result IsEvenCycle }
    {
        self.since
    }

    /// The frames that came, in the order of the file: their stamps do not fall.
    pub fn entries(&self) -> &[Entry]
        ensures value { result.now ≡ self.now.entries }
        ensures proper { All (IsEntry self.now.unit) result.now }
        ensures ascending { IsNonDecreasingBy (λ e. e.stamp) result.now }
    {
        self.entries.as_slice()
    }

    #[tactic(auto, unfolding(crate::specs::View::own_limits))]
    fn own_limits(&self, node: NodeId, channel: Channel) -> Option<DelayLimits>
        ensures value { result ≡ own_limits self.now node channel }
        ensures proper { IfSome result AreDelayLimits }
    {
        match channel {
            Channel::A => self.on_a[usize::from(node.0)],
            Channel::B => self.on_b[usize::from(node.0)],
        }
    }

    fn jitter_within(&self, limits: &DelayLimits) -> u64
        requires { AreDelayLimits limits.now }
        ensures value { result ≡ jitter_within self.now.jitter limits.now }
        ensures most { result ≤ most_delay }
    {
        let width = limits.high - limits.low;
        match self.jitter {
            Some(jitter) => jitter.min(width),
            None => width,
        }
    }
}
