ghost use Rattle.std.specs.Prelude.{◌≡◌, ◌≤◌, length};
ghost use Rattle.std.specs.Option.{option_or};
ghost use Rattle.fr_judging.specs.Obstacles.{farther, obstacle_word, obstacle_rank};

use fr_base::NodeId;

/// Why a double cycle is not judged, in the order of how far it came; the first two are so of a whole log.
#[derive(Clone, Copy, Debug, PartialEq, Eq)]
pub enum ObstacleKind {
    /// The correct nodes with a key slot do not outweigh the arbitrary ones.
    Count,
    /// Frames may be lost beside arbitrary nodes.
    Lost,
    /// The node was not seen.
    Unseen,
    /// Something contradicts any run.
    Fault,
    /// Starts and lengths of cycles may lie so far apart that one of checks 2 to 5 fails with them.
    Reach,
    /// Cycles may be longer or shorter than oscillators within their bounds make them by more than the rate limit can follow.
    Drift,
}

impl ObstacleKind {
    /// Its word in records.
    pub fn word(self) -> &'static [u8]
        ensures text { result.now ≡ obstacle_word self }
        ensures short { length result.now ≤ 6 }
    {
        match self {
            ObstacleKind::Count => b"count",
            ObstacleKind::Lost => b"lost",
            ObstacleKind::Unseen => b"unseen",
            ObstacleKind::Fault => b"fault",
            ObstacleKind::Reach => b"reach",
            ObstacleKind::Drift => b"drift",
        }
    }

    // How far the double cycle came.
    fn rank(self) -> u32
        ensures { result ≡ obstacle_rank self }
    {
        match self {
            ObstacleKind::Count => 0,
            ObstacleKind::Lost => 1,
            ObstacleKind::Unseen => 2,
            ObstacleKind::Fault => 3,
            ObstacleKind::Reach => 4,
            ObstacleKind::Drift => 5,
        }
    }
}

/// What keeps a double cycle from being judged.
#[derive(Clone, Copy, Debug, PartialEq, Eq)]
pub struct Obstacle {
    pub kind: ObstacleKind,
    /// The number of its cycle in the log, if it is of one.
    pub cycle: Option<u32>,
    /// The node, if it is of one.
    pub node: Option<NodeId>,
}

impl Obstacle {
    // The first one of two.
    pub(crate) fn earlier(first: &Option<Obstacle>, later: Option<Obstacle>) -> Option<Obstacle>
        ensures { result ≡ option_or first.now later }
    {
        match first {
            Some(first) => Some(*first),
            None => later,
        }
    }

    /// Of two the one of the double cycle that came farther, and of equal ones the first.
    pub fn farther(first: Option<Obstacle>, later: Option<Obstacle>) -> Option<Obstacle>
        ensures { result ≡ farther first later }
    {
        match first {
            None => later,
            Some(first) => Some(first.or_farther(later)),
        }
    }

    fn or_farther(self, later: Option<Obstacle>) -> Obstacle
        ensures { Some result ≡ farther (Some self) later }
    {
        match later {
            None => self,
            Some(later) => {
                if self.kind.rank() < later.kind.rank() {
                    later
                } else {
                    self
                }
            }
        }
    }
}
