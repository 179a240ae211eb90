ghost use Rattle.fr_sharp.specs.Bearing.{ThroughIsApart};
ghost use Rattle.fr_sharp.specs.JoinedLosses.{FollowedDoublesHearInPart, JoinedHistoriesKeepThroughLosses};
ghost use Rattle.fr_traffic.specs.RoundsInPart.{RoundsInPartComputeOwn};
ghost use Rattle.fr_sharp.specs.Losses.{HistoriesKeepThroughLosses, RowsHear, SharpAfterTwoWhole};

use fr_promise::{heard_numbers, losses_last};

/// The law of hearing where frames are lost: each receiver of a round that trusts its lists computes its terms from the
/// values of senders of its own, those of whom it has one (sections 8.5 and 8.6). The nodes with rows in a double cycle of a
/// lawful run that no node joins hear what is said of it, of offsets and of rates, whatever frames are lost in it: all of all;
/// any two enough in common; or each has values of some, or, where it surely hears nothing, keeps its rate and its end. So do
/// the nodes with rows and those that follow in a run that nodes join, where each has a value of all, or trusts what it has
/// of the senders that do not join.
pub fn what_is_heard_suffices()
    ensures rounds { RoundsInPartComputeOwn }
    ensures rows { RowsHear }
    ensures joined { FollowedDoublesHearInPart }
{}

/// The law of losses in a run: in a lawful history that no node joins, from a double cycle in sharp sync on, whatever frames
/// are lost in whichever double cycles, as long as each correct node bears them, macroticks lie no further apart than the
/// numbers by what was heard, in ticks, no term is cut, none is missing but where a node has no value of its kind, and every
/// node is active, as long as the walk lasts;
/// without arbitrary nodes, where all was heard in two double cycles, that is the sharper precision again.
pub fn histories_keep_through_losses()
    ensures keep { HistoriesKeepThroughLosses }
    ensures again { SharpAfterTwoWhole }
    ensures apart { ThroughIsApart }
{
    losses_last();
    heard_numbers();
}

/// The law of losses in a run that nodes join: from a double cycle in sharp sync in which no node follows, whatever frames are
/// lost in whichever double cycles, as long as of each kind of values all is heard, or each correct node that has begun trusts
/// what it has of the senders that do not join, macroticks of nodes with rows lie no further apart than the numbers by what was heard, in ticks, no term of them or of
/// those that follow is cut or missing, and no follower is left behind, for as long as the rate limit holds the walk and
/// suffices for first rates.
pub fn joined_histories_keep_through_losses()
    ensures { JoinedHistoriesKeepThroughLosses }
{}
