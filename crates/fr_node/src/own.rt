ghost use Rattle.fr_cluster.specs.Sane.{IsSane};

use fr_cluster::Params;

// What holds of all parameters: the borrow of a field opens their invariant.
pub(crate) fn sane(params: &Params)
    ensures { IsSane params.now }
{
    let _nodes = &params.nodes;
}
