ghost use Rattle.fr_seen.specs.RunRows.{NodesGoOn, NodesHaveBothRows, NodesRunRegularly};

/// A law: in the cycles of a run whose oscillators keep within what is stated, in sync or not, both rows of a node in a
/// double cycle are such as the laws of courses ask for, it has both or none, and its next double cycle starts where
/// the odd cycle ends.
pub fn nodes_run_regularly()
    ensures regular { NodesRunRegularly }
    ensures both { NodesHaveBothRows }
    ensures on { NodesGoOn }
{}
