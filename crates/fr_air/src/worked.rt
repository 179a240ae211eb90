ghost use Rattle.fr_air.specs.Worked.{NodeThreeStands};

/// A law: how the third node of the worked run stands, which listens to the first in double cycle 1.
pub fn a_joining_node_stands()
    ensures { NodeThreeStands }
{}
