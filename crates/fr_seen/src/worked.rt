ghost use Rattle.fr_seen.specs.WorkedStamps.{WorkedRow};

/// A law: what eight stamps of two nodes tell, computed.
pub fn worked_row()
    ensures { WorkedRow }
{}
