ghost use Rattle.fr_cold.specs.StartupLaws.{AtMostOneEverLeads, TheFirstLeads};

/// A law: where every two coldstart nodes share a channel, at most one node leads at each macrotick, whenever
/// which node is switched.
pub fn at_most_one_leads()
    ensures { AtMostOneEverLeads }
{}

/// A law: where besides no node is switched off, the only node that ever leads is the one that is switched on
/// first, among equals the one with the least key slot. It begins six cycles and one macrotick after that.
pub fn the_first_leads()
    ensures { TheFirstLeads }
{}
