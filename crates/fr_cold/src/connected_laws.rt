ghost use Rattle.std.specs.Prelude.{◌≡◌, ◌↔◌, None};
ghost use Rattle.fr_cluster.specs.Values.{Values};
ghost use Rattle.fr_cold.specs.ColdText.{first_pair_in};
ghost use Rattle.fr_cold.specs.Connected.{IsPairFound};
ghost use Rattle.fr_cold.specs.StartupLaws.{AreConnected};

/// A law: what `connected` tells. No two nodes are named exactly where every two coldstart nodes share a channel; the
/// two that are named share none, and of such two they are the least: none has a lesser first node, nor the same one
/// and a lesser second.
pub fn the_least_two_apart_are_told()
    ensures found { (p : Values) → IsPairFound p (first_pair_in p 1 64) }
    ensures none { (p : Values) → (first_pair_in p 1 64 ≡ None) ↔ AreConnected p }
{}
