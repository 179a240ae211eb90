ghost use Rattle.std.specs.Prelude.{◌≡◌, ◌↔◌, ◌<◌, ℕ, ℤ, [], ◌∷◌, length, Some, None, IsSome};
ghost use Rattle.fr_cluster.specs.Values.{Values, amount};
ghost use Rattle.fr_cluster.specs.declared.names.ParamName.TheVariants as name;
ghost use Rattle.fr_history.specs.History.{History, IsRecordOf, Record, record_at};
ghost use Rattle.fr_history.specs.Skew.{IsGreatestSkew, greatest_skew_of};
ghost use Rattle.fr_skew.specs.Gauge.{GaugeView, fresh_gauge, gauged};
ghost use Rattle.fr_skew.specs.declared.peak.Peak.{Peak};
ghost use Rattle.fr_history.specs.Gauged.{FollowedHistory, FollowedRecord, GaugeHolds};

/// A law: a history has a record of each of its cycles: of cycle n the one with n others after it in the
/// list.
pub fn each_cycle_has_its_record()
    ensures there { (h : History) (cycle : ℕ) → cycle < length h → IsSome (record_at h cycle) }
    ensures which { (h : History) (cycle : ℕ) (r : Record) →
        IsRecordOf h cycle r ↔ (record_at h cycle ≡ Some r) }
{}

/// A law: a history of a cluster has one greatest skew and one first place of it, which `greatest_skew_of`
/// gives; only a history of no cycle has none.
pub fn one_greatest_skew()
    ensures found { (p : Values) (h : History) (peak : Peak) →
        greatest_skew_of p h ≡ Some peak →
        IsGreatestSkew p h peak.skew peak.cycle peak.macrotick }
    ensures none { (p : Values) (h : History) → 0 < amount p name.gMacroPerCycle →
        greatest_skew_of p h ≡ None → length h ≡ 0 }
    ensures one { (p : Values) (h : History) (skew other : ℤ) (n m i j : ℕ) →
        IsGreatestSkew p h skew n m → IsGreatestSkew p h other i j →
        (skew ≡ other) × (n ≡ i) × (m ≡ j) }
{}

/// A law: a fresh gauge holds the history of no cycle, and one that holds a history holds that and a record
/// more once its rows are added with whether a node follows.
pub fn a_gauge_holds_a_history()
    ensures none { (p : Values) → GaugeHolds p (fresh_gauge p) [] }
    ensures more { (p : Values) (g : GaugeView) (h : FollowedHistory) (r : FollowedRecord) →
        GaugeHolds p g h → GaugeHolds p (gauged g r.told.rows r.following) (r ∷ h) }
{}
