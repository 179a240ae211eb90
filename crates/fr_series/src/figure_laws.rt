ghost use Rattle.std.specs.Prelude.{List, ℕ};
ghost use Rattle.fr_base.specs.declared.node_row.NodeRow.{NodeRow};
ghost use Rattle.fr_cluster.specs.Sane.{IsSane};
ghost use Rattle.fr_cluster.specs.Values.{Values};
ghost use Rattle.fr_time.specs.Position.{grid_for};
ghost use Rattle.fr_series.specs.Scale.{peak_by};
ghost use Rattle.fr_series.specs.SeriesMeaning.{IsPeakFound};

/// A law: a line of a series tells the greatest skew of a cycle over all its macroticks, in ticks, and its first place.
pub fn the_peak_of_a_cycle_is_told()
    ensures { (p : Values) (cycle : ℕ) (rows : List NodeRow) → IsSane p →
        IsPeakFound p cycle rows (peak_by (grid_for p) cycle rows) }
{}
