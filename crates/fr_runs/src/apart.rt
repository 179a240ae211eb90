ghost use Rattle.fr_runs.specs.Apart.{SpreadRowsDrawNear};

/// The law of a double cycle with free numbers, as of nodes that are not yet in sync: in a covered run whose nodes with
/// rows lie so far apart in one, starts and lengths in ticks, and where slots and the offset limit leave room for that,
/// every sync frame of theirs that no event takes or flips is stored, as a deviation of both rows; no term of theirs is
/// cut or missing; they stay active; and in the next double cycle any two of them lie half as far apart, and some
/// (sections 8.5 and 8.6). So does every row of it where no further node has one.
pub fn spread_rows_draw_near()
    ensures { SpreadRowsDrawNear }
{}
