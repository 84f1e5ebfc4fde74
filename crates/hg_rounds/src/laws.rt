ghost use Rattle.hg_rounds.specs.ByRow.{StandingsByRow};

/// A law: the standings found row by row, each from the rows up to it alone, are those of the whole graph.
pub fn rounds_are_found_row_by_row()
    ensures { StandingsByRow }
{}
