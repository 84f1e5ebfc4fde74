ghost use Rattle.hg_play.specs.Agree.{LinesAreSteps};
ghost use Rattle.hg_play.specs.Alike.{GossipNeedsRowsAlone, NodesNeedRowsAlone, StepsNeedRowsAlone};
ghost use Rattle.hg_play.specs.Through.{LinesNeedRowsAlone};

/// A law: the world in which lines are played is that after their steps.
pub fn lines_are_steps()
    ensures { LinesAreSteps }
{}

/// A law: over nodes that began alike and have the same rows, whatever is marked, the steps of two runs answer alike, but for
/// how many witnesses were marked, and leave nodes that have the same rows.
pub fn steps_need_rows_alone()
    ensures nodes { NodesNeedRowsAlone }
    ensures steps { StepsNeedRowsAlone }
    ensures gossip { GossipNeedsRowsAlone }
{}

/// A law: what a line prints, unless it freezes rows, publishes or shows what was published, does not depend on marks.
pub fn lines_need_rows_alone()
    ensures { LinesNeedRowsAlone }
{}
