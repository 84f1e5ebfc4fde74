ghost use Rattle.hg_crowd.specs.Laws.{SessionsEnd, SessionsMark};

/// A law: where others only marked beside the calls through one seat of each node, each node has in the end the rows that
/// this seat has seen, its history goes on from what the seat has seen, and what the others added are marks. If the
/// workers' last turn found memory, all witnesses that they decide are marked.
pub fn sessions_end<V>()
    ensures rows { SessionsEnd V }
    ensures marks { SessionsMark V }
{}
