ghost use Rattle.hg_proof.specs.Laws.{AcceptedIsShown, ShownIsAccepted, ShownIsOne, ShownIsSafe};

/// A law: what a checker accepts is shown, what is shown it accepts, and bytes show at most one graph and order.
pub fn certificates_are_judged()
    ensures accepted { AcceptedIsShown }
    ensures shown { ShownIsAccepted }
    ensures one { ShownIsOne }
{}

/// A law: the graph that a certificate shows counts as a further graph of a run. Where less than a third of the stake is
/// dishonest by its rows or by those of the nodes, and names do not collide, the order that it shows and one that a node
/// ever kept do not part, one being a prefix of the other. By whose keys it was checked does not matter.
pub fn certificates_are_safe()
    ensures { ShownIsSafe }
{}
