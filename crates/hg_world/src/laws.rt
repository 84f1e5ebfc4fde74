ghost use Rattle.hg_world.specs.Laws.{PullsSetOneNode, StepsKeepMembers, StepsKeepSites, StepsOnlyAdd, StepsStayLawful, WorldsAreSafe, WorldsHaveEvents};

/// A law: steps leave as many nodes as there were.
pub fn steps_keep_sites()
    ensures { StepsKeepSites }
{}

/// A law: steps only add to each node's history, and leave the members and the coin period.
pub fn steps_only_add()
    ensures histories { StepsOnlyAdd }
    ensures members { StepsKeepMembers }
{}

/// A law: the steps of a pull leave the world with another node of the taker, that of one fold of puts.
pub fn pulls_set_one_node()
    ensures { PullsSetOneNode }
{}

/// A law: a lawful world, whose nodes' orders are safe, is left lawful by steps whose numbers and bytes are within their
/// ranges. The rows of its nodes are events.
pub fn steps_stay_lawful()
    ensures lawful { StepsStayLawful }
    ensures events { WorldsHaveEvents }
    ensures safe { WorldsAreSafe }
{}
