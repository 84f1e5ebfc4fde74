ghost use Rattle.hg_gossip.specs.Known.{KnownForGood};
ghost use Rattle.hg_gossip.specs.Nodes.{MakesAlone, PullsAlone, SyncsAlone, UnnamedAreLacking, WaitsAlone};
ghost use Rattle.hg_gossip.specs.Refusals.{BeyondHolds, PullsHold, RefusalsCount, TakesHold, TipsAreHeld};

/// A law: nothing comes between the calls on a node that has one holder.
pub fn waiting_alone<K>()
    ensures { WaitsAlone K }
{}

/// A law: what a pull leaves of such a node, and its counts, are a function of both nodes: one fold of puts over the
/// bytes that the node lacked.
pub fn pulling_alone<K, L>()
    ensures { PullsAlone K L }
{}

/// A law: `make_after` leaves of such a node what making the event leaves of it, or that node where there is no name.
pub fn making_alone<K>()
    ensures { MakesAlone K }
{}

/// A law: a sync leaves what making an event leaves of the node after the pull, or that node where the peer is bare.
pub fn syncing_alone<K, L>()
    ensures { SyncsAlone K L }
{}

/// A law: the rows that have none of the names of other rows are those whose names these lack.
pub fn missing_is_lacking()
    ensures { UnnamedAreLacking }
{}

/// A law: where the bytes of an event are put, a row is held by its name then, or they were refused at their turn.
pub fn taking_holds<K>()
    ensures each { TakesHold K }
    ensures counted { RefusalsCount K }
{}

/// A law: after a pull each row of the peer is held by its name, or was refused at its turn; all are where none was.
pub fn pulling_holds<K, L>()
    ensures { PullsHold K L }
{}

/// A law: so is each row of a peer that handed over what it has beyond rows that the taker holds, as those of its tips,
/// unless names collide.
pub fn taking_beyond_holds<K, L>()
    ensures beyond { BeyondHolds K L }
    ensures tips { TipsAreHeld }
{}

/// A law: what nodes are known to have of each other's rows they are known to have for good, for rows only get more.
pub fn known_for_good()
    ensures { KnownForGood }
{}
