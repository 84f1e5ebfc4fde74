ghost use Rattle.hg_node.specs.Laws.{FirstTablesCarry, MakingIsOne, OpenedIsFound, TablesLast};
ghost use Rattle.hg_node.specs.ReplayLaws.{ChangesAreFew, ChangesReplay, HistoriesReplay, MakesReplay, MarksReplay, PutsReplay, ReplaysAreNodes, RestoresAddOne, RestoresAreMakes, RestoresLeaveANode, SpellingsAreShort};

/// A law: where each body has one accepted signature, what comes of making an event is a function of the node and of the
/// event's fields.
pub fn making_is_one<K>()
    ensures { MakingIsOne K }
{}

/// A law: a table of votes that was made for first rows of a graph carries to the graph, and one that carries to a node's
/// graph carries to it as it is later.
pub fn tables_last()
    ensures first { FirstTablesCarry }
    ensures lasts { TablesLast }
{}

/// A law: what is elected of the witnesses that a share may still decide is what the node finds.
pub fn opened_is_found<K>()
    ensures { OpenedIsFound K }
{}

/// A law of nodes with any keys: what is stored of an accepted put, of an event that was made on few others and of a share that
/// marked some leads again to the node that they left.
pub fn stored_changes_replay<K>()
    ensures took { PutsReplay K }
    ensures made { MakesReplay K }
    ensures marked { MarksReplay K }
{}

/// A law: of the events that come back to a node just those are accepted that its member might have made there; each is one
/// change more, and leaves a node.
pub fn restores_are_makes<K>()
    ensures rows { RestoresAreMakes }
    ensures one { RestoresAddOne K }
    ensures node { RestoresLeaveANode K }
{}

/// A law: what is stored of a node's changes, where their shares are lawful, leads again to the node; and whatever is stored
/// leads to nodes alone.
pub fn histories_replay<K>()
    ensures change { ChangesReplay K }
    ensures history { HistoriesReplay K }
    ensures node { ReplaysAreNodes K }
{}

/// A law: how many changes a history has at most, and how many bytes an event.
pub fn histories_are_short()
    ensures few { ChangesAreFew }
    ensures short { SpellingsAreShort }
{}
