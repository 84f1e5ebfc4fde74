ghost use Rattle.hg_history.specs.Laws.{AcceptedIsHeld, ClosedStays, ChangesLeftRows, FirstRowsAreAGraph, FoundIsNews, FoundLasts, HeldStays, KeptIsOfTheGraph, KnownHasEntry, KnownIsHeld, LinksAreThoseOfTheRows, LinksGrow, ListsAreEven, LogSpellsHistory, MadeIsHeld, MakesAddOne, MakesLeaveANode, MarkingLeavesRows, MarksAreFame, MarksStay, MomentsAreHistories, NamedOrderGrows, NewsLasts, OrderByRounds, KeptOrderGrows, OtherMakesAddNone, OtherPutsAddNone, PublishedIsNoNews, PublishesLeaveANode, PublishingAddsMarks, PutsAddOne, PutsLeaveANode, RoundsStay, RowsAreAGraph, RowsCameByChanges, RowsGrow, RowsLeaveTheOrder, SettlesAll, SharesAreAll, VerdictsAreOfBytes};

/// A law: after each history the rows are a graph of signed events, in which the node's own member has one chain,
/// and their links are those that were made as the rows came. A moment of a history is a history.
pub fn rows_are_a_graph()
    ensures graph { RowsAreAGraph }
    ensures links { LinksAreThoseOfTheRows }
    ensures even { ListsAreEven }
    ensures moments { MomentsAreHistories }
{}

/// A law: the rows by the node's own member are those that it made, the rows by others those that it took; a row is
/// taken where its bytes are accepted.
pub fn rows_came_by_changes()
    ensures came { RowsCameByChanges }
    ensures left { ChangesLeftRows }
    ensures bytes { VerdictsAreOfBytes }
{}

/// A law: each published mark is the fame of the graph now.
pub fn marks_are_fame()
    ensures { MarksAreFame }
{}

/// A law: a history only adds to the rows, their links, the marks and the closed rounds, and to publish marks
/// leaves the rows.
pub fn history_grows()
    ensures rows { RowsGrow }
    ensures links { LinksGrow }
    ensures marks { MarksStay }
    ensures closed { ClosedStays }
    ensures marking { MarkingLeavesRows }
{}

/// A law: the order kept at a moment is a prefix of that kept at each later one, by places and by names, and of the
/// order of the graph.
pub fn order_grows()
    ensures places { KeptOrderGrows }
    ensures names { NamedOrderGrows }
    ensures graph { KeptIsOfTheGraph }
{}

/// A law: the kept order is that of the closed rounds, one after the other; what a closed round has received stays,
/// and a row that comes closes no round.
pub fn order_by_rounds()
    ensures rounds { OrderByRounds }
    ensures stay { RoundsStay }
    ensures rows { RowsLeaveTheOrder }
{}

/// A law: what a share found in the first rows may be published at each later moment, whole or without what has its
/// mark, which adds its marks one after the other, and is no news then. The first rows of a graph are a graph.
pub fn found_lasts()
    ensures lasts { FoundLasts }
    ensures whole { FoundIsNews }
    ensures news { NewsLasts }
    ensures adds { PublishingAddsMarks }
    ensures published { PublishedIsNoNews }
    ensures first { FirstRowsAreAGraph }
{}

/// A law: to publish all shares of the whole graph leaves as marks all its fame.
pub fn shares_are_all()
    ensures { SharesAreAll }
{}

/// A law: the rows and the log tell the history.
pub fn log_spells_history()
    ensures { LogSpellsHistory }
{}

/// A law of nodes with any keys: bytes that are accepted add one change, others none, and both leave a node.
pub fn puts_add_one<K>()
    ensures one { PutsAddOne K }
    ensures none { OtherPutsAddNone K }
    ensures node { PutsLeaveANode K }
{}

/// A law of nodes with any keys: to make an event adds one change, a refusal none, and both leave a node.
pub fn makes_add_one<K>()
    ensures one { MakesAddOne K }
    ensures none { OtherMakesAddNone K }
    ensures node { MakesLeaveANode K }
{}

/// A law of nodes with any keys: a name that is held stays held. That of an event is held once its bytes are accepted
/// or it is made, and it was held before where the bytes are known, by the row that they spell; the log has its entry.
pub fn names_stay_held<K>()
    ensures stays { HeldStays }
    ensures accepted { AcceptedIsHeld K }
    ensures known { KnownIsHeld K }
    ensures entry { KnownHasEntry K }
    ensures made { MadeIsHeld K }
{}

/// A law of nodes with any keys: to publish leaves a node; to settle makes its marks the fame of its graph, and its
/// kept order the order.
pub fn settles_all<K>()
    ensures node { PublishesLeaveANode K }
    ensures all { SettlesAll K }
{}
