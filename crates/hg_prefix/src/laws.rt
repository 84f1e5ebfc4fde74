ghost use Rattle.hg_prefix.specs.Laws.{ChainsStandInOne, FamousAreTheSame, FewerRoundsArePrefixes, OrderGrows, OrderOfPartIsPrefix, OrdersArePrefixes, OrdersOfChains, OwnOrdersArePrefixes, OwnOrdersOfChains, PartsAreAlike};

/// A law: a row has in a larger graph the ancestors, sight, rounds and votes that it has in its own graph.
pub fn parts_are_alike()
    ensures { PartsAreAlike }
{}

/// A law: of two graphs that stand in one graph, a round that both have closed has the same unique famous
/// witnesses in both, whatever marks they have that are their fame.
pub fn famous_are_the_same()
    ensures { FamousAreTheSame }
{}

/// A law: of their orders by names one is a prefix of the other.
pub fn orders_are_prefixes()
    ensures fewer { FewerRoundsArePrefixes }
    ensures one { OrdersArePrefixes }
    ensures own { OwnOrdersArePrefixes }
{}

/// A law: the order of a graph is a prefix of the order of each graph in which it stands, so it only grows when
/// rows come.
pub fn order_grows()
    ensures part { OrderOfPartIsPrefix }
    ensures longer { OrderGrows }
{}

/// The core law of safety: two graphs whose rows of equal names are equal, where each member but those of less
/// than a third of the stake has one chain of rows that holds its rows of both. They stand in one graph, their
/// union, and of their orders by names one is a prefix of the other.
pub fn orders_of_chains()
    ensures one_graph { ChainsStandInOne }
    ensures one { OrdersOfChains }
    ensures own { OwnOrdersOfChains }
{}
