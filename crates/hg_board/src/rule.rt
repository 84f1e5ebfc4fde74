// The rule of the table, and what each kind of step tells its seat.
ghost use Rattle.hg_life.specs.History.{Change};
ghost use Rattle.hg_life.specs.History.Change.{Marked};
ghost use Rattle.hg_model.specs.Shares.{whole};
ghost use Rattle.hg_board.specs.Table.{Orderly, first_view, spent};
ghost use Rattle.hg_board.specs.Steps.{taken, loaded, raised, given, compared, after_split, split_off, joined};

use crate::view::View;
use atomic_table::{Join, Play, Split, Table, TableRule};
use hg_node::Node;
use hg_sign::Signer;
use std::alloc::Global;
use std::marker::{Brand, PhantomData};
use std::snapshot::Snapshot;

/// There is one history, and the node in the slot has it.
pub struct Rule<V> {
    of: PhantomData<V>,
}

impl<V: Signer> TableRule<Option<Node<V>>, View<V>, Snapshot<Node<V>>> for Rule<V> {
    ghost holds = { λ key. Orderly V.accepts key.value };

    ghost first = { λ key. first_view key.value };
}

/// The turn and the count are its words; its one slot has the node, unless a caller has it.
pub type Board<V> = Table<Option<Node<V>>, View<V>, Snapshot<Node<V>>, Rule<V>, Global>;

/// The board as its callers share it.
pub type SharedBoard<V> = atomic_table::Shared<
    Option<Node<V>>,
    View<V>,
    Snapshot<Node<V>>,
    Rule<V>,
>;

pub type RawSeat<V> = atomic_table::Seat<Option<Node<V>>, View<V>>;

/// Kind 1, on the turn word.
pub struct Take;

impl<V: Signer> Play<Option<Node<V>>, View<V>> for Take {
    ghost then = { taken V.accepts };
}

/// Kind 5, on the count word.
pub struct Look;

impl<V: Signer> Play<Option<Node<V>>, View<V>> for Look {
    ghost then = { loaded };
}

/// Names the change that a step adds to the history.
pub trait Naming {
    ghost change: { Change };
}

impl Naming for Brand {
    ghost change = { Marked 0 whole };
}

/// Kind 4, on the count word.
pub struct Raise<N> {
    of: PhantomData<N>,
}

impl<V: Signer, N: Naming> Play<Option<Node<V>>, View<V>> for Raise<N> {
    ghost then = { raised N.change };
}

/// Kind 6, on the turn word.
pub struct Give;

impl<V: Signer> Play<Option<Node<V>>, View<V>> for Give {
    ghost then = { given };
}

/// Kind 5 after kind 8: what the two seats had seen is compared.
pub struct Compare;

impl<V: Signer> Play<Option<Node<V>>, View<V>> for Compare {
    ghost then = { compared V.accepts };
}

/// Kind 7.
pub struct OnePart;

impl<V: Signer> Split<View<V>> for OnePart {
    ghost left = { after_split };

    ghost right = { split_off };
}

/// Kind 8.
pub struct Both;

impl<V: Signer> Join<View<V>> for Both {
    ghost both = { joined };

    ghost spent = { spent };
}
