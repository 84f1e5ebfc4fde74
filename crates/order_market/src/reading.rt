ghost use Rattle.std.specs.Prelude.{◌≡◌, ◌<◌, ◌+◌, ◌^◌, All, OnOk, length, map};
ghost use Rattle.hg_model.specs.declared.row.Placed.{Placed};
ghost use Rattle.hg_life.specs.NodeView.{node_rows};
ghost use Rattle.order_match.specs.Books.{book_of, with_event, with_events};
ghost use Rattle.order_market.specs.Market.{AreBehind, HasBooks, IsBehind, event_at, event_in, events_of};

use hg_model::{Member, Memory, Placed};
use hg_node::Node;
use hg_sign::SharedTable;
use hg_world::World;
use order_match::{Book, books_go_on};

/// The book with these events of a node more.
fn read_each(book: &mut Book, node: &Node<SharedTable>, order: &[Placed]) -> Result<(), Memory>
    requires places { All (λ (x : Placed). x.place < length (node_rows node.now)) order.now }
    requires few { book.old.events + length order.now < 2 ^ 64 }
    ensures { OnOk result (book.new ≡ with_events book.old (map (event_in (node_rows node.now)) order.now)) }
{
    for placed in order {
        read_at(book, node, placed.place)?;
    }
    Ok(())
}

/// The book with the event at a place of the node.
fn read_at(book: &mut Book, node: &Node<SharedTable>, place: usize) -> Result<(), Memory>
    requires place { place < length (node_rows node.now) }
    requires few { book.old.events + 1 < 2 ^ 64 }
    ensures { OnOk result (book.new ≡ with_event book.old (event_at (node_rows node.now) place)) }
{
    let row = node.row(place);
    book.add(row.creator, row.payload.as_slice())
}

/// Reads what a node's order has behind the events of its book.
fn read_rest(book: &mut Book, node: &Node<SharedTable>) -> Result<(), Memory>
    requires { IsBehind book.old (events_of node.now) }
    ensures { OnOk result (book.new ≡ book_of (events_of node.now)) }
{
    books_go_on();
    let kept = node.kept();
    let from = book.events() as usize;
    read_each(book, node, &kept[from..])?;
    Ok(())
}

/// How many members there are, at most 128.
pub fn member_count(world: &World) -> Member
    ensures { result ≡ length world.now.sites }
{
    world.members() as Member
}

/// Reads what the nodes' orders have behind the events of their books.
pub fn read_all(books: &mut Vec<Book>, world: &World) -> Result<(), Memory>
    requires { AreBehind world.now books.old.items }
    ensures { OnOk result (HasBooks world.now books.new.items) }
{
    for m in 0..member_count(world) {
        read_rest(&mut books[m as usize], world.node(m))?;
    }
    Ok(())
}
