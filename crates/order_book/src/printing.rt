use hg_model::Member;
use order_match::{Book, Order};
use std::io;

/// The letter of one of the first 26 members.
fn letter(member: Member) -> char {
    char::from(b'A' + (member % 26) as u8)
}

/// A line for each of these orders.
fn print_orders<R: Print>(rt: &R, what: &str, orders: &[Order]) -> io::Result<()> {
    for order in orders {
        let Order {
            number,
            price,
            quantity,
            ..
        } = *order;
        let who = letter(order.member);
        println!(rt; "  {what} {number}: {who}, {quantity} at {price}")?;
    }
    Ok(())
}

/// The trades of the book of a member's node, and the orders that rest or were taken back.
pub fn print_book<R: Print>(rt: &R, member: Member, book: &Book) -> io::Result<()> {
    let (node, events, unread) = (letter(member), book.events(), book.unread());
    println!(rt; "{node}: {events} events, {unread} unread")?;
    for trade in book.trades() {
        let (buyer, seller) = (letter(trade.buyer), letter(trade.seller));
        let (price, quantity) = (trade.price, trade.quantity);
        println!(rt; "  {buyer} buys {quantity} of {seller} at {price}")?;
    }
    print_orders(rt, "bid", book.bids().resting())?;
    print_orders(rt, "ask", book.asks().resting())?;
    print_orders(rt, "cancelled bid", book.bids().cancelled())?;
    print_orders(rt, "cancelled ask", book.asks().cancelled())
}
