use crate::telling::equal;
use hg_model::{Member, Memory};
use order_match::{Book, Order, Request, RequestFault, Side, Trade, read_request, write_request};
use std::alloc::Global;
use std::test::Fail;

/// A member's request goes into the book by its payload.
fn ask(alloc: Global, book: &mut Book, member: Member, request: Request) -> Result<(), Memory> {
    let payload = write_request(alloc, &request)?;
    put(book, member, payload.as_slice())
}

/// A payload goes into a book that has few.
fn put(book: &mut Book, member: Member, payload: &[u8]) -> Result<(), Memory> {
    if book.events() < 100 {
        book.add(member, payload)?;
    }
    Ok(())
}

const REQUESTS: [(Member, Request); 7] = [
    (
        0,
        Request::Place {
            side: Side::Sell,
            price: 12,
            quantity: 5,
        },
    ),
    (
        1,
        Request::Place {
            side: Side::Sell,
            price: 10,
            quantity: 4,
        },
    ),
    (
        2,
        Request::Place {
            side: Side::Sell,
            price: 10,
            quantity: 3,
        },
    ),
    (
        3,
        Request::Place {
            side: Side::Buy,
            price: 11,
            quantity: 6,
        },
    ),
    (0, Request::Cancel { number: 2 }),
    (2, Request::Cancel { number: 2 }),
    (
        1,
        Request::Place {
            side: Side::Buy,
            price: 9,
            quantity: 2,
        },
    ),
];

#[test]
fn matches_by_price_and_time(rt: HostRuntime) -> Result<(), Fail> {
    let mut book = Book::new(rt.alloc());
    for (member, request) in REQUESTS {
        ask(rt.alloc(), &mut book, member, request)?;
    }
    put(&mut book, 1, b"?")?;
    let first = Trade {
        buyer: 3,
        seller: 1,
        price: 10,
        quantity: 4,
    };
    let second = Trade {
        buyer: 3,
        seller: 2,
        price: 10,
        quantity: 2,
    };
    equal(&rt, 0, book.trades(), [first, second].as_slice());
    let bid = Order {
        number: 6,
        member: 1,
        price: 9,
        quantity: 2,
    };
    let ask = Order {
        number: 0,
        member: 0,
        price: 12,
        quantity: 5,
    };
    let gone = Order {
        number: 2,
        member: 2,
        price: 10,
        quantity: 1,
    };
    equal(&rt, 1, book.bids().resting(), [bid].as_slice());
    equal(&rt, 2, book.asks().resting(), [ask].as_slice());
    equal(&rt, 3, book.asks().cancelled(), [gone].as_slice());
    equal(&rt, 4, (book.events(), book.unread()), (8, 1));
    Ok(())
}

// What is read of these bytes.
const READ: [(&[u8], Result<Request, RequestFault>); 5] = [
    (
        b"\x01\x00\x00\x01\x02\x00\x00\x00\x07",
        Ok(Request::Place {
            side: Side::Sell,
            price: 258,
            quantity: 7,
        }),
    ),
    (b"", Ok(Request::Nothing)),
    (b"\x00\x01", Err(RequestFault::BadLength(2))),
    (
        b"\x03\x00\x00\x00\x00\x00\x00\x00\x01",
        Err(RequestFault::BadKind(3)),
    ),
    (
        b"\x00\x00\x00\x00\x01\x00\x00\x00\x00",
        Err(RequestFault::NoQuantity),
    ),
];

#[test]
fn reads_what_is_written(rt: HostRuntime) -> Result<(), Fail> {
    let sell = Request::Place {
        side: Side::Sell,
        price: 258,
        quantity: 7,
    };
    let payload = write_request(rt.alloc(), &sell)?;
    equal(&rt, 0, payload.as_slice(), READ[0].0);
    for (case, (bytes, wanted)) in READ.iter().enumerate() {
        equal(&rt, case, read_request(bytes), *wanted);
    }
    Ok(())
}
