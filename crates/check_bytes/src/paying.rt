use crate::members::two_members;
use crate::telling::equal;
use hg_life::{Effect, Transfer};
use hg_pay::{Book, Ledger, read_pay, write_pay};
use std::test::Fail;

/// A payload, what came of it, and what both hold then.
struct Case {
    payer: u16,
    payload: &'static [u8],
    effect: Effect,
    left: [u64; 2],
}

const CASES: [Case; 5] = [
    Case {
        payer: 0,
        payload: b"\x02\x00\x01\x00\x00\x00\x00\x00\x00\x00\x1e\x00\x01\x00\x00\x00\x00\x00\x00\x00\x50",
        effect: Effect::Paid { done: 1, of: 2 },
        left: [70, 30],
    },
    Case {
        payer: 1,
        payload: b"\x02\x00\x00\x00\x00\x00\x00\x00\x00\x00\x1f\x00\x00\x00\x00\x00\x00\x00\x00\x00\x00",
        effect: Effect::Paid { done: 1, of: 2 },
        left: [70, 30],
    },
    Case {
        payer: 0,
        payload: b"\x02\x00\x00\x00\x00\x00\x00\x00\x00\x00\x46\x00\x02\x00\x00\x00\x00\x00\x00\x00\x01",
        effect: Effect::Paid { done: 1, of: 2 },
        left: [70, 30],
    },
    Case {
        payer: 1,
        payload: b"\x01\x02\x03",
        effect: Effect::Unread,
        left: [70, 30],
    },
    Case {
        payer: 1,
        payload: b"",
        effect: Effect::Empty,
        left: [70, 30],
    },
];

#[test]
fn pays_what_is_held(rt: HostRuntime) -> Result<(), Fail> {
    let mut book = Book::new(rt.alloc(), &two_members(&rt, rt.alloc())?)?;
    for (number, case) in CASES.iter().enumerate() {
        let effect = book.apply_payload(case.payer, case.payload);
        equal(
            &rt,
            number,
            (effect, book.balances()),
            (case.effect, case.left.as_slice()),
        );
    }
    Ok(())
}

#[test]
fn tells_which_transfers_were_done(rt: HostRuntime) -> Result<(), Fail> {
    let mut book = Book::new(rt.alloc(), &two_members(&rt, rt.alloc())?)?;
    for (case, bits) in CASES[..3].iter().zip([0b01, 0b10, 0b01]) {
        let Some(pay) = read_pay(case.payload) else {
            return Err(Fail::new("no transfers"));
        };
        equal(&rt, 0, book.apply(case.payer, &pay), bits);
    }
    equal(&rt, 1, (book.balance(1), book.balance(2)), (30, 0));
    Ok(())
}

#[test]
fn writes_what_is_read(rt: HostRuntime) -> Result<(), Fail> {
    let transfers = [
        Transfer {
            receiver: 1,
            amount: 30,
        },
        Transfer {
            receiver: 1,
            amount: 80,
        },
    ];
    let payload = write_pay(rt.alloc(), &transfers)?;
    equal(&rt, 2, payload.as_slice(), CASES[0].payload);
    let none = write_pay(rt.alloc(), &[])?;
    equal(&rt, 0, none.as_slice(), b"\x00".as_slice());
    Ok(())
}

#[test]
fn begins_without_effects(rt: HostRuntime) -> Result<(), Fail> {
    let mut ledger = Ledger::new(rt.alloc(), &two_members(&rt, rt.alloc())?)?;
    ledger.reserve(4)?;
    ledger.reserve(2)?;
    equal(&rt, 0, ledger.effects().is_empty(), true);
    equal(&rt, 1, ledger.book().balances(), [100, 0].as_slice());
    Ok(())
}
