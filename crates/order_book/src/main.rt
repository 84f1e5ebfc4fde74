//! Four members trade by an order that none of them rules: each node has the book of its order. D cheats: it signs two
//! events on one self-parent, for B and for the rest. It prints each node's book. Of two books one is an earlier state
//! of the other, if the dishonest have less than a third of the stake and names do not collide (`run` of order_market).
//!
//! `rt run` in its folder proves and runs it; of what it prints (`stdout`), the first lines:
//!
//! ```text
//! A: 48 events, 1 unread
//!   D buys 4 of B at 10
//!   D buys 2 of C at 11
//! ```
#![tactic(auto)]

mod forging;
mod printing;
mod script;

use crate::forging::forged_event;
use crate::printing::print_book;
use crate::script::{asking, gossip, members_of, opening, passing, placing, taking_back, time_of};
use hg_check::Trouble;
use hg_model::{Member, Memory};
use hg_sign::MacTable;
use order_market::Market;
use order_match::Side;
use std::alloc::Global;
use std::process::ExitCode;

const B: Member = 1;

const C: Member = 2;

const D: Member = 3;

/// After this step D forks.
const FORK: u32 = 31;

/// At this step C takes an order back.
const CANCEL: u32 = 54;

/// So many steps there are.
const STEPS: u32 = 96;

/// D signs a second event on the self-parent of its last one, and gives it to B.
fn fork(alloc: Global, keys: &MacTable, market: Market) -> Result<Market, Memory> {
    if market.members() <= D {
        return Ok(market);
    }
    let node = market.world().node(D);
    let payload = placing(alloc, Side::Sell, 8, 9)?;
    match forged_event(alloc, keys, node, C, time_of(FORK), payload.as_slice())? {
        None => Ok(market),
        Some(forged) => {
            let actions = passing(alloc, B, forged.bytes, forged.name, FORK)?;
            market.run(&actions)
        }
    }
}

/// C takes its best order to buy back.
fn take_back(alloc: Global, market: Market) -> Result<Market, Memory> {
    if market.members() <= C {
        return Ok(market);
    }
    let request = taking_back(market.book(C), C);
    let actions = asking(alloc, CANCEL, &request)?;
    market.run(&actions)
}

/// All of the play.
fn play(alloc: Global, keys: &MacTable, market: Market) -> Result<Market, Memory> {
    let actions = opening(alloc)?;
    let market = market.run(&actions)?;
    let actions = gossip(alloc, 0, FORK + 1)?;
    let market = market.run(&actions)?;
    let market = fork(alloc, keys, market)?;
    let actions = gossip(alloc, FORK + 1, CANCEL)?;
    let market = market.run(&actions)?;
    let market = take_back(alloc, market)?;
    let actions = gossip(alloc, CANCEL + 1, STEPS)?;
    market.run(&actions)
}

/// The book of each node.
fn print_all<R: Print>(rt: &R, market: &Market) -> Result<(), Trouble> {
    for member in 0..market.members() {
        print_book(rt, member, market.book(member))?;
    }
    Ok(())
}

fn play_all<R: AllocGlobal + Print>(rt: &R) -> Result<(), Trouble> {
    let alloc = rt.alloc();
    let members = members_of(alloc)?;
    let keys = MacTable::new(alloc, &members)?;
    let market = play(alloc, &keys, Market::new(alloc, &members)?)?;
    print_all(rt, &market)
}

fn main(rt: HostRuntime) -> ExitCode {
    match play_all(&rt) {
        Ok(()) => ExitCode::SUCCESS,
        Err(_trouble) => ExitCode::FAILURE,
    }
}
