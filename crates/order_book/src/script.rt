ghost use Rattle.std.specs.Prelude.{◌≡◌, ◌++◌, IfOk, OnOk};
ghost use Rattle.hg_model.specs.Places.{table};
ghost use Rattle.order_match.specs.declared.request.Request.TheVariants.{Place};
ghost use Rattle.order_match.specs.Requests.{request_bytes};
ghost use Rattle.order_book.specs.Script.{first_event, passing, taking_back, time_of, turn_at};

use hg_check::Trouble;
use hg_life::{MemberEntry, Members};
use hg_model::{Bytes, Member, Memory, Name};
use order_market::Action;
use order_match::{Book, Request, Side, write_request};
use std::alloc::Global;

/// A, B, C and D.
pub fn members_of(alloc: Global) -> Result<Members, Trouble> {
    match Members::try_new(entries_of(alloc)?, 10) {
        Ok(members) => Ok(members),
        Err(_entries) => Err(Trouble::Members),
    }
}

fn entries_of(alloc: Global) -> Result<Vec<MemberEntry>, Memory> {
    let mut entries = Vec::new(alloc);
    for (number, name) in b"ABCD".iter().enumerate() {
        entries.push(MemberEntry {
            name: Bytes::from_vec(Vec::from_slice(alloc, &[*name])?),
            secret: Bytes::from_vec(Vec::from_slice(alloc, &[number as u8])?),
            balance: 0,
            stake: 1,
            has_node: true,
        })?;
    }
    Ok(entries)
}

/// What the members ask for: at a step of the gossip, on a side, a price and a quantity.
const ORDERS: [(u32, Side, u32, u32); 10] = [
    (2, Side::Sell, 12, 5),
    (5, Side::Sell, 10, 4),
    (6, Side::Sell, 10, 3),
    (7, Side::Buy, 11, 6),
    (10, Side::Buy, 9, 8),
    (13, Side::Sell, 9, 3),
    (15, Side::Buy, 8, 7),
    (16, Side::Buy, 12, 2),
    (18, Side::Sell, 11, 6),
    (31, Side::Buy, 10, 5),
];

/// At this step a payload comes that is no request.
const UNREAD: u32 = 9;

/// The payload of an order.
pub fn placing(alloc: Global, side: Side, price: u32, quantity: u32) -> Result<Bytes, Memory>
    ensures { IfOk result (λ payload. payload ≡ request_bytes (Place side price quantity)) }
{
    let request = Request::Place {
        side,
        price,
        quantity,
    };
    write_request(alloc, &request)
}

/// The payload of the event that is made at a step.
fn payload_at(alloc: Global, step: u32) -> Result<Bytes, Memory> {
    if step == UNREAD {
        return Ok(Bytes::from_vec(Vec::from_slice(alloc, b"hello")?));
    }
    for order in &ORDERS {
        let (at, side, price, quantity) = *order;
        if at == step {
            return placing(alloc, side, price, quantity);
        }
    }
    Ok(Bytes::new(alloc))
}

/// Each member's first event.
pub fn opening(alloc: Global) -> Result<Vec<Action>, Memory>
    ensures { IfOk result (λ actions. actions.items ≡ table first_event 4) }
{
    let mut actions = Vec::new(alloc);
    for member in 0_u16..4 {
        actions.push(Action::Make {
            member,
            other: None,
            time: u64::from(member),
            payload: Bytes::new(alloc),
        })?;
    }
    Ok(actions)
}

/// The steps from one number up to another: at each a member syncs with another, and publishes what it knows then.
pub fn gossip(alloc: Global, from: u32, to: u32) -> Result<Vec<Action>, Memory> {
    let mut actions = Vec::new(alloc);
    for step in from..to {
        push_sync(&mut actions, step, payload_at(alloc, step)?)?;
    }
    Ok(actions)
}

/// A step of gossip with this request.
pub fn asking(alloc: Global, step: u32, request: &Request) -> Result<Vec<Action>, Memory>
    ensures { IfOk result (λ actions. actions.items ≡ turn_at step (request_bytes request.now)) }
{
    let mut actions = Vec::new(alloc);
    push_sync(&mut actions, step, write_request(alloc, request)?)?;
    Ok(actions)
}

/// The members take turns, and each goes round the others.
fn push_sync(actions: &mut Vec<Action>, step: u32, payload: Bytes) -> Result<(), Memory>
    ensures { OnOk result (actions.new.items ≡ actions.old.items ++ turn_at step payload) }
{
    let taker = (step % 4) as Member;
    let stride = (step / 4 % 3) as Member + 1;
    actions.push(Action::Sync {
        taker,
        peer: (taker + stride) % 4,
        time: time_of(step),
        payload,
    })?;
    actions.push(Action::Settle { member: taker })?;
    Ok(())
}

/// The time that members claim at a step.
pub fn time_of(step: u32) -> u64
    ensures { result ≡ time_of step }
{
    u64::from(step) + 4
}

/// Bytes come to a member's node, which makes an event on theirs.
pub fn passing(
    alloc: Global,
    member: Member,
    bytes: Bytes,
    name: Name,
    step: u32,
) -> Result<Vec<Action>, Memory>
    ensures { IfOk result (λ actions. actions.items ≡ passing member bytes name step) }
{
    let mut actions = Vec::new(alloc);
    actions.push(Action::Deliver { member, bytes })?;
    actions.push(Action::Make {
        member,
        other: Some(name),
        time: time_of(step),
        payload: Bytes::new(alloc),
    })?;
    actions.push(Action::Settle { member })?;
    Ok(actions)
}

/// To take back the member's best order to buy, if it has one.
pub fn taking_back(book: &Book, member: Member) -> Request
    ensures { result ≡ taking_back book.now.bids.resting member }
{
    for order in book.bids().resting() {
        if order.member == member {
            return Request::Cancel {
                number: order.number,
            };
        }
    }
    Request::Nothing
}
