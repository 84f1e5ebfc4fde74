use crate::playing::{equal, give, make, name_at, two_players};
use hg_life::{Entry, Fault, MakeAnswer, MakeFault, PutAnswer};
use hg_model::Memory;
use hg_node::Node;
use hg_sign::MacTable;
use std::process::Abort;

fn play(rt: &impl Abort, a: &mut Node<MacTable>, b: &mut Node<MacTable>) -> Result<(), Memory> {
    make(rt, a, None, 1, MakeAnswer::Made(0))?;
    give(rt, a, 0, b, PutAnswer::Accepted(0))?;
    give(rt, a, 0, b, PutAnswer::Known(0))?;
    let first = name_at(rt, a, 0);
    make(rt, b, None, 1, MakeAnswer::Made(1))?;
    make(rt, b, Some(first), 1, MakeAnswer::Made(2))?;
    let missing = Fault::MissingSelf(name_at(rt, b, 1));
    give(rt, b, 2, a, PutAnswer::Refused(missing))?;
    give(rt, b, 1, a, PutAnswer::Accepted(1))?;
    give(rt, b, 2, a, PutAnswer::Accepted(2))?;
    let own = MakeFault::OtherCreator(0);
    make(rt, a, Some(first), 1, MakeAnswer::Refused(own))?;
    equal(rt, b.last_own(), Some(2));
    let log = [Entry::Took(0), Entry::Made(1), Entry::Made(2)];
    equal(rt, b.log(), log.as_slice());
    Ok(())
}

#[test]
fn plays_two_members(rt: HostRuntime) -> Result<(), Memory> {
    let (mut a, mut b) = two_players(&rt, rt.alloc())?;
    play(&rt, &mut a.node, &mut b.node)
}
