ghost use Rattle.std.specs.Prelude.{◌≡◌, IfOk};
ghost use Rattle.std.specs.Option.{option_copied};
ghost use Rattle.hg_life.specs.Members.{MemberList};
ghost use Rattle.hg_script.specs.Words.{ReadsAs, bytes_in};
ghost use Rattle.hg_script.specs.Lawful.{IsFound};
ghost use Rattle.hg_script.specs.Table as spec;

use crate::labels::{labels_of, parents_of};
use crate::payload::payload_of;
use hg_life::Members;
use hg_model::Stop;
use hg_script::argument::{
    byte_of, label_of, member_of, new_label, node_of, number_of, peer_of, raw_bytes, worker_of,
};
use hg_script::{Above, Action, Found, Gossip, Part, Source, Verb, Why};
use std::alloc::Global;

fn gossip<'a>(gossip: Gossip) -> Found<'a>
    ensures { result ≡ spec.gossip gossip }
{
    Found::does(Action::Part(Part::Gossip(gossip)))
}

#[tactic(auto, unfolding(hg_script::specs::Table::create))]
fn create<'a>(
    alloc: Global,
    members: &Members,
    above: &Above<'_>,
    x: &[u8],
    t: &[u8],
    p: Option<&[u8]>,
) -> Result<Found<'a>, Stop<Why>>
    ensures value { ReadsAs result (spec.create members.now above.now x.now t.now (option_copied p.entry)) }
    ensures lawful { IfOk result (IsFound members.now above.now) }
{
    let member = node_of(members, x)?;
    let time = number_of(t)?;
    let payload = payload_of(alloc, members, p)?;
    if above.is_created(member) {
        return Err(Stop::Fault(Why::NotFirst));
    }
    Ok(gossip(Gossip::Create {
        member,
        time,
        payload,
    }))
}

fn create_line<'a>(
    alloc: Global,
    members: &Members,
    above: &Above<'_>,
    arguments: &[&[u8]],
) -> Result<Found<'a>, Stop<Why>>
    ensures value { ReadsAs result (spec.two_or_three (spec.create members.now above.now) (bytes_in arguments.now)) }
    ensures lawful { IfOk result (IsFound members.now above.now) }
{
    match arguments {
        [x, t] => create(alloc, members, above, x, t, None),
        [x, t, p] => create(alloc, members, above, x, t, Some(p)),
        _ => Err(Stop::Fault(Why::Arity)),
    }
}

#[tactic(auto, unfolding(hg_script::specs::Table::sync))]
fn sync<'a>(
    alloc: Global,
    members: &Members,
    above: &Above<'_>,
    x: &[u8],
    y: &[u8],
    t: &[u8],
    p: Option<&[u8]>,
) -> Result<Found<'a>, Stop<Why>>
    ensures value { ReadsAs result (spec.sync members.now above.now x.now y.now t.now (option_copied p.entry)) }
    ensures lawful { IfOk result (IsFound members.now above.now) }
{
    let taker = node_of(members, x)?;
    let peer = peer_of(members, taker, y)?;
    let time = number_of(t)?;
    let payload = payload_of(alloc, members, p)?;
    if !above.is_created(taker) {
        return Err(Stop::Fault(Why::First));
    }
    Ok(gossip(Gossip::Sync {
        taker,
        peer,
        time,
        payload,
    }))
}

fn sync_line<'a>(
    alloc: Global,
    members: &Members,
    above: &Above<'_>,
    arguments: &[&[u8]],
) -> Result<Found<'a>, Stop<Why>>
    ensures value { ReadsAs result (spec.three_or_four (spec.sync members.now above.now) (bytes_in arguments.now)) }
    ensures lawful { IfOk result (IsFound members.now above.now) }
{
    match arguments {
        [x, y, t] => sync(alloc, members, above, x, y, t, None),
        [x, y, t, p] => sync(alloc, members, above, x, y, t, Some(p)),
        _ => Err(Stop::Fault(Why::Arity)),
    }
}

#[tactic(auto, unfolding(hg_script::specs::Table::pull))]
fn pull<'a>(members: &Members, x: &[u8], y: &[u8]) -> Result<Found<'a>, Why>
    ensures value { result ≡ spec.pull members.now x.now y.now }
    ensures lawful { (above : spec.Above) → IfOk result (IsFound members.now above) }
{
    let taker = node_of(members, x)?;
    let peer = peer_of(members, taker, y)?;
    Ok(gossip(Gossip::Pull { taker, peer }))
}

#[tactic(auto, unfolding(hg_script::specs::Table::join))]
fn join<'a>(
    alloc: Global,
    members: &Members,
    above: &Above<'_>,
    x: &[u8],
    l: &[u8],
    t: &[u8],
    p: Option<&[u8]>,
) -> Result<Found<'a>, Stop<Why>>
    ensures value { ReadsAs result (spec.join members.now above.now x.now l.now t.now (option_copied p.entry)) }
    ensures lawful { IfOk result (IsFound members.now above.now) }
{
    let member = node_of(members, x)?;
    let others = labels_of(alloc, above, l)?;
    let time = number_of(t)?;
    let payload = payload_of(alloc, members, p)?;
    if !above.is_created(member) {
        return Err(Stop::Fault(Why::First));
    }
    Ok(gossip(Gossip::Join {
        member,
        others,
        time,
        payload,
    }))
}

fn join_line<'a>(
    alloc: Global,
    members: &Members,
    above: &Above<'_>,
    arguments: &[&[u8]],
) -> Result<Found<'a>, Stop<Why>>
    ensures value { ReadsAs result (spec.three_or_four (spec.join members.now above.now) (bytes_in arguments.now)) }
    ensures lawful { IfOk result (IsFound members.now above.now) }
{
    match arguments {
        [x, l, t] => join(alloc, members, above, x, l, t, None),
        [x, l, t, p] => join(alloc, members, above, x, l, t, Some(p)),
        _ => Err(Stop::Fault(Why::Arity)),
    }
}

#[tactic(auto, unfolding(hg_script::specs::Table::name))]
fn name<'a>(members: &Members, above: &Above<'_>, l: &'a [u8], x: &[u8]) -> Result<Found<'a>, Why>
    ensures value { result ≡ spec.name members.now above.now l.now x.now }
    ensures lawful { IfOk result (IsFound members.now above.now) }
{
    let label = new_label(above, l)?;
    let member = node_of(members, x)?;
    Ok(Found::makes(Source::Last { member }, label))
}

#[tactic(auto, unfolding(hg_script::specs::Table::forge))]
fn forge<'a>(
    alloc: Global,
    members: &Members,
    above: &Above<'_>,
    l: &'a [u8],
    m: &[u8],
    s: &[u8],
    o: &[u8],
    t: &[u8],
    p: Option<&[u8]>,
) -> Result<Found<'a>, Stop<Why>>
    ensures value { ReadsAs result (spec.forge members.now above.now l.now m.now s.now o.now t.now (option_copied p.entry)) }
    ensures lawful { IfOk result (IsFound members.now above.now) }
{
    let label = new_label(above, l)?;
    let creator = member_of(members, m)?;
    let parents = parents_of(alloc, above, s, o)?;
    let time = number_of(t)?;
    let payload = payload_of(alloc, members, p)?;
    Ok(Found::makes(
        Source::Forged {
            creator,
            parents,
            time,
            payload,
        },
        label,
    ))
}

fn forge_line<'a>(
    alloc: Global,
    members: &Members,
    above: &Above<'_>,
    arguments: &[&'a [u8]],
) -> Result<Found<'a>, Stop<Why>>
    ensures value { ReadsAs result (spec.five_or_six (spec.forge members.now above.now) (bytes_in arguments.now)) }
    ensures lawful { IfOk result (IsFound members.now above.now) }
{
    match arguments {
        [l, m, s, o, t] => forge(alloc, members, above, l, m, s, o, t, None),
        [l, m, s, o, t, p] => forge(alloc, members, above, l, m, s, o, t, Some(p)),
        _ => Err(Stop::Fault(Why::Arity)),
    }
}

#[tactic(auto, unfolding(hg_script::specs::Table::raw))]
fn raw<'a>(alloc: Global, above: &Above<'_>, l: &'a [u8], h: &[u8]) -> Result<Found<'a>, Stop<Why>>
    ensures value { ReadsAs result (spec.raw above.now l.now h.now) }
    ensures lawful { (members : MemberList) → IfOk result (IsFound members above.now) }
{
    let label = new_label(above, l)?;
    let bytes = raw_bytes(alloc, h)?;
    Ok(Found::makes(Source::Raw { bytes }, label))
}

#[tactic(auto, unfolding(hg_script::specs::Table::alter))]
fn alter<'a>(
    above: &Above<'_>,
    l: &'a [u8],
    l2: &[u8],
    place: &[u8],
    b: &[u8],
) -> Result<Found<'a>, Why>
    ensures value { result ≡ spec.alter above.now l.now l2.now place.now b.now }
    ensures lawful { (members : MemberList) → IfOk result (IsFound members above.now) }
{
    let label = new_label(above, l)?;
    let altered = label_of(above, l2)?;
    let at = number_of(place)?;
    let mask = byte_of(b)?;
    Ok(Found::makes(
        Source::Altered {
            label: altered,
            at,
            mask,
        },
        label,
    ))
}

#[tactic(auto, unfolding(hg_script::specs::Table::cut))]
fn cut<'a>(above: &Above<'_>, l: &'a [u8], l2: &[u8], k: &[u8]) -> Result<Found<'a>, Why>
    ensures value { result ≡ spec.cut above.now l.now l2.now k.now }
    ensures lawful { (members : MemberList) → IfOk result (IsFound members above.now) }
{
    let label = new_label(above, l)?;
    let whole = label_of(above, l2)?;
    let len = number_of(k)?;
    Ok(Found::makes(Source::Front { label: whole, len }, label))
}

#[tactic(auto, unfolding(hg_script::specs::Table::give))]
fn give<'a>(members: &Members, above: &Above<'_>, x: &[u8], l: &[u8]) -> Result<Found<'a>, Why>
    ensures value { result ≡ spec.give members.now above.now x.now l.now }
    ensures lawful { IfOk result (IsFound members.now above.now) }
{
    let member = node_of(members, x)?;
    let label = label_of(above, l)?;
    Ok(gossip(Gossip::Give { member, label }))
}

#[tactic(auto, unfolding(hg_script::specs::Table::freeze))]
fn freeze<'a>(members: &Members, x: &[u8], w: &[u8]) -> Result<Found<'a>, Why>
    ensures value { result ≡ spec.freeze members.now x.now w.now }
    ensures lawful { (above : spec.Above) → IfOk result (IsFound members.now above) }
{
    let member = node_of(members, x)?;
    let worker = worker_of(w)?;
    Ok(Found::does(Action::Freeze { member, worker }))
}

#[tactic(auto, unfolding(hg_script::specs::Table::publish))]
fn publish<'a>(members: &Members, x: &[u8], w: &[u8]) -> Result<Found<'a>, Why>
    ensures value { result ≡ spec.publish members.now x.now w.now }
    ensures lawful { (above : spec.Above) → IfOk result (IsFound members.now above) }
{
    let member = node_of(members, x)?;
    let worker = worker_of(w)?;
    Ok(Found::does(Action::Publish { member, worker }))
}

#[tactic(auto, unfolding(hg_script::specs::Table::show_kept))]
fn show_kept<'a>(members: &Members, x: &[u8]) -> Result<Found<'a>, Why>
    ensures value { result ≡ spec.show_kept members.now x.now }
    ensures lawful { (above : spec.Above) → IfOk result (IsFound members.now above) }
{
    let member = node_of(members, x)?;
    Ok(Found::does(Action::Kept { member }))
}

#[tactic(auto, unfolding(hg_script::specs::Table::show))]
fn show<'a>(members: &Members, x: &[u8]) -> Result<Found<'a>, Why>
    ensures value { result ≡ spec.show members.now x.now }
    ensures lawful { (above : spec.Above) → IfOk result (IsFound members.now above) }
{
    let member = node_of(members, x)?;
    Ok(Found::does(Action::Show { member }))
}

#[tactic(auto, unfolding(hg_script::specs::Table::names))]
fn names<'a>(members: &Members, x: &[u8]) -> Result<Found<'a>, Why>
    ensures value { result ≡ spec.names members.now x.now }
    ensures lawful { (above : spec.Above) → IfOk result (IsFound members.now above) }
{
    let member = node_of(members, x)?;
    Ok(Found::does(Action::Names { member }))
}

fn line_by<'a>(
    alloc: Global,
    members: &Members,
    above: &Above<'_>,
    verb: Verb,
    arguments: &[&'a [u8]],
) -> Result<Found<'a>, Stop<Why>>
    ensures value { ReadsAs result (spec.line_by members.now above.now verb (bytes_in arguments.now)) }
    ensures lawful { IfOk result (IsFound members.now above.now) }
{
    match (verb, arguments) {
        (Verb::Create, _) => create_line(alloc, members, above, arguments),
        (Verb::Sync, _) => sync_line(alloc, members, above, arguments),
        (Verb::Pull, [x, y]) => Ok(pull(members, x, y)?),
        (Verb::Pull, _) => Err(Stop::Fault(Why::Arity)),
        (Verb::Join, _) => join_line(alloc, members, above, arguments),
        (Verb::Name, [l, x]) => Ok(name(members, above, l, x)?),
        (Verb::Name, _) => Err(Stop::Fault(Why::Arity)),
        (Verb::Forge, _) => forge_line(alloc, members, above, arguments),
        (Verb::Raw, [l, h]) => raw(alloc, above, l, h),
        (Verb::Raw, _) => Err(Stop::Fault(Why::Arity)),
        (Verb::Alter, [l, l2, place, b]) => Ok(alter(above, l, l2, place, b)?),
        (Verb::Alter, _) => Err(Stop::Fault(Why::Arity)),
        (Verb::Cut, [l, l2, k]) => Ok(cut(above, l, l2, k)?),
        (Verb::Cut, _) => Err(Stop::Fault(Why::Arity)),
        (Verb::Give, [x, l]) => Ok(give(members, above, x, l)?),
        (Verb::Give, _) => Err(Stop::Fault(Why::Arity)),
        (Verb::Freeze, [x, w]) => Ok(freeze(members, x, w)?),
        (Verb::Freeze, _) => Err(Stop::Fault(Why::Arity)),
        (Verb::Publish, [x, w]) => Ok(publish(members, x, w)?),
        (Verb::Publish, _) => Err(Stop::Fault(Why::Arity)),
        (Verb::Kept, [x]) => Ok(show_kept(members, x)?),
        (Verb::Kept, _) => Err(Stop::Fault(Why::Arity)),
        (Verb::Show, [x]) => Ok(show(members, x)?),
        (Verb::Show, _) => Err(Stop::Fault(Why::Arity)),
        (Verb::Names, [x]) => Ok(names(members, x)?),
        (Verb::Names, _) => Err(Stop::Fault(Why::Arity)),
    }
}

/// What a line does that begins with this word, with these behind it and those lines above.
pub fn found_by<'a>(
    alloc: Global,
    members: &Members,
    above: &Above<'_>,
    word: &[u8],
    arguments: &[&'a [u8]],
) -> Result<Found<'a>, Stop<Why>>
    ensures value { ReadsAs result (spec.found_by members.now above.now word.now (bytes_in arguments.now)) }
    ensures lawful { IfOk result (IsFound members.now above.now) }
{
    match Verb::of(word) {
        Some(verb) => line_by(alloc, members, above, verb, arguments),
        None => Err(Stop::Fault(Why::Word)),
    }
}
