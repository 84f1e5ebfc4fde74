ghost use Rattle.std.specs.Prelude.{◌≡◌, ◌∷◌, []};
ghost use Rattle.std.specs.Str.{bytes_eq};
ghost use Rattle.hg_script.specs.Words.{ReadsAs, bytes_in};
ghost use Rattle.hg_service.specs.Asking as spec;

use crate::front::LINE;
use crate::words::{events_in, first_in, limit_in, names_in, number_in, payload_in};
use hg_life::Members;
use hg_model::Stop;
use hg_reading::all_words;
use hg_script::Why;
use hg_service::{LineFault, ServiceRequest};
use std::alloc::Global;

/// The greatest number of names of other-parents.
const MOST_NAMES: usize = 4;

/// A request without words.
fn alone(request: ServiceRequest, words: &[&[u8]]) -> Result<ServiceRequest, Stop<LineFault>>
    ensures { ReadsAs result (spec.alone request (bytes_in words.now)) }
{
    match words {
        [] => Ok(request),
        _ => Err(Stop::Fault(LineFault::Script(Why::Arity))),
    }
}

/// PLACE LIMIT and names.
fn beyond(alloc: Global, words: &[&[u8]]) -> Result<ServiceRequest, Stop<LineFault>>
    ensures { ReadsAs result (spec.beyond_in (bytes_in words.now)) }
{
    match words {
        [place, limit, names @ ..] => {
            let place = number_in(place)?;
            let limit = limit_in(limit)?;
            let names = names_in(alloc, names)?;
            Ok(ServiceRequest::Beyond {
                place,
                limit,
                names,
            })
        }
        _ => Err(Stop::Fault(LineFault::Script(Why::Arity))),
    }
}

fn put(alloc: Global, words: &[&[u8]]) -> Result<ServiceRequest, Stop<LineFault>>
    ensures { ReadsAs result (spec.put_in (bytes_in words.now)) }
{
    let events = events_in(alloc, words)?;
    Ok(ServiceRequest::Put(events))
}

fn restore(alloc: Global, words: &[&[u8]]) -> Result<ServiceRequest, Stop<LineFault>>
    ensures { ReadsAs result (spec.restore_in (bytes_in words.now)) }
{
    let events = events_in(alloc, words)?;
    Ok(ServiceRequest::Restore(events))
}

/// The time, the payload and the names, each given.
fn make_with(
    alloc: Global,
    members: &Members,
    time: &[u8],
    payload: &[u8],
    names: &[&[u8]],
) -> Result<ServiceRequest, Stop<LineFault>>
    ensures { ReadsAs result (spec.make_with members.now time.now payload.now (bytes_in names.now)) }
{
    let time = number_in(time)?;
    let payload = payload_in(alloc, members, payload)?;
    let others = names_in(alloc, names)?;
    Ok(ServiceRequest::Make {
        time,
        payload,
        others,
    })
}

/// TIME, and then PAYLOAD and at most four names, if anything.
fn make(
    alloc: Global,
    members: &Members,
    words: &[&[u8]],
) -> Result<ServiceRequest, Stop<LineFault>>
    ensures { ReadsAs result (spec.make_in members.now (bytes_in words.now)) }
{
    match words {
        [time] => make_with(alloc, members, time, b"-", &[]),
        [time, payload, names @ ..] if names.len() <= MOST_NAMES => {
            make_with(alloc, members, time, payload, names)
        }
        _ => Err(Stop::Fault(LineFault::Script(Why::Arity))),
    }
}

fn order_from(first: &[u8], limit: &[u8]) -> Result<ServiceRequest, Stop<LineFault>>
    ensures { ReadsAs result (spec.order_in (first.now ∷ limit.now ∷ [])) }
{
    let first = first_in(first)?;
    let limit = limit_in(limit)?;
    Ok(ServiceRequest::Order { first, limit })
}

/// FIRST LIMIT.
fn order(words: &[&[u8]]) -> Result<ServiceRequest, Stop<LineFault>>
    ensures { ReadsAs result (spec.order_in (bytes_in words.now)) }
{
    match words {
        [first, limit] => order_from(first, limit),
        _ => Err(Stop::Fault(LineFault::Script(Why::Arity))),
    }
}

/// PLACE LIMIT.
fn events(words: &[&[u8]]) -> Result<ServiceRequest, Stop<LineFault>>
    ensures { ReadsAs result (spec.events_in (bytes_in words.now)) }
{
    match words {
        [place, limit] => {
            let place = number_in(place)?;
            let limit = limit_in(limit)?;
            Ok(ServiceRequest::Events { place, limit })
        }
        _ => Err(Stop::Fault(LineFault::Script(Why::Arity))),
    }
}

fn is_word(word: &[u8], other: &[u8]) -> bool
    ensures { result ≡ bytes_eq word.now other.now }
{
    word == other
}

/// What a line asks that begins with this word, with these behind it.
fn asked_by(
    alloc: Global,
    members: &Members,
    verb: &[u8],
    words: &[&[u8]],
) -> Result<ServiceRequest, Stop<LineFault>>
    ensures { ReadsAs result (spec.asked_by members.now verb.now (bytes_in words.now)) }
{
    if is_word(verb, b"members") {
        alone(ServiceRequest::Members, words)
    } else if is_word(verb, b"state") {
        alone(ServiceRequest::State, words)
    } else if is_word(verb, b"heads") {
        alone(ServiceRequest::Heads, words)
    } else if is_word(verb, b"beyond") {
        beyond(alloc, words)
    } else if is_word(verb, b"put") {
        put(alloc, words)
    } else if is_word(verb, b"restore") {
        restore(alloc, words)
    } else if is_word(verb, b"make") {
        make(alloc, members, words)
    } else if is_word(verb, b"settle") {
        alone(ServiceRequest::Settle, words)
    } else if is_word(verb, b"order") {
        order(words)
    } else if is_word(verb, b"events") {
        events(words)
    } else if is_word(verb, b"balances") {
        alone(ServiceRequest::Balances, words)
    } else if is_word(verb, b"proof") {
        alone(ServiceRequest::Proof, words)
    } else {
        Err(Stop::Fault(LineFault::Script(Why::Word)))
    }
}

/// The request that a line is, which comes without its line feed. A `Fault` is the first reason why it is none: it is too long,
/// its first word is no request's, too few or too many words follow, or one of them is not what it has to be, from left to
/// right.
#[tactic(auto, unfolding(hg_service::specs::Asking::request_of))]
pub fn request_of(
    alloc: Global,
    members: &Members,
    line: &[u8],
) -> Result<ServiceRequest, Stop<LineFault>>
    ensures { ReadsAs result (spec.request_of members.now line.now) }
{
    if line.len() > LINE {
        return Err(Stop::Fault(LineFault::Long));
    }
    let words = all_words(alloc, line)?;
    match words.as_slice() {
        [] => Err(Stop::Fault(LineFault::Script(Why::Word))),
        [verb, words @ ..] => asked_by(alloc, members, verb, words),
    }
}
