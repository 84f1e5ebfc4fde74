ghost use Rattle.std.specs.Prelude.{◌≡◌, length, IfOk};
ghost use Rattle.hg_life.specs.Results.{Gives};
ghost use Rattle.hg_script.specs.Words.{ReadsAs, bytes_in, read_each};
ghost use Rattle.hg_service.specs.Asking as spec;

use crate::front::LINE;
use hex::decode_to_slice;
use hg_life::Members;
use hg_model::{Bytes, Items, Name, Stop};
use hg_reading::payload_of;
use hg_script::Why;
use hg_script::argument::{digits_form, is_dash, number_of};
use hg_service::LineFault;
use std::alloc::Global;

/// How many lines an answer may have behind its first one.
const ANSWER: u64 = 4096;

/// How many digits a name has.
const NAME: usize = 96;

/// A number of 64 bits.
pub fn number_in(word: &[u8]) -> Result<u64, Stop<LineFault>>
    ensures { ReadsAs result (spec.number_in word.now) }
{
    match number_of(word) {
        Ok(number) => Ok(number),
        Err(why) => Err(Stop::Fault(LineFault::Script(why))),
    }
}

/// The number of an ordered event, from 1.
pub fn first_in(word: &[u8]) -> Result<u64, Stop<LineFault>>
    ensures { ReadsAs result (spec.first_in word.now) }
{
    let first = number_in(word)?;
    if 1 <= first {
        Ok(first)
    } else {
        Err(Stop::Fault(LineFault::Script(Why::Number)))
    }
}

/// How many lines are wanted, from 1 to 4,096.
pub fn limit_in(word: &[u8]) -> Result<u64, Stop<LineFault>>
    ensures { ReadsAs result (spec.limit_in word.now) }
{
    let limit = first_in(word)?;
    if limit <= ANSWER {
        Ok(limit)
    } else {
        Err(Stop::Fault(LineFault::Script(Why::Number)))
    }
}

/// The payload, none for the word `-`.
pub fn payload_in(alloc: Global, members: &Members, word: &[u8]) -> Result<Bytes, Stop<LineFault>>
    ensures { ReadsAs result (spec.payload_in members.now word.now) }
{
    if is_dash(word) {
        return Ok(Bytes::new(alloc));
    }
    match payload_of(alloc, members, Some(word)) {
        Ok(payload) => Ok(payload),
        Err(Stop::Fault(why)) => Err(Stop::Fault(LineFault::Script(why))),
        Err(Stop::Memory) => Err(Stop::Memory),
    }
}

fn name_in(word: &[u8]) -> Result<Name, LineFault>
    ensures { result ≡ spec.name_in word.now }
{
    if word.len() != NAME {
        return Err(LineFault::Name);
    }
    let mut name = [0; 48];
    match decode_to_slice(word, &mut name) {
        Ok(()) => Ok(name),
        Err(_) => Err(LineFault::Name),
    }
}

fn event_in(alloc: Global, word: &[u8]) -> Result<Bytes, Stop<LineFault>>
    ensures { ReadsAs result (spec.event_in word.now) }
{
    match digits_form(alloc, 2, LINE, word)? {
        Some(event) => Ok(event),
        None => Err(Stop::Fault(LineFault::Digits)),
    }
}

/// The names that these words spell, one after the other.
pub fn names_in(alloc: Global, words: &[&[u8]]) -> Result<Items<Name>, Stop<LineFault>>
    ensures { ReadsAs result (read_each spec.name_in (bytes_in words.now)) }
{
    let mut names = Vec::with_capacity(alloc, words.len())?;
    for word in words {
        match name_in(*word) {
            Ok(name) => names.push_reserved(name),
            Err(fault) => return Err(Stop::Fault(fault)),
        }
    }
    Ok(Items::from_vec(names))
}

/// The events that these words spell, one after the other.
pub fn events_in(alloc: Global, words: &[&[u8]]) -> Result<Items<Bytes>, Stop<LineFault>>
    ensures { ReadsAs result (read_each spec.event_in (bytes_in words.now)) }
{
    let mut events = Vec::new(alloc);
    for word in words {
        let event = event_in(alloc, *word)?;
        events.push(event)?;
    }
    Ok(Items::from_vec(events))
}
