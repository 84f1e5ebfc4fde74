ghost use Rattle.std.specs.Prelude.{◌≡◌, ◌≤◌, count_by, length, nat_le, position, IfOk};
ghost use Rattle.std.specs.List.{after_first, before_first, list_all};
ghost use Rattle.std.specs.Option.{option_copied};
ghost use Rattle.hg_life.specs.Pay.{transfer_limit};
ghost use Rattle.hg_life.specs.Spelling.{payload_limit};
ghost use Rattle.hg_life.specs.Results.{Gives};
ghost use Rattle.hg_script.specs.Words.{ReadsAs, bytes_in};
ghost use Rattle.hg_script.specs.Argument.{is_comma, parts_of};
ghost use Rattle.hg_script.specs.Payload as spec;

use crate::parts::{is_comma, parts_of};
use hg_life::{Members, Transfer};
use hg_model::{Bytes, Member, Memory, Stop};
use hg_pay::write_pay;
use hg_script::Why;
use hg_script::argument::{digits_form, member_of, number_of};
use std::alloc::{AllocError, Global};

/// The greatest number of transfers in one payload.
const MOST_ITEMS: usize = 64;

fn is_equals(byte: u8) -> bool
    ensures { result ≡ spec.is_equals byte }
{
    byte == b'='
}

fn is_item(part: &[u8]) -> bool
    ensures { result ≡ spec.is_item part.now }
{
    part.iter().filter(|byte| is_equals(**byte)).count() == 1
}

fn are_items(parts: &[&[u8]]) -> bool
    ensures { result ≡ list_all (λ part. spec.is_item part.now) parts.now }
{
    parts.iter().all(|part| is_item(*part))
}

/// How many commas there are.
fn commas_in(text: &[u8]) -> usize
    ensures { result ≡ count_by is_comma text.now }
{
    text.iter().filter(|byte| is_comma(**byte)).count()
}

/// Whether the text has at most 64 parts, which is looked at before any of them is kept.
fn has_few_parts(text: &[u8]) -> bool
    ensures { result ≡ nat_le (length (parts_of text.now)) transfer_limit }
{
    commas_in(text) < MOST_ITEMS
}

fn equals_in(part: &[u8]) -> Option<usize>
    ensures { result ≡ position spec.is_equals part.now }
{
    part.iter().position(|byte| is_equals(*byte))
}

/// What stands before the first `=`, and behind it.
fn sides_of(part: &[u8]) -> (&[u8], &[u8])
    ensures before { result.0.now ≡ before_first spec.is_equals part.now }
    ensures after { result.1.now ≡ after_first spec.is_equals part.now }
{
    match equals_in(part) {
        Some(end) => (&part[..end], &part[end + 1..]),
        None => (part, &part[part.len()..]),
    }
}

/// A number below 65,536.
fn id_of(word: &[u8]) -> Result<Member, Why>
    ensures { result ≡ spec.id_of word.now }
{
    let number = number_of(word)?;
    if number < 65_536 {
        Ok(number as Member)
    } else {
        Err(Why::Number)
    }
}

fn receiver_of(members: &Members, word: &[u8]) -> Result<Member, Why>
    ensures { result ≡ spec.receiver_of members.now word.now }
{
    match word {
        [b'#', id @ ..] => id_of(id),
        _ => member_of(members, word),
    }
}

#[tactic(auto, unfolding(hg_script::specs::Payload::transfer_of))]
fn transfer_of(members: &Members, part: &[u8]) -> Result<Transfer, Why>
    ensures { result ≡ spec.transfer_of members.now part.now }
{
    let (receiver, amount) = sides_of(part);
    let receiver = receiver_of(members, receiver)?;
    let amount = number_of(amount)?;
    Ok(Transfer { receiver, amount })
}

fn transfers_of(
    alloc: Global,
    members: &Members,
    parts: &[&[u8]],
) -> Result<Vec<Transfer>, Stop<Why>>
    ensures value { Gives (λ transfers. transfers.items) result (spec.transfers_of members.now (bytes_in parts.now)) }
    ensures many { IfOk result (λ transfers. length transfers.items ≡ length parts.now) }
{
    let mut transfers = Vec::with_capacity(alloc, parts.len())?;
    for part in parts {
        let transfer = transfer_of(members, *part)?;
        transfers.push_reserved(transfer);
    }
    Ok(transfers)
}

/// The payload of the transfers of these items.
fn pay_in(alloc: Global, members: &Members, parts: &[&[u8]]) -> Result<Bytes, Stop<Why>>
    requires { length parts.now ≤ transfer_limit }
    ensures value { ReadsAs result (spec.pay_in members.now (bytes_in parts.now)) }
    ensures fits { IfOk result (λ payload. length payload ≤ payload_limit) }
{
    let transfers = transfers_of(alloc, members, parts)?;
    match write_pay(alloc, &transfers) {
        Ok(payload) => Ok(payload),
        Err(Memory) => Err(Stop::Memory),
    }
}

/// The payload of the transfers behind `pay:`.
fn pay_of(alloc: Global, members: &Members, text: &[u8]) -> Result<Bytes, Stop<Why>>
    ensures value { ReadsAs result (spec.pay_of members.now text.now) }
    ensures fits { IfOk result (λ payload. length payload ≤ payload_limit) }
{
    if !has_few_parts(text) {
        return Err(Stop::Fault(Why::Payload));
    }
    let parts = parts_of(alloc, text)?;
    if !are_items(&parts) {
        return Err(Stop::Fault(Why::Payload));
    }
    pay_in(alloc, members, &parts)
}

/// The bytes of at most 2,048 hexadecimal digits.
fn hex_of(alloc: Global, digits: &[u8]) -> Result<Bytes, Stop<Why>>
    ensures value { ReadsAs result (spec.hex_of digits.now) }
    ensures fits { IfOk result (λ payload. length payload ≤ payload_limit) }
{
    match digits_form(alloc, 0, 2048, digits)? {
        Some(bytes) => Ok(bytes),
        None => Err(Stop::Fault(Why::Payload)),
    }
}

fn payload_word(alloc: Global, members: &Members, word: &[u8]) -> Result<Bytes, Stop<Why>>
    ensures value { ReadsAs result (spec.payload_word members.now word.now) }
    ensures fits { IfOk result (λ payload. length payload ≤ payload_limit) }
{
    if let Some(digits) = word.strip_prefix(b"hex:".as_slice()) {
        hex_of(alloc, digits)
    } else if let Some(text) = word.strip_prefix(b"pay:".as_slice()) {
        pay_of(alloc, members, text)
    } else {
        Err(Stop::Fault(Why::Payload))
    }
}

/// The payload that the word tells, or an empty one without the word.
pub fn payload_of(alloc: Global, members: &Members, word: Option<&[u8]>) -> Result<Bytes, Stop<Why>>
    ensures value { ReadsAs result (spec.payload_of members.now (option_copied word.entry)) }
    ensures fits { IfOk result (λ payload. length payload ≤ payload_limit) }
{
    match word {
        Some(word) => payload_word(alloc, members, word),
        None => Ok(Bytes::new(alloc)),
    }
}
