ghost use Rattle.std.specs.Prelude.{◌≡◌, ◌<◌, ◌≤◌, ◌+◌, ◌-◌, ◌*◌, ◌^◌, ◌≢◌, false, length, IfOk, IfSome, IsTrue, SomeIff};
ghost use Rattle.std.specs.List.{list_any};
ghost use Rattle.std.specs.Str.{bytes_eq};
ghost use Rattle.hg_life.specs.Members.{is_digit};
ghost use Rattle.hg_life.specs.Results.{Reads};
ghost use Rattle.hg_script.specs.Words.{ReadsAs};
ghost use Rattle.hg_script.specs.Lawful.{HasNode, IsWorker};
ghost use Rattle.hg_script.specs.Argument as spec;

use crate::above::Above;
use crate::fault::Why;
use hex::FromHexError;
use hg_life::{Members, is_member_name};
use hg_model::{Bytes, Member, Stop};
use std::alloc::{AllocError, Global};

fn is_digit(byte: u8) -> bool
    ensures { result ≡ is_digit byte }
{
    matches!(byte, b'0'..=b'9')
}

fn with_digit(value: u64, digit: u8) -> Option<u64>
    requires { IsTrue (is_digit digit) }
    ensures { SomeIff result (value * 10 + (digit - 48) < 2 ^ 64) (value * 10 + (digit - 48)) }
{
    value.checked_mul(10)?.checked_add((digit - b'0') as u64)
}

fn value_of(word: &[u8]) -> Result<u64, Why>
    ensures { result ≡ spec.below (2 ^ 64) (spec.value_after 0 word.now) }
{
    let mut value: u64 = 0;
    for digit in word {
        if !is_digit(*digit) {
            return Err(Why::Number);
        }
        let Some(longer) = with_digit(value, *digit) else {
            return Err(Why::Number);
        };
        value = longer;
    }
    Ok(value)
}

/// A number of 64 bits.
pub fn number_of(word: &[u8]) -> Result<u64, Why>
    ensures { result ≡ spec.number_of word.now }
{
    if word.is_empty() || word.len() > 20 {
        return Err(Why::Number);
    }
    value_of(word)
}

/// The member with this name.
pub fn member_of(members: &Members, word: &[u8]) -> Result<Member, Why>
    ensures value { result ≡ spec.member_of members.now word.now }
    ensures listed { IfOk result (λ m. m < 128) }
{
    members.place_of(word).ok_or(Why::Member)
}

fn with_node(members: &Members, member: Member) -> Result<Member, Why>
    ensures value { result ≡ spec.with_node members.now member }
    ensures node { IfOk result (λ m. HasNode members.now m × (m ≡ member)) }
{
    if members.has_node(member) {
        Ok(member)
    } else {
        Err(Why::NoNode)
    }
}

/// The member with this name, who must have a node.
pub fn node_of(members: &Members, word: &[u8]) -> Result<Member, Why>
    ensures value { result ≡ spec.node_of members.now word.now }
    ensures node { IfOk result (λ m. HasNode members.now m × (m < 128)) }
{
    with_node(members, member_of(members, word)?)
}

/// The member with this name, who must have a node and be another than the taker.
pub fn peer_of(members: &Members, taker: Member, word: &[u8]) -> Result<Member, Why>
    ensures value { result ≡ spec.peer_of members.now taker word.now }
    ensures node { IfOk result (λ m. HasNode members.now m × (m ≢ taker)) }
{
    let peer = member_of(members, word)?;
    if peer == taker {
        return Err(Why::Member);
    }
    with_node(members, peer)
}

/// A number below 256.
pub fn byte_of(word: &[u8]) -> Result<u8, Why>
    ensures { result ≡ spec.byte_of word.now }
{
    let number = number_of(word)?;
    if number < 256 {
        Ok(number as u8)
    } else {
        Err(Why::Number)
    }
}

/// The number of a worker, below 16.
pub fn worker_of(word: &[u8]) -> Result<u32, Why>
    ensures value { result ≡ spec.worker_of word.now }
    ensures worker { IfOk result IsWorker }
{
    let number = number_of(word)?;
    if number < 16 {
        Ok(number as u32)
    } else {
        Err(Why::Number)
    }
}

/// The number of a label that was made above.
pub fn label_of(above: &Above<'_>, word: &[u8]) -> Result<usize, Why>
    ensures { result ≡ spec.label_of above.now.labels word.now }
{
    match above.place_of(word) {
        Some(place) => Ok(place),
        None => Err(Why::Label),
    }
}

/// The name of a label to be made.
pub fn new_label<'a>(above: &Above<'_>, word: &'a [u8]) -> Result<&'a [u8], Why>
    ensures value { Reads (λ label. label.now) result (spec.new_label above.now.labels word.now) }
    ensures new { IfOk result (λ label. list_any (bytes_eq label.now) above.now.labels ≡ false) }
{
    if !is_member_name(word) {
        return Err(Why::Label);
    }
    if above.is_label(word) {
        return Err(Why::DoubleLabel);
    }
    Ok(word)
}

/// Whether it is the word `-`.
pub fn is_dash(word: &[u8]) -> bool
    ensures { result ≡ spec.is_dash word.now }
{
    word == b"-".as_slice()
}

/// The bytes of so many hexadecimal digits, from the least to the most.
pub fn digits_form(
    alloc: Global,
    least: usize,
    most: usize,
    word: &[u8],
) -> Result<Option<Bytes>, AllocError>
    ensures value { IfOk result (λ bytes. bytes ≡ spec.digits_form least most word.now) }
    ensures fits { IfOk result (λ bytes. IfSome bytes (λ b. 2 * length b ≤ most)) }
{
    if word.len() < least || word.len() > most {
        return Ok(None);
    }
    match hex::decode(alloc, word) {
        Ok(bytes) => Ok(Some(Bytes::from_vec(bytes))),
        Err(FromHexError::OutOfMemory) => Err(AllocError),
        Err(_) => Ok(None),
    }
}

/// The bytes of 2 to 8,192 hexadecimal digits.
pub fn raw_bytes(alloc: Global, word: &[u8]) -> Result<Bytes, Stop<Why>>
    ensures { ReadsAs result (spec.raw_bytes word.now) }
{
    match digits_form(alloc, 2, 8192, word)? {
        Some(bytes) => Ok(bytes),
        None => Err(Stop::Fault(Why::Payload)),
    }
}
