ghost use Rattle.std.specs.Prelude.{◌≡◌, ◌+◌, ◌*◌, ◌++◌, ◌≤◌, true, IfOk, IfSome, OnOk, length, vec_capacity, vec_len};
ghost use Rattle.std.specs.List.{AllByRecursion, concat};
ghost use Rattle.sha2.specs.Sha512.{sha384};
ghost use Rattle.hg_model.specs.Links.{has_few_others, parent_names};
ghost use Rattle.hg_life.specs.Spelling.{AreNames, Spells, body_bytes, form_byte, has_several, parent_bytes};
ghost use Rattle.hg_life.specs.Spelling.{payload_limit, spelling};
ghost use Rattle.hg_event.specs.Signed.{SpellsSigned};

use crate::fields::{MAGIC, ONE, SEVERAL};
use hg_model::{Items, Member, Memory, Name, Row};
use std::alloc::Global;

/// The bytes of an event with no parents and no payload, its signature's included.
const SIZE: usize = 81;

/// The bytes of a name.
const NAME_SIZE: usize = 48;

/// The row's fields, one after the other: its spelling, where the row's name is theirs. The name may be any.
#[tactic(auto, unfolding(hg_life::specs::Spelling::spelling, hg_life::specs::Spelling::body_of))]
pub fn encode(alloc: Global, row: &Row) -> Result<Vec<u8>, Memory>
    requires few { has_few_others row.now.parents ≡ true }
    requires payload { length row.now.payload ≤ payload_limit }
    ensures fields { IfOk result (λ bytes. bytes.items ≡ spelling row.now) }
    ensures spells { IfOk result (λ bytes. row.now.name ≡ sha384 bytes.items → Spells bytes.items row.now) }
{
    let mut bytes = encode_body(
        alloc,
        row.creator,
        &row.parents,
        row.time,
        row.payload.as_slice(),
    )?;
    bytes.extend_from_slice(&row.sig).unwrap();
    Ok(bytes)
}

/// What the creator of an event with these fields signs.
/// The `Vec` has room for the 64 bytes of the signature, with which the event is whole.
#[tactic(auto, unfolding(hg_life::specs::Spelling::spelling, hg_life::specs::Spelling::body_of))]
pub fn encode_body(
    alloc: Global,
    creator: Member,
    parents: &Option<(Name, Items<Name>)>,
    time: u64,
    payload: &[u8],
) -> Result<Vec<u8>, Memory>
    requires few { has_few_others parents.now ≡ true }
    requires payload { length payload.now ≤ payload_limit }
    ensures bytes { IfOk result (λ body. body.items ≡ body_bytes creator parents.now time payload.now) }
    ensures spells { IfOk result (λ body. SpellsSigned body.items creator parents.now time payload.now) }
    ensures room { IfOk result (λ body. vec_len body + 64 ≤ vec_capacity body) }
{
    let mut body = Vec::with_capacity(alloc, SIZE + names_size(parents) + payload.len())?;
    body.extend_from_slice(MAGIC.as_slice())?;
    body.push(digit_of(parents))?;
    body.extend_from_slice(&creator.to_be_bytes())?;
    push_parents(&mut body, parents)?;
    body.extend_from_slice(&time.to_be_bytes())?;
    body.extend_from_slice(&(payload.len() as u16).to_be_bytes())?;
    body.extend_from_slice(payload)?;
    Ok(body)
}

/// How many bytes the names have.
fn names_size(parents: &Option<(Name, Items<Name>)>) -> usize
    requires { has_few_others parents.now ≡ true }
    ensures size { result ≡ 48 * length (parent_names parents.now) }
    ensures few { result ≤ 240 }
{
    match parents {
        None => 0,
        Some(names) => NAME_SIZE * (1 + names.1.as_slice().len()),
    }
}

/// The last byte of the form.
fn digit_of(parents: &Option<(Name, Items<Name>)>) -> u8
    ensures { result ≡ form_byte (has_several parents.now) }
{
    match parents {
        None => ONE,
        Some(names) => {
            if names.1.as_slice().len() > 1 {
                SEVERAL
            } else {
                ONE
            }
        }
    }
}

/// Writes the kind and the parents' names at the end of the body.
fn push_parents(body: &mut Vec<u8>, parents: &Option<(Name, Items<Name>)>) -> Result<(), Memory>
    requires { has_few_others parents.now ≡ true }
    ensures bytes { OnOk result (body.new.items ≡ body.old.items ++ parent_bytes parents.now) }
    ensures names { OnOk result (IfSome parents.now AreNames) }
    ensures len { OnOk result (vec_len body.new ≤ vec_len body.old + 1 + 48 * length (parent_names parents.now)) }
    ensures capacity { vec_capacity body.old ≤ vec_capacity body.new }
{
    match parents {
        None => body.push(0)?,
        Some(names) => {
            let others = names.1.as_slice();
            body.push(others.len() as u8)?;
            body.extend_from_slice(&names.0)?;
            push_names(body, others)?;
        }
    }
    Ok(())
}

/// Writes the names one behind the other at the end of the body.
fn push_names(body: &mut Vec<u8>, names: &[Name]) -> Result<(), Memory>
    ensures bytes { OnOk result (body.new.items ≡ body.old.items ++ concat names.now) }
    ensures names { OnOk result (AllByRecursion (λ name. length name ≡ 48) names.now) }
    ensures len { OnOk result (vec_len body.new ≤ vec_len body.old + 48 * length names.now) }
    ensures capacity { vec_capacity body.old ≤ vec_capacity body.new }
{
    for name in names {
        body.extend_from_slice(name)?;
    }
    Ok(())
}
