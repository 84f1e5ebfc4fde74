ghost use Rattle.std.specs.Prelude.{◌≡◌, ◌++◌, ◌≤◌, true, length, IfOk};
ghost use Rattle.hg_model.specs.Links.{has_few_others};
ghost use Rattle.hg_life.specs.Spelling.{Spells, body_bytes, payload_limit};
ghost use Rattle.hg_life.specs.Verdict.{signed_row};
ghost use Rattle.hg_sign.specs.Signed.{IsSigned};

use crate::signer::Signer;
use hg_event::encode_body;
use hg_model::{Items, Member, Memory, Name, Sig};
use std::alloc::Global;

/// An event in bytes, and the signature that they end with.
#[derive(Drop)]
pub struct SignedBytes {
    pub bytes: Vec<u8>,
    pub sig: Sig,
}

/// The bytes of the event with these fields under its creator's signature.
pub fn signed_bytes<V: Signer>(
    alloc: Global,
    keys: &V,
    creator: Member,
    parents: &Option<(Name, Items<Name>)>,
    time: u64,
    payload: &[u8],
) -> Result<SignedBytes, Memory>
    requires few { has_few_others parents.now ≡ true }
    requires payload { length payload.now ≤ payload_limit }
    ensures bytes { IfOk result (λ e. e.bytes.items ≡ body_bytes creator parents.now time payload.now ++ e.sig) }
    ensures spells { IfOk result (λ e. Spells e.bytes.items (signed_row creator parents.now time payload.now e.sig)) }
    ensures signed { IfOk result (λ e. IsSigned (V.accepts keys.now) creator parents.now time payload.now e.sig) }
{
    let mut bytes = encode_body(alloc, creator, parents, time, payload)?;
    let sig = keys.sign(creator, bytes.as_slice());
    bytes.extend_from_slice(&sig).unwrap();
    Ok(SignedBytes { bytes, sig })
}
