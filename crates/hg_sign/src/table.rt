ghost use Rattle.std.specs.Prelude.{◌≡◌, true, All, IfOk, map, slice_get, unwrap_or, []};
ghost use Rattle.std.specs.Str.{bytes_eq};
ghost use Rattle.hg_life.specs.declared.members.MemberEntry.{MemberEntry};
ghost use Rattle.hg_life.specs.Members.{IsEntry};
ghost use Rattle.hg_life.specs.Signing.{accepts_signature, signature_of, secrets_of, signature_by, accepts_by};

use crate::key::Key;
use crate::signer::{Signer, Verifier};
use hg_life::{MemberEntry, Members};
use hg_model::{Member, Memory, Sig};
use std::alloc::Global;
use std::marker::Model;

/// The program's own signatures: HMAC-SHA-512 under the members' secrets.
/// Contracts see the list of the secrets.
#[derive(Drop)]
pub struct MacTable {
    keys: Vec<Key>,
    // The key of the secret of no bytes, for the numbers that are no member's.
    stranger: Key,
}

impl Model for MacTable {
    ghost use Rattle.std.specs.Prelude.{◌≡◌, ℕ, List, []};

    ghost Value = { List (List ℕ) };

    ghost view = { λ s. s.keys.items };

    ghost invariant = { λ s. s.stranger ≡ [] };
}

impl MacTable {
    /// The table of these members' secrets, which signs as the members do and accepts just that.
    pub fn new(alloc: Global, members: &Members) -> Result<MacTable, Memory>
        ensures secrets { IfOk result (λ table. table ≡ secrets_of members.now) }
        ensures signs { IfOk result (λ table. signature_by table ≡ signature_of members.now) }
        ensures accepts { IfOk result (λ table. accepts_by table ≡ accepts_signature members.now) }
    {
        let keys = keys_of(alloc, members.entries())?;
        let stranger = Key::new(alloc, &[])?;
        Ok(MacTable { keys, stranger })
    }

    /// The key of the member's secret.
    fn key(&self, member: Member) -> &Key
        ensures { result.now ≡ unwrap_or (slice_get self.now member) [] }
    {
        match self.keys.get(member as usize) {
            Some(key) => key,
            None => &self.stranger,
        }
    }
}

impl Verifier for MacTable {
    ghost accepts = { accepts_by };

    fn check(&self, member: Member, body: &[u8], sig: &Sig) -> bool {
        is_same(sig, &self.key(member).mac(body))
    }
}

impl Signer for MacTable {
    fn sign(&self, member: Member, body: &[u8]) -> Sig
        ensures accepted { accepts_by self.now member body.now result ≡ true }
        ensures exact { result ≡ signature_by self.now member body.now }
    {
        self.key(member).mac(body)
    }
}

/// The keys of the members' secrets.
fn keys_of(alloc: Global, entries: &[MemberEntry]) -> Result<Vec<Key>, Memory>
    requires { All IsEntry entries.now }
    ensures { IfOk result (λ keys. keys.items ≡ map (λ (e : MemberEntry). e.secret) entries.now) }
{
    let mut keys = Vec::with_capacity(alloc, entries.len())?;
    for entry in entries {
        keys.push(Key::new(alloc, entry.secret.as_slice())?)?;
    }
    Ok(keys)
}

/// Whether the signatures are equal. It looks at all bytes, whatever they are, so that
/// the time it takes does not tell where they differ.
fn is_same(a: &Sig, b: &Sig) -> bool
    ensures { result ≡ bytes_eq a.now b.now }
{
    let mut difference = 0;
    for i in 0..64 {
        difference |= a[i] ^ b[i];
    }
    difference == 0
}
