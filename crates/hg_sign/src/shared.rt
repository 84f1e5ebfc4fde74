ghost use Rattle.std.specs.Prelude.{◌≡◌, true, IfOk};
ghost use Rattle.hg_life.specs.Signing.{accepts_signature, signature_of, secrets_of, signature_by, accepts_by};

use crate::signer::{Signer, Verifier};
use crate::table::MacTable;
use hg_life::Members;
use hg_model::{Member, Memory, Sig};
use std::alloc::Global;
use std::marker::Model;
use std::sync::Arc;

/// A table of the members' secrets that several nodes share, so that it stands in memory once.
/// Contracts see the list of the secrets.
#[derive(Drop)]
pub struct SharedTable {
    table: Arc<MacTable>,
}

impl Model for SharedTable {
    ghost use Rattle.std.specs.Prelude.{ℕ, List};

    ghost Value = { List (List ℕ) };

    ghost view = { λ s. s.table.value };
}

impl SharedTable {
    /// The table of these members' secrets, which signs as the members do and accepts just that.
    pub fn new(alloc: Global, members: &Members) -> Result<SharedTable, Memory>
        ensures secrets { IfOk result (λ table. table ≡ secrets_of members.now) }
        ensures signs { IfOk result (λ table. signature_by table ≡ signature_of members.now) }
        ensures accepts { IfOk result (λ table. accepts_by table ≡ accepts_signature members.now) }
    {
        let table = MacTable::new(alloc, members)?;
        Ok(SharedTable {
            table: Arc::new(alloc, table)?,
        })
    }

    /// The same table once more.
    pub fn shared(&self) -> Result<SharedTable, Memory>
        ensures { IfOk result (λ table. table ≡ self.now) }
    {
        Ok(SharedTable {
            table: Arc::try_clone(&self.table)?,
        })
    }
}

impl Verifier for SharedTable {
    ghost accepts = { accepts_by };

    fn check(&self, member: Member, body: &[u8], sig: &Sig) -> bool {
        self.table.check(member, body, sig)
    }
}

impl Signer for SharedTable {
    fn sign(&self, member: Member, body: &[u8]) -> Sig
        ensures accepted { accepts_by self.now member body.now result ≡ true }
        ensures exact { result ≡ signature_by self.now member body.now }
    {
        self.table.sign(member, body)
    }
}
