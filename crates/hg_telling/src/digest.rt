ghost use Rattle.std.specs.Prelude.{◌≡◌, ◌++◌, codes};
ghost use Rattle.std.specs.Fmt.{decimal};
ghost use Rattle.hg_service.specs.Binding as spec;
ghost use Rattle.hg_telling.specs.Hashing.{Hashes};

use hg_life::{MemberEntry, Members};
use hg_model::Name;
use itoa::Buffer;
use sha2::{Digest, Sha384};

fn hash_number(hasher: &mut Sha384, number: u64)
    ensures { Hashes hasher.old hasher.new (decimal number) }
{
    hasher.update(Buffer::new().format(number).as_bytes());
}

/// The line of a member.
fn hash_entry(hasher: &mut Sha384, entry: &MemberEntry)
    ensures { Hashes hasher.old hasher.new (spec.entry_text entry.now ++ codes "\n") }
{
    hasher.update(entry.name.as_slice());
    hasher.update(b" ");
    hash_number(hasher, entry.balance);
    hasher.update(b" ");
    hash_number(hasher, u64::from(entry.stake));
    hasher.update(b"\n");
}

/// A line for each member.
fn hash_entries(hasher: &mut Sha384, entries: &[MemberEntry])
    ensures { Hashes hasher.old hasher.new (spec.entry_lines entries.now) }
{
    for entry in entries {
        hash_entry(hasher, entry);
    }
}

/// SHA-384 of the canonical text of the members. Takes no memory.
#[tactic(auto, unfolding(hg_service::specs::Binding::canonical, hg_service::specs::Binding::digest_of))]
pub fn digest_of(members: &Members) -> Name
    ensures { result ≡ spec.digest_of members.now }
{
    let mut hasher = Sha384::new();
    hasher.update(b"coin ");
    hash_number(&mut hasher, u64::from(members.coin()));
    hasher.update(b"\n");
    hash_entries(&mut hasher, members.entries());
    hasher.finalize()
}
