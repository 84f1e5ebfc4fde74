ghost use Rattle.std.specs.Prelude.{◌≡◌, ◌≤◌, ◌++◌, IfOk, length, drop};
ghost use Rattle.hg_life.specs.Signing.{hmac_sha512, masked, padded_secret};
ghost use Rattle.hg_sign.specs.Masked.{HoldsMasked};

use hg_model::{Memory, Sig};
use sha2::{Digest, Sha512};
use std::alloc::Global;
use std::marker::Model;

/// What signs under one secret: the two hashers of HMAC (RFC 2104), each after the block that depends
/// on the secret alone, so that no signature hashes these blocks again.
/// Contracts see the secret, which is kept for them.
#[derive(Drop)]
pub(crate) struct Key {
    secret: Vec<u8>,
    inner: Sha512,
    outer: Sha512,
}

impl Model for Key {
    ghost use Rattle.std.specs.Prelude.{ℕ, List};
    ghost use Rattle.hg_sign.specs.Masked.{HoldsMasked};

    ghost Value = { List ℕ };

    ghost view = { λ s. s.secret.items };

    ghost invariant = { λ s. HoldsMasked s.inner 0x36 s.secret.items × HoldsMasked s.outer 0x5c s.secret.items };
}

impl Key {
    /// The key of a secret of at most 128 bytes.
    pub(crate) fn new(alloc: Global, secret: &[u8]) -> Result<Key, Memory>
        requires { length secret.now ≤ 128 }
        ensures { IfOk result (λ key. key ≡ secret.now) }
    {
        let secret = Vec::from_slice(alloc, secret)?;
        let inner = hasher_after(secret.as_slice(), 0x36);
        let outer = hasher_after(secret.as_slice(), 0x5c);
        Ok(Key {
            secret,
            inner,
            outer,
        })
    }

    /// HMAC-SHA-512 of the message. Takes no memory.
    #[tactic(auto, unfolding(hg_life::specs::Signing::hmac_sha512))]
    pub(crate) fn mac(&self, message: &[u8]) -> Sig
        ensures { result ≡ hmac_sha512 self.now message.now }
    {
        let mut inner = self.inner.clone().unwrap();
        inner.update(message);
        let digest = inner.finalize();
        let mut outer = self.outer.clone().unwrap();
        outer.update(digest.as_slice());
        outer.finalize()
    }
}

/// A hasher that has taken in the secret, filled up with zero bytes and masked.
fn hasher_after(secret: &[u8], mask: u8) -> Sha512
    requires { length secret.now ≤ 128 }
    ensures { HoldsMasked result mask secret.now }
{
    let mut block = padded_block(secret);
    mask_all(&mut block, mask);
    Sha512::new_with_prefix(block.as_slice())
}

/// The secret, filled up with zero bytes to a block of SHA-512.
fn padded_block(secret: &[u8]) -> [u8; 128]
    requires { length secret.now ≤ 128 }
    ensures { result ≡ padded_secret secret.now }
{
    let mut block = [0; 128];
    write_front(&mut block, secret);
    block
}

/// Writes the bytes over the front of the block.
fn write_front(block: &mut [u8], bytes: &[u8])
    requires { length bytes.now ≤ length block.old }
    ensures { block.new ≡ bytes.now ++ drop (length bytes.now) block.old }
{
    block[..bytes.len()].copy_from_slice(bytes);
}

/// XORs each byte with the mask.
fn mask_all(block: &mut [u8], mask: u8)
    ensures { block.new ≡ masked mask block.old }
{
    for byte in block.iter_mut() {
        *byte ^= mask;
    }
}
