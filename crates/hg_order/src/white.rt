ghost use Rattle.std.specs.Prelude.{◌≡◌, ◌<◌, All, length, replicate};
ghost use Rattle.hg_model.specs.Order.{xor_bytes};
ghost use Rattle.hg_order.specs.Famous.{whitening_of};
ghost use Rattle.hg_order.specs.Round.{whitened_cmp};

use hg_model::{Name, Prefix, Sig};
use std::cmp::Ordering;

/// How two rows compare whose consensus timestamps are the same: by their signatures, each XORed with `white`, and at
/// last by their names. It reads no further than to the first bytes that differ.
pub fn white_cmp(a: &Sig, a_name: &Name, b: &Sig, b_name: &Name, white: &Sig) -> Ordering
    ensures { result ≡ whitened_cmp white.now a.now a_name.now b.now b_name.now }
{
    for i in 0..64 {
        match (a[i] ^ white[i]).cmp(&(b[i] ^ white[i])) {
            Ordering::Equal => {}
            unequal => return unequal,
        }
    }
    a_name.cmp(b_name)
}

/// XORs bytes into bytes.
fn xor_into(bytes: &mut [u8], others: &[u8])
    requires { length bytes.old ≡ length others.now }
    ensures { bytes.new ≡ xor_bytes bytes.old others.now }
{
    for (i, other) in others.iter().enumerate() {
        bytes[i] ^= *other;
    }
}

/// Bytes XORed with bytes.
fn xor(sig: &Sig, others: &Sig) -> Sig
    ensures { result ≡ xor_bytes sig.now others.now }
{
    let mut sig = *sig;
    xor_into(&mut sig, others);
    sig
}

/// 64 bytes 0.
pub fn no_signature() -> Sig
    ensures { result ≡ replicate 64 0 }
{
    [0; 64]
}

/// The signatures of these rows, XORed.
#[tactic(auto, using(crate::proofs::RowLaws::row_known, crate::proofs::WhiteLaws::whitening_steps))]
pub fn whitening<P: Prefix>(p: &P, places: &[usize]) -> Sig
    requires { All (λ w. w < length (P.graph p.now).rows) places.now }
    ensures value { result ≡ whitening_of (P.graph p.now).rows places.now }
    ensures long { length result ≡ 64 }
{
    let mut white = no_signature();
    for w in places {
        white = xor(&white, &p.row(*w).sig);
    }
    white
}
