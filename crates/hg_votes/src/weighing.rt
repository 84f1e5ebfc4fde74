ghost use Rattle.std.specs.Prelude.{◌≡◌, ◌<◌};
ghost use Rattle.hg_model.specs.Order.{middle_bit};
ghost use Rattle.hg_model.specs.Votes.{is_normal};
ghost use Rattle.hg_votes.specs.Tallies.{weighed_ballot, weighed_where};

use hg_model::{Ballot, Sig, is_supermajority};

/// The coin of a witness with this signature: the highest bit of byte 32.
/// SWIRLDS-TR-2016-01 asks for a middle bit of the signature.
pub fn coin_bit(sig: &Sig) -> bool
    ensures { result ≡ middle_bit sig.now }
{
    sig[32] >= 128
}

/// The ballot of a witness `d` rounds above the candidate, by its voters; in the first round above witnesses vote by what
/// they see, and not so. Of its voters those who vote yes have the stake `yes`, and the others `no`, of a `total`; the coin
/// period is `c` rounds, and `sig` is the witness's signature.
/// SWIRLDS-TR-2016-01, procedure decideFame.
pub fn weigh(d: u32, c: u32, yes: u64, no: u64, total: u64, sig: &Sig) -> Ballot
    requires { 0 < c }
    ensures { result ≡ weighed_ballot total c d yes no (middle_bit sig.now) }
{
    weigh_where(is_normal(d, c), d, yes, no, total, sig)
}

/// Whether a witness `d` rounds above the candidate throws no coin, with a coin period of `c` rounds.
pub fn is_normal(d: u32, c: u32) -> bool
    requires { 0 < c }
    ensures { result ≡ is_normal c d }
{
    d % c > 0
}

/// The same as `weigh`, where it is known whether that round is a normal one.
pub fn weigh_where(normal: bool, d: u32, yes: u64, no: u64, total: u64, sig: &Sig) -> Ballot
    ensures { result ≡ weighed_where normal total d yes no (middle_bit sig.now) }
{
    let majority = no <= yes;
    let is_strong = is_supermajority(total, yes.max(no));
    Ballot {
        vote: if normal || is_strong {
            majority
        } else {
            coin_bit(sig)
        },
        decides: 1 < d && normal && is_strong,
    }
}
