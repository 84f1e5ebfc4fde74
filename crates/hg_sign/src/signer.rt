ghost use Rattle.std.specs.Prelude.{◌≡◌, ℕ, Bool, true, List};

use hg_model::{Member, Sig};

/// What tells the signatures of members from other bytes.
pub trait Verifier {
    // Whether this signature is accepted as the member's, of this body.
    ghost accepts: { Self → ℕ → List ℕ → List ℕ → Bool };

    /// Whether the signature is accepted as the member's. The number may be no member's. Takes no memory.
    fn check(&self, member: Member, body: &[u8], sig: &Sig) -> bool
        ensures { result ≡ accepts self.now member body.now sig.now };
}

/// What signs for members too.
pub trait Signer: Verifier {
    /// A signature of the member that is accepted. The number may be no member's. Takes no memory.
    fn sign(&self, member: Member, body: &[u8]) -> Sig
        ensures { Self.accepts self.now member body.now result ≡ true };
}

// Keys that several nodes share.
impl<V: Verifier> Verifier for &V {
    ghost accepts = { λ keys. V.accepts keys.now };

    fn check(&self, member: Member, body: &[u8], sig: &Sig) -> bool {
        (**self).check(member, body, sig)
    }
}

impl<V: Signer> Signer for &V {
    fn sign(&self, member: Member, body: &[u8]) -> Sig {
        (**self).sign(member, body)
    }
}
