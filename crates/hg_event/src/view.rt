ghost use Rattle.std.specs.Prelude.{◌≡◌};
ghost use Rattle.hg_life.specs.Spelling.{body_bytes};
ghost use Rattle.hg_event.specs.Names.{names_lent};

use crate::parents::ParentsView;
use hg_model::{Member, Sig};

/// An event that lies in bytes.
#[derive(Clone, Copy, Debug)]
pub struct EventView<'a> {
    pub creator: Member,
    /// The names of the self-parent and of the other-parents.
    pub parents: Option<ParentsView<'a>>,
    /// As the creator claims it, in no unit of ours.
    pub time: u64,
    /// At most 1,024 bytes.
    pub payload: &'a [u8],
    pub sig: &'a Sig,
    pub(crate) body: &'a [u8],
    // The body is what the creator signed of these fields.
    pub ghost spelled: { body.now ≡ body_bytes creator (names_lent parents) time payload.now },
}
