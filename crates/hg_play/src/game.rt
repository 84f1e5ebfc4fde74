ghost use Rattle.std.specs.Prelude.{◌≡◌};
ghost use Rattle.hg_life.specs.Signing.{secrets_of};

use hg_life::Members;
use hg_sign::MacTable;
use std::alloc::Global;

/// The members over whose nodes lines are played, and the keys by which they sign.
#[derive(Drop)]
pub(crate) struct Game<'a> {
    pub(crate) alloc: Global,
    pub(crate) members: &'a Members,
    pub(crate) keys: &'a MacTable,
    ghost signed: { keys.now ≡ secrets_of members.now },
}
