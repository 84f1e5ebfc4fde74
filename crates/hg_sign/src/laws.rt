ghost use Rattle.hg_sign.specs.Laws.{SignaturesAreOne};

/// A law: under the members' secrets only one signature of a body is accepted as a member's.
pub fn one_signature()
    ensures { SignaturesAreOne }
{}
