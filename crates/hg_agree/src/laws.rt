ghost use Rattle.hg_agree.specs.Agreement.{DecidersAgree, DecidersAgreeLater, DecisionsLast, FameIsKept};
ghost use Rattle.hg_agree.specs.Late.{ClosedRoundsStay, LateWitnessIsNotFamous};
ghost use Rattle.hg_agree.specs.Quorum.{RoundsCarryAQuorum};

/// A law: each row of round r + 1 strongly sees witnesses of round r by members of more than two thirds
/// of the stake, one by each.
pub fn rounds_carry_a_quorum()
    ensures quorum { RoundsCarryAQuorum }
{}

/// A law: after a decision every witness of the decider's round and of each later round votes that
/// way, in normal rounds and in coin rounds.
pub fn decisions_last()
    ensures last { DecisionsLast }
{}

/// A law: all deciders of a witness decide alike, in a graph and in every longer one, and so fame
/// that is decided stays.
pub fn deciders_agree()
    ensures agree { DecidersAgree }
    ensures later { DecidersAgreeLater }
    ensures kept { FameIsKept }
{}

/// A law: a witness that is added to a round that is closed is not famous, and this is decided at
/// once; so a closed round stays closed.
pub fn late_witness_is_not_famous()
    ensures late { LateWitnessIsNotFamous }
    ensures stays { ClosedRoundsStay }
{}
