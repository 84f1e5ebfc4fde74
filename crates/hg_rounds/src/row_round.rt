use std::marker::Model;

/// A row's round, and whether the row is a witness.
#[derive(Clone, Copy)]
pub struct RowRound {
    pub round: u32,
    pub witness: bool,
}

impl Model for RowRound {
    ghost use Rattle.hg_model.specs.Standings.{Standing};

    ghost Value = { Standing };

    ghost view = { λ s. record { round = s.round; witness = s.witness } };

    ghost inverse = { λ v. record { round = v.round; witness = v.witness } };
}
