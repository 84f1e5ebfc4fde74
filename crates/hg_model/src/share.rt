ghost use Rattle.std.specs.Prelude.{◌≡◌, ◌<◌};

use crate::items::Items;
use std::marker::Model;

/// A part of the witnesses: those whose index among all witnesses by place, modulo `of`, is `k`. Always `k < of`.
#[derive(Clone, Copy, Debug, PartialEq, Eq)]
pub struct Share {
    k: u32,
    of: u32,
}

impl Model for Share {
    ghost use Rattle.std.specs.Prelude.{◌<◌};
    ghost use Rattle.hg_model.specs.Shares as shares;

    ghost Value = { shares.Share };

    ghost view = { λ s. record { k = s.k; «of» = s.of } };

    ghost inverse = { λ s. record { k = s.k; «of» = s.of } };

    ghost invariant = { λ s. s.k < s.of };
}

impl Share {
    /// Share `k` of `of`.
    pub fn new(k: u32, of: u32) -> Share
        requires { k < of }
        ensures { result ≡ record { k = k; «of» = of } }
    {
        Share { k, of }
    }

    /// Its number, from 0.
    pub fn k(&self) -> u32
        ensures value { result ≡ self.now.k }
        ensures lawful { self.now.k < self.now.of }
    {
        self.k
    }

    /// How many shares there are, at least 1.
    pub fn of(&self) -> u32
        ensures value { result ≡ self.now.of }
        ensures lawful { self.now.k < self.now.of }
    {
        self.of
    }
}

/// What an election of a share of the witnesses gives for the first `len` rows of a graph: witnesses by place, each with
/// its fame. Which of the share they are, all or some, the clause of the call says that gives it.
#[derive(Debug, Drop)]
pub struct Found {
    pub len: usize,
    pub share: Share,
    pub marks: Items<(usize, bool)>,
}
