ghost use Rattle.std.specs.Prelude.{◌≡◌, ◌<◌, ◌≤◌, ◌∷◌, ◌++◌, [], length};
ghost use Rattle.hg_model.specs.Links.{most_parents};

use std::marker::Model;

/// The places of a row's parents: none, or the self-parent's and then those of one to four other-parents.
#[derive(Clone, Debug, Drop)]
pub struct Parents {
    places: [usize; 5],
    /// How many of the places are parents'.
    len: usize,
}

impl Model for Parents {
    ghost use Rattle.std.specs.Prelude.{ℕ, List, ◌≤◌, take};

    ghost Value = { List ℕ };

    ghost view = { λ s. take s.len s.places };

    ghost invariant = { λ s. s.len ≤ 5 };
}

impl Parents {
    /// None, as a member's first row has.
    pub fn none() -> Parents
        ensures { result ≡ [] }
    {
        Parents {
            places: [0; 5],
            len: 0,
        }
    }

    /// The self-parent's and one other-parent's.
    pub fn of(self_parent: usize, other_parent: usize) -> Parents
        ensures { result ≡ self_parent ∷ other_parent ∷ [] }
    {
        Parents {
            places: [self_parent, other_parent, 0, 0, 0],
            len: 2,
        }
    }

    /// These, and the next one.
    pub fn with(self, place: usize) -> Parents
        requires { length self < most_parents }
        ensures { result ≡ self ++ place ∷ [] }
    {
        let mut places = self.places;
        places[self.len] = place;
        Parents {
            places,
            len: self.len + 1,
        }
    }

    /// The places, in order, at most five.
    pub fn as_slice(&self) -> &[usize]
        ensures value { result.now ≡ self.now }
        ensures few { length result.now ≤ most_parents }
    {
        &self.places[..self.len]
    }
}
