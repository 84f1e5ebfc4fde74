ghost use Rattle.std.specs.Prelude.{◌≡◌, ◌<◌, IfSome};
ghost use Rattle.hg_forks.specs.SelfLinks.{self_link_of};
ghost use Rattle.hg_forks.specs.Kept.{no_place};

use hg_model::Member;
use std::marker::Model;

/// What forks need of a row: its creator and its self-parent's place, which is below `u32::MAX`.
#[derive(Drop)]
pub struct SelfRow {
    pub creator: Member,
    /// `u32::MAX` where there is none.
    self_parent: u32,
}

const _: () = prove!(size_of::<SelfRow>() == 8);

impl Model for SelfRow {
    ghost use Rattle.hg_model.specs.Links.{Link};
    ghost use Rattle.hg_forks.specs.SelfLinks.{self_link_of};
    ghost use Rattle.hg_forks.specs.Kept.{kept_place};

    ghost Value = { Link };

    ghost view = { λ s. self_link_of s.creator (kept_place s.self_parent) };
}

impl SelfRow {
    /// A row by the member on this self-parent.
    pub fn of(creator: Member, self_parent: Option<usize>) -> SelfRow
        requires { IfSome self_parent (λ p. p < no_place) }
        ensures { result ≡ self_link_of creator self_parent }
    {
        match self_parent {
            None => SelfRow {
                creator,
                self_parent: u32::MAX,
            },
            Some(place) => SelfRow {
                creator,
                self_parent: place as u32,
            },
        }
    }
}
