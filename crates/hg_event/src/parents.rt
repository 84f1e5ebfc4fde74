ghost use Rattle.std.specs.Prelude.{◌≡◌, ◌≤◌, length};
ghost use Rattle.hg_model.specs.Links.{most_others};

use hg_model::Name;

/// The parents' names, which lie in an event's bytes.
#[derive(Clone, Copy, Debug)]
pub struct ParentsView<'a> {
    pub self_parent: &'a Name,
    // Those of the other-parents, and behind them the self-parent's again.
    pub(crate) others: [&'a Name; 4],
    pub(crate) len: usize,
    pub ghost some: { 1 ≤ len },
    pub ghost few: { len ≤ most_others },
}

impl<'a> ParentsView<'a> {
    ghost use Rattle.hg_event.specs.Names.{lent_names, names_in};

    /// The names of the other-parents, one to four, in order.
    pub fn others(&self) -> &[&'a Name]
        ensures value { lent_names result.now ≡ (names_in self.now).1 }
        ensures some { 1 ≤ length result.now }
        ensures few { length result.now ≤ most_others }
    {
        &self.others[..self.len]
    }
}
