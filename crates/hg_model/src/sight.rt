ghost use Rattle.std.specs.Prelude.{◌≡◌, ℕ, ◌<◌, ◌≤◌, ◌+◌, ◌-◌, ◌^◌, length, IfOk, IfSome, OnOk};
ghost use Rattle.hg_model.specs.Stakes.{AllWeigh, member_count, stake_of, total};
ghost use Rattle.hg_model.specs.Links.{creator, self_parent};
ghost use Rattle.hg_model.specs.Ancestry.{is_ancestor};
ghost use Rattle.hg_model.specs.Seeing.{sees, strongly_sees};
ghost use Rattle.hg_model.specs.Shape.{Shape, FitsLink, first_links, link_of, place_list, with_link};
ghost use Rattle.hg_model.specs.Counts.{CountsMembersIn, numbers_of};
ghost use Rattle.hg_model.specs.GraphWords.{strongly_sees_in, IsShapedIn, sees_in};

use crate::counts::Counts;
use crate::memory::Memory;
use crate::row::Member;

/// What the rows of a graph see of each other. A place is below the number of rows.
pub trait Sight {
    /// The graph: the members' stakes, and each row's creator and parents.
    ghost shape: { Self → Shape };

    /// How many rows there are, fewer than 2^32 - 1.
    fn rows(&self) -> usize
        ensures value { result ≡ length (shape self.now).links }
        ensures short { result < 2 ^ 32 - 1 }
        ensures shaped { IsShapedIn (shape self.now) };

    /// How many members there are, at most 128.
    fn members(&self) -> u32
        ensures value { result ≡ member_count (shape self.now).members }
        ensures few { result ≤ 128 }
        ensures shaped { IsShapedIn (shape self.now) };

    /// The stake of a member.
    fn stake(&self, member: Member) -> u32
        requires { member < member_count (shape self.now).members }
        ensures { result ≡ stake_of (shape self.now).members member };

    /// The stake of all members, at most 2^39.
    fn total(&self) -> u64
        ensures value { result ≡ total (shape self.now).members }
        ensures low { result ≤ 2 ^ 39 }
        ensures shaped { IsShapedIn (shape self.now) };

    /// The stake that every member has, where the sight knows of one.
    fn even(&self) -> Option<u32>
        ensures { IfSome result (λ stake. AllWeigh (shape self.now).members stake) };

    /// Who made row `x`.
    fn creator(&self, x: usize) -> Member
        requires { x < length (shape self.now).links }
        ensures value { result ≡ creator (shape self.now).links x }
        ensures member { result < member_count (shape self.now).members };

    /// The place of the self-parent of row `x`, if it has one.
    fn self_parent(&self, x: usize) -> Option<usize>
        requires { x < length (shape self.now).links }
        ensures { place_list result ≡ self_parent (shape self.now).links x };

    /// Whether row `y` is an ancestor of row `x`; each is its own ancestor.
    fn ancestor(&self, x: usize, y: usize) -> bool
        requires left { x < length (shape self.now).links }
        requires right { y < length (shape self.now).links }
        ensures { result ≡ is_ancestor (shape self.now).links x y };

    /// Whether row `x` sees row `y`.
    fn sees(&self, x: usize, y: usize) -> bool
        requires left { x < length (shape self.now).links }
        requires right { y < length (shape self.now).links }
        ensures { result ≡ sees_in (shape self.now) x y };

    /// Whether row `x` strongly sees row `y`.
    fn strongly_sees(&self, x: usize, y: usize) -> bool
        requires left { x < length (shape self.now).links }
        requires right { y < length (shape self.now).links }
        ensures { result ≡ strongly_sees_in (shape self.now) x y };

    /// The ancestors of row `x` by member, where the sight counts them and no member has a fork: for each member one more
    /// than the place of its last row among them, or 0. A sight that does not count answers `None`.
    fn counts(&self, x: usize) -> Option<Counts<'_>>
        requires { x < length (shape self.now).links }
        ensures { IfSome result (λ counts. CountsMembersIn (shape self.now) x (numbers_of counts)) }
    {
        None
    }
}

/// A graph that takes rows one by one.
pub trait Growing: Sight {
    /// For how many more rows there is memory at least.
    ghost room: { Self → ℕ };

    /// Takes the memory of one more row. An error leaves the graph, and comes also where the graph takes no more rows.
    fn reserve(&mut self) -> Result<(), Memory>
        ensures room { OnOk result (1 ≤ room self.new) }
        ensures same { Self.shape self.new ≡ Self.shape self.old };

    /// One more row, by the member, on parents at these places, the self-parent's first, or on none.
    /// Takes no memory; `reserve` comes before it.
    fn extend(&mut self, parents: &[usize], creator: Member)
        requires room { 1 ≤ room self.old }
        requires fits { FitsLink (Self.shape self.old).members (Self.shape self.old).links (link_of creator parents.now) }
        requires short { length (Self.shape self.old).links + 1 < 2 ^ 32 - 1 }
        ensures { Self.shape self.new ≡ with_link (Self.shape self.old) (link_of creator parents.now) };

    /// The graph of the first `len` rows, as a value of its own.
    fn prefix(&self, len: usize) -> Result<Self, Memory>
        requires { len ≤ length (Self.shape self.now).links }
        ensures { IfOk result (λ s. Self.shape s ≡ first_links (Self.shape self.now) len) };
}

/// A law: what a sight tells is of a shaped graph, whose members are at most 128 and have at most 2^39 of stake, and whose
/// rows are fewer than 2^32 - 1.
pub fn is_shaped<S: Sight>(sight: &S)
    ensures shaped { IsShapedIn (S.shape sight.now) }
    ensures few { member_count (S.shape sight.now).members ≤ 128 }
    ensures low { total (S.shape sight.now).members ≤ 2 ^ 39 }
    ensures short { length (S.shape sight.now).links < 2 ^ 32 - 1 }
{
    sight.rows();
    sight.members();
    sight.total();
}
