ghost use Rattle.std.specs.Prelude.{◌≡◌, ◌<◌, ◌≤◌, ℕ, [], length, slice_index, IfOk, OnOk};
ghost use Rattle.hg_model.specs.Forks.{has_fork_below};
ghost use Rattle.hg_model.specs.Shape.{shape_of};
ghost use Rattle.hg_model.specs.GraphWords.{strongly_sees_in, IsShapedIn};
ghost use Rattle.hg_model.specs.Stakes.{member_count};
ghost use Rattle.hg_bits.specs.Masks.{mask_has};
ghost use Rattle.hg_branches.specs.Firsts.{none_by};

use crate::branches::{branch_for, ends_within, move_end, open_branch, with_several, zeros};
use crate::counts::{count_at, known_place, row_of};
use crate::forks::forked_next;
use crate::landmarks::{Landmark, NextRow, firsts_at, landmark_of, last_end, note_all, widen_all};
use crate::links::{creator_at, self_parent_at};
use crate::own_counts::NARROW_ROWS;
use crate::seeing;
use crate::table::CountTable;
use crate::tops::Tops;
use hg_ancestry::PlacedLink;
use hg_bits::{StakeTable, mask_has};
use hg_blocks::Blocks;
use hg_model::{Counts, Growing, Member, Memory, Sight, is_shaped};
use std::alloc::Global;
use std::marker::Model;

/// With so many rows a graph takes no more: their ends have 32 bits.
const WIDE_ROWS: usize = 4_294_967_294;

/// A graph that tells its ancestry by branches. A prefix shares its sealed blocks of 64 rows.
#[derive(Drop)]
pub struct BranchSight {
    alloc: Global,
    stakes: StakeTable,
    links: Blocks<PlacedLink>,
    /// For each row its branch. There may be more branches than 16 bits count: one for each member and each row.
    branches: Blocks<usize>,
    /// For each branch the member whose rows it has. The first branches are the members' own.
    makers: Vec<Member>,
    /// The members with a branch beside their own. In a prefix there may be more.
    several: u128,
    /// For each branch one more than the place of its last row, or 0. In a prefix it may be more, which tells nothing false of
    /// the rows that are there: a graph that is grown from it may open a branch more than it need.
    ends: Vec<u32>,
    /// For each row and branch one more than the place of the branch's last row among the row's ancestors, or 0.
    counts: CountTable,
    /// For each row the members with a fork among its ancestors.
    forked: Blocks<u128>,
    /// What is noted of rows for strongly seeing them, in the order of the graph; a prefix has none.
    landmarks: Vec<Landmark>,
    /// For each branch the number of its last landmark, or 0.
    newest: Vec<u32>,
    /// For each branch the end of its last landmark, or 0.
    tops: Tops,
    /// For each row the number of its landmark, or 0. Rows past its end have 0 too: a prefix has no entries.
    numbers: Vec<u32>,
    /// Whether all landmarks, and the next one, keep their first descendants in 32 bits.
    wide: bool,
    /// Whether there is memory for a row.
    ready: bool,
    /// The next landmark, if there is memory for one.
    spare: Option<Landmark>,
}

impl Model for BranchSight {
    ghost use Rattle.hg_model.specs.Shape.{ShapeWithRoom, shape_of};
    ghost use Rattle.hg_branches.specs.Sight.{HoldsBranchSight};
    ghost use Rattle.hg_branches.specs.Columns.{room_of};

    ghost Value = { ShapeWithRoom };

    ghost view = { λ s. record { shape = shape_of s.stakes s.links.items; room = room_of s.ready } };

    ghost invariant = { HoldsBranchSight };
}

impl BranchSight {
    /// The graph of no rows by members with these stakes.
    pub fn new(alloc: Global, stakes: &[u32]) -> Result<BranchSight, Memory>
        requires { length stakes.now ≤ 128 }
        ensures { IfOk result (λ s. s.shape ≡ shape_of stakes.now []) }
    {
        let members = stakes.len();
        let table = StakeTable::new(alloc, stakes)?;
        let makers = own_branches(alloc, members)?;
        let ends = zeros(alloc, members)?;
        let newest = zeros(alloc, members)?;
        let tops = Tops::new(alloc, members)?;
        Ok(BranchSight {
            alloc,
            stakes: table,
            links: Blocks::new(alloc),
            branches: Blocks::new(alloc),
            makers,
            several: 0,
            ends,
            counts: CountTable::new(alloc, members),
            forked: Blocks::new(alloc),
            landmarks: Vec::new(alloc),
            newest,
            tops,
            numbers: Vec::new(alloc),
            wide: false,
            ready: false,
            spare: None,
        })
    }

    /// Makes the last row a landmark, of which the first descendants are noted from now on, so that `strongly_sees` of it is
    /// quick. It changes no answer, and takes no memory: where `reserve` has taken none for it, and in a prefix, none is made.
    pub fn mark_last(&mut self)
        ensures { self.new ≡ self.old }
    {
        let end = self.links.len();
        if self.numbers.len() == end && last_end(&self.landmarks) < end as u32 {
            if let Some(mut landmark) = self.spare.take() {
                let branch = self.branches[end - 1];
                let maker = self.makers[branch];
                let stake = self.stakes.at(maker);
                landmark.begin(branch, end as u32, self.newest[branch], stake);
                self.landmarks.push_reserved(landmark);
                let number = self.landmarks.len() as u32;
                self.newest[branch] = number;
                self.tops.raise(branch, end as u32);
                self.numbers[end - 1] = number;
            }
        }
    }

    /// Where to look first for the member's last row: one more than the place of the last row of its own branch, or 0. No
    /// clause speaks of it, since any number would do.
    pub fn own_end(&self, member: Member) -> usize {
        match self.ends.get(usize::from(member)) {
            None => 0,
            Some(end) => *end as usize,
        }
    }

    /// Takes the memory of one more row. Before the ends leave 16 bits, all first descendants are kept in 32 from then on; the
    /// spare landmark then goes, and a later call of `reserve_landmark` takes one of that width.
    fn reserve_row(&mut self) -> Result<(), Memory>
        ensures room { OnOk result (1 ≤ self.new.room) }
        ensures same { self.new.shape ≡ self.old.shape }
    {
        if self.ready {
            return Ok(());
        }
        let rows = self.links.len();
        if rows >= WIDE_ROWS {
            return Err(Memory);
        }
        self.links.reserve()?;
        self.branches.reserve()?;
        self.makers.reserve(1)?;
        self.ends.reserve(1)?;
        self.counts.reserve()?;
        self.forked.reserve()?;
        self.newest.reserve(1)?;
        self.tops.reserve()?;
        self.numbers.reserve(1)?;
        if rows < most_rows(self.wide) {
            self.ready = true;
            return Ok(());
        }
        self.spare = None;
        widen_all(&mut self.landmarks, self.alloc)?;
        self.wide = true;
        self.ready = true;
        Ok(())
    }

    /// Takes the memory of one more landmark.
    fn reserve_landmark(&mut self) -> Result<(), Memory>
        ensures { self.new ≡ self.old }
    {
        if self.spare.is_none() {
            self.landmarks.reserve(1)?;
            let landmark = Landmark::new(self.alloc, self.stakes.len(), self.wide)?;
            self.spare = Some(landmark);
        }
        Ok(())
    }

    /// Whether row `x` strongly sees row `y`, where row `x` counts branches beside the members' own, or row `y` has no landmark.
    /// A call of its own, so that the other case is short.
    #[inline(never)]
    fn strongly_sees_beside(&self, x: usize, y: usize) -> bool
        requires left { x < length self.now.shape.links }
        requires right { y < length self.now.shape.links }
        ensures { result ≡ strongly_sees_in self.now.shape x y }
    {
        self.is_shaped();
        let number = count_at(&self.numbers, y);
        if !self.ancestor(x, y) {
            return false;
        }
        let counts = row_of(&self.counts, x);
        let member = self.creator(y);
        let slot = number as usize;
        if slot > 0 {
            let firsts = firsts_at(&self.landmarks, slot - 1);
            let several = self.several;
            if !mask_has(self.forked_below(x), member) {
                return seeing::strong_by_firsts(self, &self.makers, several, &counts, firsts, y);
            }
            let may = seeing::may_see(self, several, &counts, firsts, y);
            if !self.stakes.over(may) {
                return false;
            }
        }
        let seers = seeing::seers(self, &self.makers, &counts, y);
        self.stakes.over(seers)
    }

    /// That the graph is shaped, of at most 128 members.
    pub(crate) fn is_shaped(&self)
        ensures shaped { IsShapedIn self.now.shape }
        ensures few { member_count self.now.shape.members ≤ 128 }
    {
        let _ = &self.stakes;
    }

    /// The members' stakes.
    pub(crate) fn stakes(&self) -> &StakeTable
        ensures { result.now ≡ self.now.shape.members }
    {
        &self.stakes
    }

    /// The members with a fork among the ancestors of row `x`.
    pub(crate) fn forked_below(&self, x: usize) -> u128
        requires { x < length self.now.shape.links }
        ensures { (m : ℕ) → mask_has result m ≡ has_fork_below self.now.shape.links x m }
    {
        self.forked[x]
    }
}

/// With fewer rows a graph of this width takes one more: all ends are below what stands where there is no first descendant.
fn most_rows(wide: bool) -> usize
    ensures { result < none_by wide }
{
    if wide { WIDE_ROWS } else { NARROW_ROWS }
}

/// The makers of the members' own branches.
fn own_branches(alloc: Global, members: usize) -> Result<Vec<Member>, Memory>
    requires { members ≤ 128 }
    ensures len { IfOk result (λ v. length v.items ≡ members) }
    ensures own { IfOk result (λ v. (m : ℕ) → m < members → slice_index v.items m ≡ m) }
{
    let mut makers = Vec::with_capacity(alloc, members)?;
    for m in 0..members {
        makers.push(m as Member)?;
    }
    Ok(makers)
}

impl Sight for BranchSight {
    ghost shape = { λ s. s.shape };

    fn rows(&self) -> usize {
        self.links.len()
    }

    fn members(&self) -> u32 {
        self.stakes.len() as u32
    }

    fn stake(&self, member: Member) -> u32 {
        self.stakes.at(member)
    }

    fn total(&self) -> u64 {
        self.stakes.total()
    }

    fn even(&self) -> Option<u32> {
        self.stakes.even()
    }

    fn creator(&self, x: usize) -> Member {
        creator_at(&self.links, x)
    }

    fn self_parent(&self, x: usize) -> Option<usize> {
        self_parent_at(&self.links, x)
    }

    fn ancestor(&self, x: usize, y: usize) -> bool {
        y < self.counts.at(x, self.branches[y]) as usize
    }

    fn sees(&self, x: usize, y: usize) -> bool {
        seeing::sees(self, x, y)
    }

    fn strongly_sees(&self, x: usize, y: usize) -> bool {
        self.is_shaped();
        let number = count_at(&self.numbers, y);
        if number > 0 && (self.makers.len() == self.stakes.len() || self.counts.is_own(x)) {
            let landmark = landmark_of(&self.landmarks, number as usize - 1);
            if landmark.is_young(&self.stakes) {
                return false;
            }
            return landmark.is_strong_by(&self.stakes, &self.counts, x);
        }
        self.strongly_sees_beside(x, y)
    }

    fn counts(&self, x: usize) -> Option<Counts<'_>> {
        if self.makers.len() == self.stakes.len() {
            Some(self.counts.own(x))
        } else {
            None
        }
    }
}

impl Growing for BranchSight {
    ghost room = { λ s. s.room };

    fn reserve(&mut self) -> Result<(), Memory> {
        self.reserve_row()?;
        self.reserve_landmark()
    }

    fn extend(&mut self, parents: &[usize], creator: Member) {
        is_shaped(self);
        let stake = self.stakes.at(creator);
        let members = self.stakes.len();
        let branch = branch_for(&self.branches, &self.ends, parents, creator);
        let many = members < self.makers.len() || members <= branch;
        let forked = forked_next(
            &self.makers,
            &self.counts,
            &self.forked,
            many,
            parents,
            creator,
        );
        let row = self.links.len();
        let end = row as u32 + 1;
        self.ready = false;
        self.counts.push(parents, branch);
        let known = row_of(&self.counts, known_place(parents, row));
        let counts = row_of(&self.counts, row);
        note_all(
            &mut self.landmarks,
            &self.newest,
            &self.tops,
            &known,
            &counts,
            NextRow { branch, end, stake },
        );
        self.links.push(PlacedLink::of(creator, parents));
        self.branches.push(branch);
        move_end(&mut self.makers, &mut self.ends, branch, creator, end);
        self.several = with_several(self.several, members, branch, creator);
        self.forked.push(forked);
        open_branch(&mut self.newest, branch);
        self.tops.open(branch);
        self.numbers.push_reserved(0);
    }

    fn prefix(&self, len: usize) -> Result<BranchSight, Memory> {
        let many = self.makers.len().min(self.stakes.len() + len);
        let stakes = self.stakes.copy(self.alloc)?;
        let makers = Vec::from_slice(self.alloc, &self.makers[..many])?;
        let ends = ends_within(self.alloc, &self.ends[..many], len as u32)?;
        let newest = zeros(self.alloc, many)?;
        let tops = Tops::new(self.alloc, many)?;
        let links = self.links.cloned_prefix(len)?;
        let branches = self.branches.prefix(len)?;
        let forked = self.forked.prefix(len)?;
        let counts = self.counts.prefix(self.alloc, len)?;
        Ok(BranchSight {
            alloc: self.alloc,
            stakes,
            links,
            branches,
            makers,
            several: self.several,
            ends,
            counts,
            forked,
            landmarks: Vec::new(self.alloc),
            newest,
            tops,
            numbers: Vec::new(self.alloc),
            wide: self.wide,
            ready: false,
            spare: None,
        })
    }
}
