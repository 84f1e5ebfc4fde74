ghost use Rattle.std.specs.Prelude.{◌≡◌, ◌<◌, ◌≤◌, [], ◌∷◌, ◌++◌, length, Some, IfOk, OnOk};
ghost use Rattle.hg_model.specs.Stakes.{member_count};
ghost use Rattle.hg_model.specs.Forks.{forkers, forking, has_fork};
ghost use Rattle.hg_model.specs.Shape.{FitsLink, shape_of, with_link};
ghost use Rattle.hg_forks.specs.SelfLinks.{self_link_of};
ghost use Rattle.hg_forks.specs.Pairs.{IsForkPair};

use crate::line::{Line, fork_in, line_at, new_forkers, new_forking, next_line};
use crate::self_row::SelfRow;
use hg_model::{Member, Memory};
use std::alloc::Global;
use std::marker::Model;

/// Which members have a fork among the rows so far. Of a row it needs the creator and the self-parent's place:
/// contracts see the graph with each row's other-parents left out, which has the same forks.
#[derive(Drop)]
pub struct Watch {
    /// The rows so far: what contracts speak of.
    rows: Vec<SelfRow>,
    /// Each member's stake.
    stakes: Vec<u32>,
    /// Each member's line.
    lines: Vec<Line>,
    /// How many of the lines are forked.
    forkers: u32,
    /// The stake of the members whose lines are forked.
    forking: u64,
}

impl Model for Watch {
    ghost use Rattle.std.specs.Prelude.{vec_capacity, vec_len};
    ghost use Rattle.hg_model.specs.Shape.{ShapeWithRoom, shape_of};

    ghost Value = { ShapeWithRoom };

    ghost use Rattle.hg_forks.specs.Kept.{room_after};
    ghost use Rattle.hg_forks.specs.Lines.{KeepsLines};

    ghost view = { λ s. record { shape = shape_of s.stakes.items s.rows.items; room = room_after (vec_len s.rows) (vec_capacity s.rows) } };

    ghost invariant = { λ s. KeepsLines s.stakes.items s.rows.items s.lines.items s.forkers s.forking };
}

impl Watch {
    /// A graph of at most 128 members with these stakes, without rows.
    pub fn new(alloc: Global, stakes: &[u32]) -> Result<Watch, Memory>
        requires { length stakes.now ≤ 128 }
        ensures { IfOk result (λ w. w.shape ≡ shape_of stakes.now []) }
    {
        Ok(Watch {
            rows: Vec::new(alloc),
            stakes: Vec::from_slice(alloc, stakes)?,
            lines: vec![in alloc; Line::Empty; stakes.len()]?,
            forkers: 0,
            forking: 0,
        })
    }

    /// The stake of the members that have a fork once the member has made one row more, on this self-parent.
    pub fn would(&self, creator: Member, self_parent: Option<usize>) -> u64
        requires { FitsLink self.now.shape.members self.now.shape.links (self_link_of creator self_parent) }
        ensures { result ≡ forking self.now.shape.members (self.now.shape.links ++ self_link_of creator self_parent ∷ []) }
    {
        self.forking + new_forking(&self.lines, &self.stakes, creator, self_parent)
    }

    /// Takes the memory of one more row. There is none for more than 2^32 - 1 rows.
    pub fn reserve(&mut self) -> Result<(), Memory>
        ensures room { OnOk result (1 ≤ self.new.room) }
        ensures same { self.new.shape ≡ self.old.shape }
    {
        if self.rows.len() >= u32::MAX as usize {
            return Err(Memory);
        }
        self.rows.reserve(1)?;
        Ok(())
    }

    /// One row more, by the member, on this self-parent. Takes no memory.
    pub fn add(&mut self, creator: Member, self_parent: Option<usize>)
        requires room { 1 ≤ self.old.room }
        requires fits { FitsLink self.old.shape.members self.old.shape.links (self_link_of creator self_parent) }
        ensures { self.new.shape ≡ with_link self.old.shape (self_link_of creator self_parent) }
    {
        self.forkers += new_forkers(&self.lines, creator, self_parent);
        self.forking += new_forking(&self.lines, &self.stakes, creator, self_parent);
        let line = next_line(line_at(&self.lines, creator), self_parent, self.rows.len());
        self.lines[usize::from(creator)] = line;
        self.rows.push_reserved(SelfRow::of(creator, self_parent));
    }

    /// How many members have a fork.
    pub fn forkers(&self) -> u32
        ensures { result ≡ forkers self.now.shape.members self.now.shape.links }
    {
        self.forkers
    }

    /// The stake of the members that have a fork.
    pub fn forking(&self) -> u64
        ensures { result ≡ forking self.now.shape.members self.now.shape.links }
    {
        self.forking
    }

    /// Two rows that are a fork by the member, the later one second; none exactly where it has no fork.
    pub fn pair_of(&self, m: Member) -> Option<(usize, usize)>
        requires { m < member_count self.now.shape.members }
        ensures { IsForkPair self.now.shape.links m result }
    {
        fork_in(line_at(&self.lines, m))
    }
}
