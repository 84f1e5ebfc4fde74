ghost use Rattle.std.specs.Prelude.{◌≡◌, ◌<◌, ◌≤◌, ◌+◌, ◌-◌, ℕ, [], length, IfOk, OnOk, vec_len, vec_capacity};
ghost use Rattle.hg_model.specs.Stakes.{Stakes, total};
ghost use Rattle.hg_model.specs.Fame.{mark_at};
ghost use Rattle.hg_model.specs.Prefix.{graph_of};
ghost use Rattle.hg_model.specs.GraphWords.{IsLawfulGraph};
ghost use Rattle.hg_model.specs.Orders.{IsPrefix};
ghost use Rattle.hg_life.specs.StateWords.{news_by, marks_by};
ghost use Rattle.hg_kept.specs.Published.{FindsNewsOf, HasCome, Keeps, TookRow, is_last_late, mark_by, unpublished, unpublished_of};

use crate::closing::close_rounds;
use crate::marking::mark_found;
use crate::pending::Pending;
use hg_model::{Found, Memory, Placed, Prefix, is_of_graph, reserve_all};
use std::alloc::Global;
use std::marker::Model;

/// What is published of the rows of a graph, which come one by one.
#[derive(Drop)]
pub struct Kept {
    /// Of each row.
    marks: Vec<Option<bool>>,
    closed: u32,
    pending: Pending,
    order: Vec<Placed>,
}

impl Model for Kept {
    ghost use Rattle.std.specs.Prelude.{◌≤◌, ◌-◌, min, vec_capacity, vec_len};
    ghost use Rattle.hg_kept.specs.Published.{PublishedWithRoom};
    ghost use Rattle.hg_kept.specs.Receiving.{published_as};

    ghost Value = { PublishedWithRoom };

    ghost view = { λ s. record { published = published_as s.marks.items s.closed s.order.items s.pending; room = min (vec_capacity s.marks - vec_len s.marks) (min (s.pending.room - vec_len s.marks) (vec_capacity s.order - vec_len s.marks)) } };

    ghost invariant = { λ s. (vec_len s.marks ≤ s.pending.room) × (vec_len s.marks ≤ vec_capacity s.order) };
}

impl Kept {
    /// Nothing, of no rows. Takes no memory. The number of members says only for how many `reserve` takes the memory of the
    /// fastest way to find times: where the graph has more, the same is published in more time.
    pub fn new(alloc: Global, members: u32) -> Kept
        ensures none { result.published ≡ unpublished }
        ensures keeps { (n : Stakes) (c : ℕ) → 0 < total n → Keeps (graph_of n c []) result.published }
    {
        Kept {
            marks: Vec::new(alloc),
            closed: 0,
            pending: Pending::new(alloc, members),
            order: Vec::new(alloc),
        }
    }

    /// Nothing, of all rows that the graph has, with the memory of all that may come to be published of them.
    pub fn behind<P: Prefix>(alloc: Global, p: &P) -> Result<Kept, Memory>
        ensures none { IfOk result (λ kept. kept.published ≡ unpublished_of (P.graph p.now)) }
        ensures keeps { IfOk result (λ kept. IsLawfulGraph (P.graph p.now) → Keeps (P.graph p.now) kept.published) }
    {
        is_of_graph(p);
        let rows = p.rows();
        let marks = vec![in alloc; None; rows]?;
        let mut pending = Pending::new(alloc, p.members());
        pending.reserve(rows)?;
        let order = Vec::with_capacity(alloc, rows)?;
        Ok(Kept {
            marks,
            closed: 0,
            pending,
            order,
        })
    }

    /// Takes the memory of one more row, and of all that may come to be published of it.
    pub fn reserve(&mut self) -> Result<(), Memory>
        ensures room { OnOk result (1 ≤ self.new.room) }
        ensures same { self.new.published ≡ self.old.published }
    {
        let rows = self.marks.len() + 1;
        self.marks.reserve(1)?;
        self.pending.reserve(rows)?;
        reserve_all(&mut self.order, rows)?;
        Ok(())
    }

    /// The last row of the graph has come: if it is a witness of a closed round, it is not famous. Takes no memory.
    pub fn add<P: Prefix>(&mut self, p: &P)
        requires room { 1 ≤ self.old.room }
        requires come { HasCome (P.graph p.now) self.old.published }
        ensures took { TookRow (P.graph p.now) self.old.published self.new.published }
        ensures keeps { Keeps (P.graph p.now) self.new.published }
        ensures room { self.new.room + 1 ≡ self.old.room }
    {
        is_of_graph(p);
        let mark = first_mark(p, self.closed);
        self.marks.push_reserved(mark);
    }

    /// Each found witness without a mark gets it, and each round that is closed then is ordered; tells how many were
    /// marked. What was found may leave out what has its mark. Takes no memory.
    pub fn publish<P: Prefix>(&mut self, p: &P, found: &Found) -> u32
        requires keeps { Keeps (P.graph p.now) self.old.published }
        requires news { FindsNewsOf (P.graph p.now) self.old.published.marks found.now }
        ensures count { result ≡ news_by (P.graph p.now) self.old.published.marks found.now.len found.now.share }
        ensures marks { self.new.published.marks ≡ marks_by (P.graph p.now) self.old.published.marks found.now.len found.now.share }
        ensures keeps { Keeps (P.graph p.now) self.new.published }
        ensures grows { IsPrefix self.old.published.order self.new.published.order }
        ensures room { self.new.room ≡ self.old.room }
    {
        is_of_graph(p);
        let count = mark_found(&mut self.marks, found.marks.as_slice());
        self.closed = close_rounds(
            p,
            &self.marks,
            self.closed,
            &mut self.pending,
            &mut self.order,
        );
        count
    }

    /// The mark of the row at a place below the number of rows: whether it is a famous witness, if that is published.
    pub fn fame(&self, x: usize) -> Option<bool>
        requires { x < length self.now.published.marks }
        ensures { result ≡ mark_at self.now.published.marks x }
    {
        self.marks[x]
    }

    /// The mark of each row.
    pub fn marks(&self) -> &[Option<bool>]
        ensures { result.now ≡ self.now.published.marks }
    {
        &self.marks
    }

    /// What the closed rounds have received, in order.
    pub fn order(&self) -> &[Placed]
        ensures { result.now ≡ self.now.published.order }
    {
        &self.order
    }

    /// The greatest closed round, or 0.
    pub fn closed(&self) -> u32
        ensures { result ≡ self.now.published.closed }
    {
        self.closed
    }
}

/// Whether the last row of a graph is a witness of a round up to `closed`.
fn is_last_late<P: Prefix>(p: &P, closed: u32) -> bool
    requires some { 0 < length (P.graph p.now).rows }
    ensures { result ≡ is_last_late (P.graph p.now) closed }
{
    is_of_graph(p);
    let x = p.rows() - 1;
    p.is_witness(x) && p.round(x) <= closed
}

/// The first mark of the last row of a graph, where the rounds up to `closed` are.
fn first_mark<P: Prefix>(p: &P, closed: u32) -> Option<bool>
    requires some { 0 < length (P.graph p.now).rows }
    ensures { result ≡ mark_by (P.graph p.now) closed }
{
    if is_last_late(p, closed) {
        Some(false)
    } else {
        None
    }
}
