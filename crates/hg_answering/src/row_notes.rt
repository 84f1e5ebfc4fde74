ghost use Rattle.std.specs.Prelude.{◌≡◌, ◌<◌, ◌≤◌, ◌+◌, [], IfOk, None, Some, OnErr, OnOk, cond, length, slice_set};
ghost use Rattle.hg_answering.specs.Telling.{has_payload};
ghost use Rattle.hg_model.specs.Order.{sequence_of};
ghost use Rattle.hg_model.specs.Places.{table};
ghost use Rattle.hg_answering.specs.Told.{members_flagged, names_there};
ghost use Rattle.hg_answering.specs.RowNotes.{AreFirst, all_noted_in, first_notes, noted_in, with_unbound};

use crate::told::{members_flagged, names_there};
use hg_graph::EventGraph;
use hg_model::{Member, Memory, Name, Prefix, Row, Sight, is_of_graph, is_shaped};
use std::alloc::Global;
use std::marker::Model;

/// What is noted of the rows of a graph, each of which is looked at once.
#[derive(Debug, Drop)]
pub struct RowNotes {
    lasts: Vec<Option<Name>>,
    strange: Vec<bool>,
    sequences: Vec<u64>,
    payloads: u64,
}

impl Model for RowNotes {
    ghost use Rattle.hg_answering.specs.RowNotes.{RowNotesView};

    ghost Value = { RowNotesView };

    ghost view = { λ s. record { lasts = s.lasts.items; strange = s.strange.items; sequences = s.sequences.items; payloads = s.payloads } };
}

/// How many self-ancestors row `x` has, other than itself, where it is known of the rows before it.
fn next_sequence<S: Sight>(sight: &S, sequences: &[u64], x: usize) -> u64
    requires place { x < length (S.shape sight.now).links }
    requires before { sequences.now ≡ table (sequence_of (S.shape sight.now).links) x }
    ensures { result ≡ sequence_of (S.shape sight.now).links x }
{
    is_shaped(sight);
    match sight.self_parent(x) {
        Some(own) => sequences[own] + 1,
        None => 0,
    }
}

/// For so many members that none has a row.
fn no_lasts(alloc: Global, count: usize) -> Result<Vec<Option<Name>>, Memory>
    ensures { IfOk result (λ lasts. lasts.items ≡ table (λ _. None) count) }
{
    let mut lasts = Vec::with_capacity(alloc, count)?;
    for _ in 0..count {
        lasts.push(None)?;
    }
    Ok(lasts)
}

/// Notes that this is the name of the member's last row.
fn note_last(lasts: &mut Vec<Option<Name>>, member: Member, name: Name)
    requires { member < length lasts.old.items }
    ensures { lasts.new.items ≡ slice_set lasts.old.items member (Some name) }
{
    lasts[usize::from(member)] = Some(name);
}

/// Notes that the row's creator is strange, if the row tells so.
fn note_strange(strange: &mut Vec<bool>, bound: &[u8], row: &Row)
    requires { row.now.creator < length strange.old.items }
    ensures { strange.new.items ≡ with_unbound bound.now row.now strange.old.items }
{
    if row.parents.is_none() && row.payload.as_slice() != bound {
        strange[usize::from(row.creator)] = true;
    }
}

/// Whether the row has a payload, as a number.
pub(crate) fn payloads_in(row: &Row) -> u64
    ensures { result ≡ cond (has_payload row.now) 1 0 }
{
    u64::from(!row.payload.as_slice().is_empty())
}

impl RowNotes {
    /// Of no rows by so many members.
    pub fn new(alloc: Global, count: usize) -> Result<RowNotes, Memory>
        ensures { IfOk result (λ notes. notes ≡ first_notes [] count [] 0) }
    {
        Ok(RowNotes {
            lasts: no_lasts(alloc, count)?,
            strange: vec![in alloc; false; count]?,
            sequences: Vec::new(alloc),
            payloads: 0,
        })
    }

    /// Notes row `x`, where the rows before it are noted.
    fn note(&mut self, bound: &[u8], graph: &EventGraph, x: usize) -> Result<(), Memory>
        requires place { x < length graph.now.graph.rows }
        requires noted { self.old ≡ noted_in bound.now graph.now.graph x }
        ensures noted { OnOk result
            (self.new ≡ noted_in bound.now graph.now.graph (x + 1)) }
        ensures same { OnErr result (self.new ≡ self.old) }
    {
        is_of_graph(graph);
        let sequence = next_sequence(graph, self.sequences.as_slice(), x);
        self.sequences.push(sequence)?;
        let row = graph.row(x);
        note_last(&mut self.lasts, row.creator, row.name);
        note_strange(&mut self.strange, bound, row);
        self.payloads += payloads_in(row);
        Ok(())
    }

    /// Notes the rows that came since; some first ones of them, where memory runs out.
    pub(crate) fn follow(&mut self, bound: &[u8], graph: &EventGraph) -> Result<(), Memory>
        requires { AreFirst bound.now graph.now.graph self.old }
        ensures noted { OnOk result (self.new ≡ all_noted_in bound.now graph.now.graph) }
        ensures first { AreFirst bound.now graph.now.graph self.new }
    {
        for x in self.sequences.len()..graph.len() {
            self.note(bound, graph, x)?;
        }
        Ok(())
    }

    /// The strange members.
    pub(crate) fn strange(&self, alloc: Global) -> Result<Vec<Member>, Memory>
        requires { length self.now.strange ≤ 128 }
        ensures { IfOk result (λ members. members.items ≡ members_flagged self.now.strange) }
    {
        members_flagged(alloc, self.strange.as_slice())
    }

    /// The names of the members' last rows.
    pub(crate) fn heads(&self, alloc: Global) -> Result<Vec<Name>, Memory>
        ensures { IfOk result (λ names. names.items ≡ names_there self.now.lasts) }
    {
        names_there(alloc, self.lasts.as_slice())
    }

    /// How many self-ancestors each row has, other than itself.
    pub(crate) fn sequences(&self) -> &[u64]
        ensures { result.now ≡ self.now.sequences }
    {
        self.sequences.as_slice()
    }

    /// How many rows have a payload.
    pub(crate) fn payloads(&self) -> u64
        ensures { result ≡ self.now.payloads }
    {
        self.payloads
    }
}
