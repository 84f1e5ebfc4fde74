ghost use Rattle.std.specs.Prelude.{◌≡◌, ◌≤◌, true, IfOk, length, take};
ghost use Rattle.hg_model.specs.Links.{has_few_others, most_others};
ghost use Rattle.hg_life.specs.Spelling.{Spells, spelling};
ghost use Rattle.hg_event.specs.Names.{lent_names, names_lent};
ghost use Rattle.hg_event.specs.View.{row_of};

use crate::parents::ParentsView;
use crate::view::EventView;
use hg_model::{Bytes, Items, Memory, Name, Row};
use std::alloc::Global;
use std::marker::Model;

/// An event with its bytes, as one value that several nodes may share. Contracts see the row.
#[derive(Drop)]
pub struct Event {
    row: Row,
    bytes: Bytes,
}

impl Model for Event {
    ghost use Rattle.hg_model.specs.declared.row.Row.{Row};
    ghost use Rattle.hg_life.specs.Spelling.{Spells};

    ghost Value = { Row };

    ghost view = { λ s. s.row };

    ghost invariant = { λ s. Spells s.bytes s.row };
}

impl Event {
    /// The event of a row and of its bytes. Takes no memory.
    pub fn new(row: Row, bytes: Bytes) -> Event
        requires { Spells bytes row }
        ensures { result ≡ row }
    {
        Event { row, bytes }
    }

    /// A copy of the event that was read in these bytes, under its name.
    pub fn copied(
        alloc: Global,
        view: &EventView<'_>,
        name: Name,
        bytes: &[u8],
    ) -> Result<Event, Memory>
        requires spelled { Spells bytes.now (row_of view.now) }
        requires name { name ≡ (row_of view.now).name }
        ensures { IfOk result (λ event. event ≡ row_of view.now) }
    {
        let row = Row {
            creator: view.creator,
            parents: parents_copied(alloc, &view.parents)?,
            time: view.time,
            payload: Items::from_vec(Vec::from_slice(alloc, view.payload)?),
            sig: *view.sig,
            name,
        };
        let bytes = Items::from_vec(Vec::from_slice(alloc, bytes)?);
        Ok(Event::new(row, bytes))
    }

    /// A law: the row is spelled, and has its name.
    pub fn is_event(&self)
        ensures { Spells (spelling self.now) self.now }
    {
        let _bytes = self.bytes.as_slice();
    }

    /// The row: the event's fields and its name.
    pub fn row(&self) -> &Row
        ensures value { result.now ≡ self.now }
        ensures spelled { Spells (spelling self.now) self.now }
    {
        &self.row
    }

    /// Its bytes.
    pub fn bytes(&self) -> &[u8]
        ensures { result.now ≡ spelling self.now }
    {
        self.bytes.as_slice()
    }

    /// The event as it is read in its bytes.
    pub fn view(&self) -> EventView<'_>
        ensures { row_of result ≡ self.now }
    {
        let row = &self.row;
        let bytes = self.bytes.as_slice();
        EventView {
            creator: row.creator,
            parents: names_of(&row.parents),
            time: row.time,
            payload: row.payload.as_slice(),
            sig: &row.sig,
            body: &bytes[..bytes.len().saturating_sub(row.sig.len())],
        }
    }
}

/// A copy of the parents' names.
fn parents_copied(
    alloc: Global,
    parents: &Option<ParentsView<'_>>,
) -> Result<Option<(Name, Items<Name>)>, Memory>
    ensures { IfOk result (λ names. names ≡ names_lent parents.now) }
{
    match parents {
        None => Ok(None),
        Some(names) => {
            let others = names_copied(alloc, names.others())?;
            Ok(Some((*names.self_parent, Items::from_vec(others))))
        }
    }
}

/// A copy of the names.
fn names_copied(alloc: Global, names: &[&Name]) -> Result<Vec<Name>, Memory>
    ensures { IfOk result (λ copies. copies.items ≡ lent_names names.now) }
{
    let mut copies = Vec::with_capacity(alloc, names.len())?;
    for name in names {
        copies.push(**name)?;
    }
    Ok(copies)
}

/// The parents' names, borrowed.
fn names_of(parents: &Option<(Name, Items<Name>)>) -> Option<ParentsView<'_>>
    requires { has_few_others parents.now ≡ true }
    ensures { names_lent result ≡ parents.now }
{
    match parents {
        None => None,
        Some(names) => {
            let others = names.1.as_slice();
            Some(ParentsView {
                self_parent: &names.0,
                others: others_of(others, &names.0),
                len: others.len(),
            })
        }
    }
}

/// The names, borrowed, and the other one in the places behind them.
fn others_of<'a>(names: &'a [Name], filler: &'a Name) -> [&'a Name; 4]
    requires { length names.now ≤ most_others }
    ensures { lent_names (take (length names.now) result) ≡ names.now }
{
    let mut lent = [filler; 4];
    for place in 0..names.len() {
        lent[place] = &names[place];
    }
    lent
}
