ghost use Rattle.std.specs.Prelude.{◌≡◌, ◌<◌, ◌≤◌, ◌-◌, ◌/◌, ◌++◌, ◌∷◌, [], Some, length, option_map, slice_get, take, IfOk, OnOk};
ghost use Rattle.hg_model.specs.Links.{place_of};
ghost use Rattle.hg_life.specs.Spelling.{spelling};
ghost use Rattle.hg_graph.specs.RowsWithRoom.{found_place};

use crate::names::NameIndex;
use hg_blocks::Blocks;
use hg_event::Event;
use hg_frozen::SharedEvent;
use hg_model::{Memory, Name, Row};
use std::alloc::Global;
use std::marker::Model;
use std::sync::Arc;

/// Events in the order in which they came, each shared with whoever else holds it, and found by its name.
#[derive(Drop)]
pub struct RowStore {
    events: Blocks<SharedEvent>,
    names: NameIndex,
}

impl Model for RowStore {
    ghost use Rattle.std.specs.Prelude.{min};
    ghost use Rattle.hg_graph.specs.RowsWithRoom.{RowsWithRoom};
    ghost use Rattle.hg_graph.specs.Names.{HoldsNames};

    ghost Value = { RowsWithRoom };

    ghost view = { λ s. record { rows = s.events.items; room = min s.events.room s.names.room } };

    ghost invariant = { λ s. HoldsNames s.events.items s.names.hashes };
}

impl RowStore {
    /// No rows. Takes no memory.
    pub fn new(alloc: Global) -> RowStore
        ensures { result.rows ≡ [] }
    {
        RowStore {
            events: Blocks::new(alloc),
            names: NameIndex::new(alloc),
        }
    }

    /// How many rows there are.
    pub fn len(&self) -> usize
        ensures { result ≡ length self.now.rows }
    {
        self.events.len()
    }

    /// The event at a place.
    pub fn event(&self, x: usize) -> &Arc<Event>
        requires { x < length self.now.rows }
        ensures { slice_get self.now.rows x ≡ Some result.now.value }
    {
        self.events[x].event()
    }

    /// The row at a place.
    pub fn row(&self, x: usize) -> &Row
        requires { x < length self.now.rows }
        ensures { slice_get self.now.rows x ≡ Some result.now }
    {
        self.events[x].row()
    }

    /// The bytes of the row at a place.
    pub fn bytes(&self, x: usize) -> &[u8]
        requires { x < length self.now.rows }
        ensures { option_map spelling (slice_get self.now.rows x) ≡ Some result.now }
    {
        self.event(x).bytes()
    }

    /// The place of the row with this name, if there is one.
    pub fn place_of(&self, name: &Name) -> Option<usize>
        ensures { result ≡ found_place self.now.rows name.now }
    {
        self.names.place_of(&self.events, name)
    }

    /// Whether the row at a place may have this name: where it may not, its event need not be looked at. No clause speaks of it.
    pub fn may_be(&self, x: usize, name: &Name) -> bool {
        self.names.may_be(x, name)
    }

    /// Takes the memory of one more row.
    pub fn reserve(&mut self) -> Result<(), Memory>
        ensures room { OnOk result (1 ≤ self.new.room) }
        ensures same { self.new.rows ≡ self.old.rows }
    {
        self.events.reserve()?;
        self.names.reserve()?;
        Ok(())
    }

    /// One more event, under a name that no other has. Takes no memory.
    pub fn push(&mut self, event: Arc<Event>)
        requires room { 1 ≤ self.old.room }
        requires new { place_of self.old.rows event.value.name ≡ length self.old.rows }
        ensures { self.new.rows ≡ self.old.rows ++ event.value ∷ [] }
    {
        self.names.push(&event.row().name);
        self.events.push(SharedEvent::of(event));
    }

    /// The first `len` rows, as a value of its own: it shares the sealed blocks, and points to at most 64 events more.
    pub fn prefix(&self, len: usize) -> Result<Blocks<SharedEvent>, Memory>
        requires { len ≤ length self.now.rows }
        ensures rows { IfOk result (λ first. first.items ≡ take len self.now.rows) }
        ensures sealed { IfOk result (λ first. first.sealed ≡ (len - 1) / 64) }
    {
        self.events.cloned_prefix(len)
    }
}
