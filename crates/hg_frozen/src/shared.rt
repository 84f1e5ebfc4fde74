ghost use Rattle.std.specs.Prelude.{◌≡◌, ⊤};

use hg_blocks::{Block, Tail};
use hg_event::Event;
use hg_model::Row;
use std::alloc::AllocError;
use std::marker::Model;
use std::sync::Arc;

/// An event that several graphs share. Contracts see the row; a clone is a pointer more to the event.
#[derive(Drop)]
pub struct SharedEvent {
    event: Arc<Event>,
}

/// 64 rows that no longer change.
pub type RowBlock = Block<SharedEvent>;

/// At most 64 rows.
pub type RowTail = Tail<SharedEvent>;

impl Model for SharedEvent {
    ghost use Rattle.hg_model.specs.declared.row.Row.{Row};

    ghost Value = { Row };

    ghost view = { λ s. s.event.value };
}

impl SharedEvent {
    /// This event. Takes no memory.
    pub fn of(event: Arc<Event>) -> SharedEvent
        ensures { result ≡ event.value }
    {
        SharedEvent { event }
    }

    /// The event.
    pub fn event(&self) -> &Arc<Event>
        ensures { result.now.value ≡ self.now }
    {
        &self.event
    }

    /// The row: the event's fields and its name.
    pub fn row(&self) -> &Row
        ensures { result.now ≡ self.now }
    {
        self.event.row()
    }
}

impl Clone for SharedEvent {
    ghost is_clone = { λ event copy. copy ≡ event };

    fn clone(&self) -> Result<SharedEvent, AllocError> {
        Ok(SharedEvent {
            event: Arc::try_clone(&self.event)?,
        })
    }
}
