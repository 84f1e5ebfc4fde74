ghost use Rattle.std.specs.Prelude.{◌≡◌};
ghost use Rattle.hg_graph.specs.RowsWithRoom.{rows_of};
ghost use Rattle.hg_proof.specs.Certificate.{certificate};

use crate::why::Why;
use hg_event::Event;
use hg_model::Placed;
use std::marker::Model;
use std::sync::Arc;

/// What a certificate tells: events, each after its parents, and the order of those that are ordered. Contracts see their
/// rows and the order.
#[derive(Drop)]
pub struct Shown {
    events: Vec<Arc<Event>>,
    order: Vec<Placed>,
}

impl Model for Shown {
    ghost use Rattle.hg_graph.specs.RowsWithRoom.{rows_of};
    ghost use Rattle.hg_proof.specs.Certificate.{Certificate, certificate};

    ghost Value = { Certificate };

    ghost view = { λ s. certificate (rows_of s.events.items) s.order.items };
}

impl Shown {
    /// These events, ordered so.
    pub(crate) fn new(events: Vec<Arc<Event>>, order: Vec<Placed>) -> Shown
        ensures { result ≡ certificate (rows_of events.items) order.items }
    {
        Shown { events, order }
    }

    /// The events.
    pub fn events(&self) -> &[Arc<Event>]
        ensures { rows_of result.now ≡ self.now.rows }
    {
        &self.events
    }

    /// The order: of each entry the place of its event among these, the round that received it, and its consensus timestamp.
    pub fn order(&self) -> &[Placed]
        ensures { result.now ≡ self.now.order }
    {
        &self.order
    }
}

/// What comes of checking a certificate.
#[derive(Drop)]
pub enum Checked {
    /// It shows this.
    Yes(Shown),
    /// It shows nothing, and this is the first reason.
    No(Why),
}
