ghost use Rattle.std.specs.Prelude.{ℕ, ◌≡◌, ◌<◌, ◌++◌, ◌∷◌, [], get_or, length, true, IfOk, OnErr, OnOk};
ghost use Rattle.hg_event.specs.View.{row_of};
ghost use Rattle.hg_model.specs.Stakes.{member_count};
ghost use Rattle.hg_life.specs.Spelling.{Spells, spelling};
ghost use Rattle.hg_model.specs.Graph.{IsGraph};
ghost use Rattle.hg_arrival.specs.Arrival.{StandsOn};
ghost use Rattle.hg_node.specs.ChronicleView.{chronicle_made, chronicle_took};
ghost use Rattle.hg_node.specs.Restore.{WouldRestore, after_restore, restore_answer};
ghost use Rattle.hg_node.specs.Puts.{WouldAccept, after_put, is_signed};
ghost use Rattle.hg_life.specs.declared.answers.PutAnswer.TheVariants.{Accepted};
ghost use Rattle.hg_life.specs.Calls.{put_answer};

use crate::chronicle::Chronicle;
use crate::node::Node;
use crate::putting::{parents_of_put, parents_of_put_event, parents_of_restore};
use hg_event::{Event, EventView, decode};
use hg_life::{Entry, Fault, PutAnswer};
use hg_model::{Memory, Name};
use hg_name::name_of;
use hg_sign::Signer;
use std::alloc::Global;
use std::sync::Arc;

impl<V: Signer> Node<V> {
    /// Puts the bytes of an event. Only to accept it takes memory.
    pub fn put(&mut self, bytes: &[u8]) -> Result<PutAnswer, Memory>
        ensures answer { IfOk result (λ answer. answer ≡ put_answer V.accepts self.old bytes.now) }
        ensures ok { OnOk result (self.new ≡ after_put V.accepts self.old bytes.now) }
        ensures err { OnErr result (self.new ≡ self.old) }
        ensures free { OnErr result (WouldAccept V.accepts self.old bytes.now) }
    {
        let view = match decode(bytes) {
            Ok(view) => view,
            Err(fault) => return Ok(PutAnswer::Refused(Fault::Bytes(fault))),
        };
        let name = name_of(bytes);
        match parents_of_put(&self.keys, &*self.chronicle, &view, &name, bytes) {
            Ok(parents) => take(
                self.alloc,
                &mut *self.chronicle,
                &view,
                name,
                bytes,
                parents.as_slice(),
            ),
            Err(answer) => Ok(answer),
        }
    }

    /// Puts the bytes of an event that the node made before, and that comes back to it, as from what it has stored. It stands
    /// in the log as made then, and is an impostor's just where it is not the node's next one: by its member, on its last own
    /// row, or without parents where there is none. All else is as in `put`.
    pub fn restore(&mut self, bytes: &[u8]) -> Result<PutAnswer, Memory>
        ensures answer { IfOk result (λ answer. answer ≡ restore_answer V.accepts self.old bytes.now) }
        ensures ok { OnOk result (self.new ≡ after_restore V.accepts self.old bytes.now) }
        ensures err { OnErr result (self.new ≡ self.old) }
        ensures free { OnErr result (WouldRestore V.accepts self.old bytes.now) }
    {
        let view = match decode(bytes) {
            Ok(view) => view,
            Err(fault) => return Ok(PutAnswer::Refused(Fault::Bytes(fault))),
        };
        let event_name = name_of(bytes);
        match parents_of_restore(&self.keys, &*self.chronicle, &view, &event_name, bytes) {
            Ok(parents) => take_back(
                self.alloc,
                &mut *self.chronicle,
                &view,
                event_name,
                bytes,
                parents.as_slice(),
            ),
            Err(answer) => Ok(answer),
        }
    }

    /// Puts an event of a member, whose signature the node's keys accept, as it stands at another node: what comes of it
    /// is what comes of its bytes, but it is not read, named, checked or copied again.
    pub fn put_event(&mut self, event: &Arc<Event>) -> Result<PutAnswer, Memory>
        requires fits { event.now.value.creator < member_count self.old.start.members }
        requires signed { is_signed V.accepts self.old.start event.now.value ≡ true }
        ensures answer { IfOk result (λ answer. answer ≡ put_answer V.accepts self.old (spelling event.now.value)) }
        ensures ok { OnOk result (self.new ≡ after_put V.accepts self.old (spelling event.now.value)) }
        ensures err { OnErr result (self.new ≡ self.old) }
        ensures free { OnErr result (WouldAccept V.accepts self.old (spelling event.now.value)) }
    {
        event.is_event();
        are_bytes(event.bytes());
        match parents_of_put_event(&*self.chronicle, event) {
            Ok(parents) => take_shared(&mut *self.chronicle, event, parents.as_slice()),
            Err(answer) => Ok(answer),
        }
    }
}

/// Takes the event of these bytes, on its parents' places.
fn take(
    alloc: Global,
    chronicle: &mut Chronicle,
    view: &EventView<'_>,
    name: Name,
    bytes: &[u8],
    parents: &[usize],
) -> Result<PutAnswer, Memory>
    requires limit { length chronicle.old.graph.rows < chronicle.old.limit }
    requires spelled { Spells bytes.now (row_of view.now) }
    requires name { name ≡ (row_of view.now).name }
    requires link { StandsOn chronicle.old.graph.rows (row_of view.now) parents.now }
    requires graph { IsGraph chronicle.old.graph.members (chronicle.old.graph.rows ++ row_of view.now ∷ []) }
    ensures answer { IfOk result (λ answer. answer ≡ Accepted (length chronicle.old.graph.rows)) }
    ensures ok { OnOk result (chronicle.new ≡ chronicle_took chronicle.old (row_of view.now)) }
    ensures err { OnErr result (chronicle.new ≡ chronicle.old) }
{
    let event = Event::copied(alloc, view, name, bytes)?;
    take_shared(chronicle, &Arc::new(alloc, event)?, parents)
}

/// Takes the event of these bytes as one that the node made, on its parents' places.
fn take_back(
    alloc: Global,
    chronicle: &mut Chronicle,
    view: &EventView<'_>,
    name: Name,
    bytes: &[u8],
    parents: &[usize],
) -> Result<PutAnswer, Memory>
    requires limit { length chronicle.old.graph.rows < chronicle.old.limit }
    requires spelled { Spells bytes.now (row_of view.now) }
    requires name { name ≡ (row_of view.now).name }
    requires link { StandsOn chronicle.old.graph.rows (row_of view.now) parents.now }
    requires graph { IsGraph chronicle.old.graph.members (chronicle.old.graph.rows ++ row_of view.now ∷ []) }
    ensures answer { IfOk result (λ answer. answer ≡ Accepted (length chronicle.old.graph.rows)) }
    ensures ok { OnOk result (chronicle.new ≡ chronicle_made chronicle.old (row_of view.now)) }
    ensures err { OnErr result (chronicle.new ≡ chronicle.old) }
{
    let event = Event::copied(alloc, view, name, bytes)?;
    let place = chronicle.graph().len();
    chronicle.add(Arc::new(alloc, event)?, parents, Entry::Made(place))?;
    Ok(PutAnswer::Accepted(place))
}

/// A law: bytes are below 256.
fn are_bytes(bytes: &[u8])
    ensures { (i : ℕ) → get_or bytes.now i 0 < 256 }
{
    let _len = bytes.len();
}

/// Takes the event, on its parents' places.
fn take_shared(
    chronicle: &mut Chronicle,
    event: &Arc<Event>,
    parents: &[usize],
) -> Result<PutAnswer, Memory>
    requires limit { length chronicle.old.graph.rows < chronicle.old.limit }
    requires link { StandsOn chronicle.old.graph.rows event.now.value parents.now }
    requires graph { IsGraph chronicle.old.graph.members (chronicle.old.graph.rows ++ event.now.value ∷ []) }
    ensures answer { IfOk result (λ answer. answer ≡ Accepted (length chronicle.old.graph.rows)) }
    ensures ok { OnOk result (chronicle.new ≡ chronicle_took chronicle.old event.now.value) }
    ensures err { OnErr result (chronicle.new ≡ chronicle.old) }
{
    let place = chronicle.graph().len();
    chronicle.add(Arc::clone(event)?, parents, Entry::Took(place))?;
    Ok(PutAnswer::Accepted(place))
}
