ghost use Rattle.std.specs.Prelude.{◌≡◌, ◌≤◌, ◌++◌, ℕ, IfOk, List, Ok, length, take};
ghost use Rattle.hg_model.specs.declared.row.Row.{Row};
ghost use Rattle.hg_life.specs.Spelling.{Spells, body_of};
ghost use Rattle.hg_life.specs.Reading.{read_event};
ghost use Rattle.hg_life.specs.Results.{Reads};
ghost use Rattle.hg_event.specs.First.{Stands, first_event, greatest_size, least_size, read_first};
ghost use Rattle.hg_event.specs.View.{row_of};

use crate::fields::{array_of, form_of, parents_of, payload_of, u16_of, u64_of};
use crate::view::EventView;
use hg_life::ByteFault;

/// The event that these bytes spell, all of them, or the first fault from left to right.
/// What it gives is borrowed from the bytes. Takes no memory.
pub fn decode(bytes: &[u8]) -> Result<EventView<'_>, ByteFault>
    // What is read is spelled so.
    ensures found { IfOk result (λ view. Spells bytes.now (row_of view)) }
    // What is spelled so is read.
    ensures only { (row : Row) → Spells bytes.now row → Reads row_of result (Ok row) }
    // Which row or fault it is.
    ensures exact { Reads row_of result (read_event bytes.now) }
{
    event_of(bytes)
}

// The same, with the one clause from which the others follow.
#[tactic(auto, using(crate::proofs::Spells::faulty_read))]
fn event_of(bytes: &[u8]) -> Result<EventView<'_>, ByteFault>
    ensures { Reads row_of result (read_event bytes.now) }
{
    let (view, rest) = first_of(bytes)?;
    if !rest.is_empty() {
        return Err(ByteFault::Trailing(rest.len()));
    }
    Ok(view)
}

/// The event that these bytes begin with, and how many of them spell it, or the first fault, of which none is
/// `Trailing`. More bytes behind these change no answer but `Short`. Takes no memory.
#[tactic(auto, using(crate::proofs::FrontsStand::first_stands, crate::proofs::FrontLaws::first_faulty))]
pub fn decode_first(bytes: &[u8]) -> Result<(EventView<'_>, usize), ByteFault>
    // What is read is spelled so by the first bytes.
    ensures found { IfOk result (λ first. Spells (take first.1 bytes.now) (row_of first.0)) }
    ensures within { IfOk result (λ first. first.1 ≤ length bytes.now) }
    ensures sized { IfOk result (λ first. (least_size ≤ first.1) × (first.1 ≤ greatest_size)) }
    // What the first bytes spell is read.
    ensures only { (row : Row) (event rest : List ℕ) → Spells event row → bytes.now ≡ event ++ rest
        → Reads {Y = Row × ℕ} (λ first. (row_of first.0, first.1)) result (Ok (row, length event)) }
    // Which row or fault it is.
    ensures exact { Reads (λ first. (row_of first.0, first.1)) result (first_event bytes.now) }
    ensures stands { (more : List ℕ) → Stands (first_event bytes.now) (first_event (bytes.now ++ more)) }
{
    let (view, rest) = first_of(bytes)?;
    Ok((view, bytes.len().saturating_sub(rest.len())))
}

// The event at the front, and the bytes behind it.
#[tactic(auto, unfolding(crate::specs::First::read_first))]
fn first_of(bytes: &[u8]) -> Result<(EventView<'_>, &[u8]), ByteFault>
    ensures { Reads (λ first. (row_of first.0, first.1.now)) result (read_first bytes.now) }
{
    let size = bytes.len();
    let (several, rest) = form_of(bytes, size)?;
    let (creator, rest) = u16_of(rest, size)?;
    let (parents, rest) = parents_of(rest, size, several)?;
    let (time, rest) = u64_of(rest, size)?;
    let (payload, rest) = payload_of(rest, size)?;
    let (sig, rest) = array_of::<64>(rest, size)?;
    let len = size.saturating_sub(rest.len());
    let view = EventView {
        creator,
        parents,
        time,
        payload,
        sig,
        body: &bytes[..len.saturating_sub(sig.len())],
    };
    Ok((view, rest))
}

/// The part of the event's bytes that its creator signed: all but the signature.
#[tactic(auto, unfolding(hg_life::specs::Spelling::body_of))]
pub fn body_of<'a>(view: &EventView<'a>) -> &'a [u8]
    ensures { result.now ≡ body_of (row_of view.now) }
{
    view.body
}
