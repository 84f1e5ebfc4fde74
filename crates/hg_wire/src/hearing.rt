ghost use Rattle.std.specs.Prelude.{ℕ, ◌≡◌, ◌<◌, [], IfOk, OnErr, get_or};
ghost use Rattle.hg_wire.specs.Ears.{CrossesKept, Hears, HearsOn, IsBeyond, IsLeftOf, IsOnward, IsWaiting, Steps, StepsKept, place_of};
ghost use Rattle.hg_wire.specs.Views.{state_of};

use crate::message::Fed;
use crate::progress::{Progress, Turn, read_field};
use hg_model::Memory;
use std::mem;

/// The greatest number of bytes of a field: those of an event.
const FIELD_LIMIT: usize = 1345;

/// An ear from within: how far the message was read, and the bytes of the field there that came with earlier pieces.
#[derive(Drop)]
pub(crate) struct Hearing {
    pub(crate) progress: Progress,
    pub(crate) pending: Vec<u8>,
}

/// A law: bytes are below 256.
pub(crate) fn are_bytes(bytes: &[u8])
    ensures { (i : ℕ) → get_or bytes.now i 0 < 256 }
{
    let _len = bytes.len();
}

/// Reads the field at the place where it lies, in these bytes alone.
fn step_within<'a>(h: &mut Hearing, bytes: &'a [u8]) -> Result<Turn<'a>, Memory>
    requires waits { IsWaiting h.old }
    requires empty { h.old.pending.items ≡ [] }
    ensures steps { IfOk result (Steps h.old h.new bytes.now) }
    ensures kept { IfOk result (StepsKept h.old h.new) }
    ensures err { OnErr result (place_of h.new ≡ place_of h.old) }
{
    match read_field(&mut h.progress, bytes)? {
        Turn::Waits => {
            h.pending.extend_from_slice(bytes)?;
            Ok(Turn::Waits)
        }
        Turn::On(rest) => Ok(Turn::On(rest)),
        Turn::Whole(message, rest) => Ok(Turn::Whole(message, rest)),
        Turn::Wrong(fault) => Ok(Turn::Wrong(fault)),
    }
}

/// Reads the field at the place, of which some bytes came before. As many as a field may have are put behind these; where
/// it is whole they go to `spare`.
fn step_across<'a>(
    h: &mut Hearing,
    spare: &mut Vec<u8>,
    bytes: &'a [u8],
) -> Result<Turn<'a>, Memory>
    requires { IsWaiting h.old }
    ensures steps { IfOk result (Steps h.old h.new bytes.now) }
    ensures kept { IfOk result (CrossesKept h.old h.new spare.new.items) }
    ensures err { OnErr result (IsBeyond (place_of h.old) (place_of h.new)) }
{
    let len = bytes.len().min(FIELD_LIMIT - h.pending.len());
    h.pending.extend_from_slice(&bytes[..len])?;
    let pending = h.pending.as_slice();
    are_bytes(pending);
    match read_field(&mut h.progress, pending)? {
        Turn::Waits => Ok(Turn::Waits),
        Turn::On(rest) => {
            let used = len - rest.len();
            mem::swap(&mut h.pending, spare);
            h.pending.clear();
            Ok(Turn::On(&bytes[used..]))
        }
        Turn::Whole(message, rest) => Ok(Turn::Whole(message, &bytes[len - rest.len()..])),
        Turn::Wrong(fault) => Ok(Turn::Wrong(fault)),
    }
}

/// Reads on in the piece, of which this is left.
fn hear_on(h: &mut Hearing, piece: &[u8], left: &[u8]) -> Result<Fed, Memory>
    requires waits { IsWaiting h.old }
    requires empty { h.old.pending.items ≡ [] }
    requires left { IsLeftOf piece.now left.now }
    ensures heard { IfOk result (HearsOn h.old left.now h.new piece.now) }
    ensures err { OnErr result (IsOnward (state_of h.old.progress) (state_of h.new.progress)) }
{
    let mut rest = left;
    'fields: loop {
        match step_within(h, rest)? {
            Turn::Waits => return Ok(Fed::More),
            Turn::On(behind) => rest = behind,
            Turn::Whole(message, behind) => {
                return Ok(Fed::Whole(message, piece.len() - behind.len()));
            }
            Turn::Wrong(fault) => return Ok(Fed::Refused(fault)),
        }
    }
}

/// Reads on with this piece. Without memory names, rows and bytes may have been added.
fn hear_more(h: &mut Hearing, spare: &mut Vec<u8>, piece: &[u8]) -> Result<Fed, Memory>
    requires { IsWaiting h.old }
    ensures heard { IfOk result (Hears h.old h.new piece.now) }
    ensures err { OnErr result (IsBeyond (place_of h.old) (place_of h.new)) }
{
    if h.pending.is_empty() {
        return hear_on(h, piece, piece);
    }
    match step_across(h, spare, piece)? {
        Turn::Waits => Ok(Fed::More),
        Turn::On(left) => match hear_on(h, piece, left) {
            Ok(fed) => Ok(fed),
            Err(memory) => {
                mem::swap(&mut h.pending, spare);
                Err(memory)
            }
        },
        Turn::Whole(message, left) => Ok(Fed::Whole(message, piece.len() - left.len())),
        Turn::Wrong(fault) => Ok(Fed::Refused(fault)),
    }
}

/// Reads on with this piece. Without memory all is as it was.
pub(crate) fn hear(h: &mut Hearing, spare: &mut Vec<u8>, piece: &[u8]) -> Result<Fed, Memory>
    requires { IsWaiting h.old }
    ensures heard { IfOk result (Hears h.old h.new piece.now) }
    ensures err { OnErr result (place_of h.new ≡ place_of h.old) }
{
    let stage = h.progress.stage;
    let names = h.progress.names.len();
    let rows = h.progress.rows.len();
    let pending = h.pending.len();
    match hear_more(h, spare, piece) {
        Ok(fed) => Ok(fed),
        Err(memory) => {
            h.progress.stage = stage;
            h.progress.names.truncate(names);
            h.progress.rows.truncate(rows);
            h.pending.truncate(pending);
            Err(memory)
        }
    }
}
