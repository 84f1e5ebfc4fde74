ghost use Rattle.std.specs.Prelude.{◌≡◌, ◌<◌, [], IfOk, OnErr};
ghost use Rattle.hg_wire.specs.Outcome.{Unfinished};
ghost use Rattle.hg_wire.specs.Ears.{Answers, GoesOn, HasHeard, IsOn, LacksAtLeast, WaitsIfMore, means, wanted};

use crate::hearing::{Hearing, are_bytes, hear};
use crate::message::{Fed, Want};
use crate::progress::{Progress, Stage};
use crate::sizes::{behind, least_of};
use hg_model::Memory;
use std::alloc::Global;
use std::marker::Model;

/// What hears a message that comes in pieces. It keeps the names and events of the message so far, each once, and the
/// bytes of a field that is not whole, at most 1,345, with as much room for those of the one before. Contracts see what it
/// makes of the bytes to come.
#[derive(Drop)]
pub struct Ear {
    hearing: Hearing,
    spare: Vec<u8>,
}

impl Model for Ear {
    ghost use Rattle.hg_wire.specs.Ears.{IsSettled, Place, place_of};

    ghost Value = { Place };

    ghost view = { λ ear. place_of ear.hearing };

    ghost invariant = { λ ear. IsSettled ear.hearing };
}

impl Ear {
    /// An ear for the first message of a stream, of this kind. Takes no memory.
    pub fn new(alloc: Global, want: Want) -> Ear
        ensures heard { HasHeard want [] result }
        ensures waits { means result [] ≡ Unfinished }
    {
        Ear {
            hearing: Hearing {
                progress: Progress {
                    alloc,
                    want,
                    stage: Stage::AtHead,
                    names: Vec::new(alloc),
                    rows: Vec::new(alloc),
                },
                pending: Vec::new(alloc),
            },
            spare: Vec::new(alloc),
        }
    }

    /// Hears the next piece. After `Whole` the ear needs to be made anew; after `Refused` each piece is refused so. After
    /// `Memory` the ear is as it was, and may be fed the piece again. Memory is taken for names and events as they come,
    /// and none for the number that is said of them.
    pub fn feed(&mut self, piece: &[u8]) -> Result<Fed, Memory>
        requires { IsOn self.old }
        ensures answers { IfOk result (Answers piece.now (means self.old piece.now)) }
        ensures goes_on { IfOk result (GoesOn self.old self.new piece.now) }
        ensures waits { IfOk result (WaitsIfMore self.new) }
        ensures err { OnErr result (self.new ≡ self.old) }
    {
        if let Stage::Shut(fault) = self.hearing.progress.stage {
            return Ok(Fed::Refused(fault));
        }
        let fed = hear(&mut self.hearing, &mut self.spare, piece)?;
        Ok(fed)
    }

    /// So many bytes of the message are still to come at least, where those so far hold no fault and no whole message: what
    /// the field lacks of which the last ones are, as far as these tell how long it is, and the fewest behind it.
    pub fn wants(&self) -> usize
        requires { means self.now [] ≡ Unfinished }
        ensures value { result ≡ wanted self.now }
        ensures some { 0 < result }
        ensures least { LacksAtLeast result self.now }
    {
        let pending = self.hearing.pending.as_slice();
        are_bytes(pending);
        let stage = self.hearing.progress.stage;
        let missing = least_of(stage, pending).saturating_sub(pending.len());
        missing.max(1) + behind(stage)
    }
}
