ghost use Rattle.std.specs.Prelude.{◌≡◌, ◌≤◌, ℕ, [], List, Ok, Some, IfOk};
ghost use Rattle.hg_io.specs.Bytes.{IsReadOn};
ghost use Rattle.hg_io.specs.Faults.{Rose};
ghost use Rattle.hg_wire.specs.declared.message.Want.{Want};
ghost use Rattle.hg_wire.specs.Ears.{HasHeard, means};
ghost use Rattle.hg_wire.specs.Receiving.{Received, Told};

use crate::ear::Ear;
use crate::hearing::are_bytes;
use crate::message::{Fed, Message, WireFault};
use hg_io::Source;
use hg_model::Memory;

/// What came of receiving a message.
#[derive(Debug, Drop)]
pub enum Receipt {
    Got(Message),
    /// The source failed, and counted it.
    Failed,
    /// The source ended behind so many bytes, which hold no fault and no whole message.
    Ended(usize),
    /// The bytes have this fault.
    Wire(WireFault),
}

/// How many bytes a read may give at once.
const PIECE: usize = 4096;

/// Receives the first message of the source, and reads no byte behind it. Needs a new ear, which needs to be made anew
/// after each answer. After `Memory` some first bytes of the source were read.
pub fn receive<S: Source>(source: &mut S, ear: &mut Ear) -> Result<Receipt, Memory>
    requires { (want : Want) × HasHeard want [] ear.old }
    // What was read, and what it means.
    ensures received { IfOk result (Received (means ear.old) (S.left source.old) (S.left source.new)) }
    ensures told { (bytes : List ℕ) → S.left source.old ≡ Some bytes
        → IfOk result (Told (means ear.old) bytes (S.left source.new)) }
    ensures read { IsReadOn (S.left source.old) (S.left source.new) }
    ensures cause { result ≡ Ok Receipt.Failed → Rose (S.faults source.old) (S.faults source.new) }
    ensures counts { S.faults source.old ≤ S.faults source.new }
{
    listen(source, ear)
}

/// The same, with the clauses from which the others follow.
#[tactic(auto, using(crate::proofs::Sources::read_so_far, crate::proofs::Sources::read_on))]
fn listen<S: Source>(source: &mut S, ear: &mut Ear) -> Result<Receipt, Memory>
    requires { (want : Want) × HasHeard want [] ear.old }
    ensures received { IfOk result (Received (means ear.old) (S.left source.old) (S.left source.new)) }
    ensures read { IsReadOn (S.left source.old) (S.left source.new) }
    ensures cause { result ≡ Ok Receipt.Failed → Rose (S.faults source.old) (S.faults source.new) }
    ensures counts { S.faults source.old ≤ S.faults source.new }
{
    let mut buf = [0; PIECE];
    let mut at = 0;
    'pieces: loop {
        let room = ear.wants().min(PIECE);
        let Ok(count) = source.read(&mut buf[..room]) else {
            return Ok(Receipt::Failed);
        };
        if count == 0 {
            return Ok(Receipt::Ended(at));
        }
        let piece = &buf[..count];
        are_bytes(piece);
        match ear.feed(piece)? {
            Fed::More => at += count,
            Fed::Whole(message, _) => return Ok(Receipt::Got(message)),
            Fed::Refused(fault) => return Ok(Receipt::Wire(fault)),
        }
    }
}
