ghost use Rattle.std.specs.Prelude.{◌≡◌, [], OnOk};
ghost use Rattle.hg_io.specs.Printing.{Prints, PutsOn, held_after, held_alone};

use crate::failed::Failed;
use crate::sink::Sink;
use crate::writing::write_all;
use arrayvec::ArrayVec;
use std::marker::Model;

/// How many bytes a page holds.
const PAGE: usize = 4096;

/// Bytes on their way to a sink, which takes them a page at a time. A page takes no memory.
#[derive(Drop)]
pub struct Page {
    bytes: ArrayVec<u8, PAGE>,
}

impl Model for Page {
    ghost use Rattle.std.specs.Prelude.{ℕ, List};

    ghost Value = { List ℕ };

    ghost view = { λ p. p.bytes.items };
}

// Gives the sink all bytes of the page, which holds none then, whatever came of it.
fn send<K: Sink>(bytes: &mut ArrayVec<u8, PAGE>, sink: &mut K) -> Result<(), Failed>
    ensures matches { Prints K.Sink sink.old sink.new bytes.old.items result }
    ensures empty { bytes.new.items ≡ [] }
{
    let sent = write_all(sink, bytes.as_slice());
    bytes.clear();
    sent
}

// Puts a piece on an empty page, or where it is longer than a page gives it to the sink.
#[tactic(auto, using(crate::proofs::PrintLaws::stops_straight))]
fn begin<K: Sink>(bytes: &mut ArrayVec<u8, PAGE>, sink: &mut K, piece: &[u8]) -> Result<(), Failed>
    requires { bytes.old.items ≡ [] }
    ensures held { OnOk result (bytes.new.items ≡ held_alone piece.now) }
    ensures puts { PutsOn K.Sink sink.old sink.new bytes.old.items bytes.new.items piece.now result }
{
    if bytes.try_extend_from_slice(piece).is_ok() {
        return Ok(());
    }
    write_all(sink, piece)?;
    Ok(())
}

// Puts a piece behind the bytes of the page.
#[tactic(auto, using(crate::proofs::PrintLaws::stops_sending, crate::proofs::PrintLaws::puts_after_sending, crate::proofs::PrintLaws::stops_after_sending))]
fn put<K: Sink>(bytes: &mut ArrayVec<u8, PAGE>, sink: &mut K, piece: &[u8]) -> Result<(), Failed>
    ensures held { OnOk result (bytes.new.items ≡ held_after bytes.old.items piece.now) }
    ensures puts { PutsOn K.Sink sink.old sink.new bytes.old.items bytes.new.items piece.now result }
{
    if bytes.try_extend_from_slice(piece).is_ok() {
        return Ok(());
    }
    send(bytes, sink)?;
    begin(bytes, sink, piece)?;
    Ok(())
}

impl Page {
    /// A page of no bytes.
    pub fn new() -> Page
        ensures { result ≡ [] }
    {
        Page {
            bytes: ArrayVec::new(),
        }
    }

    /// Puts the bytes behind those of the page, which go to the sink first where there is no room for both. At `Failed`
    /// a front of all of them was written, and the page holds none.
    pub fn put<K: Sink>(&mut self, sink: &mut K, bytes: &[u8]) -> Result<(), Failed>
        ensures held { OnOk result (self.new ≡ held_after self.old bytes.now) }
        ensures puts { PutsOn K.Sink sink.old sink.new self.old self.new bytes.now result }
    {
        put(&mut self.bytes, sink, bytes)
    }

    /// Gives the sink all bytes of the page, which holds none then. At `Failed` a front of them was written, and the
    /// others are lost: no byte is ever written twice.
    pub fn send<K: Sink>(&mut self, sink: &mut K) -> Result<(), Failed>
        ensures matches { Prints K.Sink sink.old sink.new self.old result }
        ensures empty { self.new ≡ [] }
    {
        send(&mut self.bytes, sink)
    }
}
