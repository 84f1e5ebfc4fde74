ghost use Rattle.std.specs.Prelude.{◌≡◌, ◌<◌, ◌≤◌, ℕ, List, All, IfErr, IfOk, IfSome, length};
ghost use Rattle.hg_certify.specs.Showing.{IsSafeBeside, ShowsTo, judged_by};
ghost use Rattle.hg_exchange.specs.Messages.{message_of};
ghost use Rattle.hg_proof.specs.Certificate.{certificate_bytes};
ghost use Rattle.hg_keep.specs.Events.{events_of};
ghost use Rattle.hg_members.specs.MemberFile.{members_of};
ghost use Rattle.hg_script.specs.Lawful.{IsLine};
ghost use Rattle.hg_top.specs.Commands.{events_work, lines_for, lines_work, members_work, message_work, own_in, shown_work};
ghost use Rattle.hg_top.specs.Course.{HasWithin, StartsOne};
ghost use Rattle.hg_top.specs.Ends.{IsTaken, StopsIn};
ghost use Rattle.hg_top.specs.Work.{limit_of, nothing_more};
ghost use Rattle.hg_top.specs.Work.Work.{Reads};
ghost use Rattle.hg_top.specs.declared.status.File.TheVariants as file;
ghost use Rattle.hg_wire.specs.Grammar.{Fits};

use crate::status::{File, Refusal, Status};
use hg_certify::{Shown, read_certificate};
use hg_exchange::read_message;
use hg_io::{FileAnswer, Shelf, read_file};
use hg_keep::read_events;
use hg_life::Members;
use hg_members::read_members;
use hg_model::{Bytes, Items, Member, Memory};
use hg_reading::read_script;
use hg_script::Line;
use hg_wire::{Message, Want};
use std::alloc::Global;

/// The bytes of the file of this name, if they are not too many.
fn bytes_from<F: Shelf>(
    alloc: Global,
    shelf: &mut F,
    file: File,
    name: &str,
) -> Result<Bytes, Status>
    ensures ok { IfOk result (HasWithin (F.holds shelf.old) name.now (limit_of file)) }
    ensures err { IfErr result (StopsIn F.Shelf shelf.old shelf.new (Reads file name.now (λ bytes. nothing_more))) }
    ensures starts { StartsOne F.Shelf shelf.old shelf.new }
{
    match read_file(alloc, shelf, name, file.limit()) {
        Err(Memory) => Err(Status::Memory),
        Ok(FileAnswer::Failed) => Err(Status::ReadFault(file)),
        Ok(FileAnswer::TooLong(_)) => Err(file.too_long()),
        Ok(FileAnswer::Bytes(bytes)) => Ok(bytes),
    }
}

/// The members that the file of this name tells.
pub fn members_from<F: Shelf>(alloc: Global, shelf: &mut F, name: &str) -> Result<Members, Status>
    ensures ok { IfOk result (IsTaken (F.holds shelf.old) file.Members members_of name.now) }
    ensures err { IfErr result (StopsIn F.Shelf shelf.old shelf.new (members_work name.now (λ members. nothing_more))) }
    ensures starts { StartsOne F.Shelf shelf.old shelf.new }
{
    let bytes = bytes_from(alloc, shelf, File::Members, name)?;
    match read_members(alloc, bytes.as_slice()) {
        Err(Memory) => Err(Status::Memory),
        Ok(Err(fault)) => Err(Status::Members(Refusal::Fault(fault))),
        Ok(Ok(members)) => Ok(members),
    }
}

/// The member of this name, if it has a node.
pub fn own_in(members: &Members, name: &str) -> Option<Member>
    ensures value { result ≡ own_in members.now name.now }
    ensures inside { IfSome result (λ own. own < length members.now.entries) }
{
    match members.place_of(name.as_bytes()) {
        Some(own) if members.has_node(own) => Some(own),
        _ => None,
    }
}

/// The lines that the script of this name is, for so many workers.
pub(crate) fn lines_from<F: Shelf>(
    alloc: Global,
    shelf: &mut F,
    name: &str,
    members: &Members,
    workers: u32,
) -> Result<Items<Line>, Status>
    ensures ok { IfOk result (IsTaken (F.holds shelf.old) file.Script (lines_for members.now workers) name.now) }
    ensures lawful { IfOk result (λ lines. All (IsLine members.now workers) lines) }
    ensures err { IfErr result
        (StopsIn F.Shelf shelf.old shelf.new (lines_work name.now members.now workers (λ lines. nothing_more))) }
    ensures starts { StartsOne F.Shelf shelf.old shelf.new }
{
    let bytes = bytes_from(alloc, shelf, File::Script, name)?;
    match read_script(alloc, bytes.as_slice(), members, workers) {
        Err(Memory) => Err(Status::Memory),
        Ok(Err(fault)) => Err(Status::Script(Refusal::Fault(fault))),
        Ok(Ok(lines)) => Ok(lines),
    }
}

/// The events that the file of this name is.
pub(crate) fn events_from<F: Shelf>(
    alloc: Global,
    shelf: &mut F,
    name: &str,
) -> Result<Items<Bytes>, Status>
    ensures ok { IfOk result (IsTaken (F.holds shelf.old) file.Events events_of name.now) }
    ensures err { IfErr result (StopsIn F.Shelf shelf.old shelf.new (events_work name.now (λ events. nothing_more))) }
    ensures starts { StartsOne F.Shelf shelf.old shelf.new }
{
    let bytes = bytes_from(alloc, shelf, File::Events, name)?;
    match read_events(alloc, bytes.as_slice()) {
        Err(Memory) => Err(Status::Memory),
        Ok(Err(fault)) => Err(Status::Events(Refusal::Fault(fault))),
        Ok(Ok(events)) => Ok(events),
    }
}

/// What the file of this name shows as a certificate to these members.
pub(crate) fn proof_from<F: Shelf>(
    alloc: Global,
    shelf: &mut F,
    name: &str,
    members: &Members,
) -> Result<Shown, Status>
    ensures ok { IfOk result (IsTaken (F.holds shelf.old) file.Proof (judged_by members.now) name.now) }
    ensures shows { IfOk result (λ shown. ShowsTo members.now (certificate_bytes shown) shown) }
    ensures safe { IfOk result (IsSafeBeside members.now) }
    ensures err { IfErr result
        (StopsIn F.Shelf shelf.old shelf.new (shown_work name.now members.now (λ shown. nothing_more))) }
    ensures starts { StartsOne F.Shelf shelf.old shelf.new }
{
    let bytes = bytes_from(alloc, shelf, File::Proof, name)?;
    match read_certificate(alloc, members, bytes.as_slice()) {
        Err(Memory) => Err(Status::Memory),
        Ok(Err(why)) => Err(Status::Proof(Refusal::Fault(why))),
        Ok(Ok(shown)) => Ok(shown),
    }
}

/// The message of this kind that the file of this name is.
pub(crate) fn message_from<F: Shelf>(
    alloc: Global,
    shelf: &mut F,
    want: Want,
    name: &str,
) -> Result<Message, Status>
    ensures ok { IfOk result (IsTaken (F.holds shelf.old) file.Message (message_of want) name.now) }
    ensures fits { IfOk result (Fits want) }
    ensures err { IfErr result (StopsIn F.Shelf shelf.old shelf.new (message_work want name.now (λ message. nothing_more))) }
    ensures starts { StartsOne F.Shelf shelf.old shelf.new }
{
    let bytes = bytes_from(alloc, shelf, File::Message, name)?;
    match read_message(alloc, want, bytes.as_slice()) {
        Err(Memory) => Err(Status::Memory),
        Ok(Err(fault)) => Err(Status::Wire(Refusal::Fault(fault))),
        Ok(Ok(message)) => Ok(message),
    }
}
