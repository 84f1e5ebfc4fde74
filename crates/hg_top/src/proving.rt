ghost use Rattle.std.specs.Prelude.{◌<◌, length};
ghost use Rattle.hg_command.specs.Asked.{check_files, node_files};
ghost use Rattle.hg_top.specs.Commands.{certificate_work, check_work, prove_work};
ghost use Rattle.hg_top.specs.Course.{OnlyReads};
ghost use Rattle.hg_top.specs.Ends.{EndsOn};

use crate::printing::print_text;
use crate::reading::{lines_from, members_from, own_in, proof_from};
use crate::status::{Status, status_of};
use hg_certify::{prove_order, write_shown};
use hg_command::{CheckRequest, NodeRequest};
use hg_io::{Shelf, Sink};
use hg_life::Members;
use hg_model::{Member, Memory};
use std::alloc::Global;

/// What the certificate of this member's node comes to.
fn prove_play<F: Shelf, K: Sink>(
    alloc: Global,
    members: &Members,
    own: Member,
    script: &str,
    shelf: &mut F,
    out: &mut K,
) -> Status
    requires { own < length members.now.entries }
    ensures ends { EndsOn F.Shelf K.Sink shelf.old shelf.new out.old out.new
        (certificate_work script.now members.now own) result }
    ensures same { OnlyReads F.Shelf shelf.old shelf.new }
{
    let lines = match lines_from(alloc, shelf, script, members, 0) {
        Ok(lines) => lines,
        Err(status) => return status,
    };
    match prove_order(alloc, members, lines.as_slice(), own) {
        Ok(bytes) => status_of(print_text(out, bytes.as_slice())),
        Err(Memory) => Status::Memory,
    }
}

/// What the certificate of the order of a member's node, after the play of a script, comes to.
pub(crate) fn prove<F: Shelf, K: Sink>(
    alloc: Global,
    asked: &NodeRequest<'_>,
    shelf: &mut F,
    out: &mut K,
) -> Status
    ensures ends { EndsOn F.Shelf K.Sink shelf.old shelf.new out.old out.new (prove_work (node_files asked.now)) result }
    ensures same { OnlyReads F.Shelf shelf.old shelf.new }
{
    let members = match members_from(alloc, shelf, asked.members) {
        Ok(members) => members,
        Err(status) => return status,
    };
    match own_in(&members, asked.own) {
        Some(own) => prove_play(alloc, &members, own, asked.script, shelf, out),
        None => Status::Own,
    }
}

/// What the proof comes to for the members.
pub(crate) fn check<F: Shelf, K: Sink>(
    alloc: Global,
    asked: &CheckRequest<'_>,
    shelf: &mut F,
    out: &mut K,
) -> Status
    ensures ends { EndsOn F.Shelf K.Sink shelf.old shelf.new out.old out.new (check_work (check_files asked.now)) result }
    ensures same { OnlyReads F.Shelf shelf.old shelf.new }
{
    let members = match members_from(alloc, shelf, asked.members) {
        Ok(members) => members,
        Err(status) => return status,
    };
    match proof_from(alloc, shelf, asked.proof, &members) {
        Ok(shown) => status_of(write_shown(&shown, out)),
        Err(status) => status,
    }
}
