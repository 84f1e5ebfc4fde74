ghost use Rattle.std.specs.Prelude.{◌<◌, All, length};
ghost use Rattle.hg_exchange.specs.Exchanges.{IsAsking, played_node};
ghost use Rattle.hg_script.specs.Lawful.{IsLine};
ghost use Rattle.hg_top.specs.Commands.{exchange_by, exchange_for, serve_after, take_after};
ghost use Rattle.hg_top.specs.Course.{OnlyReads};
ghost use Rattle.hg_top.specs.Ends.{EndsOn};
ghost use Rattle.hg_top.specs.Writing.{WroteOn};

use crate::reading::{lines_from, members_from, message_from, own_in};
use crate::status::{Status, delivered, status_of};
use hg_command::NodeRequest;
use hg_exchange::{ask, serve, take, write_took};
use hg_io::{Shelf, Sink};
use hg_life::Members;
use hg_model::{Member, Memory};
use hg_script::Line;
use hg_wire::Want;
use std::alloc::Global;

/// What the node does.
#[derive(Clone, Copy)]
pub(crate) enum Exchange<'a> {
    /// It asks.
    Ask,
    /// It answers the message in the file of this name.
    Serve(&'a str),
    /// It takes the message in the file of this name.
    Take(&'a str),
}

/// What is written once the node of this member asked.
fn ask_peers<K: Sink>(
    alloc: Global,
    members: &Members,
    lines: &[Line],
    own: Member,
    out: &mut K,
) -> Status
    requires own { own < length members.now.entries }
    requires lines { All (IsLine members.now 0) lines.now }
    ensures { WroteOn K.Sink out.old out.new (IsAsking (played_node members.now lines.now own)) result }
{
    match ask(alloc, members, lines, own, out) {
        Ok(delivery) => delivered(delivery),
        Err(Memory) => Status::Memory,
    }
}

/// What a message HAVE comes to at the node of this member.
fn serve_message<F: Shelf, K: Sink>(
    alloc: Global,
    members: &Members,
    lines: &[Line],
    own: Member,
    have: &str,
    shelf: &mut F,
    out: &mut K,
) -> Status
    requires own { own < length members.now.entries }
    requires lines { All (IsLine members.now 0) lines.now }
    ensures ends { EndsOn F.Shelf K.Sink shelf.old shelf.new out.old out.new
        (serve_after members.now lines.now own have.now) result }
    ensures same { OnlyReads F.Shelf shelf.old shelf.new }
{
    let message = match message_from(alloc, shelf, Want::Have, have) {
        Ok(message) => message,
        Err(status) => return status,
    };
    match serve(alloc, members, lines, own, &message, out) {
        Ok(delivery) => delivered(delivery),
        Err(Memory) => Status::Memory,
    }
}

/// What a message ROWS comes to at the node of this member.
fn take_message<F: Shelf, K: Sink>(
    alloc: Global,
    members: &Members,
    lines: &[Line],
    own: Member,
    rows: &str,
    shelf: &mut F,
    out: &mut K,
) -> Status
    requires own { own < length members.now.entries }
    requires lines { All (IsLine members.now 0) lines.now }
    ensures ends { EndsOn F.Shelf K.Sink shelf.old shelf.new out.old out.new
        (take_after members.now lines.now own rows.now) result }
    ensures same { OnlyReads F.Shelf shelf.old shelf.new }
{
    let message = match message_from(alloc, shelf, Want::Rows, rows) {
        Ok(message) => message,
        Err(status) => return status,
    };
    match take(alloc, members, lines, own, &message) {
        Ok(took) => status_of(write_took(&took, out)),
        Err(Memory) => Status::Memory,
    }
}

/// What the node of this member comes to, once the script of this name was played.
fn play_script<F: Shelf, K: Sink>(
    alloc: Global,
    members: &Members,
    own: Member,
    script: &str,
    exchange: Exchange<'_>,
    shelf: &mut F,
    out: &mut K,
) -> Status
    requires { own < length members.now.entries }
    ensures ends { EndsOn F.Shelf K.Sink shelf.old shelf.new out.old out.new
        (exchange_by members.now own script.now exchange.entry) result }
    ensures same { OnlyReads F.Shelf shelf.old shelf.new }
{
    let lines = match lines_from(alloc, shelf, script, members, 0) {
        Ok(lines) => lines,
        Err(status) => return status,
    };
    let lines = lines.as_slice();
    match exchange {
        Exchange::Ask => ask_peers(alloc, members, lines, own, out),
        Exchange::Serve(have) => serve_message(alloc, members, lines, own, have, shelf, out),
        Exchange::Take(rows) => take_message(alloc, members, lines, own, rows, shelf, out),
    }
}

/// What a member's node comes to.
pub(crate) fn play_node<F: Shelf, K: Sink>(
    alloc: Global,
    asked: &NodeRequest<'_>,
    exchange: Exchange<'_>,
    shelf: &mut F,
    out: &mut K,
) -> Status
    ensures ends { EndsOn F.Shelf K.Sink shelf.old shelf.new out.old out.new (exchange_for asked.now exchange.entry) result }
    ensures same { OnlyReads F.Shelf shelf.old shelf.new }
{
    let members = match members_from(alloc, shelf, asked.members) {
        Ok(members) => members,
        Err(status) => return status,
    };
    match own_in(&members, asked.own) {
        Some(own) => play_script(alloc, &members, own, asked.script, exchange, shelf, out),
        None => Status::Own,
    }
}
