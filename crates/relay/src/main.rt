//! The program `relay`: the node of one member, kept in a journal, gossips with one peer over standard input and output, for so
//! many exchanges, and then writes its block to a file and, if asked, a certificate of its order to another.
//! In each exchange one side asks and the other serves, and then the other way round, so that never both write at once: one of
//! two is started as `ask`, the other as `serve`. A stop leaves the journal of a node on the way, so a killed one can go on.
//!
//! Run by `examples/between-processes/run`; of what that prints (`examples/between-processes/expected.txt`), a line:
//!
//! ```text
//! B comes back from its journal.
//! ```
#![tactic(auto)]

ghost use Rattle.std.specs.Prelude.{◌≡◌};
ghost use Rattle.std.specs.Process.{exit_status};
ghost use Rattle.hg_top.specs.Printing.{IsPrintedOn, status_code};
ghost use Rattle.relay.specs.Top.{ended_as, told_line, words_in};

mod gossip;
mod request;
mod top;

use crate::gossip::Outside;
use crate::request::{Request, read_words};
use crate::top::{Relayed, relay};
use hg_io::{Failed, Sink, write_all};
use hg_model::Memory;
use hg_report::text_of;
use hg_stream::{Incoming, RealDisk, RealShelf, Stream, hold_streams, words_of};
use hg_top::{Status, report_status, status_of};
use std::fs;
use std::process::ExitCode;
use std::rt::Files;

/// The file of this name, made anew: what stood there before is gone then.
fn made_anew<R: Files>(rt: &R, name: &str) -> Result<Stream<R::File>, Failed> {
    match fs::create(rt, name) {
        Ok(file) => Ok(Stream::new(file)),
        Err(_) => Err(Failed),
    }
}

/// Writes the block and the certificate to their files.
fn write_files<R: Files>(rt: &R, asked: &Request<'_>, relayed: &Relayed) -> Result<(), Failed> {
    text_of(&relayed.outcome, &mut made_anew(rt, asked.block)?)?;
    match (asked.proof, &relayed.proof) {
        (Some(name), Some(proof)) => write_all(&mut made_anew(rt, name)?, proof.as_slice()),
        _ => Ok(()),
    }
}

/// Writes what a relay came to, in one line, or nothing where all went well. Faults of `err` change nothing.
fn tell<E: Sink>(err: &mut E, status: Status)
    ensures { IsPrintedOn E.Sink err.old err.new (told_line status) }
{
    match status {
        Status::Usage => (),
        _ => return report_status(err, status),
    }
    let usage =
        b"hashgraph: usage: relay ask|serve --members FILE --own NAME --disk FILE --exchanges N --time T --block FILE [--proof FILE]\n";
    match write_all(err, usage) {
        Ok(()) | Err(Failed) => (),
    }
}

/// The words of the command line, if each is text, or what a call comes to without them.
fn words_in(found: Result<Option<Vec<String>>, Memory>) -> Result<Vec<String>, Status>
    ensures { result ≡ words_in found }
{
    match found {
        Ok(Some(words)) => Ok(words),
        Ok(None) => Err(Status::Usage),
        Err(Memory) => Err(Status::Memory),
    }
}

/// What the words of the command line come to.
fn run(rt: &HostRuntime, words: &[String]) -> Result<Status, Status> {
    let Some(asked) = read_words(rt.alloc(), words)? else {
        return Err(Status::Usage);
    };
    let mut out = Outside {
        alloc: rt.alloc(),
        disk: RealDisk::new(rt),
        source: Incoming::new(rt.stdin()),
        sink: Stream::new(rt.stdout()),
    };
    let relayed = relay(&asked, &mut RealShelf::new(rt), &mut out)?;
    Ok(status_of(write_files(rt, &asked, &relayed)))
}

/// Tells what a relay came to, and gives the process's exit status of it.
fn end<E: Sink>(err: &mut E, ended: Result<Status, Status>) -> ExitCode
    ensures told { IsPrintedOn E.Sink err.old err.new (told_line (ended_as ended)) }
    ensures status { exit_status result ≡ status_code (ended_as ended) }
{
    let (Ok(status) | Err(status)) = ended;
    tell(err, status);
    ExitCode::from(status.code())
}

fn main(rt: HostRuntime) -> ExitCode {
    let _held = hold_streams(&rt);
    let ended = match words_in(words_of(&rt)) {
        Ok(words) => run(&rt, words.as_slice()),
        Err(status) => Err(status),
    };
    end(&mut Stream::new(rt.stderr()), ended)
}
