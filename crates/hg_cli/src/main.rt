//! The program `hashgraph` over the files and the standard streams of the machine.
//! It adds nothing to `hashgraph` of hg_top but a shelf, a disk and two sinks of hg_stream, whose faults are counted.
//! What a real file or stream holds no clause tells.
//!
//! Run at the top of the repository; of what it prints (`examples/two-members/expected.txt`), three lines:
//!
//! ```text
//! bin/hashgraph run --members examples/two-members/members.toml --script examples/two-members/script.txt
//!
//! 8 sync taken 1 refused 0 made 7
//! node B events 8 forkers 0 round 4 closed 2 ordered 4
//! 1 A 0 round 2 time 1 -
//! ```
#![tactic(auto)]

ghost use Rattle.std.specs.Prelude.{◌≡◌};
ghost use Rattle.std.specs.Process.{exit_status};
ghost use Rattle.hg_cli.specs.Words.{words_in};
ghost use Rattle.hg_top.specs.Printing.{status_code};

use hg_io::NoGate;
use hg_model::Memory;
use hg_stream::{RealDisk, RealShelf, Stream, hold_streams, words_of};
use hg_top::{NoWords, Status, hashgraph, without_words};
use std::process::ExitCode;

/// The words of the command line, or why there are none.
fn words_in(found: Result<Option<Vec<String>>, Memory>) -> Result<Vec<String>, NoWords>
    ensures { result ≡ words_in found }
{
    match found {
        Ok(Some(words)) => Ok(words),
        Ok(None) => Err(NoWords::NotText),
        Err(Memory) => Err(NoWords::Memory),
    }
}

/// The exit status of a process that came to this.
fn exit_of(status: Status) -> ExitCode
    ensures { exit_status result ≡ status_code status }
{
    ExitCode::from(status.code())
}

fn main(rt: HostRuntime) -> ExitCode {
    let _held = hold_streams(&rt);
    let mut err = Stream::new(rt.stderr());
    let status = match words_in(words_of(&rt)) {
        Ok(words) => {
            let mut shelf = RealShelf::new(&rt);
            let mut disk = RealDisk::new(&rt);
            let mut out = Stream::new(rt.stdout());
            let words = words.as_slice();
            hashgraph(
                &rt,
                rt.alloc(),
                words,
                &mut shelf,
                &mut disk,
                &mut out,
                &mut err,
                &NoGate,
            )
        }
        Err(why) => without_words(why, &mut err),
    };
    exit_of(status)
}
