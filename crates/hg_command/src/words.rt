ghost use Rattle.std.specs.Prelude.{◌≡◌, [], option_map, IfOk, IfSome, IsSome, ◌↔◌};
ghost use Rattle.clap.specs.Words.{fault_of, subcommand_of, subcommand_rows_of};
ghost use Rattle.hg_command.specs.Asked.{KeepsRanges, asked, command, request_of, texts};

use crate::line::command;
use crate::request::{Request, request_at};
use clap::ArgMatches;
use clap::error::ErrorKind;
use hg_model::Memory;
use std::alloc::Global;

/// What clap makes of the words, if it finds no fault in them.
#[tactic(auto, using(crate::proofs::Simple::command_is_free, crate::proofs::Simple::command_is_simple))]
fn matches_of<'a>(alloc: Global, words: &'a [String]) -> Result<Option<ArgMatches<'a>>, Memory>
    ensures accepted { IfOk result (λ r. IsSome r ↔ (fault_of command (texts words.now) ≡ [])) }
    ensures rows { IfOk result (λ r. IfSome r (λ m. subcommand_rows_of m ≡ subcommand_of command (texts words.now))) }
{
    match command(alloc)?.try_get_matches_from(words) {
        Ok(matches) => Ok(Some(matches)),
        Err(error) => match error.kind() {
            ErrorKind::OutOfMemory => Err(Memory),
            _ => Ok(None),
        },
    }
}

/// What the words ask for, the program's name first: `None` where clap's definition finds a fault in them, or a number lies
/// out of its range. The only error is want of memory.
pub fn read_words<'a>(alloc: Global, words: &'a [String]) -> Result<Option<Request<'a>>, Memory>
    ensures request { IfOk result (λ r. option_map asked r ≡ request_of (texts words.now)) }
    ensures ranges { IfOk result (λ r. IfSome r (λ q. KeepsRanges (asked q))) }
{
    let Some(matches) = matches_of(alloc, words)? else {
        return Ok(None);
    };
    match request_at(&matches) {
        Some(request) if request.keeps_ranges() => Ok(Some(request)),
        _ => Ok(None),
    }
}
