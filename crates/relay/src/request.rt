ghost use Rattle.std.specs.Prelude.{◌≡◌, ◌↔◌, [], false, codes, option_map, IfOk, IfSome, IsSome};
ghost use Rattle.clap.specs.Words.{app_of, fault_of, first_of, found_of, rows_of, rule_of, subcommand_of, subcommand_rows_of};
ghost use Rattle.clap.specs.declared.builder.Command.TheViews.{out-Command};
ghost use Rattle.hg_command.specs.Asked.{number_in, text_in, texts};
ghost use Rattle.hg_command.specs.Line as line;
ghost use Rattle.relay.specs.Words.{asked, asked_by, command, command_named, count_option, program, request_of};

use clap::builder::ValueParser;
use clap::error::ErrorKind;
use clap::{Arg, ArgMatches, Command};
use hg_model::Memory;
use std::alloc::{AllocError, Global};

/// What a command line asks for. The names are those of the words.
#[derive(Clone, Copy, Debug)]
pub(crate) struct Request<'a> {
    /// Whether the relay asks first in each exchange, and then serves, or the other way round.
    pub(crate) asks_first: bool,
    /// The name of the member file.
    pub(crate) members: &'a str,
    /// The name of the member whose node it is.
    pub(crate) own: &'a str,
    /// The name of the journal's file.
    pub(crate) disk: &'a str,
    /// How many exchanges there are.
    pub(crate) exchanges: u32,
    /// The time of the event of the first exchange, in no unit of ours. Each later one has a time that is one higher.
    pub(crate) time: u64,
    /// The name of the file to which the block is written.
    pub(crate) block: &'a str,
    /// The name of the file to which a certificate is written, if one is wanted.
    pub(crate) proof: Option<&'a str>,
}

/// An option that takes a text, as the name of a file, and may be left out.
fn maybe_option<'a>(alloc: Global, name: &'a str) -> Arg<'a>
    ensures rule { rule_of result ≡ line.text_option name.entry.now }
    ensures local { result.global ≡ false }
{
    Arg::new(alloc, name).long(name)
}

/// An option that must be given, and takes a text.
fn text_option<'a>(alloc: Global, name: &'a str) -> Arg<'a>
    ensures rule { rule_of result ≡ line.needed (line.text_option name.entry.now) }
    ensures local { result.global ≡ false }
{
    maybe_option(alloc, name).required(true)
}

/// An option that must be given, and takes a number of 32 bits.
fn count_option<'a>(alloc: Global, name: &'a str) -> Arg<'a>
    ensures rule { rule_of result ≡ count_option name.entry.now }
    ensures local { result.global ≡ false }
{
    text_option(alloc, name).value_parser(ValueParser::Unsigned(0, 4_294_967_295))
}

/// An option that must be given, and takes a number of 64 bits.
fn time_option<'a>(alloc: Global, name: &'a str) -> Arg<'a>
    ensures rule { rule_of result ≡ line.needed (line.wide_option name.entry.now) }
    ensures local { result.global ≡ false }
{
    text_option(alloc, name).value_parser(ValueParser::Unsigned(0, u64::MAX))
}

/// `--members FILE --own NAME --disk FILE --exchanges N --time T --block FILE [--proof FILE]`, for the command of this name.
fn relay_command<'a>(alloc: Global, name: &'a str) -> Result<Command<'a>, AllocError>
    ensures app { IfOk result (λ c. app_of c ≡ command_named name.entry.now) }
    ensures local { IfOk result (λ c. (out-Command c).has_globals ≡ false) }
{
    let relay = Command::new(alloc, name)
        .arg(text_option(alloc, "members"))?
        .arg(text_option(alloc, "own"))?
        .arg(text_option(alloc, "disk"))?
        .arg(count_option(alloc, "exchanges"))?
        .arg(time_option(alloc, "time"))?
        .arg(text_option(alloc, "block"))?
        .arg(maybe_option(alloc, "proof"))?;
    Ok(relay)
}

/// The program before it has commands: one of them is required, and nothing asks for help.
fn program<'a>(alloc: Global) -> Command<'a>
    ensures app { app_of result ≡ program }
    ensures local { (out-Command result).has_globals ≡ false }
{
    Command::new(alloc, "relay")
        .subcommand_required(true)
        .disable_help_flag(true)
        .disable_help_subcommand(true)
}

/// The program with its two commands.
fn command<'a>(alloc: Global) -> Result<Command<'a>, AllocError>
    ensures app { IfOk result (λ c. app_of c ≡ command) }
    ensures local { IfOk result (λ c. (out-Command c).has_globals ≡ false) }
{
    let ask = relay_command(alloc, "ask")?;
    let serve = relay_command(alloc, "serve")?;
    let whole = program(alloc).subcommand(ask)?.subcommand(serve)?;
    Ok(whole)
}

/// The text that the option was given, an empty one where it was left out.
fn text_at<'a>(options: &ArgMatches<'a>, option: &str) -> &'a str
    ensures { result.now ≡ text_in option.now (rows_of (found_of options.now)) }
{
    options.get_str(option).unwrap_or("")
}

/// The text that the option was given, if it was given one.
fn maybe_at<'a>(options: &ArgMatches<'a>, option: &str) -> Option<&'a str>
    ensures { option_map (λ s. s.now) result ≡ first_of option.now (rows_of (found_of options.now)) }
{
    options.get_str(option)
}

/// The number that the option was given, 0 where it was left out.
fn count_at(options: &ArgMatches<'_>, option: &str) -> u32
    ensures { result ≡ number_in 32 option.now (rows_of (found_of options.now)) }
{
    options.get_one::<u32>(option).unwrap_or(0)
}

/// The same, of a number of 64 bits.
fn time_at(options: &ArgMatches<'_>, option: &str) -> u64
    ensures { result ≡ number_in 64 option.now (rows_of (found_of options.now)) }
{
    options.get_one::<u64>(option).unwrap_or(0)
}

/// What the command of this name asks for by its options.
fn asked_at<'a>(name: &str, options: &ArgMatches<'a>) -> Request<'a>
    ensures { asked result ≡ asked_by (name.now, rows_of (found_of options.now)) }
{
    Request {
        asks_first: name == "ask",
        members: text_at(options, "members"),
        own: text_at(options, "own"),
        disk: text_at(options, "disk"),
        exchanges: count_at(options, "exchanges"),
        time: time_at(options, "time"),
        block: text_at(options, "block"),
        proof: maybe_at(options, "proof"),
    }
}

/// What the command that was met asks for.
fn request_at<'a>(matches: &ArgMatches<'a>) -> Option<Request<'a>>
    ensures { option_map asked result ≡ option_map asked_by (subcommand_rows_of matches.now) }
{
    let (name, options) = matches.subcommand()?;
    Some(asked_at(name, options))
}

/// What clap makes of the words, if it finds no fault in them.
#[tactic(auto, using(crate::proofs::Simple::command_is_free, crate::proofs::Simple::command_is_simple))]
fn matches_of<'a>(alloc: Global, words: &'a [String]) -> Result<Option<ArgMatches<'a>>, Memory>
    ensures accepted { IfOk result (λ r. IsSome r ↔ (fault_of command (texts words.now) ≡ [])) }
    ensures rows { IfOk result (λ r. IfSome r (λ m. subcommand_rows_of m ≡ subcommand_of command (texts words.now))) }
{
    match command(alloc)?.try_get_matches_from(words) {
        Ok(matches) => Ok(Some(matches)),
        Err(error) => match error.kind() {
            ErrorKind::OutOfMemory => Err(Memory),
            _ => Ok(None),
        },
    }
}

/// What the words ask for, the program's name first: `None` just where clap's definition finds a fault in them. The only
/// error is want of memory.
pub(crate) fn read_words<'a>(
    alloc: Global,
    words: &'a [String],
) -> Result<Option<Request<'a>>, Memory>
    ensures { IfOk result (λ r. option_map asked r ≡ request_of (texts words.now)) }
{
    let Some(matches) = matches_of(alloc, words)? else {
        return Ok(None);
    };
    Ok(request_at(&matches))
}
