ghost use Rattle.std.specs.Prelude.{◌≡◌, false, IfOk};
ghost use Rattle.clap.specs.Words.{app_of, rule_of, with_rule, with_subcommand};
ghost use Rattle.clap.specs.declared.builder.Command.TheViews.{out-Command};
ghost use Rattle.hg_command.specs.Asked as asked;
ghost use Rattle.hg_command.specs.Line as line;
ghost use Rattle.hg_command.specs.Table.{app_by, rule_as};

use clap::builder::ValueParser;
use clap::{Arg, Command};
use std::alloc::{AllocError, Global};

/// What an option takes.
#[derive(Clone, Copy)]
pub enum Takes {
    /// A text, as the name of a file; it must be given.
    Text,
    /// A whole number of 32 bits.
    Number,
    /// Such a number, which must be given.
    Count,
    /// A wide number, of 64 bits.
    Wide,
    /// A wide number, which must be given.
    Seed,
}

/// Each command: its name, and the names of its options with what they take.
const COMMANDS: [(&str, &[(&str, Takes)]); 9] = [
    (
        "run",
        &[
            ("members", Takes::Text),
            ("script", Takes::Text),
            ("workers", Takes::Number),
        ],
    ),
    (
        "make",
        &[
            ("members", Takes::Count),
            ("lines", Takes::Count),
            ("seed", Takes::Seed),
            ("workers", Takes::Number),
        ],
    ),
    (
        "keep",
        &[
            ("members", Takes::Text),
            ("events", Takes::Text),
            ("own", Takes::Text),
            ("disk", Takes::Text),
            ("time", Takes::Wide),
        ],
    ),
    (
        "prove",
        &[
            ("members", Takes::Text),
            ("script", Takes::Text),
            ("own", Takes::Text),
        ],
    ),
    ("check", &[("members", Takes::Text), ("proof", Takes::Text)]),
    (
        "storm",
        &[
            ("members", Takes::Text),
            ("turns", Takes::Count),
            ("seed", Takes::Seed),
            ("room", Takes::Number),
        ],
    ),
    (
        "ask",
        &[
            ("members", Takes::Text),
            ("script", Takes::Text),
            ("own", Takes::Text),
        ],
    ),
    (
        "serve",
        &[
            ("members", Takes::Text),
            ("script", Takes::Text),
            ("own", Takes::Text),
            ("have", Takes::Text),
        ],
    ),
    (
        "take",
        &[
            ("members", Takes::Text),
            ("script", Takes::Text),
            ("own", Takes::Text),
            ("rows", Takes::Text),
        ],
    ),
];

/// An option that must be given, and takes a text, as the name of a file.
fn text_option<'a>(alloc: Global, name: &'a str) -> Arg<'a>
    ensures rule { rule_of result ≡ line.needed (line.text_option name.entry.now) }
    ensures local { result.global ≡ false }
{
    Arg::new(alloc, name).long(name).required(true)
}

/// An option that takes a whole number of 32 bits, and may be left out.
fn number_option<'a>(alloc: Global, name: &'a str) -> Arg<'a>
    ensures rule { rule_of result ≡ line.number_option name.entry.now }
    ensures local { result.global ≡ false }
{
    Arg::new(alloc, name)
        .long(name)
        .value_parser(ValueParser::Signed(0, 4_294_967_295))
}

/// An option that must be given, and takes a whole number of 32 bits.
fn count_option<'a>(alloc: Global, name: &'a str) -> Arg<'a>
    ensures rule { rule_of result ≡ line.needed (line.number_option name.entry.now) }
    ensures local { result.global ≡ false }
{
    number_option(alloc, name).required(true)
}

/// An option that takes a wide number, of 64 bits, and may be left out.
fn wide_option<'a>(alloc: Global, name: &'a str) -> Arg<'a>
    ensures rule { rule_of result ≡ line.wide_option name.entry.now }
    ensures local { result.global ≡ false }
{
    Arg::new(alloc, name)
        .long(name)
        .value_parser(ValueParser::Unsigned(0, u64::MAX))
}

/// An option that must be given, and takes a wide number, of 64 bits.
fn seed_option<'a>(alloc: Global, name: &'a str) -> Arg<'a>
    ensures rule { rule_of result ≡ line.needed (line.wide_option name.entry.now) }
    ensures local { result.global ≡ false }
{
    wide_option(alloc, name).required(true)
}

/// An option of this name.
fn option_of<'a>(alloc: Global, name: &'a str, takes: Takes) -> Arg<'a>
    ensures rule { rule_of result ≡ rule_as takes name.entry.now }
    ensures local { result.global ≡ false }
{
    match takes {
        Takes::Text => text_option(alloc, name),
        Takes::Number => number_option(alloc, name),
        Takes::Count => count_option(alloc, name),
        Takes::Wide => wide_option(alloc, name),
        Takes::Seed => seed_option(alloc, name),
    }
}

/// The command with one more option.
fn with_option<'a>(
    alloc: Global,
    command: Command<'a>,
    name: &'a str,
    takes: Takes,
) -> Result<Command<'a>, AllocError>
    requires { (out-Command command).has_globals ≡ false }
    ensures app { IfOk result (λ c. app_of c ≡ with_rule (app_of command.entry) (rule_as takes name.entry.now)) }
    ensures local { IfOk result (λ c. (out-Command c).has_globals ≡ false) }
{
    let more = command.arg(option_of(alloc, name, takes))?;
    Ok(more)
}

/// A command of this name, with these options.
fn command_of<'a>(
    alloc: Global,
    name: &'a str,
    options: &[(&'a str, Takes)],
) -> Result<Command<'a>, AllocError>
    ensures app { IfOk result (λ c. app_of c ≡ app_by name.entry.now options.now) }
    ensures local { IfOk result (λ c. (out-Command c).has_globals ≡ false) }
{
    let mut command = Command::new(alloc, name);
    for (option, takes) in options {
        command = with_option(alloc, command, option, *takes)?;
    }
    Ok(command)
}

/// The program with one more command, of this name, with these options.
fn with_command<'a>(
    alloc: Global,
    program: Command<'a>,
    name: &'a str,
    options: &[(&'a str, Takes)],
) -> Result<Command<'a>, AllocError>
    requires { (out-Command program).has_globals ≡ false }
    ensures app { IfOk result (λ c. app_of c ≡ with_subcommand (app_of program.entry) (app_by name.entry.now options.now).top) }
    ensures local { IfOk result (λ c. (out-Command c).has_globals ≡ false) }
{
    let more = program.subcommand(command_of(alloc, name, options)?)?;
    Ok(more)
}

/// The program before it has commands: one of them is required, and nothing asks for help.
fn program<'a>(alloc: Global) -> Command<'a>
    ensures app { app_of result ≡ line.program }
    ensures local { (out-Command result).has_globals ≡ false }
{
    Command::new(alloc, "hashgraph")
        .subcommand_required(true)
        .disable_help_flag(true)
        .disable_help_subcommand(true)
}

/// The program with each of its commands.
pub(crate) fn command<'a>(alloc: Global) -> Result<Command<'a>, AllocError>
    ensures app { IfOk result (λ c. app_of c ≡ asked.command) }
    ensures local { IfOk result (λ c. (out-Command c).has_globals ≡ false) }
{
    let mut whole = program(alloc);
    for (name, options) in &COMMANDS {
        whole = with_command(alloc, whole, name, options)?;
    }
    Ok(whole)
}
