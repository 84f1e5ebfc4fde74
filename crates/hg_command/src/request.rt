ghost use Rattle.std.specs.Prelude.{◌≡◌, option_and_then, option_map, unwrap_or, codes};
ghost use Rattle.clap.specs.Words.{found_of, rows_of, subcommand_rows_of};
ghost use Rattle.hg_command.specs.Asked.{asked, asked_in, check_command, keep_command, keeps_ranges, make_command, maybe_number_in, node_files, node_given, number_in, room_in, run_command, serve_command, storm_command, take_command, text_in};

use clap::ArgMatches;

/// The script of one file among the members of another, with so many workers.
#[derive(Clone, Copy, Debug, PartialEq, Eq)]
pub struct RunRequest<'a> {
    /// The name of the member file.
    pub members: &'a str,
    /// The name of the script.
    pub script: &'a str,
    /// How many workers decide the fame of witnesses.
    pub workers: u32,
}

/// So many lines among so many members, both made from the seed, with so many workers.
#[derive(Clone, Copy, Debug, PartialEq, Eq)]
pub struct MakeRequest {
    pub members: u32,
    pub lines: u32,
    pub seed: u64,
    pub workers: u32,
}

/// The events of a file, and the journal of the member's node to which they are put.
#[derive(Clone, Copy, Debug, PartialEq, Eq)]
pub struct KeepRequest<'a> {
    /// The name of the member file.
    pub members: &'a str,
    /// The name of the file of the events that are put to the node.
    pub events: &'a str,
    /// The name of the member.
    pub own: &'a str,
    /// The name of the journal's file.
    pub disk: &'a str,
    /// The time of the event that the node makes, if it is to make one.
    pub time: Option<u64>,
}

/// A member's node, and the script that is played before.
#[derive(Clone, Copy, Debug, PartialEq, Eq)]
pub struct NodeRequest<'a> {
    /// The name of the member file.
    pub members: &'a str,
    /// The name of the script.
    pub script: &'a str,
    /// The name of the member.
    pub own: &'a str,
}

/// A certificate, and the members to whom it is to show an order.
#[derive(Clone, Copy, Debug, PartialEq, Eq)]
pub struct CheckRequest<'a> {
    /// The name of the member file.
    pub members: &'a str,
    /// The name of the certificate's file.
    pub proof: &'a str,
}

/// A storm of the members of a file.
#[derive(Clone, Copy, Debug, PartialEq, Eq)]
pub struct StormRequest<'a> {
    /// The name of the member file.
    pub members: &'a str,
    /// How many turns each node takes.
    pub turns: u32,
    /// What the draws begin with.
    pub seed: u64,
    /// For how many messages a mailbox has room.
    pub room: u32,
}

/// What a command line asks for.
#[derive(Clone, Copy, Debug, PartialEq, Eq)]
pub enum Request<'a> {
    /// To play the script.
    Run(RunRequest<'a>),
    /// To play the lines that are made.
    Make(MakeRequest),
    /// To keep the events in the journal, with the time that was given, if one was.
    Keep(KeepRequest<'a>),
    /// To play the script, and to prove the order of the node.
    Prove(NodeRequest<'a>),
    /// To check what the certificate proves to the members.
    Check(CheckRequest<'a>),
    /// To let the members' nodes take their turns, in threads.
    Storm(StormRequest<'a>),
    /// The message by which the node asks, once the script was played.
    Ask(NodeRequest<'a>),
    /// What that node answers to the message in the file of this name.
    Serve(NodeRequest<'a>, &'a str),
    /// What comes of the message in the file of this name at that node.
    Take(NodeRequest<'a>, &'a str),
}

impl<'a> Request<'a> {
    /// Whether its numbers lie in their ranges.
    pub(crate) fn keeps_ranges(self) -> bool
        ensures { result ≡ keeps_ranges (asked self.entry) }
    {
        match self {
            Request::Run(run) => run.workers <= 16,
            Request::Make(make) => {
                2 <= make.members
                    && make.members <= 128
                    && make.lines <= 1_000_000
                    && make.workers <= 16
            }
            Request::Storm(storm) => {
                storm.turns <= 10_000 && 1 <= storm.room && storm.room <= 65_536
            }
            Request::Keep(_) | Request::Prove(_) | Request::Check(_) => true,
            Request::Ask(_) | Request::Serve(_, _) | Request::Take(_, _) => true,
        }
    }
}

/// The number that the option was given, and this one where it was left out.
fn number_or(matches: &ArgMatches<'_>, option: &str, other: u32) -> u32
    ensures { result ≡ unwrap_or (maybe_number_in 32 option.now (rows_of (found_of matches.now))) other }
{
    matches.get_one::<u32>(option).unwrap_or(other)
}

/// The number that the option was given, 0 where it was left out.
fn number_at(matches: &ArgMatches<'_>, option: &str) -> u32
    ensures { result ≡ number_in 32 option.now (rows_of (found_of matches.now)) }
{
    number_or(matches, option, 0)
}

/// The room that the option was given, 1,024 where it was left out.
fn room_at(matches: &ArgMatches<'_>, option: &str) -> u32
    ensures { result ≡ room_in option.now (rows_of (found_of matches.now)) }
{
    number_or(matches, option, 1_024)
}

/// The wide number that the option was given, if it was given one.
fn wide_at(matches: &ArgMatches<'_>, option: &str) -> Option<u64>
    ensures { result ≡ maybe_number_in 64 option.now (rows_of (found_of matches.now)) }
{
    matches.get_one::<u64>(option)
}

/// The seed that the option was given, 0 where it was left out.
fn seed_at(matches: &ArgMatches<'_>, option: &str) -> u64
    ensures { result ≡ number_in 64 option.now (rows_of (found_of matches.now)) }
{
    wide_at(matches, option).unwrap_or(0)
}

/// The text that the option was given, an empty one where it was left out.
fn text_at<'a>(matches: &ArgMatches<'a>, option: &str) -> &'a str
    ensures { result.now ≡ text_in option.now (rows_of (found_of matches.now)) }
{
    matches.get_str(option).unwrap_or("")
}

fn run_at<'a>(matches: &ArgMatches<'a>) -> Request<'a>
    ensures { asked result ≡ run_command.reads (rows_of (found_of matches.now)) }
{
    Request::Run(RunRequest {
        members: text_at(matches, "members"),
        script: text_at(matches, "script"),
        workers: number_at(matches, "workers"),
    })
}

fn make_at<'a>(matches: &ArgMatches<'a>) -> Request<'a>
    ensures { asked result ≡ make_command.reads (rows_of (found_of matches.now)) }
{
    Request::Make(MakeRequest {
        members: number_at(matches, "members"),
        lines: number_at(matches, "lines"),
        seed: seed_at(matches, "seed"),
        workers: number_at(matches, "workers"),
    })
}

fn keep_at<'a>(matches: &ArgMatches<'a>) -> Request<'a>
    ensures { asked result ≡ keep_command.reads (rows_of (found_of matches.now)) }
{
    Request::Keep(KeepRequest {
        members: text_at(matches, "members"),
        events: text_at(matches, "events"),
        own: text_at(matches, "own"),
        disk: text_at(matches, "disk"),
        time: wide_at(matches, "time"),
    })
}

/// What was given of a member's node and the script that is played before.
fn node_at<'a>(matches: &ArgMatches<'a>) -> NodeRequest<'a>
    ensures { node_files result ≡ node_given (rows_of (found_of matches.now)) }
{
    NodeRequest {
        members: text_at(matches, "members"),
        script: text_at(matches, "script"),
        own: text_at(matches, "own"),
    }
}

fn check_at<'a>(matches: &ArgMatches<'a>) -> Request<'a>
    ensures { asked result ≡ check_command.reads (rows_of (found_of matches.now)) }
{
    Request::Check(CheckRequest {
        members: text_at(matches, "members"),
        proof: text_at(matches, "proof"),
    })
}

fn storm_at<'a>(matches: &ArgMatches<'a>) -> Request<'a>
    ensures { asked result ≡ storm_command.reads (rows_of (found_of matches.now)) }
{
    Request::Storm(StormRequest {
        members: text_at(matches, "members"),
        turns: number_at(matches, "turns"),
        seed: seed_at(matches, "seed"),
        room: room_at(matches, "room"),
    })
}

fn serve_at<'a>(matches: &ArgMatches<'a>) -> Request<'a>
    ensures { asked result ≡ serve_command.reads (rows_of (found_of matches.now)) }
{
    Request::Serve(node_at(matches), text_at(matches, "have"))
}

fn take_at<'a>(matches: &ArgMatches<'a>) -> Request<'a>
    ensures { asked result ≡ take_command.reads (rows_of (found_of matches.now)) }
{
    Request::Take(node_at(matches), text_at(matches, "rows"))
}

/// What the command that was met asks for.
pub(crate) fn request_at<'a>(matches: &ArgMatches<'a>) -> Option<Request<'a>>
    ensures { option_map asked result ≡ option_and_then asked_in (subcommand_rows_of matches.now) }
{
    let (name, options) = matches.subcommand()?;
    if name == "run" {
        Some(run_at(options))
    } else if name == "make" {
        Some(make_at(options))
    } else if name == "keep" {
        Some(keep_at(options))
    } else if name == "prove" {
        Some(Request::Prove(node_at(options)))
    } else if name == "check" {
        Some(check_at(options))
    } else if name == "storm" {
        Some(storm_at(options))
    } else if name == "ask" {
        Some(Request::Ask(node_at(options)))
    } else if name == "serve" {
        Some(serve_at(options))
    } else if name == "take" {
        Some(take_at(options))
    } else {
        None
    }
}
