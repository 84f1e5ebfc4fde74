ghost use Rattle.std.specs.Prelude.{◌≡◌, ◌≤◌, All, IfOk, length};
ghost use Rattle.hg_crowd.specs.Crowd.{AreStill};
ghost use Rattle.hg_play.specs.Batch.{IsBatch};
ghost use Rattle.hg_play.specs.Lines.{IsLineBelow, IsPartBelow};
ghost use Rattle.hg_play.specs.Nodes.{IsKept, Plays};
ghost use Rattle.hg_play.specs.Heard.{KeepsNodes};
ghost use Rattle.hg_play.specs.Through.{PlaysFirst, PlaysThrough, worked_on};

use crate::game::Game;
use crate::lines::play_part;
use crate::nodes::Nodes;
use crate::shared::SharedNodes;
use crate::tape::Tape;
use hg_crowd::Party;
use hg_gossip::Known;
use hg_io::Gate;
use hg_model::{Member, Memory};
use hg_script::{Action, Gossip, Line, Part, Source};
use hg_sign::SharedTable;
use std::sync::Wait;

/// How many lines a batch has at most.
const MOST_LINES: usize = 32;

/// The member whose node a line works on, if there is one: of a sync or a pull the taker.
fn worked_on(part: &Part) -> Option<Member>
    ensures { result ≡ worked_on part.now }
{
    match part {
        Part::Gossip(Gossip::Create { member, .. }) => Some(*member),
        Part::Gossip(Gossip::Sync { taker, .. }) => Some(*taker),
        Part::Gossip(Gossip::Pull { taker, .. }) => Some(*taker),
        Part::Gossip(Gossip::Join { member, .. }) => Some(*member),
        Part::Gossip(Gossip::Give { member, .. }) => Some(*member),
        Part::Label(Source::Last { member }) => Some(*member),
        Part::Label(Source::Forged { .. } | Source::Raw { .. }) => None,
        Part::Label(Source::Altered { .. } | Source::Front { .. }) => None,
    }
}

/// The gate is told that a line has come so far, if it works on a node: the point is that of the member's number.
fn reach<G: Gate>(gate: &G, first: u32, member: Option<Member>)
    requires { first ≤ 2000 }
{
    if let Some(member) = member {
        gate.reach(first + member as u32);
    }
}

/// Plays what may stand in a batch, under this line's number. The gate is told before and after.
fn play_watched<N: Nodes, G: Gate>(
    game: &Game,
    nodes: &mut N,
    tape: &mut Tape,
    line: u64,
    part: &Part,
    gate: &G,
) -> Result<(), Memory>
    requires { IsPartBelow (N.seen nodes.old).count part.now }
    ensures kept { IsKept (N.seen nodes.old) (N.seen nodes.new) }
    ensures told { Plays result game.now.members.now line part.now (N.seen nodes.old) tape.old (N.seen nodes.new) tape.new }
{
    let member = worked_on(part);
    reach(gate, 1000, member);
    play_part(game, nodes, tape, line, part)?;
    reach(gate, 2000, member);
    Ok(())
}

/// Plays the first batch of these lines, one after the other, behind what others left, and tells how many lines it has: at
/// most 32, and none from one on that may stand in no batch.
fn play_parts<N: Nodes, G: Gate>(
    game: &Game,
    nodes: &mut N,
    mut tape: Tape,
    lines: &[Line],
    gate: &G,
) -> Result<(Tape, usize), Memory>
    requires { All (IsLineBelow (N.seen nodes.old).count) lines.now }
    ensures kept { IsKept (N.seen nodes.old) (N.seen nodes.new) }
    ensures batch { IfOk result (λ r. IsBatch lines.now r.1) }
    ensures told { PlaysFirst result game.now.members.now lines.now (N.seen nodes.old) tape (N.seen nodes.new) }
{
    let most = lines.len().min(MOST_LINES);
    'lines: for i in 0..most {
        let line = &lines[i];
        let Action::Part(part) = &line.action else {
            return Ok((tape, i));
        };
        play_watched(game, nodes, &mut tape, line.number, part, gate)?;
    }
    Ok((tape, most))
}

/// Plays the first batch of these lines over nodes between threads, through these seats of them, while others mark. The
/// nodes come back, and what each has heard of each, also without memory.
pub(crate) fn play_through<'a, R: Wait, G: Gate>(
    rt: &R,
    game: &Game,
    party: Party<'a, SharedTable>,
    known: Known,
    tape: Tape,
    lines: &[Line],
    gate: &G,
) -> (Party<'a, SharedTable>, Known, Result<(Tape, usize), Memory>)
    requires nodes { KeepsNodes party known }
    requires lines { All (IsLineBelow (length party.seats)) lines.now }
    ensures places { result.0.places ≡ party.entry.places }
    ensures nodes { KeepsNodes result.0 result.1 }
    ensures still { AreStill party.entry.seats result.0.seats }
    ensures batch { IfOk result.2 (λ r. IsBatch lines.now r.1) }
    ensures told { PlaysThrough result.2 game.now.members.now lines.now party.entry tape result.0.seats }
{
    let mut nodes = SharedNodes::new(rt, game.alloc, party, known);
    let played = play_parts(game, &mut nodes, tape, lines, gate);
    let (party, known) = nodes.into_parts();
    (party, known, played)
}
