ghost use Rattle.std.specs.Prelude.{◌≡◌, All, IfOk, OnOk, length};
ghost use Rattle.hg_play.specs.Lines.{IsBelow, IsLineBelow, IsPartBelow, IsSourceBelow};
ghost use Rattle.hg_play.specs.Nodes.{IsKept, MatchesSource, Plays, PlaysLine, PlaysLines, seen_alone};
ghost use Rattle.hg_play.specs.Summaries.{PlaysQuietly};

use crate::blocks::{kept_at, settled_at};
use crate::game::Game;
use crate::gossip::play_gossip;
use crate::labels::{altered, bytes_at, copied, forged, front, parents_of_labels};
use crate::nodes::Nodes;
use crate::tape::Tape;
use hg_model::{Bytes, Memory, Share};
use hg_outcome::Printed;
use hg_script::{Action, Line, LineSource, Part, Source};
use hg_world::World;

/// The bytes from a source.
fn source_bytes<N: Nodes>(
    game: &Game,
    nodes: &mut N,
    labels: &[Bytes],
    source: &Source,
) -> Result<Bytes, Memory>
    requires { IsSourceBelow (N.seen nodes.old).count source.now }
    ensures kept { IsKept (N.seen nodes.old) (N.seen nodes.new) }
    ensures ok { IfOk result (MatchesSource (N.seen nodes.old) (N.seen nodes.new) game.now.keys.now labels.now source.now) }
{
    let alloc = game.alloc;
    match source {
        Source::Last { member } => nodes.last_bytes(alloc, *member),
        Source::Forged {
            creator,
            parents,
            time,
            payload,
        } => {
            let names = parents_of_labels(alloc, labels, parents)?;
            forged(
                alloc,
                game.keys,
                *creator,
                &names,
                *time,
                payload.as_slice(),
            )
        }
        Source::Raw { bytes } => copied(alloc, bytes.as_slice()),
        Source::Altered { label, at, mask } => altered(alloc, bytes_at(labels, *label), *at, *mask),
        Source::Front { label, len } => front(alloc, bytes_at(labels, *label), *len),
    }
}

/// Plays what may stand in a batch, under this line's number.
pub(crate) fn play_part<N: Nodes>(
    game: &Game,
    nodes: &mut N,
    tape: &mut Tape,
    line: u64,
    part: &Part,
) -> Result<(), Memory>
    requires { IsPartBelow (N.seen nodes.old).count part.now }
    ensures kept { IsKept (N.seen nodes.old) (N.seen nodes.new) }
    ensures told { Plays result game.now.members.now line part.now (N.seen nodes.old) tape.old (N.seen nodes.new) tape.new }
{
    match part {
        Part::Gossip(gossip) => {
            let piece = play_gossip(game.alloc, nodes, tape.labels(), line, gossip)?;
            tape.print(piece)?;
        }
        Part::Label(source) => {
            let bytes = source_bytes(game, nodes, tape.labels(), source)?;
            tape.label(bytes)?;
        }
    }
    Ok(())
}

/// Plays a line over a world.
pub(crate) fn play_line(
    game: &Game,
    world: &mut World,
    tape: &mut Tape,
    line: &Line,
) -> Result<(), Memory>
    requires { IsBelow (length world.old.sites) line.now.action }
    ensures kept { IsKept (seen_alone world.old) (seen_alone world.new) }
    ensures told { OnOk result (PlaysLine game.now.members.now line.now world.old tape.old world.new tape.new) }
{
    match &line.action {
        Action::Part(part) => {
            play_part(game, world, tape, line.number, part)?;
        }
        Action::Freeze { member, worker } => {
            let len = world.freeze(*member, *worker) as u64;
            tape.print(Printed::Freeze {
                line: line.number,
                len,
            })?;
        }
        Action::Publish { member, worker } => {
            let count = world.publish(*member, *worker, Share::new(0, 1))?;
            tape.print(Printed::Publish {
                line: line.number,
                count,
            })?;
        }
        Action::Kept { member } => {
            let block = kept_at(game, world, *member)?;
            tape.print(Printed::Block(block))?;
        }
        Action::Show { member } => {
            let block = settled_at(game, world, *member)?;
            tape.print(Printed::Block(block))?;
        }
        Action::Names { member } => {
            let block = settled_at(game, world, *member)?;
            tape.print(Printed::Names(block))?;
        }
    }
    Ok(())
}

/// Plays the lines over a world, one after the other.
pub(crate) fn play_lines(game: &Game, world: &mut World, lines: &[Line]) -> Result<Tape, Memory>
    requires { All (IsLineBelow (length world.old.sites)) lines.now }
    ensures kept { IsKept (seen_alone world.old) (seen_alone world.new) }
    ensures told { IfOk result (λ t. PlaysLines game.now.members.now lines.now world.old world.new t.printed) }
{
    let mut tape = Tape::new(game.alloc);
    for line in lines {
        play_line(game, world, &mut tape, line)?;
    }
    Ok(tape)
}

/// Plays the lines from a source over a world, one after the other, and keeps neither them nor what they print.
pub(crate) fn play_quietly<L: LineSource>(
    game: &Game,
    world: &mut World,
    lines: &mut L,
) -> Result<(), Memory>
    requires { All (IsLineBelow (length world.old.sites)) (L.rest lines.old) }
    ensures { OnOk result (PlaysQuietly game.now.members.now (L.rest lines.old) world.old world.new) }
{
    let mut tape = Tape::new(game.alloc);
    let count = lines.left();
    for _ in 0..count {
        let line = lines.next_line()?;
        play_line(game, world, &mut tape, &line)?;
        tape.clear();
    }
    Ok(())
}
