ghost use Rattle.std.specs.Prelude.{◌≡◌, ◌<◌, ◌≤◌, ◌^◌, All, IfOk, OnOk, length};
ghost use Rattle.hg_script.specs.Lawful.{IsLine};
ghost use Rattle.hg_world.specs.Parts.{IsWorld};
ghost use Rattle.hg_world.specs.World.{IsMemberOf, new_world};
ghost use Rattle.hg_world.specs.Steps.{after_steps};
ghost use Rattle.hg_play.specs.Agree.{IsAgreed};
ghost use Rattle.hg_play.specs.Batch.{IsPlayed};
ghost use Rattle.hg_life.specs.Workers.{most_workers};
ghost use Rattle.hg_play.specs.Nodes.{Closes};
ghost use Rattle.hg_play.specs.Play.{IsSafePlay, end_steps, end_steps_of, play, played_world, summary};
ghost use Rattle.hg_play.specs.Sites.{AreMadeWith, BeganWith};
ghost use Rattle.hg_play.specs.Summaries.{IsSettledNode, IsWorldOf, SettledBelow};
ghost use Rattle.hg_outcome.specs.Summary.{summary_of};

use crate::band::Band;
use crate::batch::play_batches;
use crate::blocks::push_blocks;
use crate::game::Game;
use crate::lines::{play_lines, play_quietly};
use crate::outcomes::names;
use crate::summaries::summary_of;
use crate::tape::Tape;
use hg_board::Crew;
use hg_io::Gate;
use hg_life::Members;
use hg_model::{Items, Member, Memory};
use hg_outcome::{Outcome, Summary};
use hg_script::{Line, LineSource, all_lines};
use hg_sign::MacTable;
use hg_world::World;
use std::alloc::Global;
use std::sync::Wait;
use std::thread::Threads;

/// A member's node is settled, if the member has one.
fn settle_at(members: &Members, world: &mut World, member: usize) -> Result<(), Memory>
    requires below { IsMemberOf world.old member }
    requires few { member < 2 ^ 16 }
    ensures sites { length world.new.sites ≡ length world.old.sites }
    ensures ok { OnOk result (world.new ≡ after_steps world.old (end_steps_of members.now member)) }
    ensures settled { OnOk result (IsSettledNode members.now member world.old world.new) }
{
    if members.has_node(member as Member) {
        world.settle(member as Member)?;
    }
    Ok(())
}

/// All nodes are settled, in the order of the members.
fn settle_all(members: &Members, world: &mut World) -> Result<(), Memory>
    requires { length world.old.sites ≡ length members.now.entries }
    ensures after { OnOk result (world.new ≡ after_steps world.old (end_steps members.now (length members.now.entries))) }
    ensures settled { OnOk result (SettledBelow members.now (length members.now.entries) world.old world.new) }
{
    for member in 0..members.count() as usize {
        settle_at(members, world, member)?;
    }
    Ok(())
}

/// Plays the lines over the members' nodes, beside so many workers. The nodes, and what the lines leave.
fn play_all<R: Threads + Wait + Sync, C: Crew + Sync, G: Gate + Sync>(
    rt: &R,
    game: &Game,
    lines: &[Line],
    workers: u32,
    crew: &C,
    gate: &G,
) -> Result<(World, Tape), Memory>
    requires workers { workers ≤ most_workers }
    requires lines { All (IsLine game.now.members.now workers) lines.now }
    ensures new { OnOk result (IsWorld (new_world game.now.members.now)) }
    ensures played { IfOk result (λ r. IsPlayed game.now.members.now lines.now r.0 r.1.printed) }
{
    let mut world = World::new(game.alloc, game.members)?;
    world.is_world();
    if workers > 0 {
        let band = Band {
            rt,
            workers,
            crew,
            gate,
        };
        return play_batches(game, &band, world, lines);
    }
    let tape = play_lines(game, &mut world, lines)?;
    Ok((world, tape))
}

/// The outcome: the members' names, what was printed, and behind it a block for each node.
fn closed(game: &Game, mut world: World, mut tape: Tape) -> Result<Outcome, Memory>
    requires { length world.sites ≡ length game.now.members.now.entries }
    ensures { IfOk result (Closes game.now.members.now world tape.printed) }
{
    push_blocks(game, &mut world, &mut tape)?;
    let names = names(game.alloc, game.members)?;
    world.is_world();
    Ok(Outcome {
        names,
        printed: Items::from_vec(tape.into_printed()),
    })
}

/// Plays the lines of a script over the members' nodes, and gives all that the script prints, with a last block for
/// each node. The lines are those of `read_script` for these members and workers. Without workers one thread plays them;
/// else they are played in batches, beside the workers, who mark what the graphs decide. What is printed depends on
/// neither their number nor on what they do when. The run of the lines' steps is safe: of the
/// orders that two nodes keep at two moments one is a prefix of the other, where less than a third of the stake is
/// dishonest and names do not collide. Then so are the orders that any two of the printed blocks show.
pub fn play<R: Threads + Wait + Sync, C: Crew + Sync, G: Gate + Sync>(
    rt: &R,
    alloc: Global,
    members: &Members,
    lines: &[Line],
    workers: u32,
    crew: &C,
    gate: &G,
) -> Result<Outcome, Memory>
    requires workers { workers ≤ most_workers }
    requires lines { All (IsLine members.now workers) lines.now }
    ensures outcome { IfOk result (λ outcome. outcome ≡ play members.now lines.now) }
    ensures safe { OnOk result (IsSafePlay members.now lines.now) }
    ensures agree { OnOk result (IsAgreed members.now lines.now) }
{
    let keys = MacTable::new(alloc, members)?;
    let game = Game {
        alloc,
        members,
        keys: &keys,
    };
    let (world, tape) = play_all(rt, &game, lines, workers, crew, gate)?;
    let outcome = closed(&game, world, tape)?;
    Ok(outcome)
}

/// Plays the lines as `play_all` does. Without workers nothing is kept of what they print.
fn play_all_quietly<R: Threads + Wait + Sync, C: Crew + Sync, G: Gate + Sync, L: LineSource>(
    rt: &R,
    game: &Game,
    lines: &mut L,
    workers: u32,
    crew: &C,
    gate: &G,
) -> Result<World, Memory>
    requires workers { workers ≤ most_workers }
    requires lines { All (IsLine game.now.members.now workers) (L.rest lines.old) }
    ensures new { OnOk result (IsWorld (new_world game.now.members.now)) }
    ensures played { IfOk result (IsWorldOf game.now.members.now (L.rest lines.old)) }
{
    if workers > 0 {
        let all = all_lines(game.alloc, lines)?;
        let (world, _) = play_all(rt, game, all.as_slice(), workers, crew, gate)?;
        return Ok(world);
    }
    let mut world = World::new(game.alloc, game.members)?;
    world.is_world();
    play_quietly(game, &mut world, lines)?;
    Ok(world)
}

/// What is told of the last blocks of the same play. The nodes come along, so that the caller may let them be: to free them
/// takes some time.
pub fn summary<R: Threads + Wait + Sync, C: Crew + Sync, G: Gate + Sync, L: LineSource>(
    rt: &R,
    alloc: Global,
    members: &Members,
    lines: &mut L,
    workers: u32,
    crew: &C,
    gate: &G,
) -> Result<(Summary, World), Memory>
    requires workers { workers ≤ most_workers }
    requires lines { All (IsLine members.now workers) (L.rest lines.old) }
    ensures outcome { IfOk result (λ r. r.0 ≡ summary_of (summary members.now (L.rest lines.old))) }
    ensures safe { OnOk result (IsSafePlay members.now (L.rest lines.old)) }
{
    let keys = MacTable::new(alloc, members)?;
    let game = Game {
        alloc,
        members,
        keys: &keys,
    };
    let mut world = play_all_quietly(rt, &game, lines, workers, crew, gate)?;
    settle_all(members, &mut world)?;
    world.is_world();
    let summary = summary_of(alloc, members, &world)?;
    Ok((summary, world))
}

/// The world with which `play` ends without workers: the lines are played over the members' nodes, which are settled then.
pub fn play_world(alloc: Global, members: &Members, lines: &[Line]) -> Result<World, Memory>
    requires { All (IsLine members.now 0) lines.now }
    ensures world { IfOk result (λ world. world ≡ played_world members.now lines.now) }
    ensures made { IfOk result (AreMadeWith members.now) }
    ensures began { IfOk result (BeganWith members.now) }
    ensures safe { OnOk result (IsSafePlay members.now lines.now) }
    ensures count { IfOk result (λ world. length world.sites ≡ length members.now.entries) }
{
    let keys = MacTable::new(alloc, members)?;
    let game = Game {
        alloc,
        members,
        keys: &keys,
    };
    let mut world = World::new(alloc, members)?;
    play_lines(&game, &mut world, lines)?;
    settle_all(members, &mut world)?;
    world.is_world();
    Ok(world)
}
