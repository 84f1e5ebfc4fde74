ghost use Rattle.std.specs.Prelude.{◌≡◌, ◌<◌, All, IfOk, length, map, take};
ghost use Rattle.hg_board.specs.Calls.{split_off};
ghost use Rattle.hg_life.specs.Signing.{accepts_by, secrets_of};
ghost use Rattle.hg_crowd.specs.Crowd.{AreSeats, AreStill, Each};
ghost use Rattle.hg_crowd.specs.Party.{party_view};
ghost use Rattle.hg_crowd.specs.Workers.{HasAll, HasMore, Worked};
ghost use Rattle.hg_world.specs.World.{new_world};
ghost use Rattle.hg_play.specs.Batch.{AllAreMarked, IsBatch, IsLineOfRows, IsPlayed, MatchesBatch, PlaysBeside, PlaysNext};
ghost use Rattle.hg_play.specs.Heard.{KeepsNodes};
ghost use Rattle.hg_play.specs.Lines.{IsLineBelow};
ghost use Rattle.hg_play.specs.Through.{PlaysThrough};

use crate::band::Band;
use crate::game::Game;
use crate::lines::play_line;
use crate::tape::Tape;
use crate::through::play_through;
use hg_board::{Crew, Seat};
use hg_crowd::{Party, finish_all, start_all};
use hg_gossip::Known;
use hg_io::Gate;
use hg_model::Memory;
use hg_script::{Action, Line};
use hg_sign::SharedTable;
use hg_world::World;
use std::sync::Wait;
use std::thread::{Threads, join};

/// Plays the first batch of these lines through a seat of each node, which is split off, while so many workers work one turn
/// on every node. Once all seats have come back the workers work one turn more. The nodes, what each has heard of each, and
/// what the lines leave.
fn play_beside<'a, R: Threads + Wait + Sync, C: Crew + Sync, G: Gate + Sync>(
    game: &Game,
    band: &Band<R, C, G>,
    mut party: Party<'a, SharedTable>,
    known: Known,
    tape: Tape,
    lines: &[Line],
) -> Result<(Party<'a, SharedTable>, Known, Tape, usize), Memory>
    requires parts { All HasAll party.seats }
    requires nodes { KeepsNodes (party_view party.places (map split_off party.seats)) known }
    requires lines { All (IsLineBelow (length party.seats)) lines.now }
    ensures { IfOk result (λ r. PlaysBeside game.now.members.now lines.now party.entry tape r.0 r.1 r.2 r.3) }
{
    let (rt, workers, crew, gate) = (band.rt, band.workers, band.crew, band.gate);
    let (alloc, members, keys) = (game.alloc, game.members, game.keys);
    let places = party.places();
    let own = party.split(alloc)?.into_seats();
    let seats = party.into_seats();
    // The second runs in the thread of the caller, as all lines do that stand in no batch.
    let ((seats, _), (own, known, played)) = join(
        rt,
        move || -> (Vec<Seat<SharedTable>>, Result<(), Memory>)
            requires seats { AreSeats accepts_by places.now seats.items }
            requires parts { All (HasMore workers) seats.items }
            requires some { 0 < workers }
            ensures seats { AreSeats accepts_by places.entry.now result.0.items }
            ensures worked { Each Worked seats.items result.0.items }
        {
            let party = Party::new(places, seats);
            let (party, done) = party.work_beside(rt, alloc, workers, crew);
            (party.into_seats(), done)
        },
        move || -> (Vec<Seat<SharedTable>>, Known, Result<(Tape, usize), Memory>)
            requires nodes { KeepsNodes (party_view places.now own.items) known }
            requires lines { All (IsLineBelow (length own.items)) lines.now }
            requires keys { keys.now ≡ secrets_of members.now }
            ensures nodes { KeepsNodes (party_view places.entry.now result.0.items) result.1 }
            ensures still { AreStill own.items result.0.items }
            ensures batch { IfOk result.2 (λ r. IsBatch lines.entry.now r.1) }
            ensures told { PlaysThrough result.2 members.entry.now lines.entry.now (party_view places.entry.now own.items) tape result.0.items }
        {
            let game = Game {
                alloc,
                members,
                keys,
            };
            let own = Party::new(places, own);
            let (own, known, played) = play_through(rt, &game, own, known, tape, lines, gate);
            (own.into_seats(), known, played)
        },
    );
    let mut party = Party::new(places, seats);
    party.absorb(Party::new(places, own));
    let (party, done) = party.work_beside(rt, alloc, workers, crew);
    done?;
    let (tape, count) = played?;
    Ok((party, known, tape, count))
}

/// Plays the first batch of these lines over a world's nodes, and tells how many lines it has. The nodes are shared, one
/// branch plays the lines through a seat of each, beside the workers, who mark in the end all that the nodes' rows decide,
/// and the nodes are a world again. Without memory they are dropped.
fn play_batch<R: Threads + Wait + Sync, C: Crew + Sync, G: Gate + Sync>(
    game: &Game,
    band: &Band<R, C, G>,
    world: World,
    tape: Tape,
    lines: &[Line],
) -> Result<(World, Tape, usize), Memory>
    requires { All (IsLineBelow (length world.sites)) lines.now }
    ensures count { IfOk result (λ r. length r.0.sites ≡ length world.sites) }
    ensures marked { IfOk result (λ r. AllAreMarked r.0) }
    ensures batch { IfOk result (λ r. IsBatch lines.now r.2) }
    ensures told { IfOk result (λ r. MatchesBatch game.now.members.now (take r.2 lines.now) world tape r.0 r.1) }
{
    let (nodes, known) = world.into_parts();
    let (shared, seats) = start_all(game.alloc, nodes)?;
    let party = Party::new(shared.as_slice(), seats);
    let (party, known, tape, count) = play_beside(game, band, party, known, tape, lines)?;
    let seats = party.into_seats();
    let nodes = finish_all(band.rt, game.alloc, shared, seats)?;
    let Ok(world) = World::from_parts(game.alloc, nodes, known) else {
        return Err(Memory);
    };
    Ok((world, tape, count))
}

/// Plays the next batch, or the one line that stands in none, from a place on. Gives the place of the line after it.
fn play_next<R: Threads + Wait + Sync, C: Crew + Sync, G: Gate + Sync>(
    game: &Game,
    band: &Band<R, C, G>,
    mut world: World,
    mut tape: Tape,
    lines: &[Line],
    from: usize,
) -> Result<(World, Tape, usize), Memory>
    requires from { from < length lines.now }
    requires lines { All (IsLineBelow (length world.sites)) lines.now }
    requires rows { All IsLineOfRows lines.now }
    ensures { IfOk result (λ r. PlaysNext game.now.members.now lines.now from world tape r.0 r.1 r.2) }
{
    if let Action::Part(_) = &lines[from].action {
        let (_, rest) = lines.split_at(from);
        let (world, tape, count) = play_batch(game, band, world, tape, rest)?;
        return Ok((world, tape, from + count));
    }
    play_line(game, &mut world, &mut tape, &lines[from])?;
    Ok((world, tape, from + 1))
}

/// Plays the lines over the members' nodes in batches, beside workers. The nodes, and what the lines leave.
pub(crate) fn play_batches<R: Threads + Wait + Sync, C: Crew + Sync, G: Gate + Sync>(
    game: &Game,
    band: &Band<R, C, G>,
    world: World,
    lines: &[Line],
) -> Result<(World, Tape), Memory>
    requires world { world ≡ new_world game.now.members.now }
    requires lines { All (IsLineBelow (length world.sites)) lines.now }
    requires rows { All IsLineOfRows lines.now }
    ensures { IfOk result (λ r. IsPlayed game.now.members.now lines.now r.0 r.1.printed) }
{
    let mut world = world;
    let mut tape = Tape::new(game.alloc);
    let mut next = 0;
    'batches: while next < lines.len() {
        let (w, t, to) = play_next(game, band, world, tape, lines, next)?;
        world = w;
        tape = t;
        next = to;
    }
    Ok((world, tape))
}
