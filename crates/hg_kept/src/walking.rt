ghost use Rattle.std.specs.Prelude.{◌≡◌, ◌<◌, ◌≤◌, ◌+◌, [], length, nat_lt, vec_capacity, vec_len};
ghost use Rattle.hg_model.specs.Stakes.{member_count};
ghost use Rattle.hg_model.specs.Order.{sort_by};
ghost use Rattle.hg_model.specs.Prefix.{links_of};
ghost use Rattle.hg_order.specs.Counted.{AreLines, EndsBefore};
ghost use Rattle.hg_kept.specs.Waiting.{AreLineEnds, AreRaised, HoldsNew, ListsLine, line_length, new_places};

use hg_model::{Prefix, Sight, is_of_graph};

/// One more than the place of the last row before row `x` by its creator, or 0.
fn end_before<P: Prefix>(p: &P, x: usize) -> usize
    requires place { x < length (links_of (P.graph p.now)) }
    requires lines { AreLines (links_of (P.graph p.now)) }
    ensures { EndsBefore (links_of (P.graph p.now)) x result }
{
    is_of_graph(p);
    match p.self_parent(x) {
        None => 0,
        Some(parent) => parent + 1,
    }
}

/// Appends the rows by one member from `low` up to below `end`, which is one more than the place of such a row, from the last
/// to the first.
fn list_line<P: Prefix>(p: &P, low: usize, end: usize, fresh: &mut Vec<u32>)
    requires lines { AreLines (links_of (P.graph p.now)) }
    requires end { end ≤ length (links_of (P.graph p.now)) }
    requires room { vec_len fresh.old + line_length (links_of (P.graph p.now)) low end ≤ vec_capacity fresh.old }
    ensures listed { ListsLine (links_of (P.graph p.now)) low end fresh.old.items fresh.new.items }
    ensures room { vec_capacity fresh.new ≡ vec_capacity fresh.old }
{
    is_of_graph(p);
    let mut last = end;
    'line: while low < last {
        let x = last - 1;
        last = end_before(p, x);
        fresh.push_reserved(x as u32);
    }
}

/// Lists the rows from the ends up to below the least counts, in any order, and raises the ends to these.
fn raise_ends<P: Prefix>(p: &P, least: &[u32; 128], ends: &mut [u32; 128], fresh: &mut Vec<u32>)
    requires ends { AreLineEnds (P.graph p.now).members (links_of (P.graph p.now)) least.now }
    requires none { fresh.old.items ≡ [] }
    requires room { length (links_of (P.graph p.now)) ≤ vec_capacity fresh.old }
    ensures ends { AreRaised (member_count (P.graph p.now).members) ends.old least.now ends.new }
    ensures listed { HoldsNew (links_of (P.graph p.now)) ends.old least.now fresh.new.items }
    ensures room { vec_capacity fresh.new ≡ vec_capacity fresh.old }
{
    is_of_graph(p);
    for m in 0..p.members() as usize {
        list_line(p, ends[m] as usize, least[m] as usize, fresh);
        ends[m] = ends[m].max(least[m]);
    }
}

fn sort_slice(places: &mut [u32])
    ensures { places.new ≡ sort_by nat_lt places.old }
{
    places.sort_unstable();
}

/// The same of a list that owns its memory.
fn sort_places(places: &mut Vec<u32>)
    ensures sorted { places.new.items ≡ sort_by nat_lt places.old.items }
    ensures room { vec_capacity places.new ≡ vec_capacity places.old }
{
    sort_slice(places);
}

/// Lists the rows from the ends up to below the least counts, by place, and raises the ends to these.
pub fn take_below<P: Prefix>(p: &P, least: &[u32; 128], ends: &mut [u32; 128], fresh: &mut Vec<u32>)
    requires ends { AreLineEnds (P.graph p.now).members (links_of (P.graph p.now)) least.now }
    requires room { length (links_of (P.graph p.now)) ≤ vec_capacity fresh.old }
    ensures ends { AreRaised (member_count (P.graph p.now).members) ends.old least.now ends.new }
    ensures listed { fresh.new.items ≡ new_places (links_of (P.graph p.now)) ends.old least.now }
    ensures room { vec_capacity fresh.new ≡ vec_capacity fresh.old }
{
    fresh.clear();
    raise_ends(p, least, ends, fresh);
    sort_places(fresh);
}
