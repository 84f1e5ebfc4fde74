ghost use Rattle.std.specs.Prelude.{◌≡◌, ◌<◌, ◌∷◌, length, map, position, IfOk};
ghost use Rattle.hg_model.specs.Links.{creator, is_named, link_in, links, parent_names, parents, place_of, self_parent};
ghost use Rattle.hg_model.specs.Places.{IsEarlier};
ghost use Rattle.std.specs.List.{AllByRecursion};
ghost use Rattle.hg_model.specs.Shape.{place_list};

use hg_model::{Items, Member, Memory, Name, Row};
use std::alloc::Global;
use std::marker::Model;

/// A row's creator, and the places of its self-parent and of its other-parents.
#[derive(Drop)]
pub struct PlainLink {
    creator: Member,
    parents: Vec<usize>,
}

impl Model for PlainLink {
    ghost use Rattle.hg_model.specs.Links.{Link};

    ghost Value = { Link };

    ghost view = { λ s. record { creator = s.creator; parents = s.parents.items } };
}

/// The links of the rows, each parent looked up by its name.
#[tactic(auto, unfolding(hg_model::specs::Links::links))]
pub fn links_of(alloc: Global, rows: &[Row]) -> Result<Vec<PlainLink>, Memory>
    ensures { IfOk result (λ v. v.items ≡ links rows.now) }
{
    let mut links = Vec::new(alloc);
    for row in rows {
        links.push(link_in(alloc, rows, row)?)?;
    }
    Ok(links)
}

fn link_in(alloc: Global, rows: &[Row], row: &Row) -> Result<PlainLink, Memory>
    ensures { IfOk result (λ link. link ≡ link_in rows.now row.now) }
{
    Ok(PlainLink {
        creator: row.creator,
        parents: places_of(alloc, rows, &row.parents)?,
    })
}

/// The places of the rows with these names.
fn places_of(
    alloc: Global,
    rows: &[Row],
    names: &Option<(Name, Items<Name>)>,
) -> Result<Vec<usize>, Memory>
    ensures { IfOk result (λ v. v.items ≡ map (place_of rows.now) (parent_names names.now)) }
{
    match names {
        None => Ok(Vec::new(alloc)),
        Some(names) => places_by(alloc, rows, &names.0, names.1.as_slice()),
    }
}

/// The place of the row with the first name, and then those of the rows with the other names.
fn places_by(
    alloc: Global,
    rows: &[Row],
    first: &Name,
    others: &[Name],
) -> Result<Vec<usize>, Memory>
    ensures { IfOk result (λ v. v.items ≡ place_of rows.now first.now ∷ map (place_of rows.now) others.now) }
{
    let mut places = Vec::new(alloc);
    places.push(place_in(rows, first))?;
    for name in others {
        places.push(place_in(rows, name))?;
    }
    Ok(places)
}

/// The place of the first row with the name, or the number of rows.
#[tactic(auto, using(crate::proofs::TableLaws::position_or_length))]
fn place_in(rows: &[Row], name: &Name) -> usize
    ensures { result ≡ place_of rows.now name.now }
{
    position_of(rows, name).unwrap_or(rows.len())
}

/// The place of the first row with the name.
fn position_of(rows: &[Row], name: &Name) -> Option<usize>
    ensures { result ≡ position (is_named name.now) rows.now }
{
    rows.iter().position(|row| row.name == *name)
}

/// The creator of row `x`.
#[tactic(auto, using(hg_model::proofs::LinkLaws::link_reads))]
pub fn creator_of(links: &[PlainLink], x: usize) -> Member
    requires { x < length links.now }
    ensures { result ≡ creator links.now x }
{
    let link = &links[x];
    link.creator
}

/// The places of the parents of row `x`, the self-parent's first.
pub fn parents_of(links: &[PlainLink], x: usize) -> &[usize]
    requires place { x < length links.now }
    requires earlier { IsEarlier (parents links.now) }
    ensures value { result.now ≡ parents links.now x }
    ensures earlier { AllByRecursion (λ p. p < x) result.now }
{
    listed_parents(links, x)
}

/// The same as it stands in the link, without a word on where.
#[tactic(auto, using(hg_model::proofs::LinkLaws::link_reads))]
fn listed_parents(links: &[PlainLink], x: usize) -> &[usize]
    requires { x < length links.now }
    ensures { result.now ≡ parents links.now x }
{
    let link = &links[x];
    link.parents.as_slice()
}

/// The place of the self-parent of row `x`.
#[tactic(auto, unfolding(hg_model::specs::Links::self_parent))]
pub fn self_parent_of(links: &[PlainLink], x: usize) -> Option<usize>
    requires place { x < length links.now }
    requires earlier { IsEarlier (parents links.now) }
    ensures value { place_list result ≡ self_parent links.now x }
    ensures earlier { AllByRecursion (λ p. p < x) (place_list result) }
{
    match parents_of(links, x) {
        [] => None,
        [self_place, ..] => Some(*self_place),
    }
}
