ghost use Rattle.std.specs.Prelude.{◌≡◌, ◌<◌, ◌≤◌, ◌-◌, ℕ, [], ◌∷◌, ◌++◌, length, take, slice_index, vec_capacity, IfOk, IsTrue, IsFalse};
ghost use Rattle.std.specs.Arc.{arc_value};
ghost use Rattle.hg_rounds.specs.Cut.{IsCut};
ghost use Rattle.hg_rounds.specs.Listed.{places_in};

use crate::places::Places;
use hg_model::Memory;
use std::alloc::Global;
use std::marker::Model;
use std::mem;
use std::sync::Arc;

/// The places of one round's witnesses, in order.
#[derive(Drop)]
pub struct Witnesses {
    places: Places,
}

impl Model for Witnesses {
    ghost use Rattle.std.specs.Prelude.{ℕ, List};
    ghost use Rattle.hg_rounds.specs.Listed.{places_in};

    ghost Value = { List ℕ };

    ghost view = { λ s. places_in s.places };
}

impl Witnesses {
    /// No places, and no memory.
    pub fn new(alloc: Global) -> Witnesses
        ensures { result ≡ [] }
    {
        Witnesses {
            places: Places::Open(Vec::new(alloc)),
        }
    }

    /// Seals the list, and takes the memory of one more place where nobody shares it.
    pub fn reserve(&mut self) -> Result<(), Memory>
        ensures { self.new ≡ self.old }
    {
        reserve_in(&mut self.places)
    }

    /// One more place; answers how many there are then. Takes no memory: where the list has no room of its own, or is shared,
    /// it goes on as a copy in the spare memory.
    pub fn push(&mut self, place: usize, spare: &mut Vec<usize>) -> usize
        requires room { length self.old < vec_capacity spare.old }
        requires empty { spare.old.items ≡ [] }
        ensures places { self.new ≡ self.old ++ place ∷ [] }
        ensures count { result ≡ length self.new }
        ensures empty { spare.new.items ≡ [] }
    {
        if !push_in_place(&mut self.places, place) {
            push_in_copy(&mut self.places, place, spare);
        }
        slice_of(&self.places).len()
    }

    /// The places.
    pub fn as_slice(&self) -> &[usize]
        ensures { result.now ≡ self.now }
    {
        slice_of(&self.places)
    }

    /// The places below `len`. A sealed list is shared where it has no others.
    pub fn first(&self, alloc: Global, len: usize) -> Result<Witnesses, Memory>
        ensures { IfOk result (λ first. IsCut self.now len first) }
    {
        let count = count_below(slice_of(&self.places), len);
        Ok(Witnesses {
            places: first_of(&self.places, alloc, count)?,
        })
    }
}

/// The places of a list.
fn slice_of(list: &Places) -> &[usize]
    ensures { result.now ≡ places_in list.now }
{
    match list {
        Places::Open(places) => places,
        Places::Sealed(places) => places,
    }
}

/// Seals a list, and takes the memory of one more place where nobody shares it.
fn reserve_in(list: &mut Places) -> Result<(), Memory>
    ensures { places_in list.new ≡ places_in list.old }
{
    match list {
        Places::Open(places) => {
            places.shrink_to_fit();
            places.reserve(1)?;
            seal(list)
        }
        Places::Sealed(places) => reserve_alone(places),
    }
}

/// Seals a list that is open.
fn seal(list: &mut Places) -> Result<(), Memory>
    ensures { places_in list.new ≡ places_in list.old }
{
    if let Places::Open(places) = list {
        let alloc = *places.allocator();
        let open = mem::replace(places, Vec::new(alloc));
        match Arc::new(alloc, open) {
            Ok(sealed) => *list = Places::Sealed(sealed),
            Err(refused) => {
                *list = Places::Open(refused.value);
                return Err(Memory);
            }
        }
    }
    Ok(())
}

/// Takes the memory of one more place where nobody shares these.
fn reserve_alone(shared: &mut Arc<Vec<usize>>) -> Result<(), Memory>
    ensures { (arc_value shared.new).items ≡ (arc_value shared.old).items }
{
    if let Some(places) = Arc::get_mut(shared) {
        places.reserve(1)?;
    }
    Ok(())
}

/// One more place, if nobody shares the list and it has room; answers whether.
fn push_in_place(list: &mut Places, place: usize) -> bool
    ensures pushed { IsTrue result → places_in list.new ≡ places_in list.old ++ place ∷ [] }
    ensures same { IsFalse result → places_in list.new ≡ places_in list.old }
{
    match list {
        Places::Open(places) => push_if_room(places, place),
        Places::Sealed(places) => push_if_alone(places, place),
    }
}

/// One more place, if nobody shares these and there is room; answers whether.
fn push_if_alone(shared: &mut Arc<Vec<usize>>, place: usize) -> bool
    ensures pushed { IsTrue result → (arc_value shared.new).items ≡ (arc_value shared.old).items ++ place ∷ [] }
    ensures same { IsFalse result → (arc_value shared.new).items ≡ (arc_value shared.old).items }
{
    match Arc::get_mut(shared) {
        Some(places) => push_if_room(places, place),
        None => false,
    }
}

/// One more place, if there is room; answers whether.
fn push_if_room(places: &mut Vec<usize>, place: usize) -> bool
    ensures pushed { IsTrue result → places.new.items ≡ places.old.items ++ place ∷ [] }
    ensures same { IsFalse result → places.new.items ≡ places.old.items }
{
    let room = places.len() < places.capacity();
    if room {
        places.push_reserved(place);
    }
    room
}

/// The list goes on as a copy in the spare memory, with one more place.
fn push_in_copy(list: &mut Places, place: usize, spare: &mut Vec<usize>)
    requires room { length (places_in list.old) < vec_capacity spare.old }
    requires empty { spare.old.items ≡ [] }
    ensures places { places_in list.new ≡ places_in list.old ++ place ∷ [] }
    ensures empty { spare.new.items ≡ [] }
{
    let alloc = *spare.allocator();
    let mut copy = mem::replace(spare, Vec::new(alloc));
    copy.extend_from_slice(slice_of(list)).unwrap();
    copy.push_reserved(place);
    *list = Places::Open(copy);
}

/// The first places of a list, so many. A sealed list is shared if these are all.
fn first_of(list: &Places, alloc: Global, count: usize) -> Result<Places, Memory>
    requires { count ≤ length (places_in list.now) }
    ensures { IfOk result (λ first. places_in first ≡ take count (places_in list.now)) }
{
    match list {
        Places::Sealed(places) if places.len() == count => {
            Ok(Places::Sealed(Arc::try_clone(places)?))
        }
        _ => Ok(Places::Open(Vec::from_slice(alloc, &slice_of(list)[..count])?)),
    }
}

/// How many of these places come before the last one that is below `len`, with it. They are in order.
fn count_below(places: &[usize], len: usize) -> usize
    ensures within { result ≤ length places.now }
    ensures last { 0 < result → slice_index places.now (result - 1) < len }
    ensures later { (i : ℕ) → result ≤ i → i < length places.now → len ≤ slice_index places.now i }
{
    let mut count = places.len();
    while count > 0 && places[count - 1] >= len {
        count -= 1;
    }
    count
}
