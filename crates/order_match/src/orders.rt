use hg_model::Member;

/// An order that rests in a book, or what is left of it.
#[derive(Clone, Copy, Debug, PartialEq, Eq)]
pub struct Order {
    /// That of its event in the order of events, from 0.
    pub number: u64,
    pub member: Member,
    pub price: u32,
    pub quantity: u32,
}

/// What one member bought of another, at the price of the order that rested.
#[derive(Clone, Copy, Debug, PartialEq, Eq)]
pub struct Trade {
    pub buyer: Member,
    pub seller: Member,
    pub price: u32,
    pub quantity: u32,
}
