ghost use Rattle.std.specs.Prelude.{◌≡◌};

use hg_life::Fault;
use hg_model::Stop;

/// Why bytes show no order: the first of these that holds.
#[derive(Clone, Copy, Debug, PartialEq, Eq)]
pub enum Why {
    /// At this offset the bytes break the format: a field, an event or an entry that begins there is not whole or not
    /// lawful, or it is the first byte too many.
    Form(usize),
    /// The row at this place has the bytes of an earlier one.
    Repeat(usize),
    /// The row at this place may not come behind those before it, as a node refuses an event: never `Bytes`, `Impostor` or
    /// `Full`.
    Row(usize, Fault),
    /// The order of the rows has not this entry at this place, or has ended there or goes on.
    Order(usize),
}

impl From<Why> for Stop<Why> {
    ghost use Rattle.hg_model.specs.declared.stop.Stop.TheVariants.{Fault};

    ghost from_gives = { λ why stop. stop ≡ Fault why };

    fn from(why: Why) -> Stop<Why> {
        Stop::Fault(why)
    }
}
