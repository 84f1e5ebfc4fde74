ghost use Rattle.std.specs.Prelude.{◌≡◌, option_map};
ghost use Rattle.hg_wire.specs.Reading.{count_field, cut, head_field, kind_byte, kind_field, last_field, magic_byte, magic_field, row_field};
ghost use Rattle.hg_wire.specs.Views.{Tells};

use crate::message::{Want, WireFault};
use hg_event::decode_first;
use hg_life::ByteFault;
use hg_model::Name;

/// Why a field is not read.
#[derive(Clone, Copy, Debug, PartialEq, Eq)]
pub(crate) enum Stop {
    /// It is not whole.
    Waits,
    Wrong(WireFault),
}

/// The greatest number of names or rows of a message.
pub(crate) const COUNT_LIMIT: u32 = 1_048_576;

/// The first `N` bytes, and the others.
#[tactic(auto, unfolding(crate::specs::Reading::cut))]
pub(crate) fn array_of<const N: usize>(bytes: &[u8]) -> Result<(&[u8; N], &[u8]), Stop>
    ensures { Tells (λ x. x.0.now) (λ x. x.1.now) result (cut N bytes.now) }
{
    match bytes.split_first_chunk::<N>() {
        Some(parts) => Ok(parts),
        None => Err(Stop::Waits),
    }
}

/// The byte, and those behind it.
#[tactic(auto, unfolding(crate::specs::Reading::magic_byte))]
fn magic_byte_of(bytes: &[u8], at: usize, byte: u8) -> Result<(u8, &[u8]), Stop>
    ensures { Tells (λ x. x.0) (λ x. x.1.now) result (magic_byte at byte bytes.now) }
{
    match bytes {
        [] => Err(Stop::Waits),
        [b, rest @ ..] => {
            if *b == byte {
                Ok((*b, rest))
            } else {
                Err(Stop::Wrong(WireFault::Magic(at)))
            }
        }
    }
}

/// The last byte of the magic, and the bytes behind it.
#[tactic(auto, unfolding(crate::specs::Reading::magic_field))]
fn magic_of(bytes: &[u8]) -> Result<(u8, &[u8]), Stop>
    ensures { Tells (λ x. x.0) (λ x. x.1.now) result (magic_field bytes.now) }
{
    let (_, rest) = magic_byte_of(bytes, 0, b'H')?;
    let (_, rest) = magic_byte_of(rest, 1, b'G')?;
    let (_, rest) = magic_byte_of(rest, 2, b'W')?;
    magic_byte_of(rest, 3, b'1')
}

/// The byte of the kind.
pub(crate) fn kind_byte(want: Want) -> u8
    ensures { result ≡ kind_byte want }
{
    match want {
        Want::Have => 1,
        Want::Rows => 2,
    }
}

/// The kind, which has to be the one that is wanted, and the bytes behind it.
#[tactic(auto, unfolding(crate::specs::Reading::kind_field))]
fn kind_of(bytes: &[u8], want: Want) -> Result<(u8, &[u8]), Stop>
    ensures { Tells (λ x. x.0) (λ x. x.1.now) result (kind_field want bytes.now) }
{
    match bytes {
        [] => Err(Stop::Waits),
        [b, rest @ ..] => {
            if *b == kind_byte(want) {
                Ok((*b, rest))
            } else {
                Err(Stop::Wrong(WireFault::Kind(*b)))
            }
        }
    }
}

/// How many names or rows follow, and the bytes behind that number.
#[tactic(auto, unfolding(crate::specs::Reading::count_field))]
fn count_of(bytes: &[u8]) -> Result<(u32, &[u8]), Stop>
    ensures { Tells (λ x. x.0) (λ x. x.1.now) result (count_field bytes.now) }
{
    let (digits, rest) = array_of::<4>(bytes)?;
    let count = u32::from_be_bytes(*digits);
    if count > COUNT_LIMIT {
        return Err(Stop::Wrong(WireFault::Count(count)));
    }
    Ok((count, rest))
}

/// How many names or rows follow the head, and the bytes behind it.
#[tactic(auto, unfolding(crate::specs::Reading::head_field))]
pub(crate) fn head_of(bytes: &[u8], want: Want) -> Result<(u32, &[u8]), Stop>
    ensures { Tells (λ x. x.0) (λ x. x.1.now) result (head_field want bytes.now) }
{
    let (_, rest) = magic_of(bytes)?;
    let (_, rest) = kind_of(rest, want)?;
    count_of(rest)
}

/// The bytes of the row at this place, and those behind them. To find its end does not depend on the length of its
/// payload.
#[tactic(auto, unfolding(crate::specs::Reading::row_field))]
pub(crate) fn row_of(bytes: &[u8], place: usize) -> Result<(&[u8], &[u8]), Stop>
    ensures { Tells (λ x. x.0.now) (λ x. x.1.now) result (row_field place bytes.now) }
{
    match decode_first(bytes) {
        Ok((_, len)) => Ok(bytes.split_at(len)),
        Err(ByteFault::Short(_)) => Err(Stop::Waits),
        Err(fault) => Err(Stop::Wrong(WireFault::Row(place, fault))),
    }
}

/// The name of the last own row, if there is one, and the bytes behind it.
#[tactic(auto, unfolding(crate::specs::Reading::last_field))]
pub(crate) fn last_of(bytes: &[u8]) -> Result<(Option<&Name>, &[u8]), Stop>
    ensures { Tells (λ x. option_map (λ name. name.now) x.0) (λ x. x.1.now) result (last_field bytes.now) }
{
    match bytes {
        [] => Err(Stop::Waits),
        [0, rest @ ..] => Ok((None, rest)),
        [1, rest @ ..] => {
            let (name, rest) = array_of::<48>(rest)?;
            Ok((Some(name), rest))
        }
        [flag, ..] => Err(Stop::Wrong(WireFault::Flag(*flag))),
    }
}
