ghost use Rattle.std.specs.Prelude.{◌≡◌, ◌<◌, length, IfOk};
ghost use Rattle.order_match.specs.Requests.{placing, read_request, request_bytes, side_kind};

use byteorder::{BigEndian, ByteOrder};
use hg_model::{Bytes, Memory};
use std::alloc::Global;

/// To buy, or to sell.
#[derive(Clone, Copy, Debug, PartialEq, Eq)]
pub enum Side {
    Buy,
    Sell,
}

/// What a payload asks for.
#[derive(Clone, Copy, Debug, PartialEq, Eq)]
pub enum Request {
    /// The empty payload.
    Nothing,
    /// To buy or sell so much, at this price or a better one.
    Place {
        side: Side,
        price: u32,
        quantity: u32,
    },
    /// To take back what is left of the member's own order of this number: that of its event in the order, from 0.
    Cancel {
        number: u64,
    },
}

/// Why a payload is no request.
#[derive(Clone, Copy, Debug, PartialEq, Eq)]
pub enum RequestFault {
    /// It has so many bytes, where each request but the empty one has nine.
    BadLength(usize),
    /// Its first byte is none of 0 (buy), 1 (sell) and 2 (cancel).
    BadKind(u8),
    /// It places an order of the quantity 0.
    NoQuantity,
}

/// The request that a payload spells, or its first fault: a byte that tells the kind, and then price and quantity in four
/// bytes each, or a number in eight, big-endian. Takes no memory.
#[tactic(auto, unfolding(crate::specs::Requests::read_request))]
pub fn read_request(bytes: &[u8]) -> Result<Request, RequestFault>
    ensures { result ≡ read_request bytes.now }
{
    match bytes {
        [] => Ok(Request::Nothing),
        [kind, fields @ ..] => {
            if fields.len() != 8 {
                return Err(RequestFault::BadLength(bytes.len()));
            }
            match *kind {
                0 => placing(Side::Buy, fields),
                1 => placing(Side::Sell, fields),
                2 => Ok(Request::Cancel {
                    number: BigEndian::read_u64(fields),
                }),
                other => Err(RequestFault::BadKind(other)),
            }
        }
    }
}

/// The order that eight bytes spell.
fn placing(side: Side, fields: &[u8]) -> Result<Request, RequestFault>
    requires { length fields.now ≡ 8 }
    ensures { result ≡ placing side fields.now }
{
    let quantity = BigEndian::read_u32(&fields[4..]);
    if quantity == 0 {
        return Err(RequestFault::NoQuantity);
    }
    Ok(Request::Place {
        side,
        price: BigEndian::read_u32(&fields[..4]),
        quantity,
    })
}

/// The payload of a request, which `read_request` reads as it. The only error is want of memory.
#[tactic(auto, unfolding(crate::specs::Requests::request_bytes))]
pub fn write_request(alloc: Global, request: &Request) -> Result<Bytes, Memory>
    ensures { IfOk result (λ payload. payload ≡ request_bytes request.now) }
{
    let mut bytes = Vec::with_capacity(alloc, 9)?;
    match request {
        Request::Nothing => {}
        Request::Place {
            side,
            price,
            quantity,
        } => {
            bytes.push(kind_of(*side))?;
            bytes.extend_from_slice(&price.to_be_bytes())?;
            bytes.extend_from_slice(&quantity.to_be_bytes())?;
        }
        Request::Cancel { number } => {
            bytes.push(2)?;
            bytes.extend_from_slice(&number.to_be_bytes())?;
        }
    }
    Ok(Bytes::from_vec(bytes))
}

/// The byte that tells the side.
fn kind_of(side: Side) -> u8
    ensures { result ≡ side_kind side }
{
    match side {
        Side::Buy => 0,
        Side::Sell => 1,
    }
}
