ghost use Rattle.std.specs.Prelude.{◌≡◌, ◌<◌, ◌≤◌, ◌+◌, ◌*◌, ◌∷◌, ◌++◌, length, slice_get, IfOk, OnOk, Some};
ghost use Rattle.hg_life.specs.Pay.{pay_bytes, read_pay, transfer_bytes, transfer_in, transfer_limit};

use byteorder::{BigEndian, ByteOrder};
use hg_life::Transfer;
use hg_model::{Bytes, Memory};
use std::alloc::Global;
use std::marker::Model;

/// The greatest number of transfers in one payload.
const TRANSFER_LIMIT: usize = 64;

/// The transfers of a payload, at most 64, which lie in its bytes.
#[derive(Drop)]
pub struct Pay<'a> {
    chunks: &'a [[u8; 10]],
}

impl<'a> Model for Pay<'a> {
    ghost use Rattle.std.specs.Prelude.{◌≤◌, List, length, map};
    ghost use Rattle.hg_life.specs.declared.pay.Transfer.{Transfer};
    ghost use Rattle.hg_life.specs.Pay.{transfer_in, transfer_limit};

    ghost Value = { List Transfer };

    ghost view = { λ s. map transfer_in s.chunks.now };

    ghost invariant = { λ s. length s.chunks.now ≤ transfer_limit };
}

/// The transfers that these bytes spell: a byte that tells how many, and of each the receiver in two bytes and the
/// amount in eight, big-endian. `None` where they are no such payload. Takes no memory.
#[tactic(auto, unfolding(hg_life::specs::Pay::read_pay))]
pub fn read_pay(bytes: &[u8]) -> Option<Pay<'_>>
    ensures { result ≡ read_pay bytes.now }
{
    match bytes {
        [] => None,
        [count, rest @ ..] => pay_in(*count, rest),
    }
}

/// So many transfers, where these bytes spell just them.
#[tactic(auto, unfolding(hg_life::specs::Pay::read_pay))]
fn pay_in(count: u8, rest: &[u8]) -> Option<Pay<'_>>
    ensures { result ≡ read_pay (count ∷ rest.now) }
{
    let count = count as usize;
    if count > TRANSFER_LIMIT || rest.len() != 10 * count {
        return None;
    }
    let (chunks, _) = rest.as_chunks::<10>();
    Some(Pay { chunks })
}

/// The transfer that ten bytes spell.
pub(crate) fn transfer_in(bytes: &[u8; 10]) -> Transfer
    ensures { result ≡ transfer_in bytes.now }
{
    Transfer {
        receiver: BigEndian::read_u16(&bytes[..2]),
        amount: BigEndian::read_u64(&bytes[2..]),
    }
}

impl<'a> Pay<'a> {
    /// How many transfers there are.
    pub fn len(&self) -> usize
        ensures value { result ≡ length self.now }
        ensures few { result ≤ transfer_limit }
    {
        self.chunks.len()
    }

    /// Transfer `i`, from 0.
    pub fn get(&self, i: usize) -> Transfer
        requires { i < length self.now }
        ensures { slice_get self.now i ≡ Some result }
    {
        let chunks = self.chunks;
        transfer_in(&chunks[i])
    }
}

/// Writes a transfer at the end.
fn write_transfer(bytes: &mut Vec<u8>, transfer: &Transfer) -> Result<(), Memory>
    ensures { OnOk result (bytes.new.items ≡ bytes.old.items ++ transfer_bytes transfer.now) }
{
    bytes.extend_from_slice(&transfer.receiver.to_be_bytes())?;
    bytes.extend_from_slice(&transfer.amount.to_be_bytes())?;
    Ok(())
}

/// The bytes of the payload of these transfers, at most 64, which `read_pay` reads as them. The only error is want of
/// memory.
#[tactic(auto, unfolding(hg_life::specs::Pay::pay_bytes), using(crate::proofs::PayLaws::transfers_bytes_more))]
pub fn write_pay(alloc: Global, transfers: &[Transfer]) -> Result<Bytes, Memory>
    requires { length transfers.now ≤ transfer_limit }
    ensures spelled { IfOk result (λ payload. payload ≡ pay_bytes transfers.now) }
    ensures long { IfOk result (λ payload. length payload ≡ 10 * length transfers.now + 1) }
{
    let mut bytes = Vec::with_capacity(alloc, 1 + 10 * transfers.len())?;
    bytes.push(transfers.len() as u8)?;
    for transfer in transfers {
        write_transfer(&mut bytes, transfer)?;
    }
    Ok(Bytes::from_vec(bytes))
}
