ghost use Rattle.std.specs.Prelude.{◌≡◌};
ghost use Rattle.std.specs.Int.{w32, w64};
ghost use Rattle.hg_life.specs.Reading.{number_field};
ghost use Rattle.hg_life.specs.Results.{Reads};
ghost use Rattle.hg_proof.specs.Reading.{breaks_at, count_part, entry_field, entry_part, magic_part, number_part};

use crate::why::Why;
use hg_life::ByteFault;
use hg_model::Placed;

/// The first bytes of every certificate.
pub(crate) const MAGIC: [u8; 4] = *b"HGP1";

/// The greatest number of rows of a certificate: as many as a graph holds.
pub const CERTIFICATE_ROWS: usize = 1_048_576;

/// That the form breaks where these bytes begin, which are left of so many.
pub(crate) fn breaks_at(size: usize, left: &[u8]) -> Why
    ensures { result ≡ breaks_at size left.now }
{
    Why::Form(size.saturating_sub(left.len()))
}

/// The bytes behind the magic.
#[tactic(auto, unfolding(crate::specs::Reading::magic_part))]
pub(crate) fn behind_magic(bytes: &[u8], size: usize) -> Result<&[u8], Why>
    ensures { Reads (λ rest. rest.now) result (magic_part size bytes.now) }
{
    if bytes.starts_with(MAGIC.as_slice()) {
        Ok(&bytes[MAGIC.len()..])
    } else {
        Err(breaks_at(size, bytes))
    }
}

/// The number in the first four bytes, and the other bytes.
#[tactic(auto, unfolding(hg_life::specs::Reading::number_field, hg_life::specs::Reading::bytes_field))]
fn u32_field(bytes: &[u8], size: usize) -> Result<(u32, &[u8]), ByteFault>
    ensures { Reads (λ field. (field.0, field.1.now)) result (number_field size w32 bytes.now) }
{
    match bytes.split_first_chunk::<4>() {
        Some((digits, rest)) => Ok((u32::from_be_bytes(*digits), rest)),
        None => Err(ByteFault::Short(size)),
    }
}

/// The number in the first eight bytes, and the other bytes.
#[tactic(auto, unfolding(hg_life::specs::Reading::number_field, hg_life::specs::Reading::bytes_field))]
fn u64_field(bytes: &[u8], size: usize) -> Result<(u64, &[u8]), ByteFault>
    ensures { Reads (λ field. (field.0, field.1.now)) result (number_field size w64 bytes.now) }
{
    match bytes.split_first_chunk::<8>() {
        Some((digits, rest)) => Ok((u64::from_be_bytes(*digits), rest)),
        None => Err(ByteFault::Short(size)),
    }
}

/// The number in the first four bytes, as a part of a certificate, and the other bytes.
pub(crate) fn u32_part(bytes: &[u8], size: usize) -> Result<(u32, &[u8]), Why>
    ensures { Reads (λ part. (part.0, part.1.now)) result (number_part size w32 bytes.now) }
{
    match u32_field(bytes, size) {
        Ok(field) => Ok(field),
        Err(_) => Err(breaks_at(size, bytes)),
    }
}

/// How many rows there are, and the bytes behind that.
#[tactic(auto, unfolding(crate::specs::Reading::count_part))]
pub(crate) fn count_part(bytes: &[u8], size: usize) -> Result<(u32, &[u8]), Why>
    ensures { Reads (λ part. (part.0, part.1.now)) result (count_part size bytes.now) }
{
    let (count, rest) = u32_part(bytes, size)?;
    if count as usize > CERTIFICATE_ROWS {
        return Err(breaks_at(size, bytes));
    }
    Ok((count, rest))
}

/// The three numbers of an entry, and the bytes behind them.
#[tactic(auto, unfolding(crate::specs::Reading::entry_field))]
fn entry_field(bytes: &[u8], size: usize) -> Result<(Placed, &[u8]), ByteFault>
    ensures { Reads (λ field. (field.0, field.1.now)) result (entry_field size bytes.now) }
{
    let (place, rest) = u32_field(bytes, size)?;
    let (received, rest) = u32_field(rest, size)?;
    let (time, rest) = u64_field(rest, size)?;
    let entry = Placed {
        place: place as usize,
        received,
        time,
    };
    Ok((entry, rest))
}

/// The entry in front, and the bytes behind it.
pub(crate) fn entry_part(bytes: &[u8], size: usize) -> Result<(Placed, &[u8]), Why>
    ensures { Reads (λ part. (part.0, part.1.now)) result (entry_part size bytes.now) }
{
    match entry_field(bytes, size) {
        Ok(field) => Ok(field),
        Err(_) => Err(breaks_at(size, bytes)),
    }
}
