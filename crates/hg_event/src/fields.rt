ghost use Rattle.std.specs.Prelude.{◌≡◌, ◌≤◌, take};
ghost use Rattle.std.specs.Int.{w16, w64};
ghost use Rattle.hg_model.specs.Links.{most_others};
ghost use Rattle.hg_life.specs.Reading.{bytes_field, form_field, form_of, is_kind, names_field, number_field};
ghost use Rattle.hg_life.specs.Reading.{parents_by, parents_field, payload_field};
ghost use Rattle.hg_life.specs.Results.{Reads};
ghost use Rattle.hg_event.specs.Names.{lent_names, names_lent};

use crate::parents::ParentsView;
use hg_life::ByteFault;
use hg_model::Name;

/// The first three bytes of every event.
pub(crate) const MAGIC: [u8; 3] = *b"HGE";

/// The byte behind them, of an event with at most one other-parent.
pub(crate) const ONE: u8 = b'1';

/// The same of an event with several.
pub(crate) const SEVERAL: u8 = b'2';

/// The greatest number of bytes of a payload.
pub const PAYLOAD_LIMIT: usize = 1024;

/// Whether the event is of the form with several other-parents, and the bytes behind that form.
#[tactic(auto, unfolding(hg_life::specs::Reading::form_field))]
pub(crate) fn form_of(bytes: &[u8], size: usize) -> Result<(bool, &[u8]), ByteFault>
    ensures { Reads (λ field. (field.0, field.1.now)) result (form_field size bytes.now) }
{
    if bytes.starts_with(MAGIC.as_slice()) {
        digit_of(&bytes[MAGIC.len()..], size)
    } else if MAGIC.as_slice().starts_with(bytes) {
        Err(ByteFault::Short(size))
    } else {
        Err(ByteFault::BadMagic)
    }
}

/// The same of the bytes behind the magic.
#[tactic(auto, unfolding(hg_life::specs::Reading::form_of))]
fn digit_of(bytes: &[u8], size: usize) -> Result<(bool, &[u8]), ByteFault>
    ensures { Reads (λ field. (field.0, field.1.now)) result (form_of size bytes.now) }
{
    match bytes {
        [] => Err(ByteFault::Short(size)),
        [ONE, rest @ ..] => Ok((false, rest)),
        [SEVERAL, rest @ ..] => Ok((true, rest)),
        _ => Err(ByteFault::BadMagic),
    }
}

/// The first `N` bytes, and the others.
#[tactic(auto, unfolding(hg_life::specs::Reading::bytes_field))]
pub(crate) fn array_of<const N: usize>(
    bytes: &[u8],
    size: usize,
) -> Result<(&[u8; N], &[u8]), ByteFault>
    ensures { Reads (λ field. (field.0.now, field.1.now)) result (bytes_field size N bytes.now) }
{
    match bytes.split_first_chunk::<N>() {
        Some(parts) => Ok(parts),
        None => Err(ByteFault::Short(size)),
    }
}

/// The number in the first two bytes, and the other bytes.
#[tactic(auto, unfolding(hg_life::specs::Reading::number_field))]
pub(crate) fn u16_of(bytes: &[u8], size: usize) -> Result<(u16, &[u8]), ByteFault>
    ensures { Reads (λ field. (field.0, field.1.now)) result (number_field size w16 bytes.now) }
{
    let (digits, rest) = array_of::<2>(bytes, size)?;
    Ok((u16::from_be_bytes(*digits), rest))
}

/// The number in the first eight bytes, and the other bytes.
#[tactic(auto, unfolding(hg_life::specs::Reading::number_field))]
pub(crate) fn u64_of(bytes: &[u8], size: usize) -> Result<(u64, &[u8]), ByteFault>
    ensures { Reads (λ field. (field.0, field.1.now)) result (number_field size w64 bytes.now) }
{
    let (digits, rest) = array_of::<8>(bytes, size)?;
    Ok((u64::from_be_bytes(*digits), rest))
}

/// The parents' names by the kind, which is the number of the other-parents, and the bytes behind them.
#[tactic(auto, unfolding(hg_life::specs::Reading::parents_field))]
pub(crate) fn parents_of(
    bytes: &[u8],
    size: usize,
    several: bool,
) -> Result<(Option<ParentsView<'_>>, &[u8]), ByteFault>
    ensures { Reads (λ field. (names_lent field.0, field.1.now)) result (parents_field size several bytes.now) }
{
    match bytes {
        [] => Err(ByteFault::Short(size)),
        [kind, rest @ ..] => {
            if is_kind(several, *kind) {
                parents_by(rest, size, *kind as usize)
            } else {
                Err(ByteFault::BadKind(*kind))
            }
        }
    }
}

/// Whether an event of this form may have so many other-parents.
fn is_kind(several: bool, kind: u8) -> bool
    ensures { result ≡ is_kind several kind }
{
    if several {
        1 < kind && kind <= 4
    } else {
        kind <= 1
    }
}

/// The parents' names, of so many other-parents, and the bytes behind them.
#[tactic(auto, unfolding(hg_life::specs::Reading::parents_by))]
fn parents_by(
    bytes: &[u8],
    size: usize,
    len: usize,
) -> Result<(Option<ParentsView<'_>>, &[u8]), ByteFault>
    requires { len ≤ most_others }
    ensures { Reads (λ field. (names_lent field.0, field.1.now)) result (parents_by size len bytes.now) }
{
    if len == 0 {
        return Ok((None, bytes));
    }
    let (self_parent, rest) = array_of::<48>(bytes, size)?;
    let (others, rest) = names_of(rest, size, self_parent, len)?;
    let parents = ParentsView {
        self_parent,
        others,
        len,
    };
    Ok((Some(parents), rest))
}

/// So many names, with the one that is given in the places behind them, and the bytes behind these names.
#[tactic(auto, unfolding(hg_life::specs::Reading::names_field))]
fn names_of<'a>(
    bytes: &'a [u8],
    size: usize,
    filler: &'a Name,
    len: usize,
) -> Result<([&'a Name; 4], &'a [u8]), ByteFault>
    requires { len ≤ most_others }
    ensures { Reads (λ field. (lent_names (take len field.0), field.1.now)) result (names_field size len bytes.now) }
{
    let mut names = [filler; 4];
    let mut rest = bytes;
    for place in 0..len {
        let (name, left) = array_of::<48>(rest, size)?;
        names[place] = name;
        rest = left;
    }
    Ok((names, rest))
}

/// The payload by its length, and the bytes behind it.
#[tactic(auto, unfolding(hg_life::specs::Reading::payload_field, hg_life::specs::Reading::bytes_field))]
pub(crate) fn payload_of(bytes: &[u8], size: usize) -> Result<(&[u8], &[u8]), ByteFault>
    ensures { Reads (λ field. (field.0.now, field.1.now)) result (payload_field size bytes.now) }
{
    let (len, rest) = u16_of(bytes, size)?;
    let count = len as usize;
    if count > PAYLOAD_LIMIT {
        return Err(ByteFault::BadLength(len));
    }
    match rest.split_at_checked(count) {
        Some(parts) => Ok(parts),
        None => Err(ByteFault::Short(size)),
    }
}
