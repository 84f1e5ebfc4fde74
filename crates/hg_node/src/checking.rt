ghost use Rattle.std.specs.Prelude.{◌≡◌, None, IfOk, OnErr, OnOk};
ghost use Rattle.std.specs.Result.{result_err};
ghost use Rattle.hg_event.specs.View.{row_of};
ghost use Rattle.hg_life.specs.Members.{stakes_of};
ghost use Rattle.hg_node.specs.Checked.{IsChecked, IsSignedRow, unfit, unfit_row};

use hg_arrival::{member_rule, signature_rule};
use hg_event::{Event, EventView, decode};
use hg_life::{Fault, Members, PutAnswer};
use hg_model::Memory;
use hg_name::name_of;
use hg_sign::Verifier;
use std::alloc::Global;
use std::sync::Arc;

/// The event of these bytes, read, named and checked outside of every node: `put_event` takes it at each node of these
/// members and keys. Bytes that spell no event, or one of no member, or one whose signature the keys refuse, are
/// answered as `put` answers them where no row has their name. Takes memory for an event that is checked, for no other.
pub fn checked<V: Verifier>(
    alloc: Global,
    keys: &V,
    members: &Members,
    bytes: &[u8],
) -> Result<Result<Arc<Event>, PutAnswer>, Memory>
    ensures unfit { IfOk result (λ r. result_err r ≡ unfit (V.accepts keys.now) (stakes_of members.now) bytes.now) }
    ensures event { IfOk result (λ r. IfOk r (λ event. IsChecked (V.accepts keys.now) members.now bytes.now event.value)) }
    ensures free { OnErr result (unfit (V.accepts keys.now) (stakes_of members.now) bytes.now ≡ None) }
{
    let view = match decode(bytes) {
        Ok(view) => view,
        Err(fault) => return Ok(Err(PutAnswer::Refused(Fault::Bytes(fault)))),
    };
    match signed_by_member(keys, members, &view) {
        Err(answer) => Ok(Err(answer)),
        Ok(()) => {
            let event = Event::copied(alloc, &view, name_of(bytes), bytes)?;
            Ok(Ok(Arc::new(alloc, event)?))
        }
    }
}

/// Whether it is an event of a member that the keys accept as signed.
fn signed_by_member<V: Verifier>(
    keys: &V,
    members: &Members,
    view: &EventView<'_>,
) -> Result<(), PutAnswer>
    ensures answer { result_err result ≡ unfit_row (V.accepts keys.now) (stakes_of members.now) (row_of view.now) }
    ensures signed { OnOk result (IsSignedRow (V.accepts keys.now) members.now (row_of view.now)) }
{
    member_rule(members.count(), view)?;
    signature_rule(keys, view)
}
