ghost use Rattle.std.specs.Prelude.{◌≡◌, true, OnErr, OnOk};
ghost use Rattle.hg_mail.specs.Mailboxes.{IsPortOf};
ghost use Rattle.hg_board.specs.Seats.{IsOf};
ghost use Rattle.hg_crowd.specs.Crowd.{IsStill};
ghost use Rattle.hg_storm.specs.Fates.{HasFates};
ghost use Rattle.hg_storm.specs.Keeping.{AddsNoRow, KeepsSeat};
ghost use Rattle.hg_storm.specs.Receiving.{LosesRest, TakesMore};

use crate::taking::{Intake, take_all};
use hg_board::{Seat, Shared};
use hg_mail::{Mailbox, Port};
use hg_model::Memory;
use hg_sign::Signer;
use std::alloc::Global;
use std::sync::Wait;

/// Takes messages out of a mailbox, all that are counted and not noted as taken out, or as many as there is room for, and puts
/// their events into the node of its receiver, in order; the port counts that it collected so. After `Memory` none was taken
/// out, or the first of them are taken and the others are lost. The port may be any that takes out.
pub fn receive<V: Signer + Drop, R: Wait>(
    rt: &R,
    alloc: Global,
    mailbox: &Mailbox,
    inbox: &mut Port,
    shared: &Shared<V>,
    seat: &mut Seat<V>,
    intake: &mut Intake,
) -> Result<(), Memory>
    requires of { IsOf shared.now seat.old }
    requires inbox { IsPortOf mailbox.now inbox.old }
    requires takes { inbox.old.view.takes ≡ true }
    requires fates { HasFates V.accepts shared.now seat.old intake.old.taken.items intake.old.refused.items }
    ensures of { IsOf shared.now seat.new }
    ensures still { IsStill seat.old seat.new }
    ensures seat { KeepsSeat V.accepts shared.now seat.old seat.new }
    ensures made { AddsNoRow seat.old seat.new }
    ensures more { OnOk result (TakesMore mailbox.now inbox.old inbox.new intake.old.taken.items intake.new.taken.items) }
    ensures lost { OnErr result (LosesRest mailbox.now inbox.old inbox.new intake.old.taken.items intake.new.taken.items) }
    ensures fates { HasFates V.accepts shared.now seat.new intake.new.taken.items intake.new.refused.items }
{
    let messages = mailbox.collect(rt, alloc, inbox)?;
    take_all(rt, shared, seat, intake, messages)
}
