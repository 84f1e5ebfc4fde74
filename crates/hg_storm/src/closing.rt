// What comes back of the threads.
ghost use Rattle.std.specs.Prelude.{◌≡◌, ◌<◌, ◌≤◌, true, IfOk, OnOk, get_or, length};
ghost use Rattle.hg_mail.specs.Count.{all_parts};
ghost use Rattle.hg_mail.specs.Mailboxes.{IsPortOf};
ghost use Rattle.hg_storm.specs.Joins.{AreAbsorbed, AreGathered, ArePortsOf, Empties, EmptyAll, HasEmptied, HaveEmptied, HaveTurned, TakeOut};
ghost use Rattle.hg_storm.specs.Threads.{AreOpened};

use crate::desk::{Desk, Job, Log};
use hg_board::{Seat, Shared};
use hg_mail::{Mailbox, Message, Port};
use hg_model::Memory;
use hg_sign::SharedTable;
use std::alloc::Global;
use std::sync::Wait;

/// The ports of one member come back.
fn absorb_ports(
    mailboxes: &[Mailbox],
    masters: &mut Vec<Port>,
    me: usize,
    ports: Vec<Port>,
    inbox: Port,
)
    requires me { me < length mailboxes.now }
    requires masters { ArePortsOf mailboxes.now masters.old.items }
    requires ports { ArePortsOf mailboxes.now ports.items }
    requires inbox { (m : _) → IsPortOf (get_or mailboxes.now me m) inbox }
    ensures { AreGathered me mailboxes.now masters.old.items ports.items inbox masters.new.items }
{
    let mut k = 0;
    'ports: for port in ports {
        mailboxes[k].absorb(&mut masters[k], port);
        k += 1;
    }
    mailboxes[me].absorb(&mut masters[me], inbox);
}

/// All ports come back, and all seats, each to that of the crew.
pub(crate) fn absorb_all(
    alloc: Global,
    mailboxes: &[Mailbox],
    masters: &mut Vec<Port>,
    places: &[Shared<SharedTable>],
    jobs: Vec<Job>,
) -> Result<(Vec<Seat<SharedTable>>, Vec<Log>), Memory>
    requires opened { AreOpened (length mailboxes.now) mailboxes.now masters.old.items }
    requires jobs { HaveTurned mailboxes.now places.now jobs.items }
    ensures back { IfOk result (λ r. AreAbsorbed mailboxes.now places.now jobs.items masters.new.items r.0.items r.1.items) }
    ensures takes { OnOk result (TakeOut mailboxes.now masters.new.items) }
{
    let mut seats = Vec::new(alloc);
    let mut logs = Vec::new(alloc);
    'jobs: for job in jobs {
        let Job { desk, seat } = job;
        let Desk {
            me: _,
            log,
            seat: own,
            draws: _,
            ports,
            inbox,
        } = desk;
        let mut seat = seat;
        let me = logs.len();
        places[me].absorb(&mut seat, own);
        absorb_ports(mailboxes, masters, me, ports, inbox);
        seats.push(seat)?;
        logs.push(log)?;
    }
    Ok((seats, logs))
}

/// What a mailbox has left. By a port with all parts, no more messages were counted than that port has counted.
fn empty<R: Wait>(
    rt: &R,
    alloc: Global,
    mailbox: &Mailbox,
    port: &mut Port,
) -> Result<Vec<Message>, Memory>
    requires of { IsPortOf mailbox.now port.old }
    requires takes { port.old.view.takes ≡ true }
    ensures ok { IfOk result (λ left. Empties mailbox.now port.old left.items) }
    ensures port { IfOk result (λ left. HasEmptied port.old left.items port.new) }
    ensures whole { port.old.count.parts ≡ all_parts → port.old.count.seen ≤ port.old.count.mine }
{
    mailbox.count(port);
    mailbox.drain(rt, alloc, port)
}

/// What each mailbox has left.
pub(crate) fn empty_all<R: Wait>(
    rt: &R,
    alloc: Global,
    mailboxes: &[Mailbox],
    masters: &mut Vec<Port>,
) -> Result<Vec<Vec<Message>>, Memory>
    requires { TakeOut mailboxes.now masters.old.items }
    ensures left { IfOk result (λ left. EmptyAll mailboxes.now masters.old.items left.items) }
    ensures ports { IfOk result (λ left. HaveEmptied masters.old.items left.items masters.new.items) }
{
    let mut left = Vec::new(alloc);
    'mailboxes: for k in 0..mailboxes.len() {
        let rest = empty(rt, alloc, &mailboxes[k], &mut masters[k])?;
        left.push(rest)?;
    }
    Ok(left)
}
