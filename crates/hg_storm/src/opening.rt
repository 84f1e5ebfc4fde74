// What the threads have before they begin.
ghost use Rattle.std.specs.Prelude.{◌≡◌, ◌+◌, ◌<◌, ◌≤◌, All, IfOk, OnOk, length};
ghost use Rattle.hg_life.specs.Signing.{accepts_by};
ghost use Rattle.hg_crowd.specs.Crowd.{AreSeats};
ghost use Rattle.hg_crowd.specs.Workers.{HasMore};
ghost use Rattle.hg_storm.specs.Threads.{AreIssued, AreNewJobs, AreNewSenders, AreOpened, HaveRoom, IsNewDesk};

use crate::desk::{Desk, Job, Log};
use crate::sending::Dispatch;
use crate::taking::Intake;
use hg_board::{Seat, Shared};
use hg_made::Draws;
use hg_mail::{Mailbox, Port};
use hg_model::{Member, Memory};
use hg_sign::SharedTable;
use std::alloc::Global;

/// So many mailboxes, and of each the first port.
pub(crate) fn open_all(
    alloc: Global,
    count: usize,
    room: usize,
) -> Result<(Vec<Mailbox>, Vec<Port>), Memory>
    requires { 0 < room }
    ensures count { IfOk result (λ r. length r.0.items ≡ count) }
    ensures opened { IfOk result (λ r. AreOpened 0 r.0.items r.1.items) }
    ensures room { IfOk result (λ r. HaveRoom room r.0.items) }
{
    let mut mailboxes = Vec::new(alloc);
    let mut masters = Vec::new(alloc);
    'mailboxes: for i in 0..count {
        let (mailbox, port) = Mailbox::open(alloc, room)?;
        mailboxes.push(mailbox)?;
        masters.push(port)?;
    }
    Ok((mailboxes, masters))
}

/// The next sender's port to each mailbox, for the member of this number.
fn issue_all(
    alloc: Global,
    mailboxes: &[Mailbox],
    masters: &mut Vec<Port>,
    me: usize,
) -> Result<Vec<Port>, Memory>
    requires opened { AreOpened me mailboxes.now masters.old.items }
    requires few { me < 128 }
    ensures issued { OnOk result (AreIssued me mailboxes.now masters.new.items) }
    ensures senders { IfOk result (λ ports. AreNewSenders me mailboxes.now ports.items) }
{
    let mut ports = Vec::new(alloc);
    ports.reserve(mailboxes.len())?;
    'ports: for k in 0..mailboxes.len() {
        let port = mailboxes[k].issue(&mut masters[k]);
        ports.push_reserved(port);
    }
    Ok(ports)
}

/// The desk of a member that has sent nothing.
fn desk_of(
    alloc: Global,
    mailboxes: &[Mailbox],
    masters: &mut Vec<Port>,
    me: usize,
    seat: Seat<SharedTable>,
    seed: u64,
) -> Result<Desk, Memory>
    requires opened { AreOpened me mailboxes.now masters.old.items }
    requires me { me < length mailboxes.now }
    requires few { length mailboxes.now ≤ 128 }
    ensures opened { OnOk result (AreOpened (me + 1) mailboxes.now masters.new.items) }
    ensures desk { IfOk result (IsNewDesk mailboxes.now seed me seat) }
{
    let ports = issue_all(alloc, mailboxes, masters, me)?;
    let inbox = mailboxes[me].hand(&mut masters[me]);
    let none = Dispatch {
        sent: 0,
        full: 0,
        due: 0,
    };
    let dispatches = Vec::from_elem(alloc, none, mailboxes.len())?;
    let log = Log {
        dispatches,
        intake: Intake::new(alloc),
        idle: 0,
    };
    Ok(Desk {
        me: me as Member,
        log,
        seat,
        draws: Draws::new(seed.wrapping_add(me as u64)),
        ports,
        inbox,
    })
}

/// What each member has for its turns, in order: of each node a seat is split off the first one.
pub(crate) fn jobs_of(
    alloc: Global,
    mailboxes: &[Mailbox],
    masters: &mut Vec<Port>,
    places: &[Shared<SharedTable>],
    seats: Vec<Seat<SharedTable>>,
    seed: u64,
) -> Result<Vec<Job>, Memory>
    requires opened { AreOpened 0 mailboxes.now masters.old.items }
    requires seats { AreSeats accepts_by places.now seats.items }
    requires parts { All (HasMore 1) seats.items }
    requires count { length seats.items ≡ length mailboxes.now }
    requires few { length mailboxes.now ≤ 128 }
    ensures opened { OnOk result (AreOpened (length mailboxes.now) mailboxes.now masters.new.items) }
    ensures jobs { IfOk result (λ jobs. AreNewJobs mailboxes.now seed seats.items jobs.items) }
{
    let mut jobs = Vec::new(alloc);
    'seats: for first in seats {
        let mut seat = first;
        let me = jobs.len();
        let own = places[me].split(&mut seat);
        let desk = desk_of(alloc, mailboxes, masters, me, own, seed)?;
        jobs.push(Job { desk, seat })?;
    }
    Ok(jobs)
}
