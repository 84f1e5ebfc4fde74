ghost use Rattle.std.specs.Prelude.{◌≡◌, ◌<◌, ◌≤◌, ◌%◌, ◌^◌, true, IfOk, OnErr, OnOk, length, max};
ghost use Rattle.hg_mail.specs.Messages.{HasPort, IsEmptied, IsWhole, KnowsSenders};
ghost use Rattle.hg_mail.specs.Count.{AreFoundBy, all_parts};
ghost use Rattle.hg_mail.specs.Mailboxes.{Collects, IsPortOf, IsOpened, Posts, TakesSome, after_hand, after_issue, after_looking, after_taking, handed, issued, joined, spent};

use crate::collecting::{collect_by, drain_by};
use crate::counting::look;
use crate::message::Message;
use crate::port::Port;
use crate::posting::{PostAnswer, post_by};
use crate::rule::{Both, Counter, Everything, OnePart, Queue, ToReceiver, ToSender};
use atomic_table::Table;
use crossbeam_queue::RuledArrayQueue;
use hg_model::Memory;
use std::alloc::Global;
use std::marker::Model;
use std::sync::Wait;

/// A bounded queue of messages that threads share, and two counts, of all that were ever put in, and of those that are noted as
/// taken out. Each call needs a port of it.
#[derive(Drop)]
pub struct Mailbox {
    queue: Queue,
    counter: Counter,
}

impl Model for Mailbox {
    ghost use Rattle.std.specs.Prelude.{◌≡◌};
    ghost use Rattle.hg_mail.specs.Mailboxes.{MailboxView, mailbox_of};

    ghost Value = { MailboxView };

    ghost view = { λ m. mailbox_of m.queue m.counter.shared.table_id };

    ghost invariant = { λ m. m.counter.shared.table_id.words ≡ 2 };
}

impl Mailbox {
    /// An empty mailbox with room for so many messages, at least one, and its first port, which has every right and all
    /// 65,536 parts of the count. It takes memory for all of them.
    pub fn open(alloc: Global, room: usize) -> Result<(Mailbox, Port), Memory>
        requires { 0 < room }
        ensures { IfOk result (λ r. IsOpened room r.0 r.1) }
    {
        let (queue, pass) = RuledArrayQueue::ruled(alloc, room)?;
        let (counter, seat) = Table::vacant(alloc, &[0u64, 0], 0, &room)?;
        Ok((
            Mailbox { queue, counter },
            Port {
                pass,
                seat,
                takes: true,
                out: 0,
            },
        ))
    }

    /// For how many messages there is room.
    pub fn room(&self) -> usize
        ensures { result ≡ self.now.room }
    {
        self.queue.capacity()
    }

    /// A port for the next sender: senders have numbers from 0, in the order in which their ports are given out. It gets one
    /// part of the count.
    pub fn issue(&self, port: &mut Port) -> Port
        requires of { IsPortOf self.now port.old }
        requires gives { port.old.view.gives ≡ true }
        requires parts { 1 < port.old.count.parts }
        ensures port { port.new ≡ after_issue port.old }
        ensures sender { result ≡ issued port.old }
    {
        let pass = &mut port.pass;
        let other = self.queue.another::<ToSender>(pass);
        let seat = &mut port.seat;
        let part = self.counter.shared.split_seat::<OnePart>(seat);
        Port {
            pass: other,
            seat: part,
            takes: false,
            out: 0,
        }
    }

    /// A port for the receiver, who alone takes out from then on. It gets one part of the count.
    pub fn hand(&self, port: &mut Port) -> Port
        requires of { IsPortOf self.now port.old }
        requires takes { port.old.view.takes ≡ true }
        requires parts { 1 < port.old.count.parts }
        ensures port { port.new ≡ after_hand port.old }
        ensures receiver { result ≡ handed port.old }
    {
        let pass = &mut port.pass;
        let other = self.queue.another::<ToReceiver>(pass);
        let seat = &mut port.seat;
        let part = self.counter.shared.split_seat::<OnePart>(seat);
        port.takes = false;
        Port {
            pass: other,
            seat: part,
            takes: true,
            out: port.out,
        }
    }

    /// Takes another port into this one, with its rights, what it knows and its parts.
    pub fn absorb(&self, port: &mut Port, other: Port)
        requires of { IsPortOf self.now port.old }
        requires other { IsPortOf self.now other }
        ensures { port.new ≡ joined port.old other }
    {
        let Port {
            pass: its_pass,
            seat: its_seat,
            takes,
            out,
        } = other;
        let pass = &mut port.pass;
        self.queue.absorb::<Both>(pass, its_pass);
        let seat = &mut port.seat;
        self.counter.shared.join_seat::<Both>(seat, its_seat);
        if takes {
            port.takes = true;
            port.out = out;
        }
    }

    /// Takes all that another port has, which keeps no right and no part.
    pub fn gather(&self, port: &mut Port, other: &mut Port)
        requires of { IsPortOf self.now port.old }
        requires other { IsPortOf self.now other.old }
        ensures port { port.new ≡ joined port.old other.old }
        ensures other { other.new ≡ spent other.old }
    {
        let all = self.whole(other);
        self.absorb(port, all);
    }

    /// All that a port has, in a port of its own.
    fn whole(&self, port: &mut Port) -> Port
        requires of { IsPortOf self.now port.old }
        ensures port { port.new ≡ spent port.old }
        ensures all { result ≡ port.old }
    {
        let pass = &mut port.pass;
        let other = self.queue.another::<Everything>(pass);
        let seat = &mut port.seat;
        let parts = self.counter.shared.split_seat::<Everything>(seat);
        let takes = port.takes;
        port.takes = false;
        Port {
            pass: other,
            seat: parts,
            takes,
            out: port.out,
        }
    }

    /// How many messages were put in and counted so far, those that were taken out included. By a port that has all parts
    /// it is what that port has counted, and the dates of these tell what each of its collects found.
    pub fn count(&self, port: &mut Port) -> u64
        requires { IsPortOf self.now port.old }
        ensures port { port.new ≡ after_looking port.old result }
        ensures whole { port.old.count.parts ≡ all_parts → port.new.count.seen ≤ port.old.count.mine }
        ensures exact { port.old.count.parts ≡ all_parts → result ≡ port.old.count.mine % 2 ^ 64 }
        ensures found { port.old.count.parts ≡ all_parts → AreFoundBy port.old.count.dates port.old.count.findings }
    {
        let seat = &mut port.seat;
        look(&self.counter.shared, seat)
    }

    /// Puts a message in, by a port that puts in for its sender. It comes back only where, at a step of this call, so many were
    /// counted, and not noted as taken out, as the mailbox has room for; the port counts how often.
    pub fn post<R: Wait>(&self, rt: &R, port: &mut Port, message: Message) -> PostAnswer
        requires of { IsPortOf self.now port.old }
        requires sender { HasPort message.from port.old.view }
        requires part { 0 < port.old.count.parts }
        ensures { Posts self.now port.old message result port.new }
    {
        let pass = &mut port.pass;
        let seat = &mut port.seat;
        post_by(rt, &self.queue, &self.counter.shared, pass, seat, message)
    }

    /// Takes out messages, oldest first, until all are out that were counted when this call noted on that count that it collects,
    /// or as many as there is room for; and notes them. The port notes what it found. It may wait until a message is there that
    /// was counted. Without memory none is taken out.
    pub fn collect<R: Wait>(
        &self,
        rt: &R,
        alloc: Global,
        port: &mut Port,
    ) -> Result<Vec<Message>, Memory>
        requires of { IsPortOf self.now port.old }
        requires takes { port.old.view.takes ≡ true }
        ensures collects { IfOk result (λ taken. Collects self.now.room port.old taken.items port.new) }
        ensures err { OnErr result (port.new ≡ port.old) }
    {
        let pass = &mut port.pass;
        let seat = &mut port.seat;
        let out = &mut port.out;
        collect_by(
            rt,
            alloc,
            &self.queue,
            &self.counter.shared,
            pass,
            seat,
            out,
        )
    }

    /// Takes out what is left, until the mailbox holds none: then all is out that was put in by the senders whose ports this one
    /// has taken back, since they put in no more; where it has taken all back, no more was left than there is room for. Without
    /// memory some messages may have been taken out, and are lost.
    pub fn drain<R: Wait>(
        &self,
        rt: &R,
        alloc: Global,
        port: &mut Port,
    ) -> Result<Vec<Message>, Memory>
        requires of { IsPortOf self.now port.old }
        requires takes { port.old.view.takes ≡ true }
        ensures port { IfOk result (λ left. port.new ≡ after_taking port.old left.items) }
        ensures known { OnOk result (KnowsSenders port.new.view) }
        ensures whole { OnOk result (IsEmptied port.new.view) }
        ensures room { IsWhole port.old.view → IfOk result (λ left. length left.items ≤ self.now.room) }
        ensures err { OnErr result (TakesSome port.old port.new) }
    {
        let pass = &mut port.pass;
        let out = &mut port.out;
        drain_by(rt, alloc, &self.queue, pass, out)
    }
}
