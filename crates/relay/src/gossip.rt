ghost use Rattle.std.specs.Prelude.{◌≤◌, IfOk, OnOk};
ghost use Rattle.hg_wire.specs.Grammar.{item_count, message_bytes};
ghost use Rattle.hg_wire.specs.Reading.{count_limit};
ghost use Rattle.relay.specs.Exchanges.{AsksOn, ExchangesOn, LearnsOn, ServesOn};
ghost use Rattle.relay.specs.Moments.{GossipsOn, Hears, IsOpen, Says, moment};
ghost use Rattle.relay.specs.Steps.{RelaysAllOn};

use crate::request::Request;
use hg_exchange::{MessageFault, names_of};
use hg_io::{Disk, Failed, Sink, Source};
use hg_journal::Stored;
use hg_keep::{make_next, put_all, settle};
use hg_model::Items;
use hg_sign::Signer;
use hg_top::{File, Refusal, Status};
use hg_wire::{Ear, Message, Receipt, Want, exchanges_fit, receive, rows_of, write_message};
use std::alloc::Global;

/// What a relay works on: the disk of its journal, and the streams from its peer and to it.
#[derive(Drop)]
pub(crate) struct Outside<D, S, K> {
    pub(crate) alloc: Global,
    pub(crate) disk: D,
    pub(crate) source: S,
    pub(crate) sink: K,
}

/// Hears a message of this kind.
fn hear<S: Source>(alloc: Global, want: Want, source: &mut S) -> Result<Message, Status>
    ensures { Hears S.Source want source.old source.new result }
{
    match receive(source, &mut Ear::new(alloc, want))? {
        Receipt::Got(message) => Ok(message),
        Receipt::Failed => Err(Status::ReadFault(File::Message)),
        Receipt::Ended(at) => Err(Status::Wire(Refusal::Fault(MessageFault::Ended(at)))),
        Receipt::Wire(fault) => Err(Status::Wire(Refusal::Fault(MessageFault::Wire(fault)))),
    }
}

/// Says a message.
fn say<K: Sink>(message: &Message, sink: &mut K) -> Result<(), Status>
    requires { item_count message.now ≤ count_limit }
    ensures { Says K.Sink sink.old sink.new (message_bytes message.now) result }
{
    match write_message(sink, message) {
        Ok(()) => Ok(()),
        Err(Failed) => Err(Status::WriteFault),
    }
}

impl<D: Disk, S: Source, K: Sink> Outside<D, S, K> {
    /// Asks the peer for what it has beyond the node's rows, and hears its answer.
    fn ask<V: Signer + Drop>(&mut self, stored: &Stored<V>) -> Result<Message, Status>
        requires { IsOpen V.accepts (moment D.Disk S.Source K.Sink stored.now self.old) }
        ensures gossips { GossipsOn V.accepts D.Disk S.Source K.Sink stored.now stored.now self.old self.new result }
        ensures asks { IfOk result (AsksOn S.Source K.Sink stored.now self.old self.new) }
    {
        let node = stored.node().unwrap();
        node.is_node();
        exchanges_fit::<V, V>();
        let have = Message::Have(Items::from_vec(node.tips()?));
        say(&have, &mut self.sink)?;
        hear(self.alloc, Want::Rows, &mut self.source)
    }

    /// Hears what the peer has, and answers by the rows that the node has beyond that.
    fn serve<V: Signer + Drop>(&mut self, stored: &Stored<V>) -> Result<(), Status>
        requires { IsOpen V.accepts (moment D.Disk S.Source K.Sink stored.now self.old) }
        ensures gossips { GossipsOn V.accepts D.Disk S.Source K.Sink stored.now stored.now self.old self.new result }
        ensures serves { OnOk result (ServesOn S.Source K.Sink stored.now self.old self.new) }
    {
        let node = stored.node().unwrap();
        node.is_node();
        exchanges_fit::<V, V>();
        let have = hear(self.alloc, Want::Have, &mut self.source)?;
        let rows = node.beyond(names_of(&have))?;
        say(&Message::Rows(rows), &mut self.sink)
    }

    /// Asks the peer, takes its answer and makes an event.
    fn learn<V: Signer + Drop>(&mut self, stored: &mut Stored<V>, time: u64) -> Result<(), Status>
        requires { IsOpen V.accepts (moment D.Disk S.Source K.Sink stored.old self.old) }
        ensures gossips { GossipsOn V.accepts D.Disk S.Source K.Sink stored.old stored.new self.old self.new result }
        ensures learns { OnOk result (LearnsOn V.accepts time S.Source K.Sink stored.old stored.new self.old self.new) }
    {
        let rows = self.ask(stored)?;
        put_all(self.alloc, stored, &mut self.disk, rows_of(&rows))?;
        make_next(stored, &mut self.disk, time)?;
        Ok(())
    }

    /// One exchange: the relay asks, and then it serves; or it serves first.
    fn exchange<V: Signer + Drop>(
        &mut self,
        stored: &mut Stored<V>,
        asks_first: bool,
        time: u64,
    ) -> Result<(), Status>
        requires { IsOpen V.accepts (moment D.Disk S.Source K.Sink stored.old self.old) }
        ensures gossips { GossipsOn V.accepts D.Disk S.Source K.Sink stored.old stored.new self.old self.new result }
        ensures exchanges { OnOk result
            (ExchangesOn V.accepts asks_first time S.Source K.Sink stored.old stored.new self.old self.new) }
    {
        if asks_first {
            self.learn(stored, time)?;
            return self.serve(stored);
        }
        self.serve(stored)?;
        self.learn(stored, time)
    }

    /// All exchanges that are asked for, after which the node publishes what its graph decides.
    pub(crate) fn gossip<V: Signer + Drop>(
        &mut self,
        stored: &mut Stored<V>,
        asked: &Request<'_>,
    ) -> Result<(), Status>
        requires { IsOpen V.accepts (moment D.Disk S.Source K.Sink stored.old self.old) }
        ensures gossips { GossipsOn V.accepts D.Disk S.Source K.Sink stored.old stored.new self.old self.new result }
        ensures settles { OnOk result (RelaysAllOn V.accepts S.Source K.Sink asked.now self.old self.new stored.old stored.new) }
    {
        for i in 0..asked.exchanges {
            let time = asked.time.saturating_add(u64::from(i));
            self.exchange(stored, asked.asks_first, time)?;
        }
        settle(stored, &mut self.disk)?;
        Ok(())
    }
}
