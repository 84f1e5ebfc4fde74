ghost use Rattle.std.specs.Prelude.{◌≡◌, ◌<◌, ◌≤◌, ◌++◌, ◌∷◌, ◌==◌, [], All, Some, cond, length, option_map, IfOk, IfSome, OnOk, OnErr};
ghost use Rattle.hg_life.specs.declared.entry.Entry.{Entry};
ghost use Rattle.hg_model.specs.declared.row.Placed.{Placed};
ghost use Rattle.hg_model.specs.Graph.{IsGraph};
ghost use Rattle.hg_life.specs.Terms.{row_limit};
ghost use Rattle.hg_life.specs.Verdict.{last_name};
ghost use Rattle.hg_model.specs.Fame.{mark_at};
ghost use Rattle.hg_life.specs.Kept.{kept};
ghost use Rattle.hg_model.specs.Shares.{whole};
ghost use Rattle.hg_model.specs.GraphWords.{last_closed_in};
ghost use Rattle.hg_kept.specs.Published.{FindsNewsOf};
ghost use Rattle.hg_node.specs.Opening.{AreUnmarked, Opens};
ghost use Rattle.hg_node.specs.ChronicleView.{book_in, last_own_place, last_own_row, news_in, no_chronicle, chronicle_news, chronicle_with, chronicle_state};
ghost use Rattle.hg_arrival.specs.Arrival.{StandsOn};

use crate::open::{Open, found_in, open_in};
use hg_event::Event;
use hg_graph::EventGraph;
use hg_kept::Kept;
use hg_life::{Effect, Entry, Members};
use hg_model::{Found, Member, Memory, Name, Placed, Prefix, Share};
use hg_pay::{Book, Ledger};
use hg_votes::VoteTable;
use std::alloc::Global;
use std::marker::Model;
use std::sync::Arc;

/// The rows of a member's node, the log of how they came, what is published of them, the ledger of the order that they
/// have got, and the place of the last one that the member made.
pub struct Chronicle {
    own: Member,
    /// How many rows it takes at most.
    limit: usize,
    graph: EventGraph,
    kept: Kept,
    /// It has paid the kept order.
    ledger: Ledger,
    last_own: Option<usize>,
    log: Vec<Entry>,
    /// Of as many first rows as there were when the fame was last decided.
    votes: VoteTable,
}

// Written out, so that the drop of a node's rows is a call, which is proved once.
impl Drop for Chronicle {
    fn drop(self) {
        let Chronicle {
            own: _,
            limit: _,
            graph,
            kept,
            ledger,
            last_own: _,
            log,
            votes,
        } = self;
        drop(graph);
        drop(kept);
        drop(ledger);
        drop(log);
        drop(votes);
    }
}

impl Model for Chronicle {
    ghost use Rattle.std.specs.Prelude.{vec_capacity};
    ghost use Rattle.hg_node.specs.ChronicleView.{ChronicleView, KeepsAll, chronicle_view};

    ghost Value = { ChronicleView };

    ghost view = { λ s.
        chronicle_view s.own s.ledger.opening s.limit s.graph.graph s.log.items s.kept.published.marks };

    ghost invariant = { λ s.
        KeepsAll s.own s.graph.graph s.log.items s.kept.published s.last_own (vec_capacity s.log) s.ledger s.votes
        s.limit };
}

impl Chronicle {
    /// No rows and no entries: what the member's node begins with.
    pub fn new(
        alloc: Global,
        members: &Members,
        own: Member,
        limit: usize,
    ) -> Result<Chronicle, Memory>
        requires { limit ≤ row_limit }
        ensures { IfOk result (λ c. c ≡ no_chronicle members.now own limit) }
    {
        let stakes = members.stakes(alloc)?;
        let ledger = Ledger::new(alloc, members)?;
        let graph = EventGraph::new(alloc, stakes.as_slice(), members.coin())?;
        Ok(Chronicle {
            own,
            limit,
            graph,
            kept: Kept::new(alloc, members.count()),
            ledger,
            last_own: None,
            log: Vec::new(alloc),
            votes: VoteTable::empty(alloc),
        })
    }

    pub fn own(&self) -> Member
        ensures { result ≡ self.now.own }
    {
        self.own
    }

    /// How many rows it takes at most.
    pub fn limit(&self) -> usize
        ensures { result ≡ self.now.limit }
    {
        self.limit
    }

    pub fn graph(&self) -> &EventGraph
        ensures { result.now.graph ≡ self.now.graph }
    {
        &self.graph
    }

    /// The place of the last row that the member made.
    pub fn last_own(&self) -> Option<usize>
        ensures place { result ≡ last_own_place self.now.own self.now.graph.rows }
        ensures inside { IfSome result (λ place. place < length self.now.graph.rows) }
    {
        self.last_own
    }

    /// The name of the last row that the member made.
    pub fn last_name(&self) -> Option<Name>
        ensures { result ≡ last_name self.now.own self.now.graph.rows }
    {
        match self.last_own {
            Some(place) => Some(self.graph.row(place).name),
            None => None,
        }
    }

    /// The last event that the member made.
    pub fn last_event(&self) -> Option<&Arc<Event>>
        ensures { option_map (λ e. e.now.value) result ≡ last_own_row self.now.own self.now.graph.rows }
    {
        match self.last_own {
            Some(place) => Some(self.graph.event(place)),
            None => None,
        }
    }

    pub fn log(&self) -> &[Entry]
        ensures { result.now ≡ self.now.log }
    {
        &self.log
    }

    /// One row more, an event with its parents' places, and the entry that tells how it came.
    /// There is memory then for two entries of the log and an effect for each row.
    pub fn add(&mut self, event: Arc<Event>, parents: &[usize], entry: Entry) -> Result<(), Memory>
        requires limit { length self.old.graph.rows < self.old.limit }
        requires link { StandsOn self.old.graph.rows event.value parents.now }
        requires graph { IsGraph self.old.graph.members (self.old.graph.rows ++ event.value ∷ []) }
        ensures ok { OnOk result (self.new ≡ chronicle_with self.old event.value entry) }
        ensures err { OnErr result (self.new ≡ self.old) }
    {
        let place = self.graph.len();
        self.graph.reserve()?;
        self.kept.reserve()?;
        self.ledger.reserve(place + 1)?;
        self.log.reserve(2 * (place + 1) - self.log.len())?;
        self.last_own = later_place(self.last_own, self.own, event.row().creator, place);
        self.graph.push(event, parents);
        self.kept.add(&self.graph);
        self.log.push_reserved(entry);
        Ok(())
    }

    /// Marks what a share has found, with an entry if it is news, and pays what is ordered then; tells how many were
    /// marked. What was found may leave out what has its mark. Takes no memory.
    pub fn publish(&mut self, found: &Found) -> u32
        requires { FindsNewsOf self.old.graph self.old.marks found.now }
        ensures count { result ≡ news_in self.old found.now.len found.now.share }
        ensures grown { self.new ≡ chronicle_news self.old found.now.len found.now.share }
    {
        let count = self.kept.publish(&self.graph, found);
        self.ledger.pay(&self.graph, self.kept.order());
        if count > 0 {
            self.log.push_reserved(Entry::Marked {
                len: found.len,
                share: found.share,
            });
        }
        count
    }

    /// Publishes all fame that the graph decides. Of the votes only those of new rows are looked for, and of the witnesses only
    /// those without a mark are elected.
    pub fn settle(&mut self, alloc: Global) -> Result<(), Memory>
        ensures ok { OnOk result (self.new ≡ chronicle_news self.old (length self.old.graph.rows) whole) }
        ensures err { OnErr result (self.new ≡ self.old) }
    {
        self.votes.carry(alloc, &self.graph)?;
        let all = Share::new(0, 1);
        let rows = self.graph.len();
        let found = found_in(alloc, &self.graph, &self.kept, &mut self.votes, rows, all)?;
        self.publish(&found);
        Ok(())
    }

    /// What a share may still decide; `None` where it has all its marks.
    pub fn open(&mut self, alloc: Global, share: Share) -> Result<Option<Open>, Memory>
        ensures same { self.new ≡ self.old }
        ensures opens { IfOk result (Opens self.old.graph self.old.marks share) }
    {
        self.votes.carry(alloc, &self.graph)?;
        open_in(alloc, &self.graph, &self.kept, &mut self.votes, share)
    }

    /// What a share decides in the first `len` rows, but for what has its mark.
    pub fn found(&mut self, alloc: Global, len: usize, share: Share) -> Result<Found, Memory>
        requires { len ≤ length self.old.graph.rows }
        ensures same { self.new ≡ self.old }
        ensures news { IfOk result (FindsNewsOf self.old.graph self.old.marks) }
        ensures unmarked { IfOk result (AreUnmarked self.old.marks) }
        ensures len { IfOk result (λ found. found.len ≡ len) }
        ensures share { IfOk result (λ found. found.share ≡ share) }
    {
        self.votes.carry(alloc, &self.graph)?;
        found_in(alloc, &self.graph, &self.kept, &mut self.votes, len, share)
    }

    /// The mark of the row at a place below the number of rows.
    pub fn fame(&self, place: usize) -> Option<bool>
        requires { place < length self.now.graph.rows }
        ensures { result ≡ mark_at self.now.marks place }
    {
        self.kept.fame(place)
    }

    /// What the closed rounds have received, in order.
    pub fn kept(&self) -> &[Placed]
        ensures order { result.now ≡ kept self.now.graph.members (chronicle_state self.now) }
        ensures places { All (λ (x : Placed). x.place < length self.now.graph.rows) result.now }
    {
        self.kept.order()
    }

    /// What came of each event of the kept order.
    pub fn effects(&self) -> &[Effect]
        ensures { result.now ≡ (book_in self.now).effects }
    {
        self.ledger.effects()
    }

    /// What the members hold once the kept order is paid.
    pub fn book(&self) -> &Book
        ensures { result.now ≡ (book_in self.now).balances }
    {
        self.ledger.book()
    }

    /// The greatest closed round, or 0.
    pub fn closed(&self) -> u32
        ensures { result ≡ last_closed_in self.now.graph self.now.marks }
    {
        self.kept.closed()
    }
}

/// The later of two places: the next row's, where the member made it.
fn later_place(last: Option<usize>, own: Member, creator: Member, place: usize) -> Option<usize>
    ensures { result ≡ cond (creator == own) (Some place) last }
{
    if creator == own { Some(place) } else { last }
}
