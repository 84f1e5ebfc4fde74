ghost use Rattle.std.specs.Prelude.{◌<◌, IfErr, IfOk, is_some, length};
ghost use Rattle.hg_life.specs.NodeView.{start_of};
ghost use Rattle.hg_play.specs.Sites.{IsMadeWith};
ghost use Rattle.relay.specs.Relaying.{IsHaltedOn, RelaySyncs, RelaysStoredOn, TellsKept};
ghost use Rattle.relay.specs.Top.{RelayEndsOn, RelayTellsOn};

use crate::gossip::Outside;
use crate::request::Request;
use hg_io::{Disk, Shelf, Sink, Source};
use hg_journal::Stored;
use hg_life::Members;
use hg_model::{Bytes, Items, Member, Memory};
use hg_node::Node;
use hg_outcome::Outcome;
use hg_play::block_of;
use hg_proof::certificate;
use hg_sign::{MacTable, Signer};
use hg_top::{Status, members_from, own_in};
use std::alloc::Global;

/// What is told of a node at the end.
#[derive(Debug, Drop)]
pub(crate) struct Relayed {
    /// Its block.
    pub(crate) outcome: Outcome,
    /// The certificate of its order, if it is wanted.
    pub(crate) proof: Option<Bytes>,
}

/// What is told of a node that was made with these members.
fn told_of<V: Signer>(
    alloc: Global,
    members: &Members,
    node: &Node<V>,
    wanted: bool,
) -> Result<Relayed, Memory>
    requires { IsMadeWith members.now node.now }
    ensures { IfOk result (TellsKept V.accepts members.now wanted node.now) }
{
    let outcome = block_of(alloc, members, node)?;
    if !wanted {
        let proof = None;
        return Ok(Relayed { outcome, proof });
    }
    let proof = Some(Items::from_vec(certificate(alloc, node)?));
    Ok(Relayed { outcome, proof })
}

impl<D: Disk, S: Source, K: Sink> Outside<D, S, K> {
    /// Opens the node of a member from its journal, which is made anew where there is none, and lets it gossip.
    fn relay_node<V: Signer + Drop>(
        &mut self,
        members: &Members,
        own: Member,
        keys: V,
        asked: &Request<'_>,
    ) -> Result<Stored<V>, Status>
        requires { own < length members.now.entries }
        ensures relayed { IfOk result (RelaysStoredOn V.accepts D.Disk S.Source K.Sink
            (start_of members.now own keys) asked.now self.old self.new) }
        ensures synced { RelaySyncs V.accepts (start_of members.now own keys)
            (D.file self.old.disk) (D.file self.new.disk) result }
        ensures halted { IfErr result (IsHaltedOn V.accepts D.Disk S.Source K.Sink
            (start_of members.now own keys) asked.now self.old self.new) }
    {
        let mut stored = Stored::open(self.alloc, &mut self.disk, asked.disk, members, own, keys)?;
        self.gossip(&mut stored, asked)?;
        Ok(stored)
    }
}

/// Reads the member file, opens the node of the member of the name `own` from its journal, which is made anew where there is
/// none, lets it gossip, and answers what is to be told of it.
pub(crate) fn relay<F: Shelf, D: Disk, S: Source, K: Sink>(
    asked: &Request<'_>,
    shelf: &mut F,
    out: &mut Outside<D, S, K>,
) -> Result<Relayed, Status>
    // What is told is that of a node that came by the exchanges of the one whose journal the file was, and the file is its then.
    ensures tells { IfOk result (RelayTellsOn D.Disk S.Source K.Sink (F.holds shelf.old) asked.now out.old out.new) }
    // Each other status has its cause, as in `hashgraph`.
    ensures ends { IfErr result (RelayEndsOn F.Shelf D.Disk S.Source K.Sink shelf.old shelf.new asked.now out.old out.new) }
{
    let members = members_from(out.alloc, shelf, asked.members)?;
    let Some(own) = own_in(&members, asked.own) else {
        return Err(Status::Own);
    };
    let keys = MacTable::new(out.alloc, &members)?;
    let stored = out.relay_node(&members, own, keys, asked)?;
    let wanted = asked.proof.is_some();
    Ok(told_of(out.alloc, &members, stored.node().unwrap(), wanted)?)
}
