// What the members sent each other, by the names of rows.
ghost use Rattle.std.specs.Prelude.{◌≡◌, ◌<◌, ◌≤◌, ◌++◌, All, IfOk, OnOk, length, map, take};
ghost use Rattle.hg_life.specs.NodeView.{node_rows};
ghost use Rattle.hg_mail.specs.Messages.{messages_of};
ghost use Rattle.hg_storm.specs.Joins.{dispatch_to};
ghost use Rattle.hg_storm.specs.Mails.{AreMailsOf, HasTold, IsMailOf, IsOfRow, names_in, names_told, pair_of, pairs_from};

use crate::desk::Log;
use crate::sending::Dispatch;
use crate::threads::Joined;
use hg_mail::Message;
use hg_model::{Member, Memory, Name};
use hg_node::Node;
use hg_sign::SharedTable;
use std::alloc::Global;

/// What a member sent another, by the names of its node's rows.
#[derive(Debug, Drop)]
pub struct Mail {
    pub from: Member,
    pub to: Member,
    /// What it put into the other's mailbox, in order: its node's first rows.
    pub sent: Vec<Name>,
    /// What the other took of it, in order.
    pub taken: Vec<Name>,
    /// What the mailbox had left of it, in order.
    pub left: Vec<Name>,
    /// How often the mailbox was full.
    pub full: u64,
    /// How many rows the sender's node had when it last sent to the other, or 0.
    pub due: usize,
}

/// The names of a node's first rows, so many.
fn first_names(alloc: Global, node: &Node<SharedTable>, count: usize) -> Result<Vec<Name>, Memory>
    requires { count ≤ length (node_rows node.now) }
    ensures { IfOk result (λ names. names.items ≡ take count (names_in node.now)) }
{
    let mut names = Vec::new(alloc);
    for place in 0..count {
        names.push(node.row(place).name)?;
    }
    Ok(names)
}

/// The names of the rows that a node's member sent, by those of its messages that are here.
fn names_of(
    alloc: Global,
    node: &Node<SharedTable>,
    messages: &[Message],
    from: Member,
) -> Result<Vec<Name>, Memory>
    requires { All (IsOfRow from (length (node_rows node.now))) messages.now }
    ensures { IfOk result (λ names. names.items ≡ names_told (names_in node.now) (messages_of from messages.now)) }
{
    let mut names = Vec::new(alloc);
    for message in messages {
        if message.from == from {
            names.push(node.row(message.number).name)?;
        }
    }
    Ok(names)
}

/// What a log tells of the rows that were sent to a member.
fn dispatch_of(log: &Log, to: Member) -> Dispatch
    ensures { result ≡ dispatch_to log.now to }
{
    match log.dispatches.get(to as usize) {
        Some(dispatch) => *dispatch,
        None => Dispatch {
            sent: 0,
            full: 0,
            due: 0,
        },
    }
}

/// What one member sent another.
fn mail_of(alloc: Global, joined: &Joined, from: Member, to: Member) -> Result<Mail, Memory>
    requires told { HasTold joined.now }
    requires from { from < length joined.now.nodes.items }
    requires to { to < length joined.now.nodes.items }
    ensures mail { IfOk result (IsMailOf joined.now) }
    ensures pair { IfOk result (λ mail. pair_of mail ≡ (from, to)) }
{
    let (j, k) = (from as usize, to as usize);
    let node = &joined.nodes[j];
    node.is_node();
    let dispatch = dispatch_of(&joined.logs[j], to);
    let taken = joined.logs[k].intake.taken.as_slice();
    let left = joined.left[k].as_slice();
    Ok(Mail {
        from,
        to,
        sent: first_names(alloc, node, dispatch.sent)?,
        taken: names_of(alloc, node, taken, from)?,
        left: names_of(alloc, node, left, from)?,
        full: dispatch.full,
        due: dispatch.due,
    })
}

/// What one member sent each other one of these, in order.
fn push_mails(
    alloc: Global,
    joined: &Joined,
    circle: &[Member],
    from: Member,
    mails: &mut Vec<Mail>,
) -> Result<(), Memory>
    requires told { HasTold joined.now }
    requires circle { All (λ m. m < length joined.now.nodes.items) circle.now }
    requires from { from < length joined.now.nodes.items }
    requires mails { All (IsMailOf joined.now) mails.old.items }
    ensures mails { OnOk result (All (IsMailOf joined.now) mails.new.items) }
    ensures pairs { OnOk result (map pair_of mails.new.items ≡ map pair_of mails.old.items ++ pairs_from circle.now from) }
{
    'others: for to in circle {
        if *to != from {
            let mail = mail_of(alloc, joined, from, *to)?;
            mails.push(mail)?;
        }
    }
    Ok(())
}

/// What each of these members sent each other one of them, in order.
pub(crate) fn mails_of(
    alloc: Global,
    joined: &Joined,
    circle: &[Member],
) -> Result<Vec<Mail>, Memory>
    requires told { HasTold joined.now }
    requires circle { All (λ m. m < length joined.now.nodes.items) circle.now }
    ensures { IfOk result (λ mails. AreMailsOf joined.now circle.now mails.items) }
{
    let mut mails = Vec::new(alloc);
    'senders: for from in circle {
        push_mails(alloc, joined, circle, *from, &mut mails)?;
    }
    Ok(mails)
}
