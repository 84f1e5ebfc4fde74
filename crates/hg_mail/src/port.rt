use crate::rule::{CountSeat, MailPass};
use std::marker::Model;

/// The token of one caller of a mailbox. It knows what was put in through it or taken out, has its share of the right to
/// know the whole count, and may put in for one sender, take out, or give out ports.
#[derive(Drop)]
pub struct Port {
    pub(crate) pass: MailPass,
    pub(crate) seat: CountSeat,
    /// Whether it takes out, and then how many were taken out so far, or fewer.
    pub(crate) takes: bool,
    pub(crate) out: u64,
}

impl Model for Port {
    ghost use Rattle.std.specs.Prelude.{◌≡◌, ◌≤◌, true, [], length};
    ghost use Rattle.hg_mail.specs.Mailboxes.{PortView, port_of};

    ghost Value = { PortView };

    ghost view = { λ p. port_of p.pass p.seat };

    ghost invariant = { λ p. (p.pass.me.1 ≡ []) × (p.seat.me.1 ≡ []) × (p.takes ≡ (port_of p.pass p.seat).view.takes) × (p.takes ≡ true → p.out ≤ length (port_of p.pass p.seat).view.taken) };
}
