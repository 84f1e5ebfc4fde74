//! Mailboxes between threads: bounded queues of events, each with many senders and one receiver, and two counts beside it, of
//! all messages that were ever put in, and of those that are noted as taken out. What a thread may do, and what it knows, lies in
//! its `Port`.
//! The layers above use `post`, where the port counts the messages that come back; `collect`, which finds how many are counted, and
//! takes out until all these are out, or as many as there is room for. Each counted message has a date, which is how many collects
//! there had been, and the rule of the counts says of each collect that it found all that was dated before it. Once the ports have
//! been taken back, `count` and `drain`: the dates tell what each collect found, and each sender's messages are what of them was
//! taken out, and then what was left.
//!
//! From `send_piece` and `receive` of `hg_storm`:
//!
//! ```text
//! match mailbox.post(rt, port, message) {
//!     PostAnswer::Posted => sent += 1,
//!     PostAnswer::Full(_) => return sent,
//! }
//!
//! let messages = mailbox.collect(rt, alloc, inbox)?;
//! ```
#![tactic(auto)]

mod collecting;
mod counting;
mod mailbox;
mod message;
mod port;
mod posting;
mod rule;
mod view;

pub use mailbox::Mailbox;
pub use message::Message;
pub use port::Port;
pub use posting::PostAnswer;
