ghost use Rattle.std.specs.Prelude.{◌≡◌, ◌≤◌, IfOk, OnErr, length};
ghost use Rattle.hg_model.specs.Links.{most_others};
ghost use Rattle.hg_node.specs.Beyond.{beyond_of, tips_of};
ghost use Rattle.hg_gossip.specs.Holding.{Makes, PutsBytes, Rules, Seen, Waits, WouldSign, WouldTake, names_in, parcel_beyond};

use hg_life::{MakeAnswer, Parcel, PutAnswer};
use hg_model::{Memory, Name};
use std::alloc::Global;

/// Who calls a node: its only holder, or one of several. Others may change the node before each call, and each answer
/// is the node's at the history then reached.
pub trait Holder {
    /// What the node signs with and checks signatures by.
    type Keys;

    ghost rules: { Rules Self.Keys };

    ghost seen: { Self → Seen Self.Keys };

    /// A loan by which it may hold its node: what was lent, and what of that no call changes.
    ghost Loan: { Type 0 };

    /// Its loan. By it the lender knows what comes back.
    ghost lent: { Self → Loan };

    /// The names of the node's rows, in the order in which they came.
    fn held(&mut self, alloc: Global) -> Result<Vec<Name>, Memory>
        ensures lent { lent self.new ≡ lent self.old }
        ensures waits { Waits rules (seen self.old) (seen self.new) }
        ensures names { IfOk result (λ names. names.items ≡ names_in (seen self.new)) };

    /// The bytes of the rows that have none of the names, in the order in which they came, and the name of the last
    /// row that the node made, if it made any.
    fn missing(&mut self, alloc: Global, names: &[Name]) -> Result<Parcel, Memory>
        ensures lent { lent self.new ≡ lent self.old }
        ensures waits { Waits rules (seen self.old) (seen self.new) }
        ensures parcel { IfOk result (λ parcel. parcel ≡ parcel_beyond names.now (seen self.new)) };

    /// The names of the rows that are no row's parent, in the order in which they came.
    fn tips(&mut self) -> Result<Vec<Name>, Memory>
        ensures lent { lent self.new ≡ lent self.old }
        ensures waits { Waits rules (seen self.old) (seen self.new) }
        ensures names { IfOk result (λ names. names.items ≡ tips_of (seen self.new).node) };

    /// The bytes of the rows that are ancestors of no row with one of the names, in the order in which they came, and the
    /// name of the last row that the node made, if it made any. Names of no row count for nothing.
    fn beyond(&mut self, names: &[Name]) -> Result<Parcel, Memory>
        ensures lent { lent self.new ≡ lent self.old }
        ensures waits { Waits rules (seen self.old) (seen self.new) }
        ensures parcel { IfOk result (λ parcel. parcel ≡ beyond_of names.now (seen self.new).node) };

    /// Puts the bytes of an event. Only to accept it takes memory.
    fn put(&mut self, bytes: &[u8]) -> Result<PutAnswer, Memory>
        ensures lent { lent self.new ≡ lent self.old }
        ensures ok { IfOk result (PutsBytes rules (seen self.old) bytes.now (seen self.new)) }
        ensures err { OnErr result (Waits rules (seen self.old) (seen self.new)) }
        ensures free { OnErr result (WouldTake rules (seen self.new) bytes.now) };

    /// Makes an event of the node's member on its last one, with these one to four other-parents, or with none its first one,
    /// without parents. The time is any, in no unit of ours. To tell that the event is refused before it is signed takes no
    /// memory.
    fn make(&mut self, others: &[Name], time: u64, payload: &[u8]) -> Result<MakeAnswer, Memory>
        requires { length others.now ≤ most_others }
        ensures lent { lent self.new ≡ lent self.old }
        ensures ok { IfOk result (Makes rules (seen self.old) others.now time payload.now (seen self.new)) }
        ensures err { OnErr result (Waits rules (seen self.old) (seen self.new)) }
        ensures free { OnErr result (WouldSign (seen self.new) others.now payload.now) };
}
