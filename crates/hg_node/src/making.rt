ghost use Rattle.std.specs.Prelude.{◌≡◌, ◌≤◌, None, Some, length, option_map, IfOk, IsSome, OnErr};
ghost use Rattle.std.specs.Option.{option_to_list};
ghost use Rattle.hg_model.specs.Links.{most_others};
ghost use Rattle.hg_node.specs.Next.{MakesNext, MakesOn, next_others};
ghost use Rattle.hg_life.specs.Calls.{IsMaking, make_draft};

use crate::draft::{draft_of, row_rule, signed_event};
use crate::next::last_other;
use crate::node::Node;
use hg_life::{Entry, MakeAnswer};
use hg_model::{Memory, Name};
use hg_sign::Signer;

impl<V: Signer> Node<V> {
    /// Makes an event of the node's member on its last one, with these one to four other-parents, or with none its first one,
    /// without parents. The time is any, in no unit of ours. To tell that the event is refused before it is signed takes no
    /// memory.
    pub fn make(&mut self, others: &[Name], time: u64, payload: &[u8]) -> Result<MakeAnswer, Memory>
        requires { length others.now ≤ most_others }
        ensures ok { IfOk result (λ a. IsMaking V.accepts self.old others.now time payload.now a self.new) }
        ensures err { OnErr result (self.new ≡ self.old) }
        ensures free { OnErr result (make_draft self.old others.now payload.now ≡ None) }
    {
        let draft = match draft_of(&*self.chronicle, others, payload) {
            Ok(draft) => draft,
            Err(fault) => return Ok(MakeAnswer::Refused(fault)),
        };
        let own = self.chronicle.own();
        let event = signed_event(
            self.alloc, &self.keys, own, draft.last, others, time, payload,
        )?;
        match row_rule(&*self.chronicle, &event) {
            Err(fault) => Ok(MakeAnswer::Refused(fault)),
            Ok(()) => {
                let place = self.chronicle.graph().len();
                self.chronicle
                    .add(event, draft.places.as_slice(), Entry::Made(place))?;
                Ok(MakeAnswer::Made(place))
            }
        }
    }

    /// The other-parent of the event that the node makes next: of its first event none, of each later one the last row that
    /// another member made. Without such a row no event comes next, and the answer is `None`.
    pub fn next_other(&self) -> Option<Option<Name>>
        ensures { option_map option_to_list result ≡ next_others self.now }
    {
        if self.last_name().is_none() {
            return Some(None);
        }
        let other = last_other(self.chronicle.graph(), self.chronicle.own())?;
        Some(Some(other))
    }

    /// Makes the event that comes next, without payload, and answers `None` where none does. The time is any, in no unit of
    /// ours. If it is refused, then because its name is another row's, or for want of room.
    pub fn make_next(&mut self, time: u64) -> Result<Option<MakeAnswer>, Memory>
        ensures ok { IfOk result (λ made. MakesNext V.accepts self.old time made self.new) }
        ensures err { OnErr result (self.new ≡ self.old) }
        ensures free { OnErr result (IsSome (next_others self.old)) }
    {
        match self.next_other() {
            None => Ok(None),
            Some(None) => Ok(Some(self.make_on(&[], time)?)),
            Some(Some(other)) => Ok(Some(self.make_on(&[other], time)?)),
        }
    }

    /// Makes the event that comes next, on this other-parent, or with none the first one.
    fn make_on(&mut self, others: &[Name], time: u64) -> Result<MakeAnswer, Memory>
        requires few { length others.now ≤ most_others }
        requires next { next_others self.old ≡ Some others.now }
        ensures ok { IfOk result (λ made. MakesOn V.accepts self.old others.now time made self.new) }
        ensures err { OnErr result (self.new ≡ self.old) }
    {
        self.is_node();
        self.make(others, time, b"")
    }
}
