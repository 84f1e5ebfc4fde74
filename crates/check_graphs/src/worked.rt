//! A graph of two members whose rounds and order were worked by hand.

use crate::drafting::{Draft, parents_of, signed_event};
use crate::plain::whole_of;
use crate::plan::entry_of;
use crate::watched::Watched;
use hg_life::Members;
use hg_model::{Memory, Name, Placed};
use hg_sign::MacTable;
use std::alloc::Global;

/// How many events each of the two makes behind its first one.
const TURNS: u64 = 3;

/// A row that the second round receives.
fn placed(place: usize, time: u64) -> Placed {
    Placed {
        place,
        received: 2,
        time,
    }
}

/// A's node, and B's events, which come to it.
#[derive(Drop)]
struct Pair<'a> {
    alloc: Global,
    keys: &'a MacTable,
    watched: Watched<'a>,
}

impl<'a> Pair<'a> {
    /// B makes an event on these.
    fn add(&mut self, on: Option<(Name, Name)>, time: u64) -> Result<Name, Memory> {
        let draft = Draft {
            creator: 1,
            parents: parents_of(self.alloc, on)?,
            time,
        };
        let (bytes, name) = signed_event(self.alloc, self.keys, &draft)?;
        self.watched.put(bytes.as_slice())?;
        Ok(name)
    }

    /// A makes an event on B's last, and then B on that one. Answers B's.
    fn turn(&mut self, last: Name, time: u64) -> Result<Name, Memory> {
        self.watched.make(&[last], time)?;
        match self.watched.node().last_name() {
            None => Ok(last),
            Some(other) => self.add(Some((last, other)), time.saturating_add(1)),
        }
    }

    /// Each makes a first event, and then one on the other's last, in turn, at the times 1, 2, 3 and so on.
    fn play(&mut self) -> Result<(), Memory> {
        self.watched.make(&[], 1)?;
        let mut last = self.add(None, 2)?;
        for number in 0..TURNS {
            last = self.turn(last, 2 * number + 3)?;
        }
        Ok(())
    }

    /// Whether the plain program tells of it what was worked.
    fn is_as_worked(&self) -> Result<bool, Memory> {
        let whole = whole_of(self.alloc, self.watched.node())?;
        let order = [placed(0, 1), placed(1, 2), placed(2, 3), placed(3, 4)];
        Ok(
            whole.order.as_slice() == order.as_slice()
                && whole.state.greatest == 4
                && whole.state.closed == 2
                && whole.state.forkers == 0,
        )
    }

    fn run(&mut self) -> Result<bool, Memory> {
        self.play()?;
        self.is_as_worked()
    }
}

fn play_pair(alloc: Global, members: &Members, keys: &MacTable) -> Result<bool, Memory> {
    let watched = Watched::new(alloc, members, keys)?;
    let mut pair = Pair {
        alloc,
        keys,
        watched,
    };
    pair.run()
}

/// Plays it, and tells whether the plain program finds in it what was worked.
pub fn play_worked(alloc: Global) -> Result<bool, Memory> {
    let mut entries = Vec::new(alloc);
    entries.push(entry_of(alloc, 0, false)?)?;
    entries.push(entry_of(alloc, 1, false)?)?;
    let Ok(members) = Members::try_new(entries, 10) else {
        return Ok(false);
    };
    let keys = MacTable::new(alloc, &members)?;
    play_pair(alloc, &members, &keys)
}
