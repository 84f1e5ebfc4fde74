//! A member's turns, row by row, as its node has the rows.

use hg_model::{Member, Name, Row};

/// What a node's turns have come to.
#[derive(Drop)]
pub struct Walk {
    /// How many rows they made.
    made: u64,
    /// The time of the last one, or 0.
    time: u64,
    own: Option<Name>,
    /// The last row by another member.
    other: Option<Name>,
    /// Whether there was none by another when the last one was made, so that turns may have made nothing since.
    may_rest: bool,
}

impl Walk {
    /// Before the first turn.
    pub fn new() -> Walk {
        Walk {
            made: 0,
            time: 0,
            own: None,
            other: None,
            may_rest: false,
        }
    }

    /// Whether the next turn that makes a row makes this one.
    fn makes(&self, row: &Row) -> bool {
        let next = self.time.saturating_add(1);
        match (&row.parents, &self.own) {
            (None, None) => row.time == 1,
            (Some(names), Some(own)) => {
                (row.time == next || (self.may_rest && row.time > next))
                    && names.0 == *own
                    && names.1.as_slice() == self.other.as_slice()
            }
            _ => false,
        }
    }

    /// Goes on by a row of the node of this member. Whether it is one that a turn makes or takes then.
    pub fn pass(&mut self, row: &Row, me: Member, came: bool) -> bool {
        if row.creator != me {
            self.other = Some(row.name);
            return came;
        }
        let right = self.makes(row) && row.payload.as_slice().is_empty();
        self.made = self.made.saturating_add(1);
        self.time = row.time;
        self.own = Some(row.name);
        self.may_rest = self.other.is_none();
        right
    }

    /// Whether these are all turns, so many of which made nothing: the last one made a row, or there was none to make it on.
    pub fn is_whole(&self, turns: u32, idle: u32) -> bool {
        let turns = u64::from(turns);
        (self.time == turns || (self.own.is_some() && self.other.is_none()))
            && self.made.checked_add(u64::from(idle)) == Some(turns)
    }
}
