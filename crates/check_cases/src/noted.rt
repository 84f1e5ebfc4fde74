//! A gate that notes each point that is passed, and a script of which it is known how often each has to be.

use hg_io::Gate;
use std::alloc::{AllocError, Global};
use std::sync::atomic::{AtomicBool, AtomicU32, Ordering};

/// Lines that make labels and lines of gossip: four work on A's node, three on B's, and `raw` on none.
const FIRST_LINES: &str =
    "create A 1\ncreate B 2\nname a A\nraw r 00\ngive B a\ngive A r\npull A B\njoin B a 3\n";

/// One line on each node.
const SYNCS: &str = "sync A B 4\nsync B A 5\n";

/// How often these two follow.
const TIMES: usize = 14;

/// A shown node, and three lines more: two work on B's node, and `cut` on none. Then another, and one line on A's node.
const LAST_LINES: &str = "show A\ncut c a 9\ngive B c\npull B A\nshow B\npull A B\n";

/// How many lines work on A's node: 4 of the first, 14 syncs, and the last line. A shown node stands in no batch, and
/// passes no point.
const LINES_ON_A: u32 = 4 + 14 + 1;

/// How many lines work on B's node: 3 of the first, 14 syncs, and 2 of the last.
const LINES_ON_B: u32 = 3 + 14 + 2;

/// How many turns each worker has. A batch has at most 32 lines and ends at a shown node, so the 36 lines above the first
/// are two batches, the three below it a third, and the last line is one by itself. In each a worker works one turn on
/// each of the two nodes beside the lines, and one more once they have ended.
const TURNS: u32 = 4 * 2 * 2;

/// These lines, one after the other.
pub fn noted_script(alloc: Global) -> Result<String, AllocError> {
    let syncs = SYNCS.repeat(alloc, TIMES)?;
    format!(in alloc; "{FIRST_LINES}{syncs}{LAST_LINES}")
}

/// Two points, one before some work and one after it, which are passed by turns.
#[derive(Drop)]
struct Passes {
    is_begun: AtomicBool,
    ended: AtomicU32,
}

impl Passes {
    fn new() -> Passes {
        Passes {
            is_begun: AtomicBool::new(false),
            ended: AtomicU32::new(0),
        }
    }

    /// Passes the point before. Whether it was its turn.
    fn begin(&self) -> bool {
        !self.is_begun.swap(true, Ordering::SeqCst)
    }

    /// Passes the point after. Whether it was its turn.
    fn end(&self) -> bool {
        self.ended.fetch_add(1, Ordering::SeqCst);
        self.is_begun.swap(false, Ordering::SeqCst)
    }

    /// Whether the work has ended so often, and none is begun.
    fn are(&self, count: u32) -> bool {
        self.ended.load(Ordering::SeqCst) == count && !self.is_begun.load(Ordering::SeqCst)
    }
}

/// Notes the points of two workers, and of the lines that work on two nodes. A worker works on one node after the
/// other, and one line follows the other; so the two points of each are passed by turns, whatever the others do.
#[derive(Drop)]
pub struct Noted {
    first: Passes,
    second: Passes,
    lines_on_a: Passes,
    lines_on_b: Passes,
    /// A point was passed out of turn, or one that none of them has.
    is_astray: AtomicBool,
}

impl Noted {
    pub fn new() -> Noted {
        Noted {
            first: Passes::new(),
            second: Passes::new(),
            lines_on_a: Passes::new(),
            lines_on_b: Passes::new(),
            is_astray: AtomicBool::new(false),
        }
    }

    /// Whether each point was passed as often as it has to be in that script beside one worker or two, in turn, and no
    /// other one.
    pub fn is_complete(&self, has_second: bool) -> bool {
        self.first.are(TURNS)
            && self.second.are(if has_second { TURNS } else { 0 })
            && self.lines_on_a.are(LINES_ON_A)
            && self.lines_on_b.are(LINES_ON_B)
            && !self.is_astray.load(Ordering::SeqCst)
    }
}

impl Gate for Noted {
    fn reach(&self, point: u32) {
        let in_turn = match point {
            0 => self.first.begin(),
            1 => self.first.end(),
            2 => self.second.begin(),
            3 => self.second.end(),
            1000 => self.lines_on_a.begin(),
            2000 => self.lines_on_a.end(),
            1001 => self.lines_on_b.begin(),
            2001 => self.lines_on_b.end(),
            _ => false,
        };
        if !in_turn {
            self.is_astray.store(true, Ordering::SeqCst);
        }
    }
}
