ghost use Rattle.std.specs.Prelude.{◌≡◌};
ghost use Rattle.hg_wire.specs.Grammar.{is_rows};

use hg_life::{ByteFault, Parcel};
use hg_model::{Items, Name};

/// The kind of a message: what one who takes sends, and what a peer answers.
#[derive(Clone, Copy, Debug, PartialEq, Eq)]
pub enum Want {
    /// The names of the rows that are no row's parent.
    Have,
    /// The events that are asked for.
    Rows,
}

/// A whole message. One that was heard has at most 1,048,576 names or rows, and each of its rows is an event.
#[derive(Debug, Drop)]
pub enum Message {
    /// Names of rows.
    Have(Items<Name>),
    /// The bytes of rows, and the name of the last own row.
    Rows(Parcel),
}

impl Message {
    /// Whether it is ROWS.
    pub fn is_rows(&self) -> bool
        ensures { result ≡ is_rows self.now }
    {
        matches!(self, Message::Rows(_))
    }
}

/// The first field of a message that is wrong.
#[derive(Clone, Copy, Debug, PartialEq, Eq)]
pub enum WireFault {
    /// The byte at this place, 0 to 3, is not that of `HGW1`.
    Magic(usize),
    /// The kind is this one, and another one is wanted.
    Kind(u8),
    /// So many names or rows, above 1,048,576.
    Count(u32),
    /// The row at this place, from 0, has a fault, as `decode_first` finds it in the bytes from there on; none is `Short`.
    Row(usize, ByteFault),
    /// The flag before the name of the last own row is this, above 1.
    Flag(u8),
}

/// What came of a piece of a stream.
#[derive(Debug, Drop)]
pub enum Fed {
    /// The bytes so far hold no fault and no whole message.
    More,
    /// The message, and how many bytes of the piece are its last ones.
    Whole(Message, usize),
    /// The first fault, whose field is whole. Of a magic it is the first wrong byte.
    Refused(WireFault),
}
