ghost use Rattle.std.specs.Prelude.{◌≡◌};
ghost use Rattle.hg_script.specs.Text.{why_text};

use hg_model::Stop;

/// Why a line is refused: the first that holds. `Utf8`, `Word` and `Arity` come first, then the arguments from left to
/// right, each by what its kind asks for in this order, and last `NotFirst`, `First` and `Workers`.
#[derive(Clone, Copy, Debug, PartialEq, Eq)]
pub enum Why {
    /// The line is not UTF-8.
    Utf8,
    /// The first word begins no line of the table.
    Word,
    /// Too few or too many words.
    Arity,
    /// The word is no member's name; or it is the taker's, where a peer must stand.
    Member,
    /// The line needs a node, and the member has none.
    NoNode,
    /// The word is not 1 to 20 decimal digits with a value in its range, at most 2^64 - 1.
    Number,
    /// The bytes of `raw` are not 2 to 8,192 hexadecimal digits, an even number; or a payload is neither `hex:` before
    /// at most 2,048 of them nor `pay:` before 1 to 64 transfers, each with one `=`.
    Payload,
    /// No line above made the label, or a label to be made is not 1 to 16 ASCII letters, digits and `_`, the first a
    /// letter; or one of the two labels of parents alone is `-`.
    Label,
    /// A line above made the label.
    DoubleLabel,
    /// A `create` line, and one of the same member stands above.
    NotFirst,
    /// A `sync` or `join` line, and no `create` line of the member that makes an event stands above.
    First,
    /// A `freeze`, `publish` or `kept` line, and there are workers.
    Workers,
}

impl Why {
    /// The word by which it is told.
    pub fn text(self) -> &'static [u8]
        ensures { result.now ≡ why_text self }
    {
        match self {
            Why::Utf8 => b"utf8",
            Why::Word => b"word",
            Why::Arity => b"arity",
            Why::Member => b"member",
            Why::NoNode => b"no-node",
            Why::Number => b"number",
            Why::Payload => b"payload",
            Why::Label => b"label",
            Why::DoubleLabel => b"double-label",
            Why::NotFirst => b"not-first",
            Why::First => b"first",
            Why::Workers => b"workers",
        }
    }
}

/// The first line that is refused, numbered from 1, and why.
#[derive(Clone, Copy, Debug, PartialEq, Eq)]
pub struct ScriptFault {
    pub line: u64,
    pub why: Why,
}

impl From<Why> for Stop<Why> {
    ghost use Rattle.hg_model.specs.declared.stop.Stop.TheVariants.{Fault};

    ghost from_gives = { λ why stop. stop ≡ Fault why };

    fn from(why: Why) -> Stop<Why> {
        Stop::Fault(why)
    }
}
