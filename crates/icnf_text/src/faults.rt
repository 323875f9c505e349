//! What is wrong with a text.

ghost use Rattle.std.specs.Prelude.{◌≡◌};
ghost use Rattle.icnf_text.specs.Reasons.{reason_text};

/// Why a text is wrong at a place.
#[derive(Clone, Copy, Debug, PartialEq, Eq)]
pub enum Reason {
    /// There is no header where it must stand: the first line with a token has `p` first and
    /// `inccnf` second.
    Header,
    /// A token is neither a number nor an `a` that begins a statement.
    Token,
    /// A variable is above 8,388,607.
    Variable,
    /// The text ends inside a statement.
    Unfinished,
    /// There are more than 16,777,216 clauses, 1,048,576 cubes or 33,554,432 literals, repeats
    /// counted.
    TooMany,
    /// There are more than 4,294,967,296 bytes.
    TooLong,
}

impl Reason {
    /// Its word: `header`, `token`, `variable`, `unfinished`, `too-many` or `too-long`.
    pub fn text(self) -> &'static [u8]
        ensures { result.now ≡ reason_text self }
    {
        match self {
            Reason::Header => b"header",
            Reason::Token => b"token",
            Reason::Variable => b"variable",
            Reason::Unfinished => b"unfinished",
            Reason::TooMany => b"too-many",
            Reason::TooLong => b"too-long",
        }
    }
}

/// The first wrong place of a text: its line, counted from 1, and why.
#[derive(Clone, Copy, Debug, PartialEq, Eq)]
pub struct Fault {
    pub line: u64,
    pub reason: Reason,
}
