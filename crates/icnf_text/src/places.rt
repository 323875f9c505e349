//! Where on its line a reader stands.

/// Where the next byte stands on its line.
#[derive(Clone, Copy, Debug)]
pub(crate) enum Place {
    /// It is the first byte.
    Start,
    /// Only blanks stand before it.
    Margin,
    /// In a comment.
    Comment,
    /// Behind a word and a blank.
    Gap,
    /// In a word.
    Word,
}
