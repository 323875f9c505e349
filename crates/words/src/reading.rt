//! The reading of the words.
ghost use Rattle.std.specs.Prelude.{◌≡◌, None, Some, map, string_bytes, IfOk, IfErr};
ghost use Rattle.words.specs.Accepted.{IsWithinLimits, accepted, asked};

use crate::command::{Command, WordsFault};
use crate::given::Given;
use crate::parser::parser;
use std::alloc::Global;

/// What the words ask for, without the program's name:
/// `[--workers N] [--conflicts B] [--attempts A] [--first] [--trace] [FILE]`, or
/// `[--workers N] --sum N`, in any order.
///
/// A value is the next word or stands behind `=` in the same word. Each option and flag stands at
/// most once. Behind a word `--` the next word is a file.
///
/// # Errors
///
/// `Refused` exactly where the parser finds a fault in the words, a word for help or the version
/// among them, or where `--sum` stands with FILE, `--first`, `--trace`, `--conflicts` or
/// `--attempts`. `Memory` where memory ran out.
pub fn read_words(alloc: Global, words: &[String]) -> Result<Command, WordsFault>
    ensures command { IfOk result (λ command.
        accepted (map string_bytes words.now) ≡ Some (asked command)) }
    ensures limits { IfOk result IsWithinLimits }
    ensures refused { IfErr result (λ fault. fault ≡ WordsFault.Refused →
        accepted (map string_bytes words.now) ≡ None) }
{
    let matches = parser(alloc)?.try_get_matches_from(words)?;
    Given::new(&matches).command(alloc)
}
