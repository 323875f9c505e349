//! The blocks of a text.

ghost use Rattle.std.specs.Prelude.{ℕ, List, ◌≡◌, ◌≤◌, ◌⊎◌, length, All, MatchResult, Ok, Err};
ghost use Rattle.std.specs.List.{flat_map};
ghost use Rattle.verdict_text.specs.Text.{blocks_of_text};
ghost use Rattle.verdict_text.specs.Written.{AreWritten};
ghost use Rattle.verdict_text.specs.declared.blocks.Printed.{Printed};

use crate::steps::{Due, finish, take_line};
use crate::{BlockFault, Printed};
use line_tokens::cut_at;
use std::alloc::Global;

// The blocks of a text, or the fault of its first wrong line.
fn read_lines(
    alloc: Global,
    tags: &[u32],
    sizes: &[u32],
    bytes: &[u8],
) -> Result<Vec<Printed>, BlockFault>
    requires sizes { All (λ size. size ≤ length tags.now) sizes.now }
    requires jobs { length sizes.now ≤ 4294967295 }
    ensures { MatchResult result
        (λ blocks. blocks_of_text tags.now sizes.now bytes.now ≡ Ok blocks.items)
        (λ fault. (fault ≡ BlockFault.Memory)
        ⊎ (blocks_of_text tags.now sizes.now bytes.now ≡ Err fault)) }
{
    let mut done = Vec::new(alloc);
    let mut due = Due::Block;
    let mut number = 1;
    let mut rest = bytes;
    while let Some((line, more)) = cut_at(rest, b'\n') {
        let Some(next) = take_line(alloc, tags, sizes, &mut done, due, line)? else {
            return Err(BlockFault::Form(number));
        };
        due = next;
        number += 1;
        rest = more;
    }
    if !rest.is_empty() {
        return Err(BlockFault::Form(number));
    }
    if !finish(&mut done, due)? {
        return Err(BlockFault::Form(number));
    }
    Ok(done)
}

/// The blocks of a text, for the jobs 1, 2 and so on, in the form that `block` writes. `sizes` has
/// the number of inputs of each job, none above the number of `tags`, and these are the tags of the
/// inputs. A refuted part may have its trace lines or none.
///
/// `Form` names the first wrong line: one that isn't written as a line of a block that can stand
/// there, that begins the block of another job than the next one or of one without a size, that is
/// a trace line whose identifier isn't the next number or that has a hint not smaller than it, or
/// that lacks its line feed; and the line after the last where the text ends inside a block.
///
/// Blocks that `block` wrote for as many inputs as `sizes` says are read back as the same blocks,
/// where the tags of their steps are exact over so many of the first tags.
pub fn read(
    alloc: Global,
    tags: &[u32],
    sizes: &[u32],
    bytes: &[u8],
) -> Result<Vec<Printed>, BlockFault>
    requires sizes { All (λ size. size ≤ length tags.now) sizes.now }
    requires jobs { length sizes.now ≤ 4294967295 }
    ensures exact { MatchResult result
        (λ blocks. blocks_of_text tags.now sizes.now bytes.now ≡ Ok blocks.items)
        (λ fault. (fault ≡ BlockFault.Memory)
        ⊎ (blocks_of_text tags.now sizes.now bytes.now ≡ Err fault)) }
    ensures read_back { (blocks : List Printed) (texts : List (List ℕ))
        → AreWritten tags.now sizes.now 0 blocks texts → bytes.now ≡ flat_map (λ text. text) texts
        → MatchResult result (λ read. read.items ≡ blocks) (λ fault. fault ≡ BlockFault.Memory) }
{
    read_lines(alloc, tags, sizes, bytes)
}
