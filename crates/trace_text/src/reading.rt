//! The steps of a text.

ghost use Rattle.std.specs.Prelude.{List, ◌≡◌, ◌<◌, ◌≤◌, ◌^◌, ◌+◌, ◌-◌, ◌⊎◌, [], ◌∷◌, ◌++◌, length};
ghost use Rattle.std.specs.Prelude.{map, nat_lt, slice_index, IfOk, OnOk, MatchResult, Ok, Err};
ghost use Rattle.std.specs.List.{list_all};
ghost use Rattle.trace_core.specs.declared.derivation.Step.{Step};
ghost use Rattle.line_tokens.specs.Token.{lines_of};
ghost use Rattle.trace_text.specs.Line.{Line};
ghost use Rattle.trace_text.specs.Text.{ArePrinted, HaveExactTags, hint_of_number, is_in_order};
ghost use Rattle.trace_text.specs.Text.{next_step, steps_of_lines, tag_of_hints, tags_with};

use crate::TraceFault;
use crate::lines::{TraceLine, read_line};
use line_tokens::cut_at;
use sat_base::{Clause, Ref};
use std::alloc::{AllocError, Global};
use trace_core::{Hints, Step};

// Whether each hint is smaller than the identifier.
fn are_below(id: u64, hints: &[u64]) -> bool
    ensures { result ≡ list_all (λ hint. nat_lt hint id) hints.now }
{
    hints.iter().all(|hint| *hint < id)
}

// Whether the identifier is the next number and each hint is smaller.
fn stands_in_order(next: u64, line: &TraceLine) -> bool
    ensures { result
        ≡ is_in_order next
        (record { id = line.now.id; lits = line.now.lits.items; hints = line.now.hints.items }) }
{
    if line.id != next {
        return false;
    }
    are_below(line.id, &line.hints)
}

// What the numbers name, so many of which are inputs.
fn hints_of(alloc: Global, inputs: u32, numbers: &[u64]) -> Result<Vec<Ref>, AllocError>
    ensures { IfOk result (λ hints. hints.items ≡ map (hint_of_number inputs) numbers.now) }
{
    let mut hints = Vec::with_capacity(alloc, numbers.len())?;
    for number in numbers {
        hints.push(hint_of(inputs, *number))?;
    }
    Ok(hints)
}

fn hint_of(inputs: u32, number: u64) -> Ref
    ensures { result ≡ hint_of_number inputs number }
{
    if number <= inputs as u64 {
        Ref::Input(number as u32)
    } else {
        Ref::Own(number - inputs as u64)
    }
}

// The tag of the input or the step of that number, 0 where there is none.
fn tag_at(tags: &[u32], steps: &[Step], number: u64) -> u32
    ensures { result ≡ slice_index (tags_with tags.now steps.now) (number - 1) }
{
    let index = number.saturating_sub(1) as usize;
    if index < tags.len() {
        return tags[index];
    }
    let own = index - tags.len();
    if own < steps.len() { steps[own].tag } else { 0 }
}

// The greatest of the tags of these numbers.
fn greatest_tag(tags: &[u32], steps: &[Step], numbers: &[u64]) -> u32
    ensures { result ≡ tag_of_hints (tags_with tags.now steps.now) numbers.now }
{
    let mut most = 0;
    for number in numbers {
        most = most.max(tag_at(tags, steps, *number));
    }
    most
}

/// The step that a line without its line feed says behind these steps, with its exact tag, where
/// `tags` are those of the inputs. The line is `t ID LITS 0 HINTS 0` as `read` describes it. A
/// fault names the line by its number among the lines of the steps.
pub fn read_step(
    alloc: Global,
    tags: &[u32],
    steps: &[Step],
    line: &[u8],
) -> Result<Step, TraceFault>
    requires { length tags.now ≤ 4294967295 }
    ensures { MatchResult result (λ step. next_step tags.now steps.now line.now ≡ Ok step)
        (λ fault. (fault ≡ TraceFault.Memory)
        ⊎ (next_step tags.now steps.now line.now ≡ Err fault)) }
{
    let inputs = tags.len() as u32;
    let number = steps.len() as u64 + 1;
    let Some(found) = read_line(alloc, line)? else {
        return Err(TraceFault::Form(number));
    };
    if !stands_in_order(inputs as u64 + number, &found) {
        return Err(TraceFault::Order(number));
    }
    let hints = hints_of(alloc, inputs, &found.hints)?;
    let tag = greatest_tag(tags, steps, &found.hints);
    Ok(Step {
        clause: Clause::of_ascending(found.lits),
        hints: Hints::of(hints),
        tag,
    })
}

fn add(steps: &mut Vec<Step>, step: Step) -> Result<(), AllocError>
    ensures { OnOk result (steps.new.items ≡ steps.old.items ++ step ∷ []) }
{
    steps.push(step)?;
    Ok(())
}

// The steps of a text, or the fault of its first wrong line.
fn read_lines(alloc: Global, tags: &[u32], bytes: &[u8]) -> Result<Vec<Step>, TraceFault>
    requires { length tags.now ≤ 4294967295 }
    ensures { MatchResult result
        (λ steps. steps_of_lines tags.now [] (lines_of bytes.now) ≡ Ok steps.items)
        (λ fault. (fault ≡ TraceFault.Memory)
        ⊎ (steps_of_lines tags.now [] (lines_of bytes.now) ≡ Err fault)) }
{
    let mut steps = Vec::new(alloc);
    let mut rest = bytes;
    while let Some((line, more)) = cut_at(rest, b'\n') {
        let step = read_step(alloc, tags, &steps, line)?;
        add(&mut steps, step)?;
        rest = more;
    }
    if !rest.is_empty() {
        return Err(TraceFault::Form(steps.len() as u64 + 1));
    }
    Ok(steps)
}

/// The steps of a text of trace lines, with exact tags, where `tags` are those of the inputs. Line
/// i, counted from 1, is `t ID LITS 0 HINTS 0` with one space between two tokens and a line feed at
/// its end: ID is the number of inputs plus i, LITS are literals in strictly ascending order, and
/// HINTS are numbers of inputs and of steps of earlier lines, all from 1 to 18446744073709551615
/// without leading zeros.
///
/// The fault is that of the first wrong line: `Form` where it isn't written so, `Order` where it
/// is, but its ID isn't that number or a hint isn't smaller than its ID.
///
/// What `print` wrote for as many inputs as there are tags is read back as the same steps, where
/// their tags are exact.
pub fn read(alloc: Global, tags: &[u32], bytes: &[u8]) -> Result<Vec<Step>, TraceFault>
    requires { length tags.now ≤ 4294967295 }
    ensures exact { MatchResult result
        (λ steps. steps_of_lines tags.now [] (lines_of bytes.now) ≡ Ok steps.items)
        (λ fault. (fault ≡ TraceFault.Memory)
        ⊎ (steps_of_lines tags.now [] (lines_of bytes.now) ≡ Err fault)) }
    ensures read_back { (steps : List Step) → ArePrinted (length tags.now) steps bytes.now
        → HaveExactTags tags.now [] steps
        → MatchResult result (λ read. read.items ≡ steps) (λ fault. fault ≡ TraceFault.Memory) }
{
    read_lines(alloc, tags, bytes)
}
