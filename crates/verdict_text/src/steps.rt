//! What one line leaves to a reader of blocks.

ghost use Rattle.std.specs.Prelude.{◌≡◌, ◌<◌, ◌≤◌, ◌+◌, [], ◌∷◌, ◌++◌, nat_lt, ◌&&◌, if◌then◌else◌};
ghost use Rattle.std.specs.Prelude.{Some, None, length, All, IfOk, IfSome, OnOk};
ghost use Rattle.std.specs.Option.{option_map};
ghost use Rattle.trace_text.specs.Text.{next_step};
ghost use Rattle.verdict_text.specs.Line.{job_line_of, model_line_of};
ghost use Rattle.verdict_text.specs.declared.blocks.Shown.TheVariants as shown;
ghost use Rattle.verdict_text.specs.declared.steps.Due.TheVariants as due;
ghost use Rattle.verdict_text.specs.Text.{HasJob, Reading, after_job_line, after_line, begun};
ghost use Rattle.verdict_text.specs.Text.{finished, is_number, with_block, with_model, with_step};

use crate::{
    JobLine, Printed, Shown, Status, is_trace_line, read_job_line, read_model_line, read_part_line,
};
use sat_base::Cube;
use std::alloc::{AllocError, Global};
use trace_core::Steps;
use trace_text::{TraceFault, read_step};

/// What may come next in a text of blocks.
#[derive(Debug, Drop)]
pub(crate) enum Due {
    /// The first line of a block, or the end.
    Block,
    /// The model of the job whose block has begun.
    Model,
    /// The refuted part of the job whose block has begun.
    Part,
    /// A trace line behind this part and these steps, the first line of a block, or the end.
    Step(Cube, Steps),
}

// Adds the block of the next job.
fn push(done: &mut Vec<Printed>, shown: Shown) -> Result<(), AllocError>
    requires { length done.old.items < 4294967295 }
    ensures { OnOk result (done.new.items ≡ with_block done.old.items shown) }
{
    let job = done.len() as u32 + 1;
    done.push(Printed { job, shown })?;
    Ok(())
}

// Whether a first line is that of the next job, and there is such a job.
fn is_next(jobs: usize, done: usize, line: &JobLine) -> bool
    requires { done < 4294967296 }
    ensures { result ≡ (is_number line.now.number (done + 1) && nat_lt done jobs) }
{
    match line.number {
        None => false,
        Some(number) => number == done as u64 + 1 && done < jobs,
    }
}

// Takes the status of the next job.
fn begin(done: &mut Vec<Printed>, status: Status) -> Result<Due, AllocError>
    requires { length done.old.items < 4294967295 }
    ensures { IfOk result
        (λ due. begun done.old.items status ≡ record { done = done.new.items; due = due }) }
{
    match status {
        Status::Satisfiable => Ok(Due::Model),
        Status::Unsatisfiable => Ok(Due::Part),
        Status::Unknown => {
            push(done, Shown::Unknown)?;
            Ok(Due::Block)
        }
        Status::Cancelled => {
            push(done, Shown::Cancelled)?;
            Ok(Due::Block)
        }
        Status::NoMemory => {
            push(done, Shown::NoMemory)?;
            Ok(Due::Block)
        }
    }
}

// Takes the first line of the next job's block.
fn take_job_line(
    jobs: usize,
    done: &mut Vec<Printed>,
    line: &[u8],
) -> Result<Option<Due>, AllocError>
    requires jobs { jobs ≤ 4294967295 }
    requires done { length done.old.items ≤ jobs }
    ensures taken { IfOk result
        (λ found. after_job_line jobs done.old.items (job_line_of line.now)
        ≡ option_map (λ due. record { done = done.new.items; due = due }) found) }
    ensures job { IfOk result
        (λ found. IfSome found (λ due. HasJob jobs (length done.new.items) due)) }
{
    let Some(found) = read_job_line(line) else {
        return Ok(None);
    };
    if !is_next(jobs, done.len(), &found) {
        return Ok(None);
    }
    let due = begin(done, found.status)?;
    Ok(Some(due))
}

// Takes a trace line behind these steps, `None` where it is wrong.
fn take_step(
    alloc: Global,
    tags: &[u32],
    steps: Steps,
    line: &[u8],
) -> Result<Option<Steps>, AllocError>
    requires { length tags.now ≤ 4294967295 }
    ensures { IfOk result (λ found. found ≡ with_step steps (next_step tags.now steps line.now)) }
{
    let step = match read_step(alloc, tags, steps.items(), line) {
        Ok(step) => step,
        Err(TraceFault::Memory) => return Err(AllocError),
        Err(_) => return Ok(None),
    };
    let mut items = steps.into_items();
    items.push(step)?;
    Ok(Some(Steps::of(items)))
}

// Takes a line behind this part and these steps, which belongs to their trace or begins the next
// block.
fn take_traced(
    alloc: Global,
    tags: &[u32],
    sizes: &[u32],
    done: &mut Vec<Printed>,
    part: Cube,
    steps: Steps,
    line: &[u8],
) -> Result<Option<Due>, AllocError>
    requires jobs { length sizes.now ≤ 4294967295 }
    requires sizes { All (λ size. size ≤ length tags.now) sizes.now }
    requires job { length done.old.items < length sizes.now }
    ensures taken { IfOk result
        (λ found. after_line tags.now sizes.now done.old.items (due.Step part steps) line.now
        ≡ option_map (λ due. record { done = done.new.items; due = due }) found) }
    ensures job { IfOk result
        (λ found. IfSome found (λ due. HasJob (length sizes.now) (length done.new.items) due)) }
{
    if is_trace_line(line) {
        let size = sizes[done.len()] as usize;
        let Some(steps) = take_step(alloc, &tags[..size], steps, line)? else {
            return Ok(None);
        };
        return Ok(Some(Due::Step(part, steps)));
    }
    push(done, Shown::Refuted(part, steps))?;
    take_job_line(sizes.len(), done, line)
}

// Takes the model of the next job.
fn take_model(
    alloc: Global,
    done: &mut Vec<Printed>,
    line: &[u8],
) -> Result<Option<Due>, AllocError>
    requires { length done.old.items < 4294967295 }
    ensures taken { IfOk result
        (λ found. with_model done.old.items (model_line_of line.now)
        ≡ option_map (λ due. record { done = done.new.items; due = due }) found) }
    ensures job { IfOk result
        (λ found. IfSome found
        (λ next. (next ≡ due.Block) × (length done.new.items ≡ length done.old.items + 1))) }
{
    let Some(model) = read_model_line(alloc, line)? else {
        return Ok(None);
    };
    push(done, Shown::Model(model))?;
    Ok(Some(Due::Block))
}

/// Takes a line without its line feed, `None` where it can't stand there.
pub(crate) fn take_line(
    alloc: Global,
    tags: &[u32],
    sizes: &[u32],
    done: &mut Vec<Printed>,
    due: Due,
    line: &[u8],
) -> Result<Option<Due>, AllocError>
    requires jobs { length sizes.now ≤ 4294967295 }
    requires sizes { All (λ size. size ≤ length tags.now) sizes.now }
    requires job { HasJob (length sizes.now) (length done.old.items) due }
    ensures taken { IfOk result
        (λ found. after_line tags.now sizes.now done.old.items due line.now
        ≡ option_map (λ due. record { done = done.new.items; due = due }) found) }
    ensures job { IfOk result
        (λ found. IfSome found (λ due. HasJob (length sizes.now) (length done.new.items) due)) }
{
    match due {
        Due::Block => take_job_line(sizes.len(), done, line),
        Due::Model => take_model(alloc, done, line),
        Due::Part => {
            let Some(part) = read_part_line(alloc, line)? else {
                return Ok(None);
            };
            Ok(Some(Due::Step(part, Steps::of(Vec::new(alloc)))))
        }
        Due::Step(part, steps) => take_traced(alloc, tags, sizes, done, part, steps, line),
    }
}

/// Takes the end of the text: whether it may end here.
pub(crate) fn finish(done: &mut Vec<Printed>, due: Due) -> Result<bool, AllocError>
    requires { HasJob 4294967295 (length done.old.items) due }
    ensures { IfOk result
        (λ whole. finished done.old.items due ≡ (if whole then Some done.new.items else None)) }
{
    match due {
        Due::Block => Ok(true),
        Due::Model => Ok(false),
        Due::Part => Ok(false),
        Due::Step(part, steps) => {
            push(done, Shown::Refuted(part, steps))?;
            Ok(true)
        }
    }
}
