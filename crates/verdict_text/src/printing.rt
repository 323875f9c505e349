//! Verdicts as blocks.

ghost use Rattle.std.specs.Prelude.{◌≡◌, ◌≤◌, ◌++◌, length, IfOk, OnOk};
ghost use Rattle.std.specs.List.{flat_map};
ghost use Rattle.sat_base.specs.Lit.{IsLitSet};
ghost use Rattle.line_tokens.specs.Token.{lit_text};
ghost use Rattle.trace_text.specs.Text.{CiteEarlier};
ghost use Rattle.verdict_text.specs.Block.{IsBlock, IsPrintable, IsWellFormed, lit_with};
ghost use Rattle.verdict_text.specs.Block.{model_lits, shown_of, shown_of_answer, shown_text};
ghost use Rattle.verdict_text.specs.declared.blocks.Shown.TheVariants as shown;

use entry_core::{Answer, Verdict};
use itoa::write_digits;
use line_tokens::{print_lits, print_number};
use sat_base::Cube;
use std::alloc::{AllocError, Global};
use trace_core::Step;
use trace_text::print_onto;

// The bytes of the longest literal: a sign, the digits of the greatest variable and a space.
const LONGEST: usize = 9;

// The most bytes of a block besides literals and steps.
const BESIDES: usize = 31;

// Adds the literal of a variable that this value makes true, with a space behind it.
fn print_value(out: &mut Vec<u8>, variable: u64, value: bool) -> Result<(), AllocError>
    requires { variable ≤ 8388607 }
    ensures { OnOk result (out.new.items ≡ out.old.items ++ lit_text (lit_with variable value)) }
{
    let mut text = [b' '; LONGEST];
    let digits = write_digits(variable, &mut text, LONGEST - 1);
    let sign = digits - 1;
    text[sign] = b'-';
    let start = if value { digits } else { sign };
    out.extend_from_slice(&text[start..])
}

// Adds the literals that the values make true, each with a space behind it.
fn print_values(out: &mut Vec<u8>, values: &[bool]) -> Result<(), AllocError>
    requires { length values.now ≤ 8388607 }
    ensures { OnOk result
        (out.new.items ≡ out.old.items ++ flat_map lit_text (model_lits 1 values.now)) }
{
    for (index, value) in values.iter().enumerate() {
        print_value(out, index as u64 + 1, *value)?;
    }
    Ok(())
}

// Adds what stands behind the number of a job that has this model.
fn print_model(out: &mut Vec<u8>, values: &[bool]) -> Result<(), AllocError>
    requires { length values.now ≤ 8388607 }
    ensures { OnOk result (out.new.items ≡ out.old.items ++ shown_text 0 (shown.Model values.now)) }
{
    out.extend_from_slice(b" SATISFIABLE\nv ")?;
    print_values(out, values)?;
    out.extend_from_slice(b"0\n")?;
    Ok(())
}

// Adds what stands behind the number of a job of which this part is refuted by these steps.
fn print_part(out: &mut Vec<u8>, inputs: u64, part: &Cube, steps: &[Step]) -> Result<(), AllocError>
    requires inputs { inputs ≤ 16777216 }
    requires earlier { CiteEarlier inputs 0 steps.now }
    ensures written { OnOk result
        (out.new.items ≡ out.old.items ++ shown_text inputs (shown.Refuted part.now steps.now)) }
    ensures formed { OnOk result (IsWellFormed inputs (shown.Refuted part.now steps.now)) }
{
    out.extend_from_slice(b" UNSATISFIABLE\nf ")?;
    print_lits(out, part.lits())?;
    out.extend_from_slice(b"0\n")?;
    print_onto(out, inputs, steps)
}

// Adds what stands behind the number of a job that has this answer.
fn print_answer(
    out: &mut Vec<u8>,
    inputs: u64,
    answer: &Answer,
    trace: bool,
) -> Result<(), AllocError>
    requires inputs { inputs ≤ 16777216 }
    requires printable { IsPrintable inputs (shown_of_answer trace answer.now) }
    ensures written { OnOk result
        (out.new.items ≡ out.old.items ++ shown_text inputs (shown_of_answer trace answer.now)) }
    ensures formed { OnOk result (IsWellFormed inputs (shown_of_answer trace answer.now)) }
{
    match answer {
        Answer::Model(model) => print_model(out, model.values()),
        Answer::Refuted(part, steps) => {
            if trace {
                print_part(out, inputs, part, steps.items())
            } else {
                print_part(out, inputs, part, &[])
            }
        }
    }
}

// Adds what stands behind the number of a job that has this verdict.
fn print_verdict(
    out: &mut Vec<u8>,
    inputs: u64,
    verdict: &Verdict,
    trace: bool,
) -> Result<(), AllocError>
    requires inputs { inputs ≤ 16777216 }
    requires printable { IsPrintable inputs (shown_of trace verdict.now) }
    ensures written { OnOk result
        (out.new.items ≡ out.old.items ++ shown_text inputs (shown_of trace verdict.now)) }
    ensures formed { OnOk result (IsWellFormed inputs (shown_of trace verdict.now)) }
{
    match verdict {
        Verdict::Answered(answer) => print_answer(out, inputs, answer, trace),
        Verdict::Cancelled(_) => out.extend_from_slice(b" CANCELLED\n"),
        Verdict::Spent => out.extend_from_slice(b" UNKNOWN\n"),
        Verdict::Starved => out.extend_from_slice(b" NOMEMORY\n"),
    }
}

// How many literals the block of this answer has besides its steps.
fn lits_of(answer: &Answer) -> usize {
    match answer {
        Answer::Model(model) => model.values().len(),
        Answer::Refuted(part, _) => part.lits().len(),
    }
}

// Room for the block of this verdict but its steps. It only saves growing: no contract needs it.
fn room(verdict: &Verdict) -> usize {
    let lits = match verdict {
        Verdict::Answered(answer) => lits_of(answer),
        _ => 0,
    };
    lits.saturating_mul(LONGEST).saturating_add(BESIDES)
}

/// The block of a job, where `inputs` is the number of its input clauses: `j N` and the word of its
/// verdict; under `SATISFIABLE` a line `v` with the literal of each variable that the model makes
/// true and `0`; under `UNSATISFIABLE` a line `f` with the literals of the part and `0`, and with
/// `trace` the trace lines of its steps. A model has at most 8,388,607 values, and with `trace`
/// each hint of a step is an input or an earlier step.
pub fn block(
    alloc: Global,
    job: u32,
    verdict: &Verdict,
    inputs: u64,
    trace: bool,
) -> Result<Vec<u8>, AllocError>
    requires inputs { inputs ≤ 16777216 }
    requires printable { IsPrintable inputs (shown_of trace verdict.now) }
    ensures { IfOk result
        (λ text. IsBlock inputs
        (record { job = job; shown = shown_of trace verdict.now }) text.items) }
{
    let mut out = Vec::with_capacity(alloc, room(verdict))?;
    out.extend_from_slice(b"j ")?;
    print_number(&mut out, job as u64)?;
    print_verdict(&mut out, inputs, verdict, trace)?;
    Ok(out)
}
