//! Steps as lines.

ghost use Rattle.std.specs.Prelude.{◌≡◌, ◌+◌, ◌<◌, ◌≤◌, ◌^◌, ◌++◌, map, OnOk, IfOk, All, decimal};
ghost use Rattle.std.specs.List.{flat_map};
ghost use Rattle.sat_base.specs.Lit.{IsLitSet};
ghost use Rattle.trace_core.specs.declared.derivation.Step.{Step};
ghost use Rattle.line_tokens.specs.Token.{lit_text};
ghost use Rattle.trace_text.specs.Line.{hint_text, line_text, Line};
ghost use Rattle.trace_text.specs.Text.{ArePrinted, CiteEarlier, number_of_hint, steps_text};

use line_tokens::{print_lits, print_number};
use sat_base::Ref;
use std::alloc::{AllocError, Global};
use trace_core::Step;

// The number of a hint of a step that stands behind so many inputs.
fn number_of(inputs: u64, hint: Ref) -> u64
    requires { number_of_hint inputs hint < 2 ^ 64 }
    ensures { result ≡ number_of_hint inputs hint }
{
    match hint {
        Ref::Input(number) => number as u64,
        Ref::Shared { .. } => 0,
        Ref::Own(number) => inputs + number,
    }
}

// Adds the numbers of hints, each with a space behind it.
fn print_hints(out: &mut Vec<u8>, inputs: u64, hints: &[Ref]) -> Result<(), AllocError>
    requires { All (λ hint. number_of_hint inputs hint < 2 ^ 64) hints.now }
    ensures { OnOk result
        (out.new.items
        ≡ out.old.items ++ flat_map hint_text (map (number_of_hint inputs) hints.now)) }
{
    for hint in hints {
        print_number(out, number_of(inputs, *hint))?;
        out.extend_from_slice(b" ")?;
    }
    Ok(())
}

// Adds the line of a step.
fn print_step(out: &mut Vec<u8>, inputs: u64, id: u64, step: &Step) -> Result<(), AllocError>
    requires { All (λ hint. number_of_hint inputs hint < 2 ^ 64) step.now.hints }
    ensures { OnOk result
        (out.new.items
        ≡ out.old.items
        ++ line_text
        (record {
          id = id;
          lits = step.now.clause;
          hints = map (number_of_hint inputs) step.now.hints;
        })) }
{
    out.extend_from_slice(b"t ")?;
    print_number(out, id)?;
    out.extend_from_slice(b" ")?;
    print_lits(out, step.clause.lits())?;
    out.extend_from_slice(b"0 ")?;
    print_hints(out, inputs, step.hints.items())?;
    out.extend_from_slice(b"0\n")
}

// Adds the lines of the steps.
fn print_lines(out: &mut Vec<u8>, inputs: u64, steps: &[Step]) -> Result<(), AllocError>
    requires inputs { inputs ≤ 16777216 }
    requires earlier { CiteEarlier inputs 0 steps.now }
    ensures { OnOk result (out.new.items ≡ out.old.items ++ steps_text inputs 0 steps.now) }
{
    for (index, step) in steps.iter().enumerate() {
        print_step(out, inputs, inputs + (index as u64 + 1), step)?;
    }
    Ok(())
}

// Each clause is a set of literals. Its type keeps that, and a proof sees it at a call on the
// clause.
fn look_at(steps: &[Step])
    ensures { All (λ (step : Step). IsLitSet step.clause) steps.now }
{
    for step in steps {
        let _ = step.clause.lits();
    }
}

/// Adds the lines that `print` writes to a text.
pub fn print_onto(out: &mut Vec<u8>, inputs: u64, steps: &[Step]) -> Result<(), AllocError>
    requires inputs { inputs ≤ 16777216 }
    requires earlier { CiteEarlier inputs 0 steps.now }
    ensures added { OnOk result (out.new.items ≡ out.old.items ++ steps_text inputs 0 steps.now) }
    ensures printed { ArePrinted inputs steps.now (steps_text inputs 0 steps.now) }
{
    look_at(steps);
    print_lines(out, inputs, steps)
}

/// The steps as trace lines: for the i-th step, counted from 1, the line `t ID LITS 0 HINTS 0` with
/// `inputs` plus i as ID, the literals of its clause, and the numbers of its hints, an input's its
/// own and the i-th step's `inputs` plus i.
pub fn print(alloc: Global, inputs: u64, steps: &[Step]) -> Result<Vec<u8>, AllocError>
    requires inputs { inputs ≤ 16777216 }
    requires earlier { CiteEarlier inputs 0 steps.now }
    ensures { IfOk result (λ text. ArePrinted inputs steps.now text.items) }
{
    let mut text = Vec::new(alloc);
    print_onto(&mut text, inputs, steps)?;
    Ok(text)
}
