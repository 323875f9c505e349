//! Statements as text.

ghost use Rattle.std.specs.Prelude.{◌≡◌, ◌++◌, codes, map, true, None, IfOk, OnOk};
ghost use Rattle.std.specs.List.{flat_map};
ghost use Rattle.sat_base.specs.Lit.{IsLitSet};
ghost use Rattle.icnf_text.specs.Judgement.{statements, wrong};
ghost use Rattle.icnf_text.specs.Printed.{IsWithin, lits_in, lits_text, number_text, printed};
ghost use Rattle.icnf_text.specs.Printed.{statement_text};

use crate::Statement;
use itoa::Buffer;
use sat_base::Lit;
use std::alloc::{AllocError, Global};

/// The text of these statements: the line `p inccnf`, and a line for each statement, its literals
/// in ascending order with one space between two tokens. Where the list and this text are within
/// the limits, reading it gives the list back.
pub fn print(alloc: Global, list: &[Statement]) -> Result<Vec<u8>, AllocError>
    ensures text { IfOk result (λ text. text.items ≡ printed list.now) }
    ensures read_back { IfOk result (λ text. IsWithin list.now →
        (wrong text.items true ≡ None)
        × (map (λ numbered. numbered.statement) (statements text.items true) ≡ list.now)) }
{
    let mut text = Vec::from_slice(alloc, b"p inccnf\n")?;
    for statement in list {
        print_statement(&mut text, statement)?;
    }
    Ok(text)
}

fn print_statement(text: &mut Vec<u8>, statement: &Statement) -> Result<(), AllocError>
    ensures text { OnOk result (text.new.items ≡ text.old.items ++ statement_text statement.now) }
    ensures set { OnOk result (IsLitSet (lits_in statement.now)) }
{
    match statement {
        Statement::Clause(clause) => print_lits(text, clause.lits()),
        Statement::Cube(cube) => {
            text.extend_from_slice(b"a ")?;
            print_lits(text, cube.lits())
        }
    }
}

fn print_lits(text: &mut Vec<u8>, lits: &[Lit]) -> Result<(), AllocError>
    ensures { OnOk result (text.new.items ≡ text.old.items ++ lits_text lits.now) }
{
    for lit in lits {
        print_lit(text, *lit)?;
    }
    text.extend_from_slice(b"0\n")
}

// A literal and a space.
fn print_lit(text: &mut Vec<u8>, lit: Lit) -> Result<(), AllocError>
    ensures { OnOk result (text.new.items ≡ text.old.items ++ (number_text lit ++ codes " ")) }
{
    if lit.is_negative() {
        text.extend_from_slice(b"-")?;
    }
    let mut buffer = Buffer::new();
    text.extend_from_slice(buffer.format(lit.var()).as_bytes())?;
    text.extend_from_slice(b" ")
}
