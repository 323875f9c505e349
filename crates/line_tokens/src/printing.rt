//! Numbers and literals as text.

ghost use Rattle.std.specs.Prelude.{◌≡◌, ◌++◌, OnOk, decimal};
ghost use Rattle.std.specs.List.{flat_map};
ghost use Rattle.line_tokens.specs.Token.{lit_text};

use itoa::Buffer;
use sat_base::Lit;
use std::alloc::AllocError;

/// Adds a number in decimal digits.
pub fn print_number(out: &mut Vec<u8>, number: u64) -> Result<(), AllocError>
    ensures { OnOk result (out.new.items ≡ out.old.items ++ decimal number) }
{
    let mut buffer = Buffer::new();
    out.extend_from_slice(buffer.format(number).as_bytes())
}

/// Adds literals, each with a space behind it.
pub fn print_lits(out: &mut Vec<u8>, lits: &[Lit]) -> Result<(), AllocError>
    ensures { OnOk result (out.new.items ≡ out.old.items ++ flat_map lit_text lits.now) }
{
    for lit in lits {
        print_lit(out, *lit)?;
    }
    Ok(())
}

/// Adds a literal as DIMACS writes it, with a space behind it.
pub fn print_lit(out: &mut Vec<u8>, lit: Lit) -> Result<(), AllocError>
    ensures { OnOk result (out.new.items ≡ out.old.items ++ lit_text lit) }
{
    if lit.is_negative() {
        out.extend_from_slice(b"-")?;
    }
    print_number(out, lit.var() as u64)?;
    out.extend_from_slice(b" ")
}
