//! Lists of literals, which end with a `0`.

ghost use Rattle.std.specs.Prelude.{◌≡◌, IfOk};
ghost use Rattle.std.specs.Option.{option_map};
ghost use Rattle.line_tokens.specs.Token.{all_then_zero, lit_of, tokens_of, until_zero, Front};

use crate::{cut_at, read_lit};
use sat_base::Lit;
use std::alloc::{AllocError, Global};

/// The literals before the first token `0`, and what stands behind it, one token at least. `None`
/// where another token stands before it.
pub fn lits_before_zero(
    alloc: Global,
    tokens: &[u8],
) -> Result<Option<(Vec<Lit>, &[u8])>, AllocError>
    ensures { IfOk result
        (λ found. option_map
        (λ part. record { items = part.0.items; rest = tokens_of part.1.now }) found
        ≡ until_zero lit_of (tokens_of tokens.now)) }
{
    let mut lits = Vec::new(alloc);
    let mut rest = tokens;
    while let Some((token, more)) = cut_at(rest, b' ') {
        if token == b"0".as_slice() {
            return Ok(Some((lits, more)));
        }
        let Some(lit) = read_lit(token) else {
            return Ok(None);
        };
        lits.push(lit)?;
        rest = more;
    }
    Ok(None)
}

/// The literals of tokens of which the last one is `0`. `None` where another token stands among
/// them.
pub fn lits_then_zero(alloc: Global, tokens: &[u8]) -> Result<Option<Vec<Lit>>, AllocError>
    ensures { IfOk result
        (λ found. option_map (λ lits. lits.items) found
        ≡ all_then_zero lit_of (tokens_of tokens.now)) }
{
    let mut lits = Vec::new(alloc);
    let mut rest = tokens;
    while let Some((token, more)) = cut_at(rest, b' ') {
        let Some(lit) = read_lit(token) else {
            return Ok(None);
        };
        lits.push(lit)?;
        rest = more;
    }
    if rest != b"0".as_slice() {
        return Ok(None);
    }
    Ok(Some(lits))
}
