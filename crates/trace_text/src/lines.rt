//! One line.

ghost use Rattle.std.specs.Prelude.{◌≡◌, IfOk, IfSome, IsTrue};
ghost use Rattle.std.specs.Option.{option_map};
ghost use Rattle.std.specs.Vec.{vec_len};
ghost use Rattle.sat_base.specs.Lit.{is_ascending};
ghost use Rattle.line_tokens.specs.Token.{all_then_zero, number_of, tokens_of};
ghost use Rattle.trace_text.specs.Line.{fields_of, line_of, Line};

use line_tokens::{cut_at, lits_before_zero, read_number};
use sat_base::{Lit, is_strictly_ascending};
use std::alloc::{AllocError, Global};

/// What a line says.
#[derive(Drop)]
pub(crate) struct TraceLine {
    pub(crate) id: u64,
    pub(crate) lits: Vec<Lit>,
    pub(crate) hints: Vec<u64>,
}

// Hints behind one another, and `0`.
fn read_hints(alloc: Global, tokens: &[u8]) -> Result<Option<Vec<u64>>, AllocError>
    ensures { IfOk result
        (λ found. option_map (λ hints. hints.items) found
        ≡ all_then_zero number_of (tokens_of tokens.now)) }
{
    let mut hints = Vec::new(alloc);
    let mut rest = tokens;
    while let Some((token, more)) = cut_at(rest, b' ') {
        let Some(hint) = read_number(token) else {
            return Ok(None);
        };
        hints.push(hint)?;
        rest = more;
    }
    if rest != b"0".as_slice() {
        return Ok(None);
    }
    Ok(Some(hints))
}

// The literals and hints behind an identifier.
fn read_fields(alloc: Global, id: u64, tokens: &[u8]) -> Result<Option<TraceLine>, AllocError>
    ensures value { IfOk result
        (λ found. option_map
        (λ line. record { id = line.id; lits = line.lits.items; hints = line.hints.items }) found
        ≡ fields_of id (tokens_of tokens.now)) }
    ensures ascending { IfOk result
        (λ found. IfSome found (λ line. IsTrue (is_ascending line.lits.items))) }
{
    let Some((lits, rest)) = lits_before_zero(alloc, tokens)? else {
        return Ok(None);
    };
    if !is_strictly_ascending(&lits) {
        return Ok(None);
    }
    let Some(hints) = read_hints(alloc, rest)? else {
        return Ok(None);
    };
    Ok(Some(TraceLine { id, lits, hints }))
}

/// What a line without its line feed says, `None` where it isn't of the form.
pub(crate) fn read_line(alloc: Global, line: &[u8]) -> Result<Option<TraceLine>, AllocError>
    ensures value { IfOk result
        (λ found. option_map
        (λ line. record { id = line.id; lits = line.lits.items; hints = line.hints.items }) found
        ≡ line_of line.now) }
    ensures ascending { IfOk result
        (λ found. IfSome found (λ line. IsTrue (is_ascending line.lits.items))) }
{
    let Some((letter, tokens)) = cut_at(line, b' ') else {
        return Ok(None);
    };
    if letter != b"t".as_slice() {
        return Ok(None);
    }
    let Some((token, fields)) = cut_at(tokens, b' ') else {
        return Ok(None);
    };
    let Some(id) = read_number(token) else {
        return Ok(None);
    };
    read_fields(alloc, id, fields)
}
