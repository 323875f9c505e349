//! The last line of an output.

ghost use Rattle.std.specs.Prelude.{◌≡◌, ◌&&◌, codes, MatchResult, Ok, Err};
ghost use Rattle.std.specs.Str.{bytes_eq};
ghost use Rattle.line_tokens.specs.Token.{token_is_decimal, tokens_of};
ghost use Rattle.verdict_audit.specs.Audit.{at_last_line, is_end_of_tokens, is_reason, is_stop};
ghost use Rattle.verdict_audit.specs.declared.findings.Wrong.TheVariants as wrong;

use crate::Flaw;
use crate::places::{Place, Tally};
use crate::problem::Problem;
use icnf_text::Reason;
use line_tokens::{cut_at, is_decimal};

fn is_reason(word: &[u8]) -> bool
    ensures { result ≡ is_reason word.now }
{
    word == Reason::Header.text()
        || word == Reason::Token.text()
        || word == Reason::Variable.text()
        || word == Reason::Unfinished.text()
        || word == Reason::TooMany.text()
        || word == Reason::TooLong.text()
}

// Whether a line tells that the run stopped.
fn is_stop(line: &[u8]) -> bool
    ensures { result ≡ is_stop line.now }
{
    line == b"fault read".as_slice() || line == b"memory".as_slice()
}

fn is_count(word: &[u8], number: &[u8]) -> bool
    ensures { result ≡ (bytes_eq word.now (codes "end") && token_is_decimal number.now) }
{
    word == b"end".as_slice() && is_decimal(number)
}

fn is_refusal(word: &[u8], number: &[u8], reason: &[u8]) -> bool
    ensures { result
        ≡ (bytes_eq word.now (codes "refused") &&
        (token_is_decimal number.now && is_reason reason.now)) }
{
    word == b"refused".as_slice() && (is_decimal(number) && is_reason(reason))
}

// Whether a line is `end` and a number, or `refused`, a number and a reason.
fn is_end(line: &[u8]) -> bool
    ensures { result ≡ is_end_of_tokens (tokens_of line.now) }
{
    let Some((word, rest)) = cut_at(line, b' ') else {
        return false;
    };
    let Some((number, reason)) = cut_at(rest, b' ') else {
        return is_count(word, rest);
    };
    if let Some((_, _)) = cut_at(reason, b' ') {
        return false;
    }
    is_refusal(word, number, reason)
}

// Takes a last line.
pub(crate) fn take_last_line(problem: &Problem, tally: Tally, line: &[u8]) -> Result<Place, Flaw>
    ensures outcome { MatchResult result
        (λ next. at_last_line problem.now tally line.now
        ≡ Ok
        (record { tally = tally; place = next })) (λ why. at_last_line problem.now tally line.now
        ≡ Err (wrong.Line why)) }
{
    if is_stop(line) {
        return Ok(Place::End);
    }
    if !is_end(line) {
        return Err(Flaw::Form);
    }
    if line == problem.last() && tally.begun == problem.jobs() {
        Ok(Place::End)
    } else {
        Err(Flaw::Last)
    }
}
