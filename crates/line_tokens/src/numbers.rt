//! Numbers and literals.

ghost use Rattle.std.specs.Prelude.{◌≡◌, ◌<◌, ◌≤◌, slice_index, IfSome};
ghost use Rattle.std.specs.Char.{is_ascii_digit};
ghost use Rattle.std.specs.List.{list_all};
ghost use Rattle.line_tokens.specs.Token.{token_is_decimal, number_of, variable_of, lit_of};

use sat_base::Lit;
use sat_base::limits::GREATEST_VARIABLE;

const LEAST: u128 = 1;

const GREATEST: u128 = 18_446_744_073_709_551_615;

/// The number that decimal digits write: no leading zero, from 1 to 18446744073709551615. However
/// many digits there are, their number is given up once it is too large.
pub fn read_number(digits: &[u8]) -> Option<u64>
    ensures value { result ≡ number_of digits.now }
    ensures range { IfSome result (λ number. 0 < number) }
{
    let mut number = 0u128;
    for digit in digits {
        if !digit.is_ascii_digit() {
            return None;
        }
        number = number * 10 + (*digit - b'0') as u128;
        if number < LEAST {
            return None;
        }
        if number > GREATEST {
            return None;
        }
    }
    if number < LEAST {
        None
    } else {
        Some(number as u64)
    }
}

fn are_digits(token: &[u8]) -> bool
    ensures { result ≡ list_all is_ascii_digit token.now }
{
    token.iter().all(|byte| byte.is_ascii_digit())
}

// The byte at the front, 0 where there is none.
fn first_of(token: &[u8]) -> u8
    ensures { result ≡ slice_index token.now 0 }
{
    token.get(0).copied().unwrap_or(0)
}

#[tactic(auto, using(crate::proofs::Digits::each_digit))]
/// Whether these are decimal digits without a leading zero, of any number.
pub fn is_decimal(token: &[u8]) -> bool
    ensures { result ≡ token_is_decimal token.now }
{
    are_digits(token) && (token == b"0".as_slice() || first_of(token) > b'0')
}

// The variable that decimal digits write.
fn read_variable(digits: &[u8]) -> Option<u32>
    ensures value { result ≡ variable_of digits.now }
    ensures range { IfSome result (λ variable. (0 < variable) × (variable ≤ 8388607)) }
{
    let number = read_number(digits)?;
    if number > GREATEST_VARIABLE as u64 {
        return None;
    }
    Some(number as u32)
}

/// The literal that a token writes.
pub fn read_lit(token: &[u8]) -> Option<Lit>
    ensures { result ≡ lit_of token.now }
{
    match token.strip_prefix(b"-".as_slice()) {
        Some(digits) => {
            let variable = read_variable(digits)?;
            Lit::of(-(variable as i32))
        }
        None => {
            let variable = read_variable(token)?;
            Lit::of(variable as i32)
        }
    }
}
