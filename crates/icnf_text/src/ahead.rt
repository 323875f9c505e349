//! Literals at the front of bytes, read in one go where nothing about them is rare.

ghost use Rattle.std.specs.Prelude.{◌≤◌, ◌<◌, IfSome, IsTrue, length};
ghost use Rattle.icnf_text.specs.Ahead.{AreDigits, AreEnded, IsEnd, IsNumber};

/// Digits at the front of bytes.
#[derive(Clone, Copy)]
struct Digits {
    value: u32,
    count: usize,
}

/// A literal and the space behind it, so many bytes together.
#[derive(Clone, Copy)]
pub(crate) struct Number {
    pub(crate) negative: bool,
    pub(crate) variable: u32,
    pub(crate) size: usize,
}

// At most seven, which is how many digits the greatest variable has.
fn at_most_seven(length: usize) -> usize
    ensures within { result ≤ length }
    ensures most { result ≤ 7 }
{
    if length < 7 { length } else { 7 }
}

// The first seven digits at the front, or as many as there are.
fn digits_at(bytes: &[u8]) -> Digits
    ensures { AreDigits bytes.now result.value result.count }
{
    let most = at_most_seven(bytes.len());
    let mut value = 0;
    let mut count = 0;
    while count < most {
        let byte = bytes[count] as u32;
        if byte < 48 || byte > 57 {
            break;
        }
        value = value * 10 + (byte - 48);
        count += 1;
    }
    Digits { value, count }
}

// The digits at the front, the first one not 0, where a space ends them.
fn ended_digits(bytes: &[u8]) -> Option<Digits>
    ensures { IfSome result (λ digits. AreEnded bytes.now digits.value digits.count) }
{
    let digits = digits_at(bytes);
    if digits.count == 0 || digits.count >= bytes.len() {
        return None;
    }
    if bytes[0] == b'0' || bytes[digits.count] != b' ' {
        return None;
    }
    Some(digits)
}

/// Whether a statement and its line end at the front of the bytes.
pub(crate) fn is_end(bytes: &[u8]) -> bool
    requires { 0 < length bytes.now }
    ensures { IsTrue result → IsEnd bytes.now }
{
    if bytes[0] != b'0' {
        return false;
    }
    bytes.len() > 1 && bytes[1] == b'\n'
}

/// The literal at the front of the bytes, where it has at most seven digits and a space ends it.
pub(crate) fn number_at(bytes: &[u8]) -> Option<Number>
    ensures { IfSome result (λ number.
        IsNumber bytes.now number.negative number.variable number.size) }
{
    if bytes.is_empty() {
        return None;
    }
    if bytes[0] == b'-' {
        let digits = ended_digits(&bytes[1..])?;
        return Some(Number {
            negative: true,
            variable: digits.value,
            size: digits.count + 2,
        });
    }
    let digits = ended_digits(bytes)?;
    Some(Number {
        negative: false,
        variable: digits.value,
        size: digits.count + 1,
    })
}
