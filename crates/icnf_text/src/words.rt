//! What a reader keeps of the bytes of a token. It is a few bytes, however long the token is.

ghost use Rattle.std.specs.Prelude.{◌≡◌};
ghost use Rattle.icnf_text.specs.Machine.{extended, first_byte, first_digit, lit_code, next_digit};
ghost use Rattle.icnf_text.specs.Machine.{next_letter};

use sat_base::Lit;
use sat_base::limits::GREATEST_VARIABLE;

/// The bytes of a token so far.
#[derive(Clone, Copy, Debug)]
pub(crate) enum Word {
    /// No byte.
    Nothing,
    /// `0`
    Zero,
    /// `-`
    Minus,
    /// `a`
    Mark,
    /// A minus sign, if negative, and digits, the first one not 0. A variable above the greatest
    /// one only says that.
    Number { negative: bool, variable: u32 },
    /// `p`
    P,
    /// The first bytes of `inccnf`, that many.
    Inccnf(u8),
    /// Bytes that begin none of these, however the token goes on.
    Strange,
}

impl Word {
    /// The word with one more byte.
    pub(crate) fn extended(self, byte: u8) -> Word
        ensures { result ≡ extended self byte }
    {
        match self {
            Word::Nothing => first_byte(byte),
            Word::Minus => first_digit(byte),
            Word::Number { negative, variable } => next_digit(negative, variable, byte),
            Word::Inccnf(count) => next_letter(count, byte),
            _ => Word::Strange,
        }
    }
}

fn first_byte(byte: u8) -> Word
    ensures { result ≡ first_byte byte }
{
    match byte {
        b'0' => Word::Zero,
        b'-' => Word::Minus,
        b'a' => Word::Mark,
        b'p' => Word::P,
        b'i' => Word::Inccnf(1),
        b'1'..=b'9' => Word::Number {
            negative: false,
            variable: (byte - b'0') as u32,
        },
        _ => Word::Strange,
    }
}

fn first_digit(byte: u8) -> Word
    ensures { result ≡ first_digit byte }
{
    match byte {
        b'0' => Word::Strange,
        b'1'..=b'9' => Word::Number {
            negative: true,
            variable: (byte - b'0') as u32,
        },
        _ => Word::Strange,
    }
}

fn next_digit(negative: bool, variable: u32, byte: u8) -> Word
    ensures { result ≡ next_digit negative variable byte }
{
    if !byte.is_ascii_digit() {
        return Word::Strange;
    }
    if variable > GREATEST_VARIABLE {
        return Word::Number { negative, variable };
    }
    Word::Number {
        negative,
        variable: variable * 10 + (byte - b'0') as u32,
    }
}

fn next_letter(count: u8, byte: u8) -> Word
    ensures { result ≡ next_letter count byte }
{
    let letters = b"inccnf";
    let at = count as usize;
    if at >= letters.len() {
        return Word::Strange;
    }
    if byte != letters[at] {
        return Word::Strange;
    }
    Word::Inccnf(count + 1)
}

/// The literal of a variable or its negation, where the variable is one.
pub(crate) fn lit_of(negative: bool, variable: u32) -> Option<Lit>
    ensures { result ≡ lit_code negative variable }
{
    if variable > GREATEST_VARIABLE {
        return None;
    }
    let lit = Lit::of(variable as i32)?;
    if negative {
        return Some(lit.negated());
    }
    Some(lit)
}
