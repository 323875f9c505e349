//! Tokens, each at its limits.

use crate::{is_decimal, lits_before_zero, lits_then_zero, print_lits, read_number};
use sat_base::Lit;
use std::test::Fail;

// Tokens, and the number of each.
const NUMBERS: [(&[u8], Option<u64>); 7] = [
    (b"1", Some(1)),
    (b"18446744073709551615", Some(18_446_744_073_709_551_615)),
    (b"18446744073709551616", None),
    (b"0", None),
    (b"01", None),
    (b"", None),
    (b"1x", None),
];

#[test]
fn numbers_of_tokens(rt: HostRuntime) -> Result<(), Fail> {
    for (token, number) in NUMBERS.iter() {
        assert!(rt; read_number(token) == *number);
    }
    Ok(())
}

#[test]
fn decimals_of_any_number(rt: HostRuntime) -> Result<(), Fail> {
    assert!(rt; is_decimal(b"0"));
    assert!(rt; is_decimal(b"100000000000000000000000000000"));
    assert!(rt; !is_decimal(b"00"));
    assert!(rt; !is_decimal(b""));
    assert!(rt; !is_decimal(b"-1"));
    Ok(())
}

#[test]
fn printed_literals_are_read(rt: HostRuntime) -> Result<(), Fail> {
    let mut lits = Vec::new(rt.alloc());
    for number in [-1, 2, 8_388_607] {
        lits.push(Lit::of(number).ok_or("no literal")?)?;
    }
    let mut text = Vec::new(rt.alloc());
    print_lits(&mut text, &lits)?;
    text.extend_from_slice(b"0")?;
    assert_eq!(rt; text.as_slice(), b"-1 2 8388607 0".as_slice());
    let all = lits_then_zero(rt.alloc(), &text)?.ok_or("literals")?;
    assert_eq!(rt; all.as_slice(), lits.as_slice());
    text.extend_from_slice(b" x")?;
    let (front, rest) = lits_before_zero(rt.alloc(), &text)?.ok_or("literals")?;
    assert_eq!(rt; front.as_slice(), lits.as_slice());
    assert_eq!(rt; rest, b"x".as_slice());
    Ok(())
}
