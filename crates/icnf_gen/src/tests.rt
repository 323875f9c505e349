use super::*;
use crate::draws::Draws;
use icnf_text::{Reader, Statement};
use std::test::Fail;

#[test]
fn the_seed_1_draws_these_numbers(rt: HostRuntime) -> Result<(), Fail> {
    // The state behind the first draw is 7,806,831,264,735,756,412.
    let rows = [
        (1u64, 908_834_774u64, -75i32),
        (7_806_831_264_735_756_412, 1_093_944_153, -54),
    ];
    for (seed, number, lit) in rows {
        assert_eq!(rt; Draws::new(seed).number(), number);
        assert_eq!(rt; Draws::new(seed).lit().number(), lit);
    }
    Ok(())
}

// A text's FNV-1a sum of 64 bits.
fn sum_of(text: &[u8]) -> u64 {
    let mut sum: u64 = 0xcbf2_9ce4_8422_2325;
    for byte in text {
        sum = (sum ^ *byte as u64).wrapping_mul(0x0000_0100_0000_01b3);
    }
    sum
}

#[test]
fn a_seed_gives_these_bytes(rt: HostRuntime) -> Result<(), Fail> {
    let rows = [
        (0u64, 136_044usize, 7_928_168_915_851_456_625u64),
        (1, 136_101, 14_287_460_451_126_930_329),
        (u64::MAX, 136_061, 4_109_678_149_732_047_067),
    ];
    for (seed, length, sum) in rows {
        let text = make(rt.alloc(), seed)?;
        assert_eq!(rt; text.len(), length);
        assert_eq!(rt; sum_of(&text), sum);
    }
    Ok(())
}

#[test]
fn a_text_has_10480_clauses_and_120_cubes(rt: HostRuntime) -> Result<(), Fail> {
    let text = make(rt.alloc(), 1)?;
    let mut reader = Reader::new(rt.alloc());
    let fed = reader.feed(&text)?;
    assert!(rt; fed.fault.is_none());
    let mut clauses: u64 = 0;
    let mut cubes: u64 = 0;
    for numbered in fed.statements.items() {
        match &numbered.statement {
            Statement::Clause(_) => clauses = clauses.wrapping_add(1),
            Statement::Cube(_) => cubes = cubes.wrapping_add(1),
        }
    }
    assert_eq!(rt; clauses, 10_480);
    assert_eq!(rt; cubes, 120);
    Ok(())
}
