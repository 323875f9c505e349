//! Stamps, call by call.

use super::*;
use std::process::Abort;
use std::test::Fail;

// The variables 1 to 4, as they stand in the queue.
fn sorted(stamps: &Stamps) -> [u32; 4] {
    let mut vars = [1, 2, 3, 4];
    stamps.sort(&mut vars);
    vars
}

#[test]
fn variables_are_sorted_as_they_were_bumped(rt: HostRuntime) -> Result<(), Fail> {
    let mut stamps = Stamps::new(rt.alloc());
    stamps.reserve(4, true)?;
    assert_eq!(rt; sorted(&stamps), [1, 2, 3, 4]);
    stamps.bump(3);
    stamps.bump(1);
    assert_eq!(rt; sorted(&stamps), [2, 4, 3, 1]);
    Ok(())
}

#[test]
fn later_variables_stand_at_the_front(rt: HostRuntime) -> Result<(), Fail> {
    let mut stamps = Stamps::new(rt.alloc());
    stamps.reserve(2, false)?;
    stamps.bump(2);
    stamps.reserve(4, false)?;
    assert_eq!(rt; sorted(&stamps), [4, 3, 1, 2]);
    Ok(())
}
