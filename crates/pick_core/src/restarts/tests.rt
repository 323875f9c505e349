//! The sequence, item by item.

use super::*;
use std::process::Abort;
use std::test::Fail;

#[test]
fn luby_is_the_sequence(rt: HostRuntime) -> Result<(), Fail> {
    let rows = [
        (1, 1),
        (2, 1),
        (3, 2),
        (4, 1),
        (5, 1),
        (6, 2),
        (7, 4),
        (8, 1),
    ];
    for (place, item) in rows {
        assert!(rt; place >= 1);
        assert_eq!(rt; luby(place), item, "at {place}");
    }
    assert_eq!(rt; luby(9_223_372_036_854_775_807), 4_611_686_018_427_387_904);
    assert_eq!(rt; luby(u64::MAX), 9_223_372_036_854_775_808);
    Ok(())
}
