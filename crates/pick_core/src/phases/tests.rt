//! Phases, call by call.

use super::*;
use std::process::Abort;
use std::test::Fail;

#[test]
fn phases_are_saved(rt: HostRuntime) -> Result<(), Fail> {
    for first in [false, true] {
        let mut phases = Phases::new(rt.alloc(), first);
        phases.reserve(2)?;
        assert_eq!(rt; phases.get(1), first);
        phases.set(2, !first);
        phases.reserve(3)?;
        assert_eq!(rt; phases.get(1), first);
        assert_eq!(rt; phases.get(2), !first);
        assert_eq!(rt; phases.get(3), first);
    }
    Ok(())
}
