//! Stamps of the variables of a queue.

use std::alloc::{AllocError, Global};

// The stamps of entered variables go up from here at the end, and down from here at the front.
const MIDDLE: u64 = 9_223_372_036_854_775_808;

/// For each variable of a queue a stamp: the nearer to the end it stands, the greater. Variables
/// that are bumped in the order of their stamps keep it at the end of the queue, as in CaDiCaL.
#[derive(Debug, Drop)]
pub(crate) struct Stamps {
    // Item n is the stamp of variable n; no variable has the first one.
    stamps: Vec<u64>,
    // The stamps that were given out lie between these two.
    front: u64,
    end: u64,
}

impl Stamps {
    /// The stamps of no variable. Takes no memory.
    pub(crate) fn new(alloc: Global) -> Stamps {
        Stamps {
            stamps: Vec::new(alloc),
            front: MIDDLE,
            end: MIDDLE,
        }
    }

    /// Enters the variables up to `vars` that aren't entered yet, one after another in ascending
    /// order, each at the end or each at the front. Takes eight bytes for each variable, and eight
    /// more.
    pub(crate) fn reserve(&mut self, vars: u32, at_end: bool) -> Result<(), AllocError> {
        for _ in self.stamps.len()..vars as usize + 1 {
            let stamp = self.draw(at_end);
            self.stamps.push(stamp)?;
        }
        Ok(())
    }

    // The next stamp at the end, or else at the front.
    fn draw(&mut self, at_end: bool) -> u64 {
        if at_end {
            self.end = self.end.saturating_add(1);
            return self.end;
        }
        self.front = self.front.saturating_sub(1);
        self.front
    }

    /// Says that a variable moved to the end. Takes no memory.
    pub(crate) fn bump(&mut self, var: u32) {
        let stamp = self.draw(true);
        if let Some(old) = self.stamps.get_mut(var as usize) {
            *old = stamp;
        }
    }

    /// Sorts variables as they stand in the queue, from its front to its end. Takes no memory.
    pub(crate) fn sort(&self, vars: &mut [u32]) {
        vars.sort_unstable_by_key(|var| self.stamp(*var));
    }

    // The stamp of a variable, 0 where it wasn't entered.
    fn stamp(&self, var: u32) -> u64 {
        self.stamps.get(var as usize).copied().unwrap_or(0)
    }
}

#[cfg(test)]
mod tests;
