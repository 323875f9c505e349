//! Assignments.

ghost use Rattle.std.specs.Prelude.{◌≡◌, IfOk};

use std::alloc::{AllocError, Global};
use std::marker::Model;

/// An assignment of truth values: variable v has item v, counted from 1, and is false beyond the
/// list. Contracts see it as that list.
#[derive(Debug, Drop)]
pub struct Assign {
    values: Vec<bool>,
}

impl Model for Assign {
    ghost use Rattle.std.specs.Prelude.{Bool, List};

    ghost Value = { List Bool };

    ghost view = { λ a. a.values.items };
}

impl Assign {
    /// The assignment with these values, variable 1 first. Takes no memory.
    pub fn of(values: Vec<bool>) -> Assign
        ensures { result ≡ values.items }
    {
        Assign { values }
    }

    /// The values, variable 1 first.
    pub fn values(&self) -> &[bool]
        ensures { result.now ≡ self.now }
    {
        &self.values
    }

    /// The values back, variable 1 first. Takes no memory.
    pub fn into_values(self) -> Vec<bool>
        ensures { result.items ≡ self }
    {
        self.values
    }

    /// An equal assignment.
    pub fn copy(&self, alloc: Global) -> Result<Assign, AllocError>
        ensures { IfOk result (λ a. a ≡ self.now) }
    {
        Ok(Assign {
            values: self.values.to_vec(alloc)?,
        })
    }
}
