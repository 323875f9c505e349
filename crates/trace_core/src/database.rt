//! The clauses that a checker knows.

ghost use Rattle.std.specs.Prelude.{◌≡◌, map, All, IsSome, MatchOption, Some, None};
ghost use Rattle.trace_core.specs.Known.{clause_of, tag_of};
ghost use Rattle.trace_core.specs.Trace.{greatest};
ghost use Rattle.trace_core.specs.Checked.{known_to};

use crate::block::{KnownClause, KnownClauses};
use sat_base::{Lit, Ref};

/// The input clauses and the steps that were accepted.
#[derive(Debug, Drop)]
pub(crate) struct Database {
    pub(crate) inputs: KnownClauses,
    pub(crate) steps: KnownClauses,
}

impl Database {
    /// The clause that a reference names, if it names one here.
    pub(crate) fn look(&self, name: Ref) -> Option<KnownClause<'_>>
        ensures { MatchOption result (known_to self.now.inputs self.now.steps name ≡ None)
            (λ found. known_to self.now.inputs self.now.steps name
            ≡ Some (record { clause = found.lits.now; tag = found.tag })) }
    {
        match name {
            Ref::Input(number) => self.inputs.get(u64::from(number)),
            Ref::Own(number) => self.steps.get(number),
            Ref::Shared { .. } => None,
        }
    }

    /// The literals of what a reference names, none where it names nothing.
    pub(crate) fn lits_of(&self, name: Ref) -> &[Lit]
        ensures { result.now ≡ clause_of (known_to self.now.inputs self.now.steps name) }
    {
        match self.look(name) {
            Some(found) => found.lits,
            None => &[],
        }
    }

    /// The greatest tag among the clauses that the hints name, 0 without hints. `None` exactly
    /// where a hint names nothing.
    pub(crate) fn greatest_tag(&self, hints: &[Ref]) -> Option<u32>
        ensures known { IsSome result
            → All (λ hint. IsSome (known_to self.now.inputs self.now.steps hint)) hints.now }
        ensures unknown { All
            (λ hint. IsSome (known_to self.now.inputs self.now.steps hint)) hints.now
            → IsSome result }
        ensures tag { MatchOption result (result ≡ None)
            (λ tag. tag
            ≡ greatest
            (map (λ hint. tag_of (known_to self.now.inputs self.now.steps hint)) hints.now)) }
    {
        let mut most = 0;
        for hint in hints {
            let found = self.look(*hint)?;
            most = most.max(found.tag);
        }
        Some(most)
    }
}
