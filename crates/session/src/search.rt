//! What a solver keeps.

ghost use Rattle.std.specs.Prelude.{◌≡◌, ◌∷◌, [], ◌++◌, length, Some, IfOk, OnOk, OnErr};
ghost use Rattle.sat_base.specs.declared.origins.Ref.TheVariants.{Own};
ghost use Rattle.trace_core.specs.Trace.{IsOkStep, known_of};
ghost use Rattle.session.specs.Searching.{IsSearching, solver_of, table_of};
ghost use Rattle.session.specs.Fronts.{IsFront};

use crate::order::{Order, ranks_by_scores};
use crate::places::Places;
use crate::restarts::Restarts;
use analyze::Scratch;
use propagate::Store;
use sat_base::Ref;
use std::alloc::{AllocError, Global};
use step_table::Steps;
use trace_core::Step;
use trail_core::Trail;

/// How far the walk over the cube has come, so that it needn't begin anew: so many first literals
/// of it are true.
#[derive(Clone, Copy, Debug)]
pub(crate) struct Cursor {
    pub(crate) literals: usize,
}

/// The parts of a solver. What they keep together is said in `specs/Searching.antt`.
#[derive(Debug, Drop)]
pub(crate) struct Search {
    pub(crate) alloc: Global,
    // The inputs, the learnt clauses and those that were taken in.
    pub(crate) store: Store,
    pub(crate) trail: Trail,
    pub(crate) scratch: Scratch,
    // For each variable of level 0 the name and the tag of the clause of its one true literal; the
    // first so many literals of the trail have theirs.
    pub(crate) units: Vec<Ref>,
    pub(crate) tags: Vec<u32>,
    pub(crate) named: usize,
    // How far the walk over the cube has come, and how far it had come when each level was opened:
    // item n belongs to level n + 1.
    pub(crate) cursor: Cursor,
    pub(crate) cursors: Vec<Cursor>,
    // Which free variable is decided next, and when the search goes back to level 0 for once.
    pub(crate) order: Order,
    pub(crate) restarts: Restarts,
    // The greatest variable of the inputs, their number, and the number of the job that is loaded.
    pub(crate) greatest: u32,
    pub(crate) inputs: u32,
    pub(crate) bound: u32,
    // The shared packet of each place that is known.
    pub(crate) packets: Places,
    // The own steps, and the numbers of those that are learnt clauses.
    pub(crate) steps: Steps,
    pub(crate) learnt: Vec<u64>,
}

impl Search {
    /// A search without inputs, at level 0, whose order of decisions is that of the variant. Takes
    /// no memory.
    pub(crate) fn new(alloc: Global, variant: u32) -> Search
        ensures kept { IsSearching result }
        ensures solver { solver_of result ≡ record {
          inputs = [];
          bound = 0;
          held = [];
          steps = [];
          learnt = [];
          packets = [];
        } }
        ensures zero { result.trail.depth ≡ 0 }
        ensures none { result.inputs ≡ 0 }
    {
        Search {
            alloc,
            store: Store::new(alloc),
            trail: Trail::new(alloc),
            scratch: Scratch::new(alloc),
            units: Vec::new(alloc),
            tags: Vec::new(alloc),
            named: 0,
            cursor: Cursor { literals: 0 },
            cursors: Vec::new(alloc),
            order: Order::new(alloc, variant),
            restarts: Restarts::new(ranks_by_scores(variant)),
            greatest: 0,
            inputs: 0,
            bound: 0,
            packets: Places::new(alloc),
            steps: Steps::new(alloc),
            learnt: Vec::new(alloc),
        }
    }
}

/// Adds an own step behind the others and answers its number.
pub(crate) fn push_step(search: &mut Search, step: &Step) -> Result<u64, AllocError>
    requires kept { IsSearching search.old }
    requires ok { IsOkStep (table_of search.old) step.now }
    ensures kept { IsSearching search.new }
    ensures parts { search.new ≡ record search.old { steps = search.new.steps } }
    ensures pushed { OnOk result (search.new.steps ≡ search.old.steps ++ step.now ∷ []) }
    ensures number { IfOk result (λ number. number ≡ length search.new.steps) }
    ensures name { IfOk result
        (λ number. table_of search.new (Own number) ≡ Some (known_of step.now)) }
    ensures err { OnErr result (search.new.steps ≡ search.old.steps) }
    ensures front { IsFront search.old.steps search.new.steps }
{
    search
        .steps
        .push(step.clause.lits(), step.hints.items(), step.tag)?;
    Ok(search.steps.len() as u64)
}
