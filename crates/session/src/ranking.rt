//! What ranks variables.

ghost use Rattle.std.specs.Prelude.{◌≡◌, ℕ, ◌≤◌, ◌∷◌, [], ◌++◌, List, max, IfSome, IfNone, OnOk};
ghost use Rattle.std.specs.Prelude.{OnErr};
ghost use Rattle.sat_base.specs.Lit.{variable};
ghost use Rattle.trail_core.specs.Trail.{Entry, IsFree};
ghost use Rattle.pick_core.specs.Assigned.{AreAllAssigned};
ghost use Rattle.session.specs.Orders.{OffersFree, entered_in};

use crate::stamps::Stamps;
use pick_core::{Queue, Scores};
use std::alloc::{AllocError, Global};
use trail_core::Trail;

/// The variables of the inputs, ranked by what conflicts met of late.
#[derive(Debug, Drop)]
pub(crate) enum Ranking {
    /// Scores that decay: of free variables the one with the greatest score comes first.
    Scores(Scores),
    /// A queue: of free variables the one that was bumped last comes first. Beside it the stamps of
    /// its variables.
    Queue(Queue, Stamps),
}

impl Ranking {
    /// Scores, or else a queue, of no variable. Takes no memory.
    pub(crate) fn new(alloc: Global, by_scores: bool) -> Ranking
        ensures none { entered_in result ≡ 0 }
        ensures offers { (entries : List Entry) → OffersFree entries result }
    {
        if by_scores {
            return Ranking::Scores(Scores::new(alloc));
        }
        Ranking::Queue(Queue::new(alloc), Stamps::new(alloc))
    }

    /// Enters the variables up to `vars` that aren't entered yet, one after another in ascending
    /// order, each at the end, where it comes first, or each at the front.
    pub(crate) fn reserve(&mut self, vars: u32, at_end: bool) -> Result<(), AllocError>
        ensures offers { (entries : List Entry) → OffersFree entries self.old
            → OffersFree entries self.new }
        ensures ok { OnOk result (entered_in self.new ≡ max (entered_in self.old) vars) }
        ensures err { OnErr result (entered_in self.new ≡ entered_in self.old) }
    {
        match self {
            Ranking::Scores(scores) => scores.reserve(vars, at_end),
            Ranking::Queue(queue, stamps) => {
                stamps.reserve(vars, at_end)?;
                queue.reserve(vars, at_end)
            }
        }
    }

    /// Sorts variables so that those that are bumped one after another keep the order in which they
    /// stand in the queue. For scores any order will do. Takes no memory.
    pub(crate) fn sort(&self, vars: &mut [u32]) {
        match self {
            Ranking::Scores(_) => {}
            Ranking::Queue(_, stamps) => stamps.sort(vars),
        }
    }

    /// Ranks an entered variable higher. Takes no memory.
    pub(crate) fn bump(&mut self, var: u32)
        requires low { 1 ≤ var }
        requires high { var ≤ entered_in self.old }
        ensures offers { (entries : List Entry) → OffersFree entries self.old
            → OffersFree entries self.new }
        ensures entered { entered_in self.new ≡ entered_in self.old }
    {
        match self {
            Ranking::Scores(scores) => scores.bump(var),
            Ranking::Queue(queue, stamps) => {
                queue.bump(var);
                stamps.bump(var);
            }
        }
    }

    /// Lets later bumps count for more. Takes no memory.
    pub(crate) fn decay(&mut self)
        ensures offers { (entries : List Entry) → OffersFree entries self.old
            → OffersFree entries self.new }
        ensures entered { entered_in self.new ≡ entered_in self.old }
    {
        match self {
            Ranking::Scores(scores) => scores.decay(),
            Ranking::Queue(_, _) => {}
        }
    }

    /// Says that the last literal of a trail, whose variable this is, is taken back. One that
    /// wasn't entered is passed over. Takes no memory.
    pub(crate) fn put_back(&mut self, var: u32)
        requires { 1 ≤ var }
        ensures offers { (entries : List Entry) (last : Entry) → variable last.lit ≡ var
            → OffersFree (entries ++ last ∷ []) self.old → OffersFree entries self.new }
        ensures entered { entered_in self.new ≡ entered_in self.old }
    {
        match self {
            Ranking::Scores(scores) => {
                if var <= scores.vars() {
                    scores.put_back(var);
                }
            }
            Ranking::Queue(queue, _) => queue.rewind(),
        }
    }

    /// The free variable that comes first; `None` exactly where all that were entered are assigned.
    pub(crate) fn next_free(&mut self, trail: &Trail) -> Option<u32>
        requires { OffersFree trail.now.entries self.old }
        ensures some { IfSome result (λ var. (1 ≤ var) × (var ≤ entered_in self.old)
            × IsFree trail.now.entries var) }
        ensures none { IfNone result (AreAllAssigned trail.now.entries (entered_in self.old)) }
        ensures offers { OffersFree trail.now.entries self.new }
        ensures entered { entered_in self.new ≡ entered_in self.old }
    {
        match self {
            Ranking::Scores(scores) => scores.next_free(trail),
            Ranking::Queue(queue, _) => queue.next_free(trail),
        }
    }
}
