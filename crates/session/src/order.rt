//! The order of decisions.

ghost use Rattle.std.specs.Prelude.{◌≡◌, ℕ, ◌≤◌, ◌∷◌, [], ◌++◌, List, IfSome, IfNone, OnOk, take};
ghost use Rattle.std.specs.Prelude.{◌<◌, length, not, IsTrue};
ghost use Rattle.sat_base.specs.Lit.{IsLit, variable};
ghost use Rattle.trail_core.specs.Trail.{Entry, IsTrail, entry_at, lits_of, up_to};
ghost use Rattle.trail_core.specs.UnderTrail.{IsUnassigned};
ghost use Rattle.session.specs.OnTrail.{AreAssigned};
ghost use Rattle.session.specs.Orders.{OffersFree, IsOrder};

use crate::ranking::Ranking;
use pick_core::Phases;
use sat_base::Lit;
use std::alloc::{AllocError, Global};
use trail_core::Trail;

/// Which free variable of the inputs a search decides next, and with which phase: the one that it
/// had last.
#[derive(Debug, Drop)]
pub(crate) struct Order {
    pub(crate) ranking: Ranking,
    pub(crate) phases: Phases,
    // The variables 1 to this number were entered.
    pub(crate) vars: u32,
    // New variables enter at the end, where the greatest comes first, or else at the front.
    pub(crate) at_end: bool,
}

impl Order {
    /// An order without variables. First phases are true in odd variants, and new variables enter
    /// at the end where half the variant is even. Of the variants 0 to 3 the even ones rank by
    /// scores and the odd ones by a queue, of the next four the other way about, and so on. Takes
    /// no memory.
    pub(crate) fn new(alloc: Global, variant: u32) -> Order
        ensures is { IsOrder result }
        ensures none { result.vars ≡ 0 }
        ensures offers { (entries : List Entry) → OffersFree entries result.ranking }
    {
        Order {
            ranking: Ranking::new(alloc, ranks_by_scores(variant)),
            phases: Phases::new(alloc, variant % 2 == 1),
            vars: 0,
            at_end: variant / 2 % 2 == 0,
        }
    }

    /// Enters the variables 1 to `vars`; those that were entered stay so.
    pub(crate) fn reserve(&mut self, vars: u32) -> Result<(), AllocError>
        requires is { IsOrder self.old }
        requires few { vars ≤ 8388607 }
        ensures is { IsOrder self.new }
        ensures offers { (entries : List Entry) → OffersFree entries self.old.ranking
            → OffersFree entries self.new.ranking }
        ensures low { self.old.vars ≤ self.new.vars }
        ensures high { (bound : ℕ) → self.old.vars ≤ bound → vars ≤ bound
            → self.new.vars ≤ bound }
        ensures ok { OnOk result (vars ≤ self.new.vars) }
    {
        if vars <= self.vars {
            return Ok(());
        }
        self.phases.reserve(vars)?;
        self.ranking.reserve(vars, self.at_end)?;
        self.vars = vars;
        Ok(())
    }

    // Says that a literal, the last one of a trail, is taken back: its phase is saved.
    fn put_back(&mut self, lit: Lit)
        requires is { IsOrder self.old }
        ensures is { IsOrder self.new }
        ensures offers { (entries : List Entry) (last : Entry) → last.lit ≡ lit
            → OffersFree (entries ++ last ∷ []) self.old.ranking
            → OffersFree entries self.new.ranking }
        ensures vars { self.new.vars ≡ self.old.vars }
    {
        self.save_phase(lit);
        self.ranking.put_back(lit.var());
    }

    // Saves the phase of a literal whose variable was entered.
    fn save_phase(&mut self, lit: Lit)
        requires is { IsOrder self.old }
        ensures is { IsOrder self.new }
        ensures parts { self.new ≡ record self.old { phases = self.new.phases } }
    {
        let var = lit.var();
        if var > self.vars {
            return;
        }
        self.phases.set(var, !lit.is_negative());
    }

    /// Says that the literals above a level are taken back: their phases are saved. Takes no
    /// memory.
    pub(crate) fn put_back_above(&mut self, trail: &Trail, level: u32)
        requires is { IsOrder self.old }
        requires offers { OffersFree trail.now.entries self.old.ranking }
        ensures is { IsOrder self.new }
        ensures offers { OffersFree (up_to level trail.now.entries) self.new.ranking }
        ensures vars { self.new.vars ≡ self.old.vars }
    {
        let left = count_up_to(trail, level);
        let lits = trail.lits();
        let mut count = lits.len();
        while count > left {
            count -= 1;
            self.put_back(lits[count]);
        }
    }

    /// Ranks the variables higher that a conflict met, and leaves them sorted as they were bumped.
    /// Those that weren't entered are passed over. Takes no memory.
    pub(crate) fn bump_all(&mut self, vars: &mut [u32])
        requires is { IsOrder self.old }
        ensures is { IsOrder self.new }
        ensures offers { (entries : List Entry) → OffersFree entries self.old.ranking
            → OffersFree entries self.new.ranking }
        ensures vars { self.new.vars ≡ self.old.vars }
    {
        self.ranking.sort(vars);
        for var in vars.iter() {
            self.bump(*var);
        }
        self.ranking.decay();
    }

    fn bump(&mut self, var: u32)
        requires is { IsOrder self.old }
        ensures is { IsOrder self.new }
        ensures offers { (entries : List Entry) → OffersFree entries self.old.ranking
            → OffersFree entries self.new.ranking }
        ensures vars { self.new.vars ≡ self.old.vars }
    {
        if var == 0 || var > self.vars {
            return;
        }
        self.ranking.bump(var);
    }

    /// The next decision: a literal of the free variable that comes first, with its saved phase;
    /// `None` where all variables that were entered are assigned.
    pub(crate) fn next(&mut self, trail: &Trail) -> Option<Lit>
        requires is { IsOrder self.old }
        requires offers { OffersFree trail.now.entries self.old.ranking }
        ensures is { IsOrder self.new }
        ensures offers { OffersFree trail.now.entries self.new.ranking }
        ensures vars { self.new.vars ≡ self.old.vars }
        ensures some { IfSome result (λ lit. IsLit lit × (variable lit ≤ self.old.vars)
            × IsUnassigned (lits_of trail.now.entries) lit) }
        ensures none { IfNone result (AreAssigned (lits_of trail.now.entries) self.old.vars) }
    {
        let var = self.ranking.next_free(trail)?;
        Some(literal(var, self.phases.get(var)))
    }
}

/// Whether an order of this variant ranks by scores.
pub(crate) fn ranks_by_scores(variant: u32) -> bool {
    variant % 2 == variant / 4 % 2
}

// How many literals of a trail are of this level and those below it.
fn count_up_to(trail: &Trail, level: u32) -> usize
    ensures within { result ≤ length trail.now.entries }
    ensures front { up_to level trail.now.entries ≡ take result trail.now.entries }
{
    let mut count = trail.lits().len();
    while count > 0 {
        if !is_above(trail, count - 1, level) {
            return count;
        }
        count -= 1;
    }
    0
}

// The literal of a variable that has this phase.
fn literal(var: u32, phase: bool) -> Lit
    requires low { 1 ≤ var }
    requires high { var ≤ 8388607 }
    ensures variable { variable result ≡ var }
    ensures is { IsLit result }
{
    let number = var as i32;
    if phase {
        return Lit::of(number).unwrap();
    }
    Lit::of(-number).unwrap()
}

// Whether the literal at this place of the trail is of a higher level than this one.
fn is_above(trail: &Trail, place: usize, level: u32) -> bool
    requires { place < length trail.now.entries }
    ensures trail { IsTrail trail.now }
    ensures yes { IsTrue result → level < (entry_at trail.now.entries place).level }
    ensures no { IsTrue (not result) → (entry_at trail.now.entries place).level ≤ level }
{
    let lits = trail.lits();
    trail.level(lits[place].var()).unwrap_or(0) > level
}
