//! A binary heap of variables, by index.
//!
//! A search takes the best free variable, raises scores of variables wherever they stand, and puts
//! back those that became free. So each variable knows its place in the order: a bump moves it up
//! from there, and to put back one that still waits is one look. A heap of pairs without places
//! would hold a variable once for each of its bumps, and grow with conflicts. The order is one of
//! all variables, those that wait in front, so that only `reserve` takes memory: what is taken
//! changes places with the last that waits. Score, rank and place stand side by side, since a match
//! of two variables reads the first two and their exchange writes the third. Equal scores are
//! decided by rank, so that two searches that learnt the same decide the same.

ghost use Rattle.std.specs.Prelude.{◌≡◌, ◌≢◌, ℕ, ◌+◌, ◌*◌, ◌/◌, ◌<◌, ◌≤◌, min, max, [], length};
ghost use Rattle.std.specs.Prelude.{not, IsTrue, IfSome, IfNone, OnOk, OnErr};
ghost use Rattle.trail_core.specs.Trail.{IsFree};
ghost use Rattle.pick_core.specs.Assigned.{AreAllAssigned};
ghost use Rattle.pick_core.specs.Heap.{IsPut, IsPlaced, IsExchanged, IsHeap, IsUpHeap, IsDownHeap};
ghost use Rattle.pick_core.specs.Heap.{HasSameKeys, IsIn, IsBestChild, IsBest, weight_in, var_at};
ghost use Rattle.pick_core.specs.Heap.{rank_at, score_at, place_at, IsScored, IsScaled, IsFilled};
ghost use Rattle.pick_core.specs.Heap.{entry_rank, AreIn};

use std::alloc::{AllocError, Global};
use std::mem::size_of;
use trail_core::Trail;

// What is kept of a variable: its score, its rank among variables of equal scores, and its place in
// the order.
#[derive(Clone, Copy, Debug)]
pub(crate) struct Item {
    pub score: u64,
    pub rank: u32,
    pub place: u32,
}

const _: () = prove!(size_of::<Item>() == 16);

// All variables in an order whose first `count` are a heap: none of them is before its parent. The
// others don't wait.
#[derive(Debug, Drop)]
pub(crate) struct Heap {
    pub items: Vec<Item>,
    pub order: Vec<u32>,
    pub count: usize,
}

// Ranks are of four bytes, and those of the variables entered at the end are in the upper half.
const MIDDLE: u32 = 2_147_483_648;

// Scores lose so many bits where they are scaled down.
pub(crate) const SHIFT: u32 = 40;

impl Item {
    fn none() -> Item {
        Item {
            score: 0,
            rank: 0,
            place: 0,
        }
    }
}

impl Heap {
    pub(crate) fn new(alloc: Global) -> Heap
        ensures items { result.items.items ≡ [] }
        ensures order { result.order.items ≡ [] }
        ensures count { result.count ≡ 0 }
    {
        Heap {
            items: Vec::new(alloc),
            order: Vec::new(alloc),
            count: 0,
        }
    }

    // Adds to the score of a variable.
    fn reward(&mut self, var: u32, amount: u64)
        requires low { 1 ≤ var }
        requires high { var ≤ length self.old.items.items }
        ensures scored { IsScored self.old.items.items self.new.items.items var }
        ensures score { score_at self.new.items.items var
            ≡ min (score_at self.old.items.items var + amount) 18446744073709551615 }
        ensures order { self.new.order.items ≡ self.old.order.items }
        ensures count { self.new.count ≡ self.old.count }
    {
        let index = var as usize - 1;
        let score = self.items[index].score;
        self.items[index].score = score.saturating_add(amount);
    }

    // Adds to the score of a variable, and moves it up, where it is in the heap.
    pub(crate) fn add(&mut self, var: u32, amount: u64)
        requires heap { IsHeap self.old.items.items self.old.order.items self.old.count }
        requires low { 1 ≤ var }
        requires high { var ≤ length self.old.items.items }
        ensures heap { IsHeap self.new.items.items self.new.order.items self.new.count }
        ensures size { length self.new.items.items ≡ length self.old.items.items }
        ensures score { score_at self.new.items.items var
            ≡ min (score_at self.old.items.items var + amount) 18446744073709551615 }
        ensures others { (other : ℕ) → 1 ≤ other → other ≢ var
            → score_at self.new.items.items other ≡ score_at self.old.items.items other }
        ensures ranks { (other : ℕ)
            → rank_at self.new.items.items other ≡ rank_at self.old.items.items other }
        ensures waits { (other : ℕ) → IsIn self.old.items.items self.old.count other
            → IsIn self.new.items.items self.new.count other }
    {
        self.reward(var, amount);
        let place = self.items[var as usize - 1].place as usize;
        if place >= self.count {
            return;
        }
        self.raise(place);
    }

    // Divides all scores.
    fn shift(&mut self)
        ensures scaled { IsScaled self.old.items.items self.new.items.items }
        ensures order { self.new.order.items ≡ self.old.order.items }
        ensures count { self.new.count ≡ self.old.count }
    {
        let mut index = 0;
        while index < self.items.len() {
            self.items[index].score >>= SHIFT;
            index += 1;
        }
    }

    // Puts the variables above `from` into the heap.
    fn push_above(&mut self, from: u32)
        requires { IsHeap self.old.items.items self.old.order.items self.old.count }
        ensures heap { IsHeap self.new.items.items self.new.order.items self.new.count }
        ensures keys { HasSameKeys self.old.items.items self.new.items.items }
        ensures above { AreIn self.new.items.items self.new.count from
            (length self.old.items.items) }
        ensures waits { (var : ℕ) → IsIn self.old.items.items self.old.count var
            → IsIn self.new.items.items self.new.count var }
    {
        let vars = self.items.len() as u32;
        let mut var = from;
        while var < vars {
            var += 1;
            self.push(var);
        }
    }

    // The same from the last variable on: where a later one comes first, none has to move up then.
    fn push_from_last(&mut self, from: u32)
        requires { IsHeap self.old.items.items self.old.order.items self.old.count }
        ensures heap { IsHeap self.new.items.items self.new.order.items self.new.count }
        ensures keys { HasSameKeys self.old.items.items self.new.items.items }
        ensures above { AreIn self.new.items.items self.new.count from
            (length self.old.items.items) }
        ensures waits { (var : ℕ) → IsIn self.old.items.items self.old.count var
            → IsIn self.new.items.items self.new.count var }
    {
        let mut var = self.items.len() as u32;
        while var > from {
            self.push(var);
            var -= 1;
        }
    }

    // Puts the variables above `from` into the heap, those first that come first where all scores
    // are equal.
    fn enter(&mut self, from: u32, at_end: bool)
        requires { IsHeap self.old.items.items self.old.order.items self.old.count }
        ensures heap { IsHeap self.new.items.items self.new.order.items self.new.count }
        ensures keys { HasSameKeys self.old.items.items self.new.items.items }
        ensures above { AreIn self.new.items.items self.new.count from
            (length self.old.items.items) }
        ensures waits { (var : ℕ) → IsIn self.old.items.items self.old.count var
            → IsIn self.new.items.items self.new.count var }
    {
        if at_end {
            self.push_from_last(from);
        } else {
            self.push_above(from);
        }
    }

    // Divides all scores and puts all variables into the heap, since ranks may decide now where
    // scores did.
    pub(crate) fn scale_down(&mut self)
        requires heap { IsHeap self.old.items.items self.old.order.items self.old.count }
        ensures heap { IsHeap self.new.items.items self.new.order.items self.new.count }
        ensures size { length self.new.items.items ≡ length self.old.items.items }
        ensures scores { (var : ℕ) → score_at self.new.items.items var
            ≡ score_at self.old.items.items var / 1099511627776 }
        ensures ranks { (var : ℕ)
            → rank_at self.new.items.items var ≡ rank_at self.old.items.items var }
        ensures waits { AreIn self.new.items.items self.new.count 0
            (length self.old.items.items) }
    {
        self.count = 0;
        self.shift();
        self.push_above(0);
    }

    // Makes the places above `from` those of new variables.
    fn fill(&mut self, from: usize, at_end: bool)
        requires room { length self.old.items.items ≤ length self.old.order.items }
        requires few { length self.old.items.items ≤ 2147483647 }
        ensures filled { IsFilled self.old.items.items self.old.order.items self.new.items.items
            self.new.order.items from at_end }
        ensures count { self.new.count ≡ self.old.count }
    {
        let mut index = from;
        while index < self.items.len() {
            let var = index as u32 + 1;
            let rank = if at_end { MIDDLE + var } else { MIDDLE - var };
            self.items[index] = Item {
                score: 0,
                rank,
                place: index as u32,
            };
            self.order[index] = var;
            index += 1;
        }
    }

    // Enters the variables up to `vars`.
    pub(crate) fn reserve(&mut self, vars: u32, at_end: bool) -> Result<(), AllocError>
        requires heap { IsHeap self.old.items.items self.old.order.items self.old.count }
        ensures heap { IsHeap self.new.items.items self.new.order.items self.new.count }
        ensures size { OnOk result
            (length self.new.items.items ≡ max (length self.old.items.items) vars) }
        ensures scores { (var : ℕ) → score_at self.new.items.items var
            ≡ score_at self.old.items.items var }
        ensures ranks { (var : ℕ) → 1 ≤ var → var ≤ length self.old.items.items
            → rank_at self.new.items.items var ≡ rank_at self.old.items.items var }
        ensures entered { OnOk result ((var : ℕ) → length self.old.items.items < var
            → var ≤ vars → rank_at self.new.items.items var ≡ entry_rank at_end var) }
        ensures waits { (var : ℕ) → IsIn self.old.items.items self.old.count var
            → IsIn self.new.items.items self.new.count var }
        ensures new { OnOk result (AreIn self.new.items.items self.new.count
            (length self.old.items.items) vars) }
        ensures err_items { OnErr result (self.new.items.items ≡ self.old.items.items) }
        ensures err_count { OnErr result (self.new.count ≡ self.old.count) }
    {
        let len = self.items.len();
        if vars as usize <= len {
            return Ok(());
        }
        if vars >= MIDDLE {
            return Err(AllocError);
        }
        self.order.resize(vars as usize, 0)?;
        self.items.resize(vars as usize, Item::none())?;
        self.fill(len, at_end);
        self.enter(len as u32, at_end);
        Ok(())
    }

    // Puts a variable at a place.
    fn put(&mut self, place: usize, var: u32)
        requires place { place < length self.old.order.items }
        requires few { place < 4294967296 }
        requires low { 1 ≤ var }
        requires high { var ≤ length self.old.items.items }
        ensures put { IsPut self.old.items.items self.old.order.items self.new.items.items
            self.new.order.items place var }
        ensures count { self.new.count ≡ self.old.count }
    {
        self.order[place] = var;
        self.items[var as usize - 1].place = place as u32;
    }

    // Exchanges the variables at two places.
    fn exchange(&mut self, first: usize, second: usize)
        requires placed { IsPlaced self.old.items.items self.old.order.items }
        requires first { first < length self.old.items.items }
        requires second { second < length self.old.items.items }
        ensures exchanged { IsExchanged self.old.items.items self.old.order.items
            self.new.items.items self.new.order.items first second }
        ensures count { self.new.count ≡ self.old.count }
    {
        let var = self.order[first];
        let other = self.order[second];
        self.put(first, other);
        self.put(second, var);
    }

    // Whether the variable at the first place comes before the one at the second.
    fn is_before(&self, first: usize, second: usize) -> bool
        requires placed { IsPlaced self.now.items.items self.now.order.items }
        requires first { first < length self.now.items.items }
        requires second { second < length self.now.items.items }
        ensures before { IsTrue result
            → weight_in self.now.items.items self.now.order.items second
            < weight_in self.now.items.items self.now.order.items first }
        ensures not_before { IsTrue (not result)
            → weight_in self.now.items.items self.now.order.items first
            ≤ weight_in self.now.items.items self.now.order.items second }
    {
        let item = self.items[self.order[first] as usize - 1];
        let other = self.items[self.order[second] as usize - 1];
        if item.score != other.score {
            return item.score > other.score;
        }
        item.rank > other.rank
    }

    // Moves a variable up to where its parent isn't behind it.
    fn raise(&mut self, from: usize)
        requires { IsUpHeap self.old.items.items self.old.order.items self.old.count from }
        ensures heap { IsHeap self.new.items.items self.new.order.items self.new.count }
        ensures keys { HasSameKeys self.old.items.items self.new.items.items }
        ensures count { self.new.count ≡ self.old.count }
        ensures waits { (var : ℕ) → IsIn self.old.items.items self.old.count var
            → IsIn self.new.items.items self.new.count var }
    {
        let mut at = from;
        while at > 0 {
            let parent = (at - 1) / 2;
            if !self.is_before(at, parent) {
                return;
            }
            self.exchange(at, parent);
            at = parent;
        }
    }

    // The child that comes first, of a place in the heap.
    fn best_child(&self, at: usize) -> Option<usize>
        requires placed { IsPlaced self.now.items.items self.now.order.items }
        requires within { self.now.count ≤ length self.now.items.items }
        requires few { at ≤ self.now.count }
        ensures some { IfSome result (λ child. IsBestChild self.now.items.items
            self.now.order.items self.now.count at child) }
        ensures none { IfNone result (self.now.count ≤ 2 * at + 1) }
    {
        let left = 2 * at + 1;
        if left >= self.count {
            return None;
        }
        let right = left + 1;
        if right >= self.count {
            return Some(left);
        }
        if self.is_before(right, left) {
            return Some(right);
        }
        Some(left)
    }

    // Moves the first variable down to where no child is before it.
    fn lower(&mut self)
        requires { IsDownHeap self.old.items.items self.old.order.items self.old.count 0 }
        ensures heap { IsHeap self.new.items.items self.new.order.items self.new.count }
        ensures keys { HasSameKeys self.old.items.items self.new.items.items }
        ensures count { self.new.count ≡ self.old.count }
        ensures waits { (var : ℕ) → IsIn self.old.items.items self.old.count var
            → IsIn self.new.items.items self.new.count var }
    {
        let mut at = 0;
        while let Some(child) = self.best_child(at) {
            if !self.is_before(child, at) {
                return;
            }
            self.exchange(child, at);
            at = child;
        }
    }

    // Takes the first variable out.
    fn pop(&mut self)
        requires heap { IsHeap self.old.items.items self.old.order.items self.old.count }
        requires some { 0 < self.old.count }
        ensures heap { IsHeap self.new.items.items self.new.order.items self.new.count }
        ensures keys { HasSameKeys self.old.items.items self.new.items.items }
        ensures count { self.new.count + 1 ≡ self.old.count }
        ensures waits { (var : ℕ) → var ≢ var_at self.old.order.items 0
            → IsIn self.old.items.items self.old.count var
            → IsIn self.new.items.items self.new.count var }
    {
        self.count -= 1;
        self.exchange(0, self.count);
        self.lower();
    }

    // Puts a variable in, where it isn't in the heap.
    pub(crate) fn push(&mut self, var: u32)
        requires heap { IsHeap self.old.items.items self.old.order.items self.old.count }
        requires low { 1 ≤ var }
        requires high { var ≤ length self.old.items.items }
        ensures heap { IsHeap self.new.items.items self.new.order.items self.new.count }
        ensures keys { HasSameKeys self.old.items.items self.new.items.items }
        ensures is_in { IsIn self.new.items.items self.new.count var }
        ensures waits { (var : ℕ) → IsIn self.old.items.items self.old.count var
            → IsIn self.new.items.items self.new.count var }
    {
        let place = self.items[var as usize - 1].place as usize;
        if place < self.count {
            return;
        }
        self.exchange(place, self.count);
        self.count += 1;
        self.raise(self.count - 1);
    }

    // The first free variable: of those in the heap, assigned ones before it are taken out.
    pub(crate) fn first_free(&mut self, trail: &Trail) -> Option<u32>
        requires heap { IsHeap self.old.items.items self.old.order.items self.old.count }
        requires waits { (var : ℕ) → 1 ≤ var → var ≤ length self.old.items.items
            → IsFree trail.now.entries var → IsIn self.old.items.items self.old.count var }
        ensures heap { IsHeap self.new.items.items self.new.order.items self.new.count }
        ensures keys { HasSameKeys self.old.items.items self.new.items.items }
        ensures waits { (var : ℕ) → 1 ≤ var → var ≤ length self.old.items.items
            → IsFree trail.now.entries var → IsIn self.new.items.items self.new.count var }
        ensures some { IfSome result
            (λ var. IsBest trail.now.entries self.new.items.items var) }
        ensures none { IfNone result
            (AreAllAssigned trail.now.entries (length self.old.items.items)) }
    {
        while self.count > 0 {
            let var = self.order[0];
            if trail.place(var).is_none() {
                return Some(var);
            }
            self.pop();
        }
        None
    }
}
