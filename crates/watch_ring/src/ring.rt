//! The lists.
//!
//! A clause watches two literals, and a watch moves in the midst of propagation, where nobody could
//! answer that memory ran out. A growing array for each literal would take memory just then, and
//! three words for a literal before its first watch. So the lists go through the clauses: a side of
//! a clause has one link, to the next side in its list, and a literal has the first. To move a side
//! is to unhook a link and hook it in front of another list, which takes no memory and leaves no
//! gap to sweep up. Links go one way, since a walk knows the side that it came from. A side is a
//! number of four bytes that tells the clause and which of its first two literals it is; so a clause
//! takes eight bytes and a literal four. The price is that a walk learns the next clause only from
//! the one that it looks at.

ghost use Rattle.std.specs.Prelude.{◌≡◌, ◌≢◌, ℕ, ◌+◌, ◌*◌, ◌<◌, ◌≤◌, max, List, [], ◌∷◌, ◌++◌};
ghost use Rattle.std.specs.Prelude.{length, OnOk};
ghost use Rattle.std.specs.Prelude.{OnErr};
ghost use Rattle.std.specs.Option.{option_map};
ghost use Rattle.sat_base.specs.Lit.{variable};
ghost use Rattle.watch_ring.specs.Link.{pair_of, number_of};
ghost use Rattle.watch_ring.specs.Ring.{AreDisjoint, list_of, StandsNowhere, StandsAfter};
ghost use Rattle.watch_ring.specs.Ring.{first_of, without};
ghost use Rattle.watch_ring.specs.Layout.{IsExtended};

use crate::link::Link;
use sat_base::Lit;
use std::alloc::{AllocError, Global};
use std::marker::Model;

// No literal has a greater variable, so no place is made for one.
const GREATEST_VARIABLE: u32 = 8_388_607;

// A link tells a side by a number of four bytes.
const MOST_CLAUSES: usize = 2_147_483_647;

/// For each literal a list of sides of clauses; each side stands in at most one list, once.
/// Contracts see it as the list of each literal, in which a side is a number, `2 * id + side`.
#[derive(Debug, Drop)]
pub struct WatchRing {
    heads: Vec<Link>,
    links: Vec<Link>,
    vars: u32,
    clauses: usize,
}

impl Model for WatchRing {
    ghost use Rattle.watch_ring.specs.Ring.{RingView};

    ghost Value = { RingView };

    ghost use Rattle.watch_ring.specs.Layout.{ring_of, IsKept};

    ghost view = { ring_of };

    ghost invariant = { IsKept };
}

impl WatchRing {
    /// Empty lists, with no variable and no clause reserved. Takes no memory.
    pub fn new(alloc: Global) -> WatchRing
        ensures lists { (lit : ℕ) → list_of result lit ≡ [] }
        ensures vars { result.vars ≡ 0 }
        ensures clauses { result.clauses ≡ 0 }
    {
        WatchRing {
            heads: Vec::new(alloc),
            links: Vec::new(alloc),
            vars: 0,
            clauses: 0,
        }
    }

    /// Reserves the variables 1 to `vars` and the clauses below `clauses`; those that are reserved
    /// already stay so. Takes eight bytes for each variable up to 8,388,607 and eight for each
    /// clause. More than 2,147,483,647 clauses are answered as want of memory.
    pub fn reserve(&mut self, vars: u32, clauses: usize) -> Result<(), AllocError>
        ensures lists { (lit : ℕ) → list_of self.new lit ≡ list_of self.old lit }
        ensures ok_vars { OnOk result (self.new.vars ≡ max self.old.vars vars) }
        ensures ok_clauses { OnOk result (self.new.clauses ≡ max self.old.clauses clauses) }
        ensures err_vars { OnErr result (self.new.vars ≡ self.old.vars) }
        ensures err_clauses { OnErr result (self.new.clauses ≡ self.old.clauses) }
    {
        if clauses > MOST_CLAUSES {
            return Err(AllocError);
        }
        let codes = 2 * (vars.min(GREATEST_VARIABLE) as usize) + 2;
        extend(&mut self.heads, codes)?;
        extend(&mut self.links, 2 * clauses)?;
        self.vars = self.vars.max(vars);
        self.clauses = self.clauses.max(clauses);
        Ok(())
    }

    /// Puts a side, which stands nowhere, in front of the list of a literal. Takes no memory.
    pub fn join(&mut self, lit: Lit, id: usize, side: u8)
        requires var { variable lit ≤ self.old.vars }
        requires clause { id < self.old.clauses }
        requires side { side < 2 }
        requires nowhere { StandsNowhere self.old (2 * id + side) }
        ensures front { list_of self.new lit ≡ (2 * id + side) ∷ list_of self.old lit }
        ensures others { (other : ℕ) → other ≢ lit
            → list_of self.new other ≡ list_of self.old other }
        ensures vars { self.new.vars ≡ self.old.vars }
        ensures clauses { self.new.clauses ≡ self.old.clauses }
    {
        let head = lit.code() as usize;
        let first = self.heads[head];
        let number = 2 * id + side as usize;
        self.links[number] = first;
        self.heads[head] = Link::to(number);
    }

    /// The side in front of the list of a literal: the number of its clause, and 0 or 1.
    pub fn first(&self, lit: Lit) -> Option<(usize, u8)>
        ensures value { result ≡ option_map pair_of (first_of (list_of self.now lit)) }
        ensures ring { AreDisjoint (list_of self.now) self.now.clauses }
    {
        let head = lit.code() as usize;
        if head < self.heads.len() {
            self.heads[head].side()
        } else {
            None
        }
    }

    /// The side behind this one in the list in which it stands: the number of its clause, and 0 or
    /// 1. Means nothing for a side that stands nowhere.
    pub fn next(&self, id: usize, side: u8) -> Option<(usize, u8)>
        requires clause { id < self.now.clauses }
        requires side { side < 2 }
        ensures value { (lit : ℕ) (front back : List ℕ)
            → list_of self.now lit ≡ front ++ (2 * id + side) ∷ back
            → result ≡ option_map pair_of (first_of back) }
        ensures ring { AreDisjoint (list_of self.now) self.now.clauses }
    {
        self.links[2 * id + side as usize].side()
    }

    /// Takes a side from the list of `from`, in which it stands just behind `before`, or in front
    /// where that is `None`, and puts it in front of the list of `to`. All other sides keep their
    /// order. Takes no memory.
    pub fn move_to(&mut self, from: Lit, before: Option<(usize, u8)>, id: usize, side: u8, to: Lit)
        requires place { StandsAfter (list_of self.old from) (option_map number_of before)
            (2 * id + side) }
        requires side { side < 2 }
        requires var { variable to ≤ self.old.vars }
        requires other { to ≢ from }
        ensures left { list_of self.new from ≡ without (2 * id + side) (list_of self.old from) }
        ensures front { list_of self.new to ≡ (2 * id + side) ∷ list_of self.old to }
        ensures others { (lit : ℕ) → lit ≢ from → lit ≢ to
            → list_of self.new lit ≡ list_of self.old lit }
        ensures vars { self.new.vars ≡ self.old.vars }
        ensures clauses { self.new.clauses ≡ self.old.clauses }
    {
        self.leave(from, before, id, side);
        self.join(to, id, side);
    }

    /// Takes a side from the list of `from`, in which it stands just behind `before`, or in front
    /// where that is `None`. All other sides keep their order. Takes no memory.
    pub fn leave(&mut self, from: Lit, before: Option<(usize, u8)>, id: usize, side: u8)
        requires place { StandsAfter (list_of self.old from) (option_map number_of before)
            (2 * id + side) }
        ensures left { list_of self.new from ≡ without (2 * id + side) (list_of self.old from) }
        ensures others { (lit : ℕ) → lit ≢ from → list_of self.new lit ≡ list_of self.old lit }
        ensures known { 2 * id + side < 2 * self.new.clauses }
        ensures nowhere { StandsNowhere self.new (2 * id + side) }
        ensures vars { self.new.vars ≡ self.old.vars }
        ensures clauses { self.new.clauses ≡ self.old.clauses }
    {
        let after = self.links[2 * id + side as usize];
        match before {
            None => self.heads[from.code() as usize] = after,
            Some((id, side)) => self.links[2 * id + side as usize] = after,
        }
    }

    /// Takes all sides from their lists. What is reserved stays so. Takes no memory.
    pub fn clear(&mut self)
        ensures lists { (lit : ℕ) → list_of self.new lit ≡ [] }
        ensures vars { self.new.vars ≡ self.old.vars }
        ensures clauses { self.new.clauses ≡ self.old.clauses }
    {
        self.heads.fill(Link::none());
    }
}

// Makes the links so many, the new ones to nothing, where they are fewer.
fn extend(links: &mut Vec<Link>, len: usize) -> Result<(), AllocError>
    ensures extended { IsExtended links.old.items links.new.items len }
    ensures ok { OnOk result (len ≤ length links.new.items) }
{
    if len <= links.len() {
        return Ok(());
    }
    links.resize(len, Link::none())
}

#[cfg(test)]
mod tests;
