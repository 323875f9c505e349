//! A tournament of jobs that wait: each knows its rank, and the first of all is known at once.
//!
//! A change takes one match a level of the tree and no memory, which a heap or an ordered set
//! couldn't promise. An entrant is two numbers, or it doesn't wait.

ghost use Rattle.std.specs.Prelude.{◌≡◌, ◌<◌, ◌+◌, ◌*◌, ◌/◌, [], ◌∷◌, ◌++◌, length, OnOk, OnErr};
ghost use Rattle.std.specs.Prelude.{None, slice_set};
ghost use Rattle.board_core.specs.Rank.{IsFirst, earlier_of};
ghost use Rattle.board_core.specs.Tree.{standing_at, AreWonBut, IsPlayed};

use crate::rank::{Rank, earlier_of};
use std::alloc::{AllocError, Global};
use std::marker::Model;

#[cfg(test)]
mod tests;

/// Entrants in their order, each with its rank or none while it doesn't wait. Contracts see a
/// tournament as the list of its entrants. Inner node `k` of the tree, counted from 1, has the
/// winner between the nodes `2k` and `2k + 1`; behind the inner nodes stand the entrants. So an
/// entrant takes 24 to 36 bytes.
#[derive(Debug, Drop)]
pub(crate) struct Tournament {
    entrants: Vec<Option<Rank>>,
    winners: Vec<Option<Rank>>,
}

impl Model for Tournament {
    ghost use Rattle.std.specs.Prelude.{List, Option};
    ghost use Rattle.board_core.specs.declared.rank.Rank.{Rank};

    ghost Value = { List (Option Rank) };

    ghost use Rattle.board_core.specs.Tree.{entrants_of, IsKept};

    ghost view = { entrants_of };

    ghost invariant = { IsKept };
}

impl Tournament {
    /// A tournament without entrants. Takes no memory.
    pub(crate) fn new(alloc: Global) -> Tournament
        ensures { result ≡ [] }
    {
        Tournament {
            entrants: Vec::new(alloc),
            winners: Vec::new(alloc),
        }
    }

    /// How many entrants it has, those that don't wait among them.
    pub(crate) fn len(&self) -> usize
        ensures { result ≡ length self.now }
    {
        self.entrants.len()
    }

    /// One more entrant behind the others.
    pub(crate) fn push(&mut self, entrant: Option<Rank>) -> Result<(), AllocError>
        ensures ok { OnOk result (self.new ≡ self.old ++ entrant ∷ []) }
        ensures err { OnErr result (self.new ≡ self.old) }
    {
        make_room(&self.entrants, &mut self.winners)?;
        let place = self.entrants.len();
        self.entrants.push(entrant)?;
        let leaf = self.winners.len() + place;
        replay(&self.entrants, &mut self.winners, leaf);
        Ok(())
    }

    /// Gives an entrant another rank, or none. Takes no memory.
    pub(crate) fn set(&mut self, place: usize, entrant: Option<Rank>)
        requires { place < length self.old }
        ensures { self.new ≡ slice_set self.old place entrant }
    {
        self.entrants[place] = entrant;
        let leaf = self.winners.len() + place;
        replay(&self.entrants, &mut self.winners, leaf);
    }

    /// The rank of the first entrant that waits, or none where no entrant waits.
    pub(crate) fn first(&self) -> Option<Rank>
        ensures { IsFirst self.now result }
    {
        standing_at(&self.entrants, &self.winners, 1)
    }
}

fn standing_at(entrants: &[Option<Rank>], winners: &[Option<Rank>], node: usize) -> Option<Rank>
    ensures { result ≡ standing_at entrants.now winners.now node }
{
    if node < winners.len() {
        return winners[node];
    }
    match entrants.get(node - winners.len()) {
        Some(entrant) => *entrant,
        None => None,
    }
}

// Plays the match at an inner node.
fn play(entrants: &[Option<Rank>], winners: &mut [Option<Rank>], node: usize)
    requires inner { node < length winners.old }
    ensures { winners.new
        ≡ slice_set winners.old node
        (earlier_of (standing_at entrants.now winners.old (2 * node))
        (standing_at entrants.now winners.old (2 * node + 1))) }
{
    let left = standing_at(entrants, winners, 2 * node);
    let right = standing_at(entrants, winners, 2 * node + 1);
    winners[node] = earlier_of(left, right);
}

// Plays the matches on the way up from a leaf, where no other match has changed.
fn replay(entrants: &[Option<Rank>], winners: &mut [Option<Rank>], leaf: usize)
    requires leaf { leaf < 2 * length winners.old }
    requires others { AreWonBut entrants.now winners.old 1 (leaf / 2) }
    ensures len { length winners.new ≡ length winners.old }
    ensures won { AreWonBut entrants.now winners.new 1 0 }
{
    let mut node = leaf;
    while node > 1 {
        node /= 2;
        play(entrants, winners, node);
    }
}

// Plays all matches, from the leaves on.
fn play_all(entrants: &[Option<Rank>], winners: &mut [Option<Rank>])
    ensures len { length winners.new ≡ length winners.old }
    ensures won { AreWonBut entrants.now winners.new 1 0 }
{
    let mut node = winners.len();
    while node > 1 {
        node -= 1;
        play(entrants, winners, node);
    }
}

// Sees to it that one more entrant has a leaf: doubles the inner nodes where none is left, and
// plays all matches again.
fn make_room(entrants: &[Option<Rank>], winners: &mut Vec<Option<Rank>>) -> Result<(), AllocError>
    requires { IsPlayed entrants.now winners.old.items }
    ensures played { IsPlayed entrants.now winners.new.items }
    ensures room { OnOk result (length entrants.now < length winners.new.items) }
{
    if entrants.len() < winners.len() {
        return Ok(());
    }
    let nodes = (2 * winners.len()).max(1);
    winners.resize(nodes, None)?;
    play_all(entrants, winners);
    Ok(())
}
