//! A doubly linked circle of variables, by index.

ghost use Rattle.std.specs.Prelude.{◌≡◌, ℕ, ◌+◌, ◌<◌, List, ◌∷◌, length, Contains};
ghost use Rattle.pick_core.specs.Links.{IsJoined, IsOrder, HasVariable, IsNew, AreNew, HasWay};
ghost use Rattle.pick_core.specs.Links.{IsWay, IsFoundOn, farther_at};
ghost use Rattle.pick_core.specs.Queue.{without, with_next, entered};

use std::mem::size_of;
use trail_core::Trail;

// The neighbours of a variable: the one that is farther from the end, and the one that is nearer to
// it. Variable 0 stands for both ends.
#[derive(Clone, Copy, Debug)]
pub(crate) struct Links {
    pub farther: u32,
    pub nearer: u32,
}

const _: () = prove!(size_of::<Links>() == 8);

impl Links {
    pub(crate) fn none() -> Links
        ensures farther { result.farther ≡ 0 }
        ensures nearer { result.nearer ≡ 0 }
    {
        Links {
            farther: 0,
            nearer: 0,
        }
    }
}

// Makes two variables neighbours.
fn join(links: &mut Vec<Links>, nearer: u32, farther: u32)
    requires nearer { nearer < length links.old.items }
    requires farther { farther < length links.old.items }
    ensures { IsJoined links.old.items links.new.items nearer farther }
{
    links[nearer as usize].farther = farther;
    links[farther as usize].nearer = nearer;
}

// Moves a variable to the end.
pub(crate) fn move_to_end(links: &mut Vec<Links>, var: u32)
    requires { HasVariable links.old.items var }
    ensures order { (order : List ℕ) → IsOrder links.old.items order → Contains order var
        → IsOrder links.new.items (var ∷ without var order) }
    ensures size { length links.new.items ≡ length links.old.items }
{
    let old = links[var as usize];
    join(links, old.nearer, old.farther);
    let last = links[0].farther;
    join(links, 0, var);
    join(links, var, last);
}

// The variable nearest the end, 0 where there is none.
pub(crate) fn last(links: &Vec<Links>) -> u32
    ensures { result ≡ farther_at links.now.items 0 }
{
    if links.is_empty() {
        0
    } else {
        links[0].farther
    }
}

// Enters the variables above `from` up to `to`, each at the end or each at the front.
pub(crate) fn enter_all(links: &mut Vec<Links>, from: u32, to: u32, at_end: bool)
    requires { AreNew links.old.items from to }
    ensures order { (order : List ℕ) → IsOrder links.old.items order → length order ≡ from
        → IsOrder links.new.items (entered at_end order from to) }
    ensures size { length links.new.items ≡ length links.old.items }
{
    let mut var = from;
    while var < to {
        var += 1;
        enter(links, var, at_end);
    }
}

// Enters the next variable, at the end or at the front.
fn enter(links: &mut Vec<Links>, var: u32, at_end: bool)
    requires { IsNew links.old.items var }
    ensures order { (order : List ℕ) → IsOrder links.old.items order → var ≡ length order + 1
        → IsOrder links.new.items (with_next at_end var order) }
    ensures size { length links.new.items ≡ length links.old.items }
{
    if at_end {
        let last = links[0].farther;
        join(links, 0, var);
        join(links, var, last);
    } else {
        let first = links[0].nearer;
        join(links, first, var);
        join(links, var, 0);
    }
}

// The first free variable on the way from this one, 0 where none is.
pub(crate) fn first_free(links: &Vec<Links>, from: u32, trail: &Trail) -> u32
    requires { HasWay links.now.items from }
    ensures { (rest : List ℕ) → IsWay links.now.items from rest
        → IsFoundOn trail.now.entries links.now.items rest result }
{
    let mut at = from;
    while at != 0 {
        if trail.place(at).is_none() {
            break;
        }
        at = links[at as usize].farther;
    }
    at
}
