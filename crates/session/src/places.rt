//! The known places of the shared database.

ghost use Rattle.std.specs.Prelude.{◌≡◌, ℕ, ◌+◌, ◌-◌, ◌≤◌, ◌∷◌, [], ◌++◌, length, take, get_or};
ghost use Rattle.std.specs.Prelude.{replicate, slice_set, is_some, IsSome, Some, None, OnOk, OnErr};
ghost use Rattle.session.specs.Solver.{packet_at};
ghost use Rattle.session.specs.Places.{AreThere, IsFrontOf, steps_by_place};

use std::alloc::{AllocError, Global};
use std::marker::Model;
use std::sync::Arc;
use trace_core::Packet;

/// The packets of the known places of the shared database. Contracts see it as its packets by
/// place: item n - 1 is that of place n.
#[derive(Debug, Drop)]
pub(crate) struct Places {
    packets: Vec<Option<Arc<Packet>>>,
    // How many first places are known; the one behind them isn't.
    front: usize,
}

impl Model for Places {
    ghost use Rattle.session.specs.Places.{Packets};

    ghost Value = { Packets };

    ghost use Rattle.session.specs.Places.{IsFrontOf};

    ghost view = { λ places. places.packets.items };

    ghost invariant = { λ places. IsFrontOf places.packets.items places.front };
}

impl Places {
    /// No places. Takes no memory.
    #[tactic(auto, using(crate::proofs::KnownPlaces::no_front))]
    pub(crate) fn new(alloc: Global) -> Places
        ensures { result ≡ [] }
    {
        Places {
            packets: Vec::new(alloc),
            front: 0,
        }
    }

    pub(crate) fn len(&self) -> usize
        ensures { result ≡ length self.now }
    {
        self.packets.len()
    }

    /// Whether the place is known.
    pub(crate) fn knows(&self, place: u32) -> bool
        ensures { result ≡ is_some (packet_at (steps_by_place self.now) place) }
    {
        place > 0
            && self
                .packets
                .get(place as usize - 1)
                .is_some_and(|packet| packet.is_some())
    }

    /// How many first places are known: each of the places 1 to that number is, and the next one
    /// isn't.
    pub(crate) fn front(&self) -> usize
        ensures known { (place : ℕ) → 1 ≤ place → place ≤ result
            → IsSome (packet_at (steps_by_place self.now) place) }
        ensures next { packet_at (steps_by_place self.now) (result + 1) ≡ None }
    {
        self.front
    }

    /// Has at least so many places, or as many more as there was memory for.
    pub(crate) fn reach(&mut self, places: usize) -> Result<(), AllocError>
        ensures more { (count : ℕ) × (self.new ≡ self.old ++ replicate count None) }
        ensures ok { OnOk result (places ≤ length self.new) }
    {
        push_places(&mut self.packets, places)
    }

    /// Keeps the first so many places.
    #[tactic(auto, using(crate::proofs::KnownPlaces::front_cut))]
    pub(crate) fn truncate(&mut self, places: usize)
        ensures { self.new ≡ take places self.old }
    {
        self.packets.truncate(places);
        self.front = self.front.min(places);
    }

    /// Knows the place from now on. A place is passed by the front once, so this takes constant
    /// time in the long run.
    #[tactic(auto, using(crate::proofs::KnownPlaces::there_marked))]
    pub(crate) fn mark(&mut self, place: u32, packet: Arc<Packet>)
        requires place { 1 ≤ place }
        requires reached { place ≤ length self.old }
        ensures { self.new ≡ slice_set self.old (place - 1) (Some packet) }
    {
        self.packets[place as usize - 1] = Some(packet);
        self.front = passed(&self.packets, self.front);
    }
}

// Adds places that aren't known until there are so many.
fn push_places(packets: &mut Vec<Option<Arc<Packet>>>, places: usize) -> Result<(), AllocError>
    ensures more { (count : ℕ) × (packets.new.items ≡ packets.old.items ++ replicate count None) }
    ensures ok { OnOk result (places ≤ length packets.new.items) }
{
    while packets.len() < places {
        push_place(packets)?;
    }
    Ok(())
}

fn push_place(packets: &mut Vec<Option<Arc<Packet>>>) -> Result<(), AllocError>
    ensures ok { OnOk result (packets.new.items ≡ packets.old.items ++ None ∷ []) }
    ensures err { OnErr result (packets.new.items ≡ packets.old.items) }
{
    if packets.push(None).is_err() {
        return Err(AllocError);
    }
    Ok(())
}

// The front that is reached over the known places behind this one.
fn passed(packets: &[Option<Arc<Packet>>], from: usize) -> usize
    requires { AreThere packets.now from }
    ensures { IsFrontOf packets.now result }
{
    let mut front = from;
    while front < packets.len() && packets[front].is_some() {
        front += 1;
    }
    front
}
