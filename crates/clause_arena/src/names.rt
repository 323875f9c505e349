//! Tags and origins of clauses, twelve bytes for each.

ghost use Rattle.std.specs.Prelude.{◌≡◌, ℕ, ◌<◌, [], ◌∷◌, ◌++◌, length, take, IfSome, IfOk, OnOk};
ghost use Rattle.std.specs.Prelude.{OnErr, slice_set};
ghost use Rattle.clause_arena.specs.Named.{named_at, ref_of, IsAmong, IsPlain};

use sat_base::Ref;
use std::alloc::{AllocError, Global};
use std::marker::Model;
use std::mem::size_of;

// A `Ref` in eight bytes, a variant for each of its own. A name whose numbers are too large for
// that stands as it is in a list beside, and the origin has its place there.
#[derive(Clone, Copy, Debug)]
enum Origin {
    Input(u32),
    Own(u32),
    Shared { step: u16, packet: u32 },
    Listed(u32),
}

const _: () = prove!(size_of::<Origin>() == 8);

// The origin that stands for the name without a list, if there is one.
fn plain_origin(name: Ref) -> Option<Origin>
    ensures value { IfSome result (λ origin. ref_of [] origin ≡ name) }
    ensures plain { IfSome result IsPlain }
{
    match name {
        Ref::Input(number) => Some(Origin::Input(number)),
        Ref::Own(number) if number <= u32::MAX as u64 => Some(Origin::Own(number as u32)),
        Ref::Shared { packet, step } if step <= u16::MAX as u64 => Some(Origin::Shared {
            step: step as u16,
            packet,
        }),
        _ => None,
    }
}

#[derive(Clone, Copy, Debug)]
struct Name {
    origin: Origin,
    tag: u32,
}

const _: () = prove!(size_of::<Name>() == 12);

/// Tags and origins, seen as the list of them.
#[derive(Debug, Drop)]
pub(crate) struct Names {
    names: Vec<Name>,
    listed: Vec<Ref>,
}

impl Model for Names {
    ghost use Rattle.std.specs.Prelude.{List};
    ghost use Rattle.clause_arena.specs.Named.{Named};

    ghost Value = { List Named };

    ghost use Rattle.clause_arena.specs.Naming.{names_of, AreAmong};

    ghost view = { names_of };

    ghost invariant = { AreAmong };
}

impl Names {
    pub(crate) fn new(alloc: Global) -> Names
        ensures { result ≡ [] }
    {
        Names {
            names: Vec::new(alloc),
            listed: Vec::new(alloc),
        }
    }

    pub(crate) fn tag(&self, id: usize) -> u32
        requires { id < length self.now }
        ensures { result ≡ (named_at self.now id).tag }
    {
        self.names[id].tag
    }

    pub(crate) fn origin(&self, id: usize) -> Ref
        requires { id < length self.now }
        ensures { result ≡ (named_at self.now id).origin }
    {
        match self.names[id].origin {
            Origin::Input(number) => Ref::Input(number),
            Origin::Own(number) => Ref::Own(number as u64),
            Origin::Shared { step, packet } => Ref::Shared {
                packet,
                step: step as u64,
            },
            Origin::Listed(place) => self.listed[place as usize],
        }
    }

    // Keeps the first n.
    pub(crate) fn truncate(&mut self, n: usize)
        ensures { self.new ≡ take n self.old }
    {
        self.names.truncate(n);
    }

    // Puts the name of one clause in the place of another's.
    pub(crate) fn copy(&mut self, from: usize, to: usize)
        requires from { from < length self.old }
        requires to { to < length self.old }
        ensures { self.new ≡ slice_set self.old to (named_at self.old from) }
    {
        self.names[to] = self.names[from];
    }

    pub(crate) fn push(&mut self, tag: u32, origin: Ref) -> Result<(), AllocError>
        ensures ok { OnOk result
            (self.new ≡ self.old ++ record { tag = tag; origin = origin } ∷ []) }
        ensures err { OnErr result (self.new ≡ self.old) }
    {
        // First the room: a name that is listed stays there.
        self.names.reserve(1)?;
        let origin = origin_in(&mut self.listed, origin)?;
        self.names.push_reserved(Name { origin, tag });
        Ok(())
    }
}

// The origin that stands for the name, which is listed if there is no other.
fn origin_in(listed: &mut Vec<Ref>, name: Ref) -> Result<Origin, AllocError>
    ensures value { IfOk result (λ origin. ref_of listed.new.items origin ≡ name) }
    ensures among { IfOk result (λ origin. IsAmong listed.new.items origin) }
    ensures kept { take (length listed.old.items) listed.new.items ≡ listed.old.items }
{
    if let Some(plain) = plain_origin(name) {
        return Ok(plain);
    }
    let place = listed.len();
    if place > u32::MAX as usize {
        return Err(AllocError);
    }
    listed.push(name)?;
    Ok(Origin::Listed(place as u32))
}
