//! Hints, four bytes for each.

ghost use Rattle.std.specs.Prelude.{◌≡◌, ℕ, ◌<◌, [], ◌∷◌, ◌++◌, length, take, IfSome, IfOk, OnOk};
ghost use Rattle.std.specs.Prelude.{OnErr, slice_index_or};
ghost use Rattle.sat_base.specs.declared.origins.Ref.TheVariants.{Own};
ghost use Rattle.step_table.specs.Hint.{IsAmong, ref_of};

use sat_base::Ref;
use std::alloc::{AllocError, Global};
use std::marker::Model;

// A name is written as one number of four bytes. From each of these on stand the names of one kind:
// inputs from 0 on, then own steps, steps of packets, and places in a list of names whose numbers
// are too large for that.
const OWN: u32 = 1_073_741_824;

const SHARED: u32 = 2_147_483_648;

const LISTED: u32 = 3_221_225_472;

// A packet has so many numbers for its steps, and so many packets have them.
const STEPS: u32 = 256;

const PACKETS: u32 = 4_194_304;

// The number that stands for the name without a list, if there is one.
fn plain(name: Ref) -> Option<u32>
    ensures value { IfSome result (λ code. ref_of [] code ≡ name) }
    ensures plain { IfSome result (λ code. code < 3221225472) }
{
    match name {
        Ref::Input(number) if number < OWN => Some(number),
        Ref::Own(number) if number < OWN as u64 => Some(OWN + number as u32),
        Ref::Shared { packet, step } if packet < PACKETS && step < STEPS as u64 => {
            Some(SHARED + packet * STEPS + step as u32)
        }
        _ => None,
    }
}

/// Names, seen as the list of them.
#[derive(Debug, Drop)]
pub(crate) struct HintTable {
    codes: Vec<u32>,
    listed: Vec<Ref>,
}

impl Model for HintTable {
    ghost use Rattle.std.specs.Prelude.{List};
    ghost use Rattle.sat_base.specs.declared.origins.Ref.{Ref};

    ghost Value = { List Ref };

    ghost use Rattle.step_table.specs.Hints.{names_of, AreAmong};

    ghost view = { names_of };

    ghost invariant = { AreAmong };
}

impl HintTable {
    /// No names. Takes no memory.
    pub(crate) fn new(alloc: Global) -> HintTable
        ensures { result ≡ [] }
    {
        HintTable {
            codes: Vec::new(alloc),
            listed: Vec::new(alloc),
        }
    }

    /// Equal names.
    pub(crate) fn copy(&self, alloc: Global) -> Result<HintTable, AllocError>
        ensures { IfOk result (λ copy. copy ≡ self.now) }
    {
        Ok(HintTable {
            codes: Vec::from_slice(alloc, &self.codes)?,
            listed: Vec::from_slice(alloc, &self.listed)?,
        })
    }

    /// How many names there are.
    pub(crate) fn len(&self) -> usize
        ensures { result ≡ length self.now }
    {
        self.codes.len()
    }

    /// The name at a place.
    pub(crate) fn get(&self, place: usize) -> Ref
        requires { place < length self.now }
        ensures { result ≡ slice_index_or self.now place (Own 0) }
    {
        let code = self.codes[place];
        if code < OWN {
            Ref::Input(code)
        } else if code < SHARED {
            Ref::Own((code - OWN) as u64)
        } else if code < LISTED {
            Ref::Shared {
                packet: (code - SHARED) / STEPS,
                step: ((code - SHARED) % STEPS) as u64,
            }
        } else {
            self.listed[(code - LISTED) as usize]
        }
    }

    /// Keeps the first n. Takes no memory.
    pub(crate) fn truncate(&mut self, n: usize)
        ensures { self.new ≡ take n self.old }
    {
        self.codes.truncate(n);
    }

    /// Adds names behind the others, all or none.
    pub(crate) fn extend(&mut self, names: &[Ref]) -> Result<(), AllocError>
        ensures ok { OnOk result (self.new ≡ self.old ++ names.now) }
        ensures err { OnErr result (self.new ≡ self.old) }
    {
        let before = self.len();
        match self.push_all(names) {
            Ok(()) => Ok(()),
            Err(refused) => {
                self.truncate(before);
                Err(refused)
            }
        }
    }

    fn push_all(&mut self, names: &[Ref]) -> Result<(), AllocError>
        ensures ok { OnOk result (self.new ≡ self.old ++ names.now) }
        ensures front { take (length self.old) self.new ≡ self.old }
    {
        for name in names {
            self.push(*name)?;
        }
        Ok(())
    }

    fn push(&mut self, name: Ref) -> Result<(), AllocError>
        ensures ok { OnOk result (self.new ≡ self.old ++ name ∷ []) }
        ensures err { OnErr result (self.new ≡ self.old) }
    {
        // First the room: a name that is listed stays there.
        self.codes.reserve(1)?;
        let code = code_in(&mut self.listed, name)?;
        self.codes.push_reserved(code);
        Ok(())
    }
}

// The number that stands for the name, which is listed if there is no other.
fn code_in(listed: &mut Vec<Ref>, name: Ref) -> Result<u32, AllocError>
    ensures value { IfOk result (λ code. ref_of listed.new.items code ≡ name) }
    ensures among { IfOk result (λ code. IsAmong listed.new.items code) }
    ensures kept { take (length listed.old.items) listed.new.items ≡ listed.old.items }
{
    if let Some(code) = plain(name) {
        return Ok(code);
    }
    let place = listed.len();
    if place > (u32::MAX - LISTED) as usize {
        return Err(AllocError);
    }
    listed.push(name)?;
    Ok(LISTED + place as u32)
}
