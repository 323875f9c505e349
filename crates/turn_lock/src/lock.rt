// The lock, its passes and its holds.
ghost use Rattle.std.specs.Prelude.{◌≡◌, ◌+◌, ◌<◌, ◌≤◌, ℕ, true, false, List, [], ◌∷◌, ◌++◌};
ghost use Rattle.std.specs.Prelude.{length, map, All, IfOk, IfErr};
ghost use Rattle.std.specs.Borrow.{sem};
ghost use Rattle.turn_lock.specs.declared.view.Look.TheVariants.{Turn, Count};
ghost use Rattle.turn_lock.specs.Entries.{AddsOwn, entries_of};
ghost use Rattle.turn_lock.specs.Passes.{IsOf, AgreesWith, AreNew, AreIdleInOrder};

use crate::closing::{finish, take_in};
use crate::kept::Kept;
use crate::making::{deal, open};
use crate::plays::{Acquire, LoadCount, Observe, Release, StoreCount};
use crate::rule::{COUNT, TURN, TurnSeat, TurnTable, VALUE};
use std::alloc::{AllocError, Global};
use std::marker::Model;
use std::sync::Wait;
use std::sync::atomic::AtomicU32;
use std::sync::atomic::Ordering::SeqCst;

/// A lock round one value. Each caller comes with a pass of its own.
///
/// Its turn is a word of a table: the number of the pass that holds the value, 0 where none does.
/// The steps on the words of the table are all that the promises of the lock rest on. Beside them
/// stands a count of the callers that may sleep, so that nobody who leaves asks the system to wake
/// a sleeper where there is none, which would take longer than the rest of a hold.
///
/// No caller sleeps for ever while the turn is free. A caller that found the turn taken adds itself
/// to the sleepers, and sleeps only where the turn word, looked at once more by the system, is
/// still the number that it found; whoever leaves frees the word, and then reads the sleepers. All
/// these steps are sequentially consistent: where the count was read without the caller in it, the
/// caller's look at the word comes after it was freed, and it doesn't sleep. Who is woken counts
/// itself out and tries again; where it finds the turn taken anew, it counts itself in again, and
/// the new holder's leave wakes it or another of those that are still counted.
#[derive(Drop)]
pub struct TurnLock<T: Kept> {
    pub(crate) table: TurnTable<T>,
    pub(crate) passes: u32,
    pub(crate) sleepers: AtomicU32,
}

impl<T: Kept> Model for TurnLock<T> {
    ghost use Rattle.std.specs.Prelude.{◌≡◌};
    ghost use Rattle.turn_lock.specs.Passes.{LockView};

    ghost Value = { LockView T.Ground };

    ghost view = { λ l. record {
      id = l.table.shared.table_id;
      basis = T.basis l.table.shared.key.value.value;
      passes = l.passes;
    } };

    ghost invariant = { λ l. (l.table.shared.table_id.words ≡ 2)
        × (l.table.shared.table_id.slots ≡ 1) × (l.table.shared.key.passes ≡ l.passes) };
}

/// The right to enter a lock, of one caller at a time. It may go to another thread.
#[derive(Drop)]
pub struct Pass<T: Kept> {
    pub(crate) number: u32,
    pub(crate) seat: TurnSeat<T>,
}

impl<T: Kept> Model for Pass<T> {
    ghost use Rattle.turn_lock.specs.Passes.{PassView, pass_view, IsPassSeat};

    ghost Value = { PassView T.Entry T.Ground };

    ghost view = { λ p. pass_view p.seat.table_id p.seat.me.0 };

    ghost invariant = { λ p. IsPassSeat T.caller p.number p.seat.me };
}

/// The value while it is out of the lock. A hold can't be dropped: `TurnLock::leave` alone spends
/// it.
pub struct Held<T> {
    value: T,
}

impl<T: Kept> Pass<T> {
    /// The number of the pass, from 1 on.
    pub fn number(&self) -> u32
        ensures value { result ≡ self.now.number }
        ensures least { 0 < result }
    {
        self.number
    }
}

impl<T> Held<T> {
    ghost use Rattle.turn_lock.specs.Lending.{LendsValue};

    /// The value, to read and to change. What is written through the reference is what
    /// `TurnLock::leave` puts back.
    pub fn value(&mut self) -> &mut T
        ensures* writes_back { sem 𝓛 (LendsValue T.row self.entry result) }
        ensures value { result.now ≡ self.old.value }
    {
        &mut self.value
    }
}

impl<T: Kept + Drop> TurnLock<T> {
    /// A lock round `value`, and its passes in the order of their numbers, from 1 to `passes`, of
    /// which there are at most 80. Where there is no memory the value is dropped.
    pub fn make(
        alloc: Global,
        value: T,
        passes: u32,
    ) -> Result<(TurnLock<T>, Vec<Pass<T>>), AllocError>
        requires empty { T.entries value ≡ [] }
        requires some { 0 < passes }
        requires most { passes ≤ 80 }
        ensures basis { IfOk result (λ made. made.0.basis ≡ T.basis value) }
        ensures number { IfOk result
            (λ made. (made.0.passes ≡ passes) × (length made.1.items ≡ passes)) }
        ensures passes { IfOk result (λ made. AreNew made.0 (T.count value) made.1.items) }
    {
        let mut dealt = Vec::with_capacity(alloc, passes as usize)?;
        let (lock, first) = open(alloc, value, passes)?;
        deal(&lock, first, &mut dealt);
        Ok((lock, dealt))
    }
}

impl<T: Kept> TurnLock<T> {
    /// Waits for the turn, and takes the value out. The pass has then seen all its entries.
    pub fn enter<R: Wait>(&self, rt: &R, pass: &mut Pass<T>) -> Held<T>
        requires lock { IsOf self.now pass.old }
        requires idle { pass.old.idle ≡ true }
        ensures basis { T.basis result.value ≡ self.now.basis }
        ensures shown { AgreesWith T.entries T.caller T.count pass.old result.value }
        // The turn was got by the last exchange, and found taken by those before it.
        ensures pass { (found : List ℕ) × All (λ word. 0 < word) found
            × (pass.new ≡ record pass.old {
              seen = T.entries result.value;
              idle = false;
              looks = pass.old.looks ++ map Turn found ++ Turn 0 ∷ [];
            }) }
    {
        for _ in rt.forever() {
            match self.try_enter(pass) {
                Ok(held) => return held,
                Err(found) => {
                    self.sleepers.fetch_add(1, SeqCst);
                    self.table.shared.park(rt, TURN, found as u32);
                    self.sleepers.fetch_sub(1, SeqCst);
                }
            }
        }
        unreachable!()
    }

    /// One try to get the turn. The refusal is the word that it found, the number of the pass that
    /// had the turn then.
    pub fn try_enter(&self, pass: &mut Pass<T>) -> Result<Held<T>, u64>
        requires lock { IsOf self.now pass.old }
        requires idle { pass.old.idle ≡ true }
        ensures basis { IfOk result (λ held. T.basis held.value ≡ self.now.basis) }
        ensures shown { IfOk result
            (λ held. AgreesWith T.entries T.caller T.count pass.old held.value) }
        ensures pass { IfOk result (λ held. pass.new ≡ record pass.old {
          seen = T.entries held.value;
          idle = false;
          looks = pass.old.looks ++ Turn 0 ∷ [];
        }) }
        ensures refusal { IfErr result (λ found. (0 < found) × (found ≤ 80)) }
        ensures refused { IfErr result
            (λ found. pass.new ≡ record pass.old { looks = pass.old.looks ++ Turn found ∷ [] }) }
    {
        let shared = &self.table.shared;
        let found = shared.compare_exchange::<Acquire>(&mut pass.seat, TURN, 0, pass.number as u64);
        if found != 0 {
            return Err(found);
        }
        let value = shared.exchange(&mut pass.seat, VALUE, None).unwrap();
        Ok(Held { value })
    }

    /// Puts the value back and frees the turn. Wakes one call of `enter` that sleeps, if there is
    /// one.
    pub fn leave(&self, pass: &mut Pass<T>, held: Held<T>)
        requires lock { IsOf self.now pass.old }
        requires busy { pass.old.idle ≡ false }
        requires basis { T.basis held.value ≡ self.now.basis }
        requires added { AddsOwn T.caller pass.old.number pass.old.seen (T.entries held.value) }
        ensures pass { pass.new ≡ record pass.old {
          seen = T.entries held.value;
          own = entries_of T.caller pass.old.number (T.entries held.value);
          floor = T.count held.value;
          idle = true;
        } }
        ensures own { (added : List T.Entry) × (T.entries held.value ≡ pass.old.seen ++ added)
            × (pass.new.own ≡ pass.old.own ++ added) }
    {
        let shared = &self.table.shared;
        let Held { value } = held;
        let count = value.count_now();
        let left = shared.exchange(&mut pass.seat, VALUE, Some(value));
        let None = left else { unreachable!() };
        shared.store::<StoreCount>(&mut pass.seat, COUNT, count);
        shared.store::<Release>(&mut pass.seat, TURN, 0);
        if self.sleepers.load(SeqCst) != 0 {
            shared.wake_one(TURN);
        }
    }

    /// The count, by one load and without the turn. The pass's next hold shows no lower one.
    pub fn count(&self, pass: &mut Pass<T>) -> u64
        requires { IsOf self.now pass.old }
        ensures least { pass.old.floor ≤ result }
        ensures pass { pass.new
            ≡ record pass.old { floor = result; looks = pass.old.looks ++ Count result ∷ [] } }
    {
        self.table.shared.load::<LoadCount>(&mut pass.seat, COUNT)
    }

    /// Ends the lock, for which all its passes come back, in the order of their numbers: those of
    /// `front`, then those of `rest`.
    pub fn close(self, front: Vec<Pass<T>>, rest: Vec<Pass<T>>) -> T
        requires all { length (front.items ++ rest.items) ≡ self.passes }
        requires passes { AreIdleInOrder self (front.items ++ rest.items) }
        ensures basis { T.basis result ≡ self.basis }
        ensures callers { All (λ e. (0 < T.caller e) × (T.caller e ≤ self.passes))
            (T.entries result) }
        ensures passes { All (λ pass. AgreesWith T.entries T.caller T.count pass result)
            (front.items ++ rest.items) }
    {
        let (_, mut seat) = self.table.shared.load_new_seat::<Observe>(TURN);
        take_in(&self.table.shared, &mut seat, rest);
        take_in(&self.table.shared, &mut seat, front);
        let TurnLock { table, .. } = self;
        finish(table, seat)
    }
}
