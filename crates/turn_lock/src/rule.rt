// The rule of the lock's table. Its words are the turn, which is 0 or the number of the pass that
// has a hold, and the count. Its one slot holds the value, or nothing while the value is out in a
// hold.
use crate::kept::Kept;
use crate::view::SeatView;
use atomic_table::{Seat, Shared, Table, TableRule};
use std::alloc::Global;
use std::marker::PhantomData;
use std::snapshot::Snapshot;

// The two words and the one slot, by their places in the table.
pub const TURN: usize = 0;

pub const COUNT: usize = 1;

pub const VALUE: usize = 0;

// What the rule reads of the value that the lock was made with, and how many passes there are.
#[derive(Drop)]
pub struct About<T> {
    pub value: Snapshot<T>,
    pub passes: u32,
}

pub struct Turns<T> {
    kept: PhantomData<T>,
}

impl<T: Kept> TableRule<Option<T>, SeatView<T::Entry, T::Ground>, About<T>> for Turns<T> {
    ghost use Rattle.turn_lock.specs.Turns.{IsOneHistory, first_pass};

    ghost holds = { λ about. IsOneHistory T.entries T.caller T.count T.basis
        (T.basis about.value.value) about.passes };

    ghost first = { λ about. first_pass (T.basis about.value.value) (T.count about.value.value) };
}

pub type TurnView<T> = SeatView<<T as Kept>::Entry, <T as Kept>::Ground>;

pub type TurnTable<T> = Table<Option<T>, TurnView<T>, About<T>, Turns<T>, Global>;

pub type TurnShared<T> = Shared<Option<T>, TurnView<T>, About<T>, Turns<T>>;

pub type TurnSeat<T> = Seat<Option<T>, TurnView<T>>;
