// What each kind of atomic step tells the seat that makes it.
use crate::kept::Kept;
use crate::view::SeatView;
use atomic_table::{Join, Play, Split};

// The exchange on the turn word, of 0 by the pass's number.
pub struct Acquire;

impl<T: Kept> Play<Option<T>, SeatView<T::Entry, T::Ground>> for Acquire {
    ghost use Rattle.turn_lock.specs.Turns.{acquired};

    ghost then = { acquired T.entries T.caller T.count T.basis };
}

// The store of the count, once the value is back in the seat's slot.
pub struct StoreCount;

impl<T: Kept> Play<Option<T>, SeatView<T::Entry, T::Ground>> for StoreCount {
    ghost use Rattle.turn_lock.specs.Turns.{count_stored};

    ghost then = { count_stored T.entries T.caller };
}

// The store of 0 in the turn word, by which the slot goes home.
pub struct Release;

impl<T: Kept> Play<Option<T>, SeatView<T::Entry, T::Ground>> for Release {
    ghost use Rattle.turn_lock.specs.Turns.{released};

    ghost then = { released };
}

// The load of the count word.
pub struct LoadCount;

impl<T: Kept> Play<Option<T>, SeatView<T::Entry, T::Ground>> for LoadCount {
    ghost use Rattle.turn_lock.specs.Turns.{count_loaded};

    ghost then = { count_loaded };
}

// A seat for one more pass. The right to number the next one goes with the newest seat, so passes
// come in order.
pub struct NextPass;

impl<E, G> Split<SeatView<E, G>> for NextPass {
    ghost use Rattle.turn_lock.specs.Turns.{numbered, newcomer};

    ghost left = { numbered };

    ghost right = { newcomer };
}

// A load by which the seat of no pass comes in, to close the lock with.
pub struct Observe;

impl<T: Kept> Play<Option<T>, SeatView<T::Entry, T::Ground>> for Observe {
    ghost use Rattle.turn_lock.specs.Turns.{observed};

    ghost then = { observed };
}

// A pass's seat is given up to the seat of no pass, which remembers it.
pub struct TakeIn;

impl<E, G> Join<SeatView<E, G>> for TakeIn {
    ghost use Rattle.turn_lock.specs.Turns.{remembering, blank};

    ghost both = { remembering };

    ghost spent = { blank };
}
