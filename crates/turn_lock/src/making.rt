// How a lock and its passes are made.
ghost use Rattle.std.specs.Prelude.{◌≡◌, ◌<◌, ◌≤◌, [], ◌∷◌, length, vec_capacity, IfOk};
ghost use Rattle.turn_lock.specs.Turns.{first_pass};
ghost use Rattle.turn_lock.specs.Passes.{AreNew};

use crate::kept::Kept;
use crate::lock::{Pass, TurnLock};
use crate::plays::NextPass;
use crate::rule::{About, TurnSeat};
use atomic_table::Table;
use std::alloc::{AllocError, Global};
use std::snapshot::Snapshot;
use std::sync::atomic::AtomicU32;

// The lock, and the seat of its first pass.
pub fn open<T: Kept + Drop>(
    alloc: Global,
    value: T,
    passes: u32,
) -> Result<(TurnLock<T>, TurnSeat<T>), AllocError>
    requires empty { T.entries value ≡ [] }
    requires some { 0 < passes }
    requires most { passes ≤ 80 }
    ensures lock { IfOk result (λ made. (made.0.basis ≡ T.basis value) × (made.0.passes ≡ passes)) }
    ensures seat { IfOk result
        (λ made. (made.1.table_id ≡ made.0.id)
        × (made.1.me ≡ (first_pass (T.basis value) (T.count value), []))) }
{
    let about = About {
        value: Snapshot::of(&value),
        passes,
    };
    let count = value.count_now();
    let mut slots = Vec::with_capacity(alloc, 1)?;
    slots.push_reserved(Some(value));
    match Table::new(alloc, &[0, count], slots, &about) {
        Ok((table, seat)) => {
            let lock = TurnLock {
                table,
                passes,
                sleepers: AtomicU32::new(0),
            };
            Ok((lock, seat))
        }
        Err(_) => Err(AllocError),
    }
}

// Puts the passes of a new lock into `dealt`, of which the first has this seat.
pub fn deal<T: Kept>(lock: &TurnLock<T>, first: TurnSeat<T>, dealt: &mut Vec<Pass<T>>)
    requires some { 0 < lock.now.passes }
    requires most { lock.now.passes ≤ 80 }
    requires table { first.table_id ≡ lock.now.id }
    requires first { first.me ≡ (first_pass lock.now.basis first.me.0.floor, []) }
    requires empty { dealt.old.items ≡ [] }
    requires room { lock.now.passes ≤ vec_capacity dealt.old }
    ensures count { length dealt.new.items ≡ lock.now.passes }
    ensures passes { AreNew lock.now first.me.0.floor dealt.new.items }
{
    let mut seat = first;
    for number in 1..lock.passes {
        let next = lock.table.shared.split_seat::<NextPass>(&mut seat);
        dealt.push_reserved(Pass { number, seat });
        seat = next;
    }
    dealt.push_reserved(Pass {
        number: lock.passes,
        seat,
    });
}
