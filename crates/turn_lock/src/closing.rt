// How a lock ends. A seat of no pass takes in the seats of all passes, and the table is closed with
// it.
ghost use Rattle.std.specs.Prelude.{◌≡◌, ◌<◌, ◌≤◌, true, [], ◌++◌, map, All};
ghost use Rattle.turn_lock.specs.Turns.{keeper};
ghost use Rattle.turn_lock.specs.Passes.{remembered, AllPast, FitsPasts};

use crate::kept::Kept;
use crate::lock::Pass;
use crate::plays::TakeIn;
use crate::rule::{TurnSeat, TurnShared, TurnTable, VALUE};

// The seat of no pass remembers these passes too, before those that it remembered.
pub fn take_in<T: Kept>(shared: &TurnShared<T>, seat: &mut TurnSeat<T>, mut passes: Vec<Pass<T>>)
    requires words { 0 < shared.now.table_id.words }
    requires table { seat.old.table_id ≡ shared.now.table_id }
    requires seat { seat.old.me ≡ (keeper seat.old.me.0.past, []) }
    requires passes { All
        (λ pass. (pass.lock ≡ shared.now.table_id) × (pass.idle ≡ true)) passes.items }
    ensures table { seat.new.table_id ≡ seat.old.table_id }
    ensures seat { seat.new.me ≡ (keeper (map remembered passes.items ++ seat.old.me.0.past), []) }
{
    while let Some(pass) = passes.pop() {
        let Pass {
            number: _,
            seat: taken,
        } = pass;
        shared.join_seat::<TakeIn>(seat, taken);
    }
    passes.destroy_empty();
}

// The value of a table whose passes were all taken in by this seat.
pub fn finish<T: Kept>(table: TurnTable<T>, seat: TurnSeat<T>) -> T
    requires slots { table.shared.table_id.slots ≡ 1 }
    requires table { seat.table_id ≡ table.shared.table_id }
    requires all { AllPast table.shared.key.passes seat.me.0.past }
    ensures basis { T.basis result ≡ T.basis table.shared.key.value.value }
    ensures callers { All (λ e. (0 < T.caller e) × (T.caller e ≤ table.shared.key.passes))
        (T.entries result) }
    ensures passes { FitsPasts
        T.entries T.caller T.count table.shared.key.passes seat.me.0.past result }
{
    let mut closed = table.close_with(seat);
    let value = closed.take(VALUE);
    closed.free();
    value.unwrap()
}
