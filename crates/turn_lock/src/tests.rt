ghost use Rattle.std.specs.Prelude.{◌≡◌, ◌<◌, ℕ, true, false, [], length, slice_index_or, All};
ghost use Rattle.turn_lock.specs.Entries.{AddsOwn};
ghost use Rattle.turn_lock.specs.Passes.{PassView, IsOf};

use crate::{Kept, Pass, TurnLock};
use std::alloc::AllocError;
use std::sync::Wait;
use std::test::Fail;
use std::thread;
use std::thread::Threads;

// Pairs of a caller's number and a number.
#[derive(Drop)]
struct Log {
    items: Vec<(u32, u64)>,
}

impl Kept for Log {
    ghost use Rattle.std.specs.Prelude.{length};
    ghost use Rattle.std.proofs.Common.{arith, length-append, ap};

    type Entry = (u32, u64);

    type Ground = u64;

    ghost entries = { λ log. log.items.items };

    ghost caller = { λ entry. entry.0 };

    ghost count = { λ log. length log.items.items };

    ghost basis = { λ _. 0 };

    fn count_now(&self) -> u64 {
        self.items.len() as u64
    }

    ghost counts_up = { λ x y more same longer. Prim.omega
        (arith, ap length longer, length-append x.items.items more) };
}

impl Log {
    fn add(&mut self, caller: u32, number: u64) -> Result<(), AllocError>
        ensures { AddsOwn (λ entry. entry.0) caller self.old.items.items self.new.items.items }
    {
        self.items.push((caller, number))?;
        Ok(())
    }
}

// One entry in a hold of its own.
fn put<R: Wait>(
    rt: &R,
    lock: &TurnLock<Log>,
    pass: &mut Pass<Log>,
    number: u64,
) -> Result<(), AllocError>
    requires lock { IsOf lock.now pass.old }
    requires idle { pass.old.idle ≡ true }
    ensures lock { IsOf lock.now pass.new }
    ensures idle { pass.new.idle ≡ true }
    ensures number { pass.new.number ≡ pass.old.number }
{
    let mut held = lock.enter(rt, pass);
    let added = held.value().add(pass.number(), number);
    lock.leave(pass, held);
    added
}

// A hundred entries, each in a hold of its own. Where one finds no memory, the log ends up too
// short.
fn put_hundred<R: Wait>(rt: &R, lock: &TurnLock<Log>, pass: &mut Pass<Log>)
    requires lock { IsOf lock.now pass.old }
    requires idle { pass.old.idle ≡ true }
    ensures lock { IsOf lock.now pass.new }
    ensures idle { pass.new.idle ≡ true }
    ensures number { pass.new.number ≡ pass.old.number }
{
    for number in 0..100 {
        let _ = put(rt, lock, pass, number);
    }
}

fn fill<R: Threads + Wait + Sync>(rt: &R, lock: &TurnLock<Log>, passes: &mut [Pass<Log>])
    requires { All (λ pass. IsOf lock.now pass × (pass.idle ≡ true)) passes.old }
    ensures { (k : ℕ) (d : PassView (ℕ × ℕ) ℕ) → k < length passes.old
        → IsOf lock.now (slice_index_or passes.new k d)
        × ((slice_index_or passes.new k d).idle ≡ true)
        × ((slice_index_or passes.new k d).number ≡ (slice_index_or passes.old k d).number) }
{
    thread::for_each_mut(
        rt,
        passes,
        80,
        &|_: usize, pass: &mut Pass<Log>|
            requires { IsOf lock.now pass.old × (pass.old.idle ≡ true) }
            ensures { IsOf lock.entry.now pass.new × (pass.new.idle ≡ true)
                × (pass.new.number ≡ pass.old.number) }
        { put_hundred(rt, lock, pass) },
    );
}

// What one try to enter is refused with, if it is. Where it isn't, the hold adds nothing.
fn refusal_of(lock: &TurnLock<Log>, pass: &mut Pass<Log>) -> Option<u64>
    requires lock { IsOf lock.now pass.old }
    requires idle { pass.old.idle ≡ true }
    ensures lock { IsOf lock.now pass.new }
    ensures idle { pass.new.idle ≡ true }
    ensures number { pass.new.number ≡ pass.old.number }
    ensures own { pass.new.own ≡ pass.old.own }
{
    match lock.try_enter(pass) {
        Ok(held) => {
            lock.leave(pass, held);
            None
        }
        Err(found) => Some(found),
    }
}

// What a pass that has entered once knows, where it added nothing.
fn knows_of_others_alone(pass: &Pass<Log>, seen: usize)
    requires seen { length pass.now.seen ≡ seen }
    requires own { pass.now.own ≡ [] }
{
    let _ = pass;
    let _ = seen;
}

#[test]
fn a_pass_sees_what_another_added_and_is_refused_while_that_has_the_turn(
    rt: HostRuntime,
) -> Result<(), Fail> {
    let log = Log {
        items: Vec::new(rt.alloc()),
    };
    let (lock, mut passes) = TurnLock::make(rt.alloc(), log, 2)?;
    let Some(mut second) = passes.pop() else {
        panic!(rt; "there are two")
    };
    let Some(mut first) = passes.pop() else {
        panic!(rt; "there are two")
    };

    let mut held = lock.enter(&rt, &mut first);
    let added = held.value().add(first.number(), 7);
    let refusal = refusal_of(&lock, &mut second);
    lock.leave(&mut first, held);
    added?;
    assert_eq!(rt; refusal, Some(1));

    let mut held = lock.enter(&rt, &mut second);
    let seen = held.value().items.len();
    let shown = held.value().items.as_slice() == [(1, 7)].as_slice();
    lock.leave(&mut second, held);
    knows_of_others_alone(&second, seen);
    assert!(rt; shown);
    assert_eq!(rt; refusal_of(&lock, &mut second), None);
    assert_eq!(rt; lock.count(&mut second), 1);
    Ok(())
}

#[test]
fn eighty_passes_in_threads_keep_each_their_own_entries_in_order(
    rt: HostRuntime,
) -> Result<(), Fail> {
    let log = Log {
        items: Vec::new(rt.alloc()),
    };
    let (lock, mut passes) = TurnLock::make(rt.alloc(), log, 80)?;
    fill(&rt, &lock, passes.as_mut_slice());
    let log = lock.close(passes, Vec::new(rt.alloc()));
    assert_eq!(rt; log.items.len(), 8000);
    for caller in 1..=80 {
        let mut next: u64 = 0;
        for (by, number) in log.items.as_slice() {
            if *by == caller {
                assert_eq!(rt; *number, next, "of {caller}");
                next = next.wrapping_add(1);
            }
        }
        assert_eq!(rt; next, 100, "of {caller}");
    }
    Ok(())
}
