//! What depends on the number of workers: budgets, the rule `first`, and jobs beside each other.

use super::outcomes::{PIGEONS, UNDER_BUDGETS, UNDER_FIRST};
use super::sides::{WORKERS, assert_on, run_on, run_through};
use super::{Case, PLAIN, TWO_ANSWERS, assert_output};
use board_core::Board;
use entry_core::{Entry, Event};
use run_io::DoorGate;
use std::test::Fail;

// One worker goes through the jobs in order, as the run alone does.
#[test]
fn budgets_and_the_rule_first_hold_on_one_worker(rt: HostRuntime) -> Result<(), Fail> {
    for case in UNDER_BUDGETS {
        assert_on(&rt, rt.alloc(), "--workers 1", case)?;
    }
    for case in UNDER_FIRST {
        assert_on(&rt, rt.alloc(), "--workers 1", case)?;
    }
    Ok(())
}

// With more workers the second job may be refuted before the first one's model stands.
#[test]
fn under_first_a_job_before_the_model_is_never_cancelled(rt: HostRuntime) -> Result<(), Fail> {
    let case = Case {
        words: "--first",
        text: "p inccnf\n1 0\na 1 0\n-1 0\na 0\n",
        ..PLAIN
    };
    for workers in WORKERS {
        let run = run_on(&rt, rt.alloc(), workers, &case)?;
        if run.status == 1 {
            assert_output(
                &rt,
                &run,
                "j 1 SATISFIABLE\nv 1 0\nj 2 CANCELLED\nend 2\n",
                1,
            );
        } else {
            assert_output(&rt, &run, TWO_ANSWERS, 0);
        }
    }
    Ok(())
}

#[test]
fn two_jobs_run_beside_each_other(rt: HostRuntime) -> Result<(), Fail> {
    let gate = DoorGate::new(1, 2, 10_000_000);
    let run = run_through(&rt, rt.alloc(), "--workers 2", &PLAIN, &gate)?;
    assert_output(&rt, &run, TWO_ANSWERS, 0);
    assert!(&rt; gate.answered() && !gate.was_late());
    Ok(())
}

// Whether a packet was shared before the first decision.
fn is_shared_first(board: &Board) -> bool {
    let is_shared = |entry: &Entry| matches!(entry.event, Event::Shared(_));
    let is_decided = |entry: &Entry| matches!(entry.event, Event::Decided { .. });
    let shared = board.journal().iter().position(is_shared);
    let decided = board.journal().iter().position(is_decided);
    shared.is_some() && shared < decided
}

#[test]
fn a_worker_shares_what_it_learnt_before_it_decides(rt: HostRuntime) -> Result<(), Fail> {
    let case = Case {
        text: PIGEONS,
        ..PLAIN
    };
    let run = run_on(&rt, rt.alloc(), "--workers 1", &case)?;
    assert!(&rt; run.board.is_some_and(|board| is_shared_first(&board)));
    Ok(())
}
