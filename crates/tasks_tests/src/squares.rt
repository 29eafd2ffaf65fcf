//! Workers that square the numbers of their tasks.
ghost use Rattle.std.specs.Prelude.{All, IfOk, ◌≡◌};

use std::alloc::{AllocError, Global};
use std::sync::atomic::{AtomicBool, Ordering};
use std::test::Fail;
use tasks::{FreeGate, Gate, Performed, TaskFault, Worker, perform_all};

#[derive(Clone, Copy, PartialEq, Eq)]
enum Answer {
    Square(u64),
    HeldBack,
    Undrawn,
}

#[derive(Drop)]
struct Squarer {
    id: usize,
    total: usize,
    performed: u64,
}

impl Worker for Squarer {
    type Outcome = Answer;

    ghost use Rattle.std.specs.Prelude.{ℕ};

    ghost Plan = { ℕ };

    ghost plan = { λ w. w.total };

    ghost total = { λ plan. plan };

    ghost Id = { ℕ };

    ghost id = { λ w. w.id };

    ghost count = { λ _. 0 };

    ghost kept_receipts = { λ _. 0 };

    ghost held = { λ _. 0 };

    ghost failed = { λ _. 0 };

    ghost reported = { λ _. 0 };

    ghost fits = { λ _ _ _. Unit {0} };

    fn perform(&mut self, _alloc: Global, number: usize) -> Answer {
        let number = number as u64;
        self.performed = self.performed.wrapping_add(1);
        Answer::Square(number.wrapping_mul(number))
    }

    fn held_back() -> Answer {
        Answer::HeldBack
    }

    fn undrawn() -> Answer {
        Answer::Undrawn
    }
}

// So many workers for so many tasks.
fn squarers(alloc: Global, total: usize, count: usize) -> Result<Vec<Squarer>, AllocError>
    ensures { IfOk result (λ v. All (λ w. w.total ≡ total) v.items) }
{
    let mut workers = Vec::new(alloc);
    for id in 0..count {
        workers.push(Squarer {
            id,
            total,
            performed: 0,
        })?;
    }
    Ok(workers)
}

#[test]
fn three_workers_square_200_numbers(rt: HostRuntime) -> Result<(), Fail> {
    let workers = squarers(rt.alloc(), 200, 3)?;
    let Ok(Performed { outcomes, workers }) = perform_all(&rt, rt.alloc(), workers, 200, &FreeGate)
    else {
        panic!(rt; "refused");
    };
    assert_eq!(rt; outcomes.len(), 200);
    for (place, (number, answer)) in outcomes.iter().enumerate() {
        assert_eq!(rt; place, *number);
        let square = (place as u64).wrapping_mul(place as u64);
        assert!(rt; *answer == Answer::Square(square), "{place}");
    }
    let mut performed = 0u64;
    for (place, worker) in workers.iter().enumerate() {
        assert_eq!(rt; place, worker.id);
        performed = performed.wrapping_add(worker.performed);
    }
    assert_eq!(rt; performed, 200);
    Ok(())
}

// Holds task 0 until task 1 has its outcome.
#[derive(Drop)]
struct SecondFirst {
    answered: AtomicBool,
}

impl Gate for SecondFirst {
    fn may_start(&self, number: usize, _turn: u64) -> bool {
        number != 0 || self.answered.load(Ordering::SeqCst)
    }

    fn answered(&self, number: usize) {
        if number == 1 {
            self.answered.store(true, Ordering::SeqCst);
        }
    }
}

#[test]
fn a_gate_turns_two_tasks_round(rt: HostRuntime) -> Result<(), Fail> {
    let gate = SecondFirst {
        answered: AtomicBool::new(false),
    };
    let workers = squarers(rt.alloc(), 2, 2)?;
    let Ok(done) = perform_all(&rt, rt.alloc(), workers, 2, &gate) else {
        panic!(rt; "refused");
    };
    assert!(rt;
        done.outcomes.as_slice() == [(0, Answer::Square(0)), (1, Answer::Square(1))].as_slice()
    );
    Ok(())
}

// Never lets task 0 start.
struct NeverFirst;

impl Gate for NeverFirst {
    fn may_start(&self, number: usize, _turn: u64) -> bool {
        number != 0
    }

    fn answered(&self, _number: usize) {}
}

#[test]
fn a_task_that_never_may_start_is_held_back(rt: HostRuntime) -> Result<(), Fail> {
    let workers = squarers(rt.alloc(), 2, 1)?;
    let Ok(done) = perform_all(&rt, rt.alloc(), workers, 2, &NeverFirst) else {
        panic!(rt; "refused");
    };
    assert!(rt;
        done.outcomes.as_slice() == [(0, Answer::HeldBack), (1, Answer::Square(1))].as_slice()
    );
    Ok(())
}

#[test]
fn up_to_a_million_tasks_and_64_workers(rt: HostRuntime) -> Result<(), Fail> {
    for (total, count) in [(1, 0), (1, 65), (1_000_001, 1)] {
        let workers = squarers(rt.alloc(), total, count)?;
        let Err((fault, workers)) = perform_all(&rt, rt.alloc(), workers, total, &FreeGate) else {
            panic!(rt; "{total} tasks, {count} workers");
        };
        assert!(rt; fault == TaskFault::BadCount);
        assert_eq!(rt; workers.len(), count);
    }
    Ok(())
}
