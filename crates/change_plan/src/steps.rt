//! The steps of a plan, made from what each element does at each time.
ghost use Rattle.std.specs.Prelude.{◌≡◌, IfOk, option_to_list, flat_map};
ghost use Rattle.change_plan.specs.Plans.{reorgs};
ghost use Rattle.change_plan.specs.Schedule.{move_by as move_by_of, work_by as work_by_of, move_of as move_of_schedule, work_of_schedule, step_at as step_at_time, longest as longest_of, steps_from};

use crate::least_plan::{PlanStep, Reorg};
use crate::schedule::{Schedule, Transition, duration, transition_at};
use collections::List;
use schema_version::{ElementState, Kind, Move, NewElement, Work, needed_work};
use std::alloc::{AllocError, Global};

// The move that does this with the element of this number.
fn move_by(
    number: u32,
    fresh: &NewElement,
    transition: Transition,
) -> Result<Option<Move>, AllocError>
    ensures { IfOk result (λ a. option_to_list a ≡ move_by_of number fresh.now transition) }
{
    match transition {
        Transition::Wait => Ok(None),
        Transition::Appear => Ok(Some(Move::Enter {
            fresh: fresh.clone()?,
            to: ElementState::DeleteOnly,
        })),
        Transition::Reach(to) => Ok(Some(Move::Go {
            element: number,
            to,
        })),
        Transition::Return => Ok(Some(Move::Turn { element: number })),
    }
}

// The reorganisation of the element of this number, if a move needs one.
fn reorg(number: u32, work: Option<Work>) -> Option<Reorg>
    ensures { option_to_list result ≡ reorgs number work }
{
    match work {
        Some(Work::Fill) => Some(Reorg::Fill(number)),
        Some(Work::Clear) => Some(Reorg::Clear(number)),
        None => None,
    }
}

// The reorganisation that must end before this is done.
fn work_by(number: u32, kind: &Kind, transition: Transition) -> Option<Reorg>
    ensures { option_to_list result ≡ work_by_of number kind.now transition }
{
    match transition {
        Transition::Reach(to) => reorg(number, needed_work(kind, to)),
        Transition::Wait | Transition::Appear | Transition::Return => None,
    }
}

// The schedule's move in the step after so many steps.
fn move_of(schedule: &Schedule, time: usize) -> Result<Option<Move>, AllocError>
    ensures { IfOk result (λ a. option_to_list a ≡ move_of_schedule time schedule.now) }
{
    move_by(
        schedule.number,
        &schedule.fresh,
        transition_at(schedule, time),
    )
}

fn work_of(schedule: &Schedule, time: usize) -> Option<Reorg>
    ensures { option_to_list result ≡ work_of_schedule time schedule.now }
{
    work_by(
        schedule.number,
        &schedule.fresh.kind,
        transition_at(schedule, time),
    )
}

fn moves_at(alloc: Global, schedules: &[Schedule], time: usize) -> Result<Vec<Move>, AllocError>
    ensures { IfOk result (λ moves. moves.items ≡ flat_map (move_of_schedule time) schedules.now) }
{
    let mut moves = Vec::new(alloc);
    for schedule in schedules {
        if let Some(a) = move_of(schedule, time)? {
            moves.push(a)?;
        }
    }
    Ok(moves)
}

fn work_at(alloc: Global, schedules: &[Schedule], time: usize) -> Result<Vec<Reorg>, AllocError>
    ensures { IfOk result (λ work. work.items ≡ flat_map (work_of_schedule time) schedules.now) }
{
    let mut work = Vec::new(alloc);
    for schedule in schedules {
        if let Some(reorg) = work_of(schedule, time) {
            work.push(reorg)?;
        }
    }
    Ok(work)
}

fn step_at(alloc: Global, schedules: &[Schedule], time: usize) -> Result<PlanStep, AllocError>
    ensures { IfOk result (λ step. step ≡ step_at_time schedules.now time) }
{
    Ok(PlanStep {
        before: List::new(work_at(alloc, schedules, time)?),
        step: List::new(moves_at(alloc, schedules, time)?),
    })
}

// The steps of the longest schedule.
fn longest(schedules: &[Schedule]) -> usize
    ensures { result ≡ longest_of schedules.now }
{
    let mut most = 0;
    for schedule in schedules {
        let steps = duration(schedule);
        if steps > most {
            most = steps;
        }
    }
    most
}

/// The steps of a plan in which all schedules are made together.
#[tactic(auto, using(crate::proofs::Grown::grown))]
pub(crate) fn steps_of(alloc: Global, schedules: &[Schedule]) -> Result<Vec<PlanStep>, AllocError>
    ensures { IfOk result (λ steps. steps.items ≡ steps_from schedules.now 0 (longest_of schedules.now)) }
{
    let mut steps = Vec::new(alloc);
    for time in 0..longest(schedules) {
        steps.push(step_at(alloc, schedules, time)?)?;
    }
    Ok(steps)
}
