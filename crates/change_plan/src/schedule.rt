//! When an element takes which of its moves.
ghost use Rattle.std.specs.Prelude.{◌≡◌, length};
ghost use Rattle.change_plan.specs.Schedule.{transitions as transitions_of, steps as steps_of_state_path, state_path_in as state_path_in_of, state_path_out as state_path_out_of, nth_transition as nth_transition_of, transition_at as transition_at_of, duration as duration_of};

use schema_version::{ElementState, Kind, NewElement};

/// What is done with an element in one step.
#[derive(Clone, Copy, PartialEq, Eq)]
pub(crate) enum Transition {
    Wait,
    /// It enters as delete-only.
    Appear,
    /// It goes to this state.
    Reach(ElementState),
    /// It turns back.
    Return,
}

/// The moves of an element, one per step.
#[derive(Clone, Copy, PartialEq, Eq)]
pub(crate) enum StatePath {
    /// Of what no fill serves, as an optional column.
    PlainIn,
    /// Of what a fill serves, as an index or a required column.
    FilledIn,
    FilledOut,
    PlainOut,
    DeleteOnlyBack,
    WriteOnlyBack,
}

/// An element that the batch adds or takes out.
pub(crate) struct Schedule {
    /// The steps before its first move. An added index waits for the columns that the batch adds, a
    /// column that goes for the indexes that list it; all else begins at once, and no one waits on
    /// the way.
    pub wait: u32,
    pub state_path: StatePath,
    /// Its number, which an added element gets as it enters.
    pub number: u32,
    /// What enters, or what there is.
    pub fresh: NewElement,
}

// By hand, so that a caller's proof sees one call and not each field's.
impl Drop for Schedule {
    fn drop(self) {
        let Schedule {
            wait: _,
            state_path: _,
            number: _,
            fresh: _,
        } = self;
    }
}

/// What is done in each step of a state path.
fn transitions(state_path: StatePath) -> &'static [Transition]
    ensures { result.now ≡ transitions_of state_path }
{
    use Transition::{Appear, Reach, Return};
    use ElementState::{Absent, DeleteOnly, Public, WriteOnly};
    match state_path {
        StatePath::PlainIn => &[Appear, Reach(Public)],
        StatePath::FilledIn => &[Appear, Reach(WriteOnly), Reach(Public)],
        StatePath::FilledOut => &[Reach(WriteOnly), Reach(DeleteOnly), Reach(Absent)],
        StatePath::PlainOut => &[Reach(DeleteOnly), Reach(Absent)],
        StatePath::DeleteOnlyBack => &[Return, Reach(Absent)],
        StatePath::WriteOnlyBack => &[Return, Reach(DeleteOnly), Reach(Absent)],
    }
}

/// How many steps a state path has.
pub(crate) fn steps(state_path: StatePath) -> u32
    ensures { result ≡ steps_of_state_path state_path }
{
    match state_path {
        StatePath::FilledIn | StatePath::FilledOut | StatePath::WriteOnlyBack => 3,
        StatePath::PlainIn | StatePath::PlainOut | StatePath::DeleteOnlyBack => 2,
    }
}

/// The way in of an element.
pub(crate) fn state_path_in(kind: &Kind) -> StatePath
    ensures { result ≡ state_path_in_of kind.now }
{
    if kind.is_filled() {
        StatePath::FilledIn
    } else {
        StatePath::PlainIn
    }
}

/// The way out of an element.
pub(crate) fn state_path_out(kind: &Kind, state: ElementState) -> StatePath
    ensures { result ≡ state_path_out_of kind.now state }
{
    match state {
        ElementState::DeleteOnly => StatePath::DeleteOnlyBack,
        ElementState::WriteOnly => StatePath::WriteOnlyBack,
        ElementState::Absent | ElementState::Public => {
            if kind.is_filled() {
                StatePath::FilledOut
            } else {
                StatePath::PlainOut
            }
        }
    }
}

// The act of this place; none after the last.
fn nth_transition(transitions: &[Transition], place: usize) -> Transition
    ensures { result ≡ nth_transition_of transitions.now place }
{
    match transitions {
        [_, rest @ ..] if place > 0 => nth_transition(rest, place - 1),
        [first, ..] => *first,
        [] => Transition::Wait,
    }
}

/// What is done in the step after so many steps of the plan.
pub(crate) fn transition_at(schedule: &Schedule, time: usize) -> Transition
    ensures { result ≡ transition_at_of schedule.now time }
{
    let wait = schedule.wait as usize;
    if time < wait {
        Transition::Wait
    } else {
        nth_transition(transitions(schedule.state_path), time - wait)
    }
}

/// The steps of the plan up to the schedule's last move.
pub(crate) fn duration(schedule: &Schedule) -> usize
    ensures { result ≡ duration_of schedule.now }
{
    schedule.wait as usize + steps(schedule.state_path) as usize
}
