//! What is found of an operation or of a condition.
ghost use Rattle.std.specs.Prelude.{◌≡◌};
ghost use Rattle.value_faults.specs.inner.Found.{of_cause as of_cause_of};

use crate::fault::ValueCause;

// What is found of an operation or of a condition.
#[derive(Clone, Copy)]
pub(crate) enum Finding {
    // Nothing is wrong with it.
    Clear,
    // It has a fault that comes before its values.
    Other,
    // This value is wrong.
    Wrong(ValueCause),
}

// What is found if the first wrong value, if there is one, decides.
pub(crate) fn of_cause(cause: Option<ValueCause>) -> Finding
    ensures { result ≡ of_cause_of cause }
{
    match cause {
        None => Finding::Clear,
        Some(cause) => Finding::Wrong(cause),
    }
}
