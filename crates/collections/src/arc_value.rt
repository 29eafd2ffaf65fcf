//! A value with several owners.
ghost use Rattle.std.specs.Prelude.{◌≡◌, IfOk};

use std::alloc::{AllocError, Global};
use std::marker::Model;
use std::sync::Arc;

/// A value with several owners, seen by contracts as the value. A clone counts one more owner and
/// copies nothing; it may be refused when out of memory.
#[derive(Drop)]
pub struct ArcValue<T> {
    inside: Arc<T, Global>,
}

impl<T> Model for ArcValue<T> {
    ghost use Rattle.std.specs.Arc.{arc_value};

    ghost Value = { T };

    ghost coded = { T.code };

    ghost view = { λ c. arc_value c.inside };
}

impl<T: Drop> ArcValue<T> {
    /// `value` with its first owner. Refused only when out of memory, and `value` is then let go.
    pub fn new(alloc: Global, value: T) -> Result<ArcValue<T>, AllocError>
        ensures { IfOk result (λ c. c ≡ value) }
    {
        Ok(ArcValue {
            inside: Arc::new(alloc, value)?,
        })
    }

    /// The value, borrowed.
    pub fn get(&self) -> &T
        ensures { result.now ≡ self.now }
    {
        self.inside.as_ref()
    }
}

impl<T: Drop> Clone for ArcValue<T> {
    ghost is_clone = { λ s t. t ≡ s };

    fn clone(&self) -> Result<ArcValue<T>, AllocError> {
        Ok(ArcValue {
            inside: self.inside.clone()?,
        })
    }
}
