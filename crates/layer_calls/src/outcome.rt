//! What a call of the layer comes to.
ghost use Rattle.std.specs.Prelude.{◌≡◌};
ghost use Rattle.handles.specs.Statuses.{ok, out_of_memory};
ghost use Rattle.layer_calls.specs.Given.{alone};

use collections::List;
use handles::typed_calls::status::{OK, OUT_OF_MEMORY};
use std::alloc::{AllocError, AllocFailed};

/// What a call of the layer came to.
#[repr(C)]
#[derive(Clone, Copy, Drop)]
pub struct LayerOutcome {
    /// The status.
    pub status: i32,
    /// At `NOT_PUBLIC` the number that was named; else 0.
    pub column: u32,
    /// At `OK` what the call says of it, or 0; at `DUPLICATE` and `NO_ROW` the first operation that
    /// the rows refuse, counted from 0; at `DEPENDENT` and `UNFINISHED` the element; else 0.
    pub number: u64,
    /// At `OK` how long the bytes are that the call gives, however much of them fitted; else 0.
    pub length: usize,
}

impl LayerOutcome {
    /// A status alone.
    pub fn of(status: i32) -> LayerOutcome
        ensures { result ≡ record { status = status; column = 0; number = 0; length = 0 } }
    {
        LayerOutcome {
            status,
            column: 0,
            number: 0,
            length: 0,
        }
    }

    /// A status with a number.
    pub(crate) fn at(status: i32, number: u64) -> LayerOutcome
        ensures { result ≡ record { status = status; column = 0; number = number; length = 0 } }
    {
        LayerOutcome {
            status,
            column: 0,
            number,
            length: 0,
        }
    }
}

/// What is due.
#[repr(C)]
#[derive(Clone, Copy, Drop)]
pub struct DueOutcome {
    /// The status. The other fields are 0 if it is not `OK`.
    pub status: i32,
    /// The act: 0 for nothing, 1 for a begin, 2 for a close, 3 for a publication, 4 for a piece.
    pub act: u32,
    /// The element that begins, or has the piece; else 0.
    pub element: u32,
    /// The number of the piece; else 0.
    pub piece: u64,
}

impl DueOutcome {
    /// A status alone.
    pub(crate) fn of(status: i32) -> DueOutcome
        ensures { result ≡ record { status = status; act = 0; element = 0; piece = 0 } }
    {
        DueOutcome {
            status,
            act: 0,
            element: 0,
            piece: 0,
        }
    }

    /// An act that is due.
    pub(crate) fn act(act: u32, element: u32, piece: u64) -> DueOutcome
        ensures { result ≡ record { status = ok; act = act; element = element; piece = piece } }
    {
        DueOutcome {
            status: OK,
            act,
            element,
            piece,
        }
    }
}

impl From<AllocError> for LayerOutcome {
    ghost from_gives = { λ _ outcome. outcome ≡ alone out_of_memory };

    fn from(_: AllocError) -> LayerOutcome {
        LayerOutcome::of(OUT_OF_MEMORY)
    }
}

impl<T: Drop> From<AllocFailed<T>> for LayerOutcome {
    ghost from_gives = { λ _ outcome. outcome ≡ alone out_of_memory };

    fn from(_: AllocFailed<T>) -> LayerOutcome {
        LayerOutcome::of(OUT_OF_MEMORY)
    }
}

/// What a call that is not refused gives.
pub struct LayerReply {
    /// The bytes.
    pub code: List<u8>,
    /// A number beside them; 0 unless the call says what it is.
    pub number: u64,
}

// By hand, so that a caller's proof sees one call and not each field's.
impl Drop for LayerReply {
    fn drop(self) {
        let LayerReply { code: _, number: _ } = self;
    }
}

impl LayerReply {
    /// These bytes, with no number.
    pub(crate) fn of(code: Vec<u8>) -> LayerReply
        ensures { result ≡ record { code = code.items; number = 0 } }
    {
        LayerReply {
            code: List::new(code),
            number: 0,
        }
    }
}
