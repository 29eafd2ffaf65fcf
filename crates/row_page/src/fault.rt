//! Why a page is refused.
ghost use Rattle.std.specs.Prelude.{◌≡◌};
ghost use Rattle.row_page.specs.declared.fault.PageFault.TheVariants.{Query as Faulty};
ghost use Rattle.row_query.specs.declared.fault.QueryFault.TheVariants.{Memory};

use row_query::QueryFault;
use std::alloc::AllocError;
use thiserror::Error;

/// Why a page is refused. Of several reasons the first in this order is reported.
#[derive(Clone, Copy, Debug, PartialEq, Eq, Error)]
pub enum PageFault {
    /// The limit is not between 1 and `MOST_ROWS`.
    #[error("a page has 1 to 1,000 rows")]
    BadLimit,
    /// The query has a fault; or, after those, a key of the range is none of the table's
    /// (`WrongType`); or out of memory, which comes last.
    #[error("{0}")]
    Query(QueryFault),
}

impl From<QueryFault> for PageFault {
    ghost from_gives = { λ reported fault. fault ≡ Faulty reported };

    fn from(reported: QueryFault) -> PageFault {
        PageFault::Query(reported)
    }
}

impl From<AllocError> for PageFault {
    ghost from_gives = { λ _ fault. fault ≡ Faulty Memory };

    fn from(_: AllocError) -> PageFault {
        PageFault::Query(QueryFault::Memory)
    }
}
