//! How a world is opened, with its refusals in their order.
ghost use Rattle.std.specs.Prelude.{◌≡◌, IfOk, IfErr, OnOk};
ghost use Rattle.lease.specs.Timeline.{opened as line_opened, IsLength};
ghost use Rattle.schema_version.specs.Declare.{declared as declared_of, IsLawful};
ghost use Rattle.collections.specs.Refusal.{IsRefusal};
ghost use Rattle.world.specs.Calls.{OpenStep, open_rank, OpenCondition};
ghost use Rattle.world.specs.declared.open.OpenFault.TheVariants.{Memory};

use crate::checkpoints::Checkpoint;
use crate::config::Config;
use crate::world::World;
use checkpoint_check::checkpoint::lemma_checkpoints_keep;
use collections::ArcValue;
use lease::{MAX_LENGTH, Timeline, TimelineFault};
use schema_version::{DeclareFault, Schema};
use std::alloc::{AllocError, Global};
use thiserror::Error;
use txn_store::Store;

/// Why no world was opened. Of several reasons the first in this order is reported.
#[derive(Clone, Copy, Debug, PartialEq, Eq, Error)]
pub enum OpenFault {
    /// A limit of the declaration is broken: on tables, columns, indexes or names.
    #[error("the declaration breaks a limit, or uses a name twice")]
    BadTable,
    /// The lease length is not from 1 to 2^32.
    #[error("the lease length is not from 1 to 2^32")]
    BadLength,
    /// Out of memory.
    #[error("out of memory")]
    Memory,
}

impl From<AllocError> for OpenFault {
    ghost from_gives = { λ _ fault. fault ≡ Memory };

    fn from(_: AllocError) -> OpenFault {
        OpenFault::Memory
    }
}

/// Version 1. Out of memory is reported only if the length is good too.
fn declare(alloc: Global, config: &Config) -> Result<Schema, OpenFault>
    ensures declared { IfOk result (λ schema. schema ≡ declared_of config.now.tables) }
    ensures lawful { OnOk result (IsLawful config.now.tables) }
    ensures refused { IfErr result (λ fault. IsRefusal open_rank (OpenCondition config.now) Memory fault) }
{
    match Schema::declared(alloc, config.tables.as_slice()) {
        Ok(schema) => Ok(schema),
        Err(DeclareFault::BadTable) => Err(OpenFault::BadTable),
        Err(DeclareFault::Memory) => {
            if config.length == 0 || config.length > MAX_LENGTH {
                Err(OpenFault::BadLength)
            } else {
                Err(OpenFault::Memory)
            }
        }
    }
}

/// The timeline, if the tables are good.
fn begin(alloc: Global, config: &Config) -> Result<Timeline, OpenFault>
    requires { IsLawful config.now.tables }
    ensures opened { IfOk result (λ line. line ≡ line_opened config.now.length) }
    ensures length { OnOk result (IsLength config.now.length) }
    ensures refused { IfErr result (λ fault. IsRefusal open_rank (OpenCondition config.now) Memory fault) }
{
    match Timeline::new(alloc, config.length) {
        Ok(line) => Ok(line),
        Err(TimelineFault::BadLength) => Err(OpenFault::BadLength),
        Err(TimelineFault::Memory) => Err(OpenFault::Memory),
    }
}

impl World {
    /// Opens a world with these tables as version 1, no rows, and a lease length.
    ///
    /// Refused in this order: `BadTable` if the declaration breaks a limit or uses a name twice;
    /// `BadLength` if the lease length is not from 1 to 2^32; `Memory`.
    pub fn open(alloc: Global, config: &Config) -> Result<World, OpenFault>
        ensures { OpenStep config.now result }
    {
        let schema = declare(alloc, config)?;
        let line = begin(alloc, config)?;
        schema.lemma_known();
        lemma_checkpoints_keep();
        let newest = ArcValue::new(alloc, schema)?;
        let start = Checkpoint {
            place: 0,
            moment: 0,
            line,
            newest,
            before: None,
            begun: Vec::new(alloc),
            store: Store::new(alloc),
        };
        Ok(World::open_at(alloc, start))
    }
}
