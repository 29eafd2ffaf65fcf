//! A lease that is written by hand.
ghost use Rattle.std.specs.Prelude.{◌≡◌, IfOk, string_bytes};
ghost use Rattle.script_session.specs.Forge.{schema_or_newest, Forged};
ghost use Rattle.script_session.specs.declared.session.Session.TheVariants.{Running};

use crate::session::{Answer, Opened, ServerLease, key_of, reply};
use collections::ArcValue;
use keycode::Text;
use lease::Lease;
use schema_version::Schema;
use script_replies::world::World;
use std::alloc::{AllocError, Global};

fn schema_or_newest(world: &World, version: u64) -> Result<ArcValue<Schema>, AllocError>
    ensures { IfOk result (λ schema. schema ≡ schema_or_newest world.now version) }
{
    match world.schema(version) {
        Some(schema) => schema.clone(),
        None => world.newest().clone(),
    }
}

/// `forge`: the server has this lease from now on, in place of its old one.
pub(crate) fn forge(
    alloc: Global,
    opened: &mut Opened,
    server: Text,
    lease: Lease,
) -> Result<Answer, AllocError>
    ensures { IfOk result (λ a. Forged opened.old server lease (string_bytes a.text) a.is_bad (Running opened.new)) }
{
    let name = key_of(server)?;
    let schema = schema_or_newest(&opened.world, lease.version)?;
    let answer = reply("ok\n".to_string(alloc)?);
    opened.leases.insert(name, ServerLease { lease, schema })?;
    Ok(answer)
}
