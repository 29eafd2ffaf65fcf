//! Sessions by lines, exported for C.
ghost use Rattle.std.specs.Prelude.{◌≡◌};
ghost use Rattle.typed_calls.specs.Session.{nothing_declared};
ghost use Rattle.handles.specs.Sessions.{no_names, OpensSession, RepliesTo, RepliesFrom};
ghost use Rattle.handles.specs.declared.engine.Script.TheVariants.{Declaring, Running};

use handles::{Handle, Outcome};
use std::alloc::Global;

/// `Handle::open_session`.
#[unsafe(no_mangle)]
pub extern "C" fn cagzhomul_session_open(alloc: Global, session: &mut Handle) -> i32
    ensures { OpensSession (Declaring nothing_declared) session.old.place.value result session.new.place.value }
{
    session.open_session(alloc)
}

/// `Handle::attach`.
#[unsafe(no_mangle)]
pub extern "C" fn cagzhomul_session_attach(alloc: Global, session: &mut Handle) -> i32
    ensures { OpensSession (Running no_names) session.old.place.value result session.new.place.value }
{
    session.attach(alloc)
}

/// `Handle::reply_to`.
#[unsafe(no_mangle)]
pub extern "C" fn cagzhomul_reply_to(
    alloc: Global,
    session: &mut Handle,
    world: &mut Handle,
    line: &[u8],
    out: &mut [u8],
) -> Outcome
    ensures { RepliesTo session.old.place.value world.old.place.value line.now out.old result out.new session.new.place.value world.new.place.value }
{
    session.reply_to(alloc, world, line, out)
}

/// `Handle::reply_from`.
#[unsafe(no_mangle)]
pub extern "C" fn cagzhomul_reply_from(
    alloc: Global,
    session: &mut Handle,
    from: usize,
    out: &mut [u8],
) -> Outcome
    ensures replies { RepliesFrom session.old.place.value from out.old result out.new }
    ensures same { session.new.place.value ≡ session.old.place.value }
{
    session.reply_from(alloc, from, out)
}
