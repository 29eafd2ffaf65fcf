//! The line `cut`, which gives the memory of the log's entries back.
ghost use Rattle.std.specs.Prelude.{◌≡◌, IfOk, string_bytes};
ghost use Rattle.script_json.specs.State.{cut_here};
ghost use Rattle.prompt.specs.LogCut.{CutIn, cut_remark, is_cut};

use crate::alone::is_alone;
use script_json::script_session::Session;
use script_json::world::World;
use std::alloc::{AllocError, Global};

/// Whether a line is `cut`. Refused only when out of memory.
///
/// - `line`: the line without its ending.
pub(crate) fn is_cut(alloc: Global, line: &[u8]) -> Result<bool, AllocError>
    ensures { IfOk result (λ found. found ≡ is_cut line.now) }
{
    is_alone(alloc, line, b"cut")
}

/// What a cut gives back, in words. Refused only when out of memory.
///
/// - `session`: the session before the cut, which is only read.
pub(crate) fn cut_text(alloc: Global, session: &Session) -> Result<String, AllocError>
    ensures { IfOk result (λ text. string_bytes text ≡ cut_remark session.now) }
{
    match session {
        Session::Declaring(_) => "there is no log yet: declare tables, then `open`".to_string(
            alloc,
        ),
        Session::Running(opened) => {
            let count = opened.world.log().len();
            let all = opened.world.log_len();
            format!(in alloc; "gave {count} of the log's {all} entries back")
        }
    }
}

fn cut_world(world: &mut World)
    ensures { world.new ≡ cut_here world.old }
{
    world.cut();
}

/// Gives the memory of the log's entries back, if there is a log.
///
/// - `session`: the session; all else in it stays.
pub(crate) fn cut_log(session: &mut Session)
    ensures { CutIn session.old session.new }
{
    match session {
        Session::Declaring(_) => {}
        Session::Running(opened) => cut_world(&mut opened.world),
    }
}
