//! The line `save FILE`, which has a checkpoint of the world kept in a file.
ghost use Rattle.std.specs.Prelude.{◌≡◌, ◌⊎◌, ◌++◌, IfErr, IfOk, OnOk, codes, string_bytes, true, false};
ghost use Rattle.prompt.specs.Save.{IsSaved, IsUnsaved, SaveSays, checkpoint_here, file_of, is_save};

use crate::moment::first_word;
use script_json::script_session::Session;
use script_json::world::{Checkpoint, World};
use std::alloc::{AllocError, Global};
use std::io;

/// Where checkpoints are kept.
pub trait Files {
    ghost use Rattle.prompt.specs.Save.{Keeping};

    // that a file of this name was given this checkpoint to keep, and whether it kept it
    ghost keeps: { Keeping };

    /// Keeps a checkpoint in a file of this name, in the place of what that has. Refused if it cannot
    /// be written.
    fn save(&mut self, name: &str, checkpoint: &Checkpoint) -> io::Result<()>
        ensures kept { OnOk result (keeps name.now checkpoint.now true) }
        ensures unkept { IfErr result (λ _. keeps name.now checkpoint.now false) };
}

/// Whether a line has the first word `save`.
///
/// - `line`: the line without its ending; white space around it does not matter.
pub(crate) fn is_save(line: &str) -> bool
    ensures { result ≡ is_save line.now }
{
    first_word(line.trim()) == "save"
}

// What follows the first word.
fn file_of(line: &str) -> &str
    ensures { result.now ≡ file_of line.entry.now }
{
    match line.trim().split_once(' ') {
        Some((_, file)) => file.trim_start(),
        None => "",
    }
}

// Has a checkpoint of the world kept in a file of this name. Refused if there is no memory for the
// checkpoint, and then the file was given none.
fn keep_world<F: Files>(
    world: &World,
    files: &mut F,
    file: &str,
) -> Result<io::Result<()>, AllocError>
    ensures kept { IfOk result (λ r. OnOk r (F.keeps file.now (checkpoint_here world.now) true)) }
    ensures unkept { IfOk result (λ r. IfErr r (λ _. F.keeps file.now (checkpoint_here world.now) false)) }
{
    let checkpoint = world.checkpoint()?;
    Ok(files.save(file, &checkpoint))
}

// That a file is not saved, and why.
fn unsaved_text(alloc: Global, file: &str, reason: &str) -> Result<String, AllocError>
    ensures { IfOk result (λ text. string_bytes text ≡ file.now ++ (codes " is not saved: " ++ reason.now)) }
{
    format!(in alloc; "{file} is not saved: {reason}")
}

// Has a checkpoint of the world kept in this file, and says so, or why it is not kept.
fn world_saved<F: Files>(
    alloc: Global,
    world: &World,
    files: &mut F,
    file: &str,
) -> Result<String, AllocError>
    ensures { IfOk result (λ text. IsSaved F.keeps world.now file.now (string_bytes text) ⊎ IsUnsaved F.keeps world.now file.now (string_bytes text)) }
{
    match keep_world(world, files, file) {
        Ok(Ok(())) => {
            let entries = world.log_len();
            format!(in alloc; "{file} has the state after entry {entries}")
        }
        Ok(Err(fault)) => {
            let reason = fault.to_string(alloc)?;
            unsaved_text(alloc, file, reason.as_str())
        }
        Err(AllocError) => unsaved_text(alloc, file, "out of memory"),
    }
}

/// Has a checkpoint of the world kept in the file that the line names, and says so, or why it is not
/// kept. Refused only when out of memory.
///
/// - `session`: the session, which is only read.
/// - `line`: the line without its ending.
pub(crate) fn saved_text<F: Files>(
    alloc: Global,
    session: &Session,
    files: &mut F,
    line: &str,
) -> Result<String, AllocError>
    ensures { IfOk result (λ text. SaveSays F.keeps session.now (file_of line.now) (string_bytes text)) }
{
    let file = file_of(line);
    let Session::Running(opened) = session else {
        return "nothing is open yet: declare tables, then `open`".to_string(alloc);
    };
    if file.is_empty() {
        return "save wants the name of a file".to_string(alloc);
    }
    world_saved(alloc, &opened.world, files, file)
}
