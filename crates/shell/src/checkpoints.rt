//! Checkpoints in files.
ghost use Rattle.std.specs.Prelude.{⊤};

use checkpoint_code::{HeadFault, PageFault};
use digested_bytes::{Contents, contents_of};
use prompt::Files;
use saved_world::{LoadFault, LoadedFault, load, save};
use std::fs::{File, Permissions};
use std::io::{ErrorKind, Write};
use std::{fs, io};
use world::{Checkpoint, CheckpointFault};

/// The exit status if a file cannot be read.
const UNREAD: u8 = 3;

/// The exit status when memory ran out.
const NO_MEMORY: u8 = 5;

/// How many names are tried for the new file beside another.
const TRIES: u32 = 100;

/// The files of the process.
#[derive(Drop)]
pub struct Folder<'a> {
    /// The process.
    pub rt: &'a HostRuntime,
}

fn no_memory() -> io::Error {
    io::Error::from(ErrorKind::OutOfMemory)
}

fn refused(reason: &'static str) -> io::Error {
    io::Error::new(ErrorKind::InvalidInput, reason)
}

// The permissions of the plain file of this name; none if there is nothing. Refused if there is
// something else: a folder, a device, or a link, whose place a file would take.
fn kept_permissions(rt: &HostRuntime, name: &str) -> io::Result<Option<Permissions>> {
    match fs::symlink_metadata(rt, name) {
        Ok(found) if found.is_file() => Ok(Some(found.permissions())),
        Ok(_) => Err(refused("what has this name is no plain file")),
        Err(fault) if fault.kind() == ErrorKind::NotFound => Ok(None),
        Err(fault) => Err(fault),
    }
}

// Writes bytes into a file that is new, which are on the disk then.
fn write_new(file: File, permissions: Option<Permissions>, bytes: &[u8]) -> io::Result<()> {
    let mut file = file;
    if let Some(permissions) = permissions {
        file.set_permissions(permissions)?;
    }
    file.write_all(bytes)?;
    file.sync_all()
}

// A file of a name that nothing had, beside one of this name.
fn create_beside(rt: &HostRuntime, name: &str) -> io::Result<(String, File)> {
    for number in 0..TRIES {
        let Ok(beside) = format!(in rt.alloc(); "{name}.{number}.new") else {
            return Err(no_memory());
        };
        match File::create_new(rt, beside.as_str()) {
            Ok(file) => return Ok((beside, file)),
            Err(fault) if fault.kind() == ErrorKind::AlreadyExists => {}
            Err(fault) => return Err(fault),
        }
    }
    Err(refused(
        "all names of a new file beside it are taken: remove `NAME.0.new` and those after it",
    ))
}

// Has the name in the place of what had it, or, if that fails, removes the new file.
fn put_in_place(
    rt: &HostRuntime,
    beside: &str,
    name: &str,
    written: io::Result<()>,
) -> io::Result<()> {
    let put = match written {
        Ok(()) => fs::rename(rt, beside, name),
        Err(fault) => Err(fault),
    };
    if put.is_err() {
        let _ = fs::remove_file(rt, beside);
    }
    put
}

fn is_quoted(name: &str) -> bool {
    name.starts_with('"') || name.starts_with('\'') || name.ends_with('"') || name.ends_with('\'')
}

fn save_bytes(rt: &HostRuntime, name: &str, bytes: &[u8]) -> io::Result<()> {
    if is_quoted(name) {
        return Err(refused("a file's name is written without quotes"));
    }
    let permissions = kept_permissions(rt, name)?;
    let (beside, file) = create_beside(rt, name)?;
    let written = write_new(file, permissions, bytes);
    put_in_place(rt, beside.as_str(), name, written)
}

// What a file has then is said by no contract; `.ci/prompts` goes on from one.
impl Files for Folder<'_> {
    ghost keeps = { λ _ _ _. ⊤ };

    // The bytes go into a new file beside it, which takes the name and the permissions when it is
    // whole: until then the name has what it had.
    fn save(&mut self, name: &str, checkpoint: &Checkpoint) -> io::Result<()> {
        match save(self.rt.alloc(), checkpoint) {
            Ok(bytes) => save_bytes(self.rt, name, bytes.as_slice()),
            Err(_) => Err(no_memory()),
        }
    }
}

// The exit status if a file has no checkpoint.
fn load_status(fault: LoadedFault) -> u8 {
    match fault {
        LoadedFault::Head(HeadFault::Memory) => NO_MEMORY,
        LoadedFault::Page(LoadFault::Memory | LoadFault::Page(PageFault::Memory)) => NO_MEMORY,
        LoadedFault::Checkpoint(CheckpointFault::Memory) => NO_MEMORY,
        _ => UNREAD,
    }
}

// Says of saved bytes without a digest that damage to them may go unseen.
fn report_form(rt: &HostRuntime, name: &str, bytes: &[u8]) {
    if matches!(contents_of(bytes), Contents::Plain) {
        let _ = eprintln!(rt;
            "remark: {name}: it has no digest, as files of releases before 2.1, so damage to it may go unseen; `save` writes one that has"
        );
    }
}

/// The checkpoint in a file; or else the exit status, after standard error has why.
pub fn checkpoint_in(rt: &HostRuntime, name: &str) -> Result<Checkpoint, u8> {
    let bytes = match fs::read(rt, name) {
        Ok(bytes) => bytes,
        Err(fault) => {
            let _ = eprintln!(rt; "fault: {name}: {fault}");
            return Err(UNREAD);
        }
    };
    match load(rt.alloc(), bytes.as_slice()) {
        Ok(checkpoint) => {
            report_form(rt, name, bytes.as_slice());
            Ok(checkpoint)
        }
        Err(fault) => {
            let status = load_status(fault);
            let what = if status == NO_MEMORY {
                ""
            } else {
                "it is no checkpoint: "
            };
            let _ = eprintln!(rt; "fault: {name}: {what}{fault}");
            Err(status)
        }
    }
}
