//! What a line may take away that its hint speaks of.
use crate::declared::opening_faults;
use crate::hint::hint_of;
use crate::in_way::push_replaced;
use crate::rows::work_row;
use keycode::Text;
use script_grammar::{Command, read_command};
use script_progress::script_session::{Opened, Session};
use std::alloc::{AllocError, Global};

/// What a line may take away that its hint speaks of.
#[derive(Drop)]
pub enum Before {
    /// Nothing.
    Nothing,
    /// What is wrong with the declarations, which a refused `open` forgets; empty if nothing is.
    Declarations(String),
    /// The row for which the work is refused that `commit` spends; empty if it is not refused.
    Work(String),
    /// How many steps are left of the plan that another one replaces.
    Plan(usize),
    /// That other work of the name is prepared, which this takes the place of.
    Replaced(String),
}

// What is prepared under a name that a line prepares something under.
fn replaced(alloc: Global, opened: &Opened, name: &Text) -> Result<Before, AllocError> {
    if opened.pending.get(name.as_bytes()).is_none() {
        return Ok(Before::Nothing);
    }
    let name = name.as_str();
    let text = format!(in alloc;
        "this replaces what was prepared as {name}, which was not committed"
    )?;
    Ok(Before::Replaced(text))
}

fn before_command(
    alloc: Global,
    session: &Session,
    command: &Command,
) -> Result<Before, AllocError> {
    match (session, command) {
        (Session::Declaring(declared), Command::Open) => {
            let faults = opening_faults(alloc, declared.tables.as_slice())?;
            Ok(Before::Declarations(faults))
        }
        (Session::Running(opened), Command::Commit { name, .. }) => {
            Ok(Before::Work(work_row(alloc, opened, name)?))
        }
        (Session::Running(opened), Command::Plan { .. }) => Ok(Before::Plan(opened.plan.len())),
        (Session::Running(opened), Command::Prepare { name, .. } | Command::Piece { name, .. }) =>
            replaced(alloc, opened, name),
        _ => Ok(Before::Nothing),
    }
}

impl Before {
    /// What a line may take away. Refused only when out of memory.
    ///
    /// - `session`: the session before the reply, which is only read.
    /// - `line`: the line without its ending.
    pub fn new(alloc: Global, session: &Session, line: &str) -> Result<Before, AllocError> {
        let read = read_command(alloc, line.as_bytes());
        let before = match &read {
            Ok(command) => before_command(alloc, session, command),
            Err(_) => Ok(Before::Nothing),
        };
        drop(read);
        before
    }

    // The hint, if it is what was taken away.
    fn taken(&self, reply: &str) -> &str {
        match self {
            Before::Declarations(faults) if reply.starts_with("refused ") => faults.as_str(),
            Before::Work(row) if reply.starts_with("ok refused ") => row.as_str(),
            _ => "",
        }
    }

    // Adds what an accepted line takes away, or how it is taken back.
    fn push_more(
        &self,
        out: &mut String,
        session: &Session,
        reply: &str,
    ) -> Result<(), AllocError> {
        match (session, self) {
            (Session::Running(_), Before::Plan(steps)) if reply.contains("ok plan ") => {
                push_replaced(out, *steps)
            }
            (Session::Running(_), Before::Replaced(text)) if reply == "ok prepared\n" => {
                out.push_str(text.as_str())
            }
            (Session::Declaring(_), _) if reply == "ok\n" && !out.is_empty() => {
                out.push_str("\nundo takes this line back")
            }
            _ => Ok(()),
        }
    }

    /// The hint that goes with a reply at the prompt: that of `hint_of`, and what the line has taken
    /// away. Refused only when out of memory.
    ///
    /// - `session`: the session after the reply, which is only read.
    /// - `line`: the line that was answered, without its ending.
    /// - `reply`: the reply.
    pub fn hint(
        &self,
        alloc: Global,
        session: &Session,
        line: &str,
        reply: &str,
    ) -> Result<String, AllocError> {
        let taken = self.taken(reply);
        if !taken.is_empty() {
            return taken.to_string(alloc);
        }
        let mut out = hint_of(alloc, session, line, reply, true)?;
        self.push_more(&mut out, session, reply)?;
        Ok(out)
    }
}
