//! What is wrong with the lines of a script, on standard error.
use script::Report;
use script_hints::hint_of;
use script_session::Session;
use std::alloc::Global;
use std::io::Write;

/// Reports go to a writer, as `line 3: ..`. One that finds no memory, or cannot be written, is
/// lost.
#[derive(Drop)]
pub struct Reports<E: Drop> {
    /// Where reports go.
    pub errors: E,
}

impl<E: Write + Drop> Report for Reports<E> {
    fn report(&mut self, alloc: Global, session: &Session, number: u64, line: &str, reply: &str) {
        let Ok(hint) = hint_of(alloc, session, line, reply, false) else {
            return;
        };
        let Ok(text) = format!(in alloc; "line {number}: {hint}\n") else {
            return;
        };
        let _ = self.errors.write_all(text.as_str().as_bytes());
    }
}
