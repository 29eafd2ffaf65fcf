//! What stands between two lines of a script, and the reply to a line.
ghost use Rattle.std.specs.Prelude.{◌≡◌, IfOk, IfErr, string_bytes, true, false};
ghost use Rattle.script_replies.specs.Texts.{bad_line, line, refused};
ghost use Rattle.script_session.specs.Session.{empty, nothing_declared};
ghost use Rattle.script_session.specs.Replies.{Performs, Reply};
ghost use Rattle.script_session.specs.declared.session.Session.TheVariants.{Declaring, Running};

use crate::answer::answer;
use crate::declare::declare;
use byte_map::{Bytes, KeyMap};
use collections::{ArcValue, List};
use keycode::Text;
use lease::Lease;
use reorganise::PreparedPiece;
use row_write::Prepared;
use schema_version::{Schema, Step, TableDef};
use script_grammar::{Command, is_silent, read_command};
use script_replies::world::World;
use script_tokens::LineFault;
use std::alloc::{AllocError, Global};

/// A lease's length if no line says it, in moments.
const USUAL_LENGTH: u64 = 10;

/// The longest line, in bytes.
const MAX_LINE: usize = 65_536;

/// What was declared so far.
#[derive(Drop)]
pub struct Declarations {
    /// The tables, each with its indexes.
    pub tables: List<TableDef>,
    /// For how long a lease is granted, in moments.
    pub length: u64,
}

/// A lease that a server holds, with the schema of its version.
#[derive(Drop)]
pub struct ServerLease {
    /// The lease.
    pub lease: Lease,
    /// The schema of the lease's version, by which the server's names are looked up.
    pub schema: ArcValue<Schema>,
}

/// What one line of a script prepares and another commits.
#[derive(Drop)]
pub enum Pending {
    /// A transaction.
    Txn(Prepared),
    /// A piece of a reorganisation.
    Piece(PreparedPiece),
}

/// An opened world, with the leases that servers were granted, what was prepared, and the plan that
/// is kept.
pub struct Opened {
    /// The world.
    pub world: World,
    /// The lease of each server, by its name.
    pub leases: KeyMap<ServerLease>,
    /// What was prepared and is not committed yet, by its name.
    pub pending: KeyMap<Pending>,
    /// The steps of the last plan that were not accepted yet, the next one first.
    pub plan: List<Step>,
}

// By hand, so that a caller's proof sees one call and not each field's.
impl Drop for Opened {
    fn drop(self) {
        let Opened {
            world: _,
            leases: _,
            pending: _,
            plan: _,
        } = self;
    }
}

impl Opened {
    /// The world, the leases, what was prepared, and the plan.
    pub fn into_parts(self) -> (World, KeyMap<ServerLease>, KeyMap<Pending>, List<Step>)
        ensures { self ≡ record { world = result.0; leases = result.1; pending = result.2; plan = result.3 } }
    {
        let Opened {
            world,
            leases,
            pending,
            plan,
        } = self;
        (world, leases, pending, plan)
    }
}

/// What stands between two lines of a script.
pub enum Session {
    /// Before `open`.
    Declaring(Declarations),
    /// Behind it.
    Running(Opened),
}

// By hand, so that a caller's proof sees one call and not each variant's.
impl Drop for Session {
    fn drop(self) {
        match self {
            Session::Declaring(_) | Session::Running(_) => {}
        }
    }
}

/// The text that answers a line, and whether it says that the line is bad.
#[derive(Drop)]
pub struct Answer {
    /// The reply, with its line ends; empty if a line asks for nothing.
    pub text: String,
    /// Whether it is `bad line`.
    pub is_bad: bool,
}

/// The reply to a bad line.
pub(crate) fn bad_line(alloc: Global) -> Result<Answer, AllocError>
    ensures text { IfOk result (λ a. string_bytes a.text ≡ bad_line) }
    ensures bad { IfOk result (λ a. a.is_bad ≡ true) }
{
    Ok(Answer {
        text: "bad line\n".to_string(alloc)?,
        is_bad: true,
    })
}

/// A reply of one line or of several.
pub(crate) fn reply(text: String) -> Answer
    ensures text { string_bytes result.text ≡ string_bytes text }
    ensures good { result.is_bad ≡ false }
{
    Answer {
        text,
        is_bad: false,
    }
}

/// The reply `refused NAME`.
pub(crate) fn refusal(alloc: Global, name: &str) -> Result<Answer, AllocError>
    ensures text { IfOk result (λ a. string_bytes a.text ≡ line (refused name.now)) }
    ensures good { IfOk result (λ a. a.is_bad ≡ false) }
{
    let mut text = "refused ".to_string(alloc)?;
    text.push_str(name)?;
    text.push_str("\n")?;
    Ok(reply(text))
}

/// A name as a key.
pub(crate) fn key_of(name: Text) -> Result<Bytes, AllocError>
    ensures { IfOk result (λ key. key ≡ name) }
{
    Bytes::new(name.into_string().into_bytes())
}

/// What is declared at the start of a script: nothing.
pub(crate) fn nothing_declared(alloc: Global) -> Declarations
    ensures { result ≡ nothing_declared }
{
    Declarations {
        tables: List::new(Vec::new(alloc)),
        length: USUAL_LENGTH,
    }
}

impl Session {
    /// The session at the start of a script.
    pub fn new(alloc: Global) -> Session
        ensures { result ≡ empty }
    {
        Session::Declaring(nothing_declared(alloc))
    }

    /// What was opened; before `open`, what was declared.
    pub fn into_opened(self) -> Result<Opened, Declarations>
        ensures running { IfOk result (λ opened. self ≡ Running opened) }
        ensures declaring { IfErr result (λ declared. self ≡ Declaring declared) }
    {
        match self {
            Session::Declaring(declared) => Err(declared),
            Session::Running(opened) => Ok(opened),
        }
    }

    // What a command answers, and what it leaves.
    fn perform(&mut self, alloc: Global, command: Command) -> Result<Answer, AllocError>
        ensures { IfOk result (λ a. Performs self.old command (string_bytes a.text) a.is_bad self.new) }
    {
        match self {
            Session::Declaring(declared) => {
                let declared = std::mem::replace(declared, nothing_declared(alloc));
                let (next, answer) = declare(alloc, declared, command)?;
                *self = next;
                Ok(answer)
            }
            Session::Running(opened) => answer(alloc, opened, command),
        }
    }

    /// The reply to a line, which is given without its ending. After `Err` (out of memory), the
    /// session is not to be used again.
    pub fn reply_to(&mut self, alloc: Global, line: &str) -> Result<Answer, AllocError>
        ensures { IfOk result (λ r. Reply self.old line.now (string_bytes r.text) r.is_bad self.new) }
    {
        let bytes = line.as_bytes();
        if bytes.len() > MAX_LINE {
            return bad_line(alloc);
        }
        if is_silent(bytes) {
            return Ok(reply(String::new(alloc)));
        }
        match read_command(alloc, bytes) {
            Err(LineFault::Malformed) => bad_line(alloc),
            Err(LineFault::Memory) => Err(AllocError),
            Ok(command) => self.perform(alloc, command),
        }
    }
}
