//! A reply and its remarks, in the form that was asked for.
ghost use Rattle.std.specs.Prelude.{◌≡◌, ◌++◌, IfOk, OnOk};
ghost use Rattle.std.specs.List.{flat_map};
ghost use Rattle.prompt.specs.Conversation.{IsTextOf, remark_byte, remark_text, visible_byte};
ghost use Rattle.script_json.specs.Answer.{IsAnswerText};

use crate::form::Form;
use crate::visible::visible;
use script_json::{Details, answer_text};
use std::alloc::{AllocError, Global};

/// What is written for one line.
#[derive(Drop)]
pub(crate) struct LineAnswer {
    /// The reply and the remarks, in the form that was asked for.
    pub text: Vec<u8>,
    /// Whether the reply is `bad line`.
    pub is_bad: bool,
}

impl LineAnswer {
    /// What is written.
    pub(crate) fn bytes(&self) -> &[u8]
        ensures { result.now ≡ self.now.text.items }
    {
        self.text.as_slice()
    }
}

// Adds a byte of a remark, and `# ` after a line feed.
fn push_remark_byte(out: &mut Vec<u8>, byte: u8) -> Result<(), AllocError>
    ensures { OnOk result (out.new.items ≡ out.old.items ++ remark_byte byte) }
{
    out.push(byte)?;
    if byte == b'\n' {
        out.extend_from_slice(b"# ")?;
    }
    Ok(())
}

// Adds the bytes of a remark, and `# ` after each line feed.
fn push_remark(out: &mut Vec<u8>, remark: &[u8]) -> Result<(), AllocError>
    ensures { OnOk result (out.new.items ≡ out.old.items ++ flat_map remark_byte remark.now) }
{
    for byte in remark {
        push_remark_byte(out, *byte)?;
    }
    Ok(())
}

// A reply and the remark on it as text, which has no remark if that is empty.
fn plain_text(alloc: Global, reply: &str, remark: &str) -> Result<Vec<u8>, AllocError>
    ensures { IfOk result (λ text. text.items ≡ reply.now ++ remark_text remark.now) }
{
    let mut text = Vec::new(alloc);
    text.extend_from_slice(reply.as_bytes())?;
    if !remark.is_empty() {
        text.extend_from_slice(b"# ")?;
        push_remark(&mut text, remark.as_bytes())?;
        text.push(b'\n')?;
    }
    Ok(text)
}

// The same as a terminal is shown it.
fn shown_text(alloc: Global, reply: &str, remark: &str) -> Result<Vec<u8>, AllocError>
    ensures { IfOk result (λ text. text.items ≡ flat_map visible_byte (reply.now ++ remark_text remark.now)) }
{
    let text = plain_text(alloc, reply, remark)?;
    visible(alloc, text.as_slice())
}

fn json_text(
    alloc: Global,
    reply: &str,
    remark: &str,
    details: &Details,
) -> Result<Vec<u8>, AllocError>
    ensures { IfOk result (λ text. IsAnswerText reply.now remark.now text.items) }
{
    let text = answer_text(alloc, reply, remark, details)?;
    Ok(text.into_bytes())
}

// A reply and the remark on it as bytes, in this form.
fn written(
    alloc: Global,
    form: Form,
    reply: &str,
    remark: &str,
    details: &Details,
) -> Result<Vec<u8>, AllocError>
    ensures { IfOk result (λ text. IsTextOf form reply.now remark.now text.items) }
{
    match form {
        Form::Plain => plain_text(alloc, reply, remark),
        Form::Shown => shown_text(alloc, reply, remark),
        Form::Json => json_text(alloc, reply, remark, details),
    }
}

/// A reply and the remark on it, in this form. Refused only when out of memory.
pub(crate) fn answer_of(
    alloc: Global,
    form: Form,
    reply: &str,
    is_bad: bool,
    remark: &str,
    details: &Details,
) -> Result<LineAnswer, AllocError>
    ensures text { IfOk result (λ answer. IsTextOf form reply.now remark.now answer.text.items) }
    ensures bad { IfOk result (λ answer. answer.is_bad ≡ is_bad) }
{
    let text = written(alloc, form, reply, remark, details)?;
    Ok(LineAnswer { text, is_bad })
}
