//! Numbers in decimal, and lines that end in one.
ghost use Rattle.std.specs.Prelude.{◌≡◌, ◌++◌, OnOk, codes, string_bytes};
ghost use Rattle.std.specs.Fmt.{decimal};
ghost use Rattle.script_replies.specs.Texts.{line};

use std::alloc::AllocError;

/// Adds a number in decimal: `10`.
///
/// - `out`: the text after which it is put.
/// - `number`: the number.
///
/// The only refusal is running out of memory; it may leave a part of the number after the text.
pub fn push_number(out: &mut String, number: u64) -> Result<(), AllocError>
    ensures { OnOk result (string_bytes out.new ≡ string_bytes out.old ++ decimal number) }
{
    write!(out, "{number}")
}

/// Adds a line of words and a number after them: `ok log 3`.
///
/// - `out`: the text after which it is put.
/// - `words`: the words, with a space at their end.
/// - `number`: the number.
///
/// The only refusal is running out of memory; it may leave a part of the line after the text.
pub fn push_numbered(out: &mut String, words: &str, number: u64) -> Result<(), AllocError>
    ensures { OnOk result (string_bytes out.new ≡ string_bytes out.old ++ line (words.now ++ decimal number)) }
{
    out.push_str(words)?;
    push_number(out, number)?;
    out.push_str("\n")
}

/// Adds the refusal of a lease that ended: `LeaseEnded 10 12`.
///
/// - `out`: the text after which it is put.
/// - `until`: the end of the lease.
/// - `now`: the moment that counts.
pub(crate) fn push_ended(out: &mut String, until: u64, now: u64) -> Result<(), AllocError>
    ensures { OnOk result (string_bytes out.new ≡ string_bytes out.old ++ codes "LeaseEnded " ++ decimal until ++ codes " " ++ decimal now) }
{
    out.push_str("LeaseEnded ")?;
    push_number(out, until)?;
    out.push_str(" ")?;
    push_number(out, now)
}
