//! The name that is nearest to a word.
ghost use Rattle.std.specs.Prelude.{OnOk, string_bytes};
ghost use Rattle.script_views.specs.Unknown.{StartsWith};

use std::alloc::{AllocError, Global};
use strsim::levenshtein;

/// The longest word for which a near one is looked for, in bytes.
const LONGEST: usize = 32;

/// How many letters may differ.
const MOST: usize = 2;

// The first of the names that differs from the word in the fewest letters, two at most and fewer
// than the word has; or one that differs in capitals alone.
fn nearest<'a>(
    alloc: Global,
    word: &str,
    names: &[&'a str],
) -> Result<Option<&'a str>, AllocError> {
    let mut found = None;
    let mut least = MOST.min(word.len().saturating_sub(1)).saturating_add(1);
    if word.len() > LONGEST {
        return Ok(None);
    }
    for name in names {
        if name.eq_ignore_ascii_case(word) {
            return Ok(Some(*name));
        }
        let distance = levenshtein(alloc, word, *name)?;
        if distance < least {
            least = distance;
            found = Some(*name);
        }
    }
    Ok(found)
}

/// Adds `; the nearest is NAME`, if a name is near: the first of those that differ from the word in
/// the fewest letters, two at most and fewer than the word has, or one that differs in capitals alone.
/// A word over 32 bytes has none.
/// Refused only when out of memory; a part of it may be there then.
///
/// - `out`: the text after which it is put.
/// - `word`: what was written.
/// - `names`: what may be meant.
pub fn push_nearest(
    alloc: Global,
    out: &mut String,
    word: &str,
    names: &[&str],
) -> Result<(), AllocError>
    ensures { OnOk result (StartsWith (string_bytes out.old) (string_bytes out.new)) }
{
    match nearest(alloc, word, names)? {
        Some(name) => write!(out, "; the nearest is {name}"),
        None => Ok(()),
    }
}
