//! The views whose texts are proved: `check TABLE.NAME` and `explain query`.
ghost use Rattle.std.specs.Prelude.{◌≡◌, ◌⊎◌, ◌++◌, ◌∷◌, IfOk, IfSome, List, ℕ, Some, codes, option_map, string_bytes};
ghost use Rattle.std.specs.Bool.{Decides};
ghost use Rattle.std.specs.Option.{IsSomeAnd};
ghost use Rattle.script_views.specs.Check.{HasNoSpace, IsBare, IsCheckLine, ShowsCheckIn, ShowsElement};
ghost use Rattle.script_views.specs.Explain.{IsExplainLine, ShowsPathIn};

use crate::element_pairs::element_pairs;
use crate::explain::explanation;
use keycode::Text;
use script_session::Opened;
use std::alloc::{AllocError, Global};

/// Which rows lack their pair of the element of these names, and which pairs it has that no row
/// gives it, by the newest version and whatever the element's state: a count of both, and the first
/// 20 of each by their keys. If there is no such element, that there is none, and the nearest.
/// Refused only when out of memory.
///
/// - `opened`: the world, which is only read.
/// - `table`: the name of the table.
/// - `name`: the name of the element.
pub fn named_pairs(
    alloc: Global,
    opened: &Opened,
    table: &str,
    name: &str,
) -> Result<String, AllocError>
    ensures { IfOk result (λ text. ShowsElement opened.now.world table.now name.now (string_bytes text)) }
{
    let table = Text::new(table.to_string(alloc)?);
    let name = Text::new(name.to_string(alloc)?);
    element_pairs(alloc, opened, &table, &name)
}

// What a line asks to explain, if it begins with `explain query`.
fn explained_query(line: &str) -> Option<&str>
    ensures query { (rest : List ℕ) → line.now ≡ codes "explain query" ++ rest → option_map (λ q. q.now) result ≡ Some (codes "query" ++ rest) }
    ensures only { IfSome result (λ query. IsExplainLine line.now) }
{
    if !line.starts_with("explain query") {
        return None;
    }
    let (_, query) = line.split_once(' ')?;
    Some(query)
}

// Whether a name has no white space in it.
fn is_bare(name: &str) -> bool
    ensures { Decides result (HasNoSpace name.now) }
{
    !name.contains(' ') && !name.contains('\t')
}

// The names of `check TABLE.NAME`, if there is no white space in them.
fn checked_names(line: &str) -> Option<(&str, &str)>
    ensures names { (table name : List ℕ) → IsBare table → HasNoSpace name → line.now ≡ codes "check " ++ (table ++ 46 ∷ name) → IsSomeAnd result (λ n. (n.0.now ≡ table) × (n.1.now ≡ name)) }
    ensures only { IfSome result (λ names. IsCheckLine line.now) }
{
    if !line.starts_with("check ") {
        return None;
    }
    let (_, names) = line.split_once(' ')?;
    let (table, name) = names.split_once('.')?;
    if is_bare(table) && is_bare(name) {
        Some((table, name))
    } else {
        None
    }
}

// The view of a line that may be `check TABLE.NAME`.
fn checked_view(alloc: Global, opened: &Opened, line: &str) -> Result<Option<String>, AllocError>
    ensures check { IfOk result (λ shown. ShowsCheckIn opened.now line.now (option_map string_bytes shown)) }
    ensures only { IfOk result (λ shown. IfSome shown (λ text. IsCheckLine line.now)) }
{
    match checked_names(line) {
        Some((table, name)) => Ok(Some(named_pairs(alloc, opened, table, name)?)),
        None => Ok(None),
    }
}

// The view of a line that may be `explain query`.
fn explained_view(alloc: Global, opened: &Opened, line: &str) -> Result<Option<String>, AllocError>
    ensures path { IfOk result (λ shown. ShowsPathIn opened.now line.now (option_map string_bytes shown)) }
    ensures only { IfOk result (λ shown. IfSome shown (λ text. IsExplainLine line.now)) }
{
    match explained_query(line) {
        Some(query) => Ok(Some(explanation(alloc, opened, query)?)),
        None => Ok(None),
    }
}

/// The view of `check TABLE.NAME` and of `explain query ..` in an opened world; `None` if the line
/// is neither. The table's name ends at the first dot; a line with white space in one of the names
/// is neither of the two. Refused only when out of memory.
///
/// - `opened`: the world and the leases, which are only read.
/// - `line`: the line without white space around it.
pub fn named_view(alloc: Global, opened: &Opened, line: &str) -> Result<Option<String>, AllocError>
    ensures path { IfOk result (λ shown. ShowsPathIn opened.now line.now (option_map string_bytes shown)) }
    ensures check { IfOk result (λ shown. ShowsCheckIn opened.now line.now (option_map string_bytes shown)) }
    ensures only { IfOk result (λ shown. IfSome shown (λ text. IsCheckLine line.now ⊎ IsExplainLine line.now)) }
{
    if line.starts_with('c') {
        checked_view(alloc, opened, line)
    } else {
        explained_view(alloc, opened, line)
    }
}
