//! Tables of texts: a line each, `NAME|TEXT`. One text is cheap to prove with; a `match` of as many
//! names is not.

/// The text of a name, if the table has it.
///
/// - `table`: the table, a line `NAME|TEXT` each.
/// - `name`: the name.
pub fn row_of(table: &'static str, name: &str) -> Option<&'static str> {
    for line in table.lines() {
        let (key, text) = line.split_once('|').unwrap_or((line, ""));
        if key == name {
            return Some(text);
        }
    }
    None
}

/// The text of a name whose letters are small or capital, if the table has it.
///
/// - `table`: the table.
/// - `name`: the name.
pub(crate) fn row_in_any_case(table: &'static str, name: &str) -> Option<&'static str> {
    for line in table.lines() {
        let (key, text) = line.split_once('|').unwrap_or((line, ""));
        if key.eq_ignore_ascii_case(name) {
            return Some(text);
        }
    }
    None
}
