//! Elements by their names, and what is to enter.
ghost use Rattle.script_tokens.specs.Productions.{Gives};
ghost use Rattle.script_grammar.specs.Changes.{element_at, element_of, on_table_at, named_on_at, named_on, index_at, new_index_at, default_at, new_column_at, new_at, to_state_of, optional_to_state_of};

use collections::List;
use keycode::{Text, Value};
use row_map::ColumnType;
use schema_version::ElementState;
use script_tokens::{
    LineFault, Mark, Token, after_mark, after_word, at_end, column_type, cut_brackets, is_word,
    name, read_each, state, value,
};
use std::alloc::Global;

/// An element by the names of its table and of itself: `TABLE.NAME`.
#[derive(Drop)]
pub struct ElementName {
    pub table: Text,
    pub name: Text,
}

/// What is to enter.
#[derive(Drop)]
pub enum New {
    /// `index NAME on TABLE ( COLUMN {, COLUMN} )`
    Index {
        name: Text,
        table: Text,
        columns: List<Text>,
    },
    /// `column NAME TYPE [default VALUE] on TABLE`: with a default, each row has a value.
    Column {
        name: Text,
        column_type: ColumnType,
        fallback: Option<Value>,
        table: Text,
    },
}

/// `TABLE.NAME` at the start.
#[tactic(auto, unfolding(crate::specs::Changes::element_at))]
pub(crate) fn element<'t, 'a>(
    alloc: Global,
    tokens: &'t [Token<'a>],
) -> Result<(ElementName, &'t [Token<'a>]), LineFault>
    ensures { Gives (λ x. (x.0, x.1.now)) result (element_at tokens.entry.now) }
{
    let (table, rest) = name(alloc, tokens)?;
    let rest = after_mark(rest, Mark::Dot)?;
    let (name, rest) = name(alloc, rest)?;
    Ok((ElementName { table, name }, rest))
}

/// `TABLE.NAME`, read whole.
#[tactic(auto, unfolding(crate::specs::Changes::element_of))]
pub(crate) fn whole_element(alloc: Global, tokens: &[Token<'_>]) -> Result<ElementName, LineFault>
    ensures { Gives (λ x. x) result (element_of tokens.now) }
{
    let (element, rest) = element(alloc, tokens)?;
    at_end(element, rest)
}

/// `on TABLE` at the start.
#[tactic(auto, unfolding(crate::specs::Changes::on_table_at))]
fn on_table<'t, 'a>(
    alloc: Global,
    tokens: &'t [Token<'a>],
) -> Result<(Text, &'t [Token<'a>]), LineFault>
    ensures { Gives (λ x. (x.0, x.1.now)) result (on_table_at tokens.entry.now) }
{
    let rest = after_word(tokens, b"on")?;
    name(alloc, rest)
}

/// `NAME on TABLE` at the start.
#[tactic(auto, unfolding(crate::specs::Changes::named_on_at))]
fn named_on_at<'t, 'a>(
    alloc: Global,
    tokens: &'t [Token<'a>],
) -> Result<(ElementName, &'t [Token<'a>]), LineFault>
    ensures { Gives (λ x. (x.0, x.1.now)) result (named_on_at tokens.entry.now) }
{
    let (name, rest) = name(alloc, tokens)?;
    let (table, rest) = on_table(alloc, rest)?;
    Ok((ElementName { table, name }, rest))
}

/// `NAME on TABLE`, read whole.
#[tactic(auto, unfolding(crate::specs::Changes::named_on))]
pub(crate) fn named_on(alloc: Global, tokens: &[Token<'_>]) -> Result<ElementName, LineFault>
    ensures { Gives (λ x. x) result (named_on tokens.now) }
{
    let (element, rest) = named_on_at(alloc, tokens)?;
    at_end(element, rest)
}

/// An index by its names, and the names of its columns: `NAME on TABLE ( COLUMN {, COLUMN} )` at
/// the start.
#[tactic(auto, unfolding(crate::specs::Changes::index_at))]
pub(crate) fn index_on<'t, 'a>(
    alloc: Global,
    tokens: &'t [Token<'a>],
) -> Result<((ElementName, List<Text>), &'t [Token<'a>]), LineFault>
    ensures { Gives (λ x. (x.0, x.1.now)) result (index_at tokens.entry.now) }
{
    let (index, rest) = named_on_at(alloc, tokens)?;
    let (inner, rest) = cut_brackets(rest)?;
    let columns = read_each::<Text>(alloc, inner, Mark::Comma)?;
    Ok(((index, columns), rest))
}

#[tactic(auto, unfolding(crate::specs::Changes::new_index_at))]
fn new_index<'t, 'a>(
    alloc: Global,
    tokens: &'t [Token<'a>],
) -> Result<(New, &'t [Token<'a>]), LineFault>
    ensures { Gives (λ x. (x.0, x.1.now)) result (new_index_at tokens.entry.now) }
{
    let ((ElementName { table, name }, columns), rest) = index_on(alloc, tokens)?;
    let fresh = New::Index {
        name,
        table,
        columns,
    };
    Ok((fresh, rest))
}

/// `default VALUE` at the start, or nothing.
#[tactic(auto, unfolding(crate::specs::Changes::default_at))]
fn optional_default<'t, 'a>(
    alloc: Global,
    tokens: &'t [Token<'a>],
) -> Result<(Option<Value>, &'t [Token<'a>]), LineFault>
    ensures { Gives (λ x. (x.0, x.1.now)) result (default_at tokens.entry.now) }
{
    match tokens {
        [first, rest @ ..] if is_word(first, b"default") => {
            let (fallback, rest) = value(alloc, rest)?;
            Ok((Some(fallback), rest))
        }
        _ => Ok((None, tokens)),
    }
}

#[tactic(auto, unfolding(crate::specs::Changes::new_column_at))]
fn new_column<'t, 'a>(
    alloc: Global,
    tokens: &'t [Token<'a>],
) -> Result<(New, &'t [Token<'a>]), LineFault>
    ensures { Gives (λ x. (x.0, x.1.now)) result (new_column_at tokens.entry.now) }
{
    let (name, rest) = name(alloc, tokens)?;
    let (column_type, rest) = column_type(rest)?;
    let (fallback, rest) = optional_default(alloc, rest)?;
    let (table, rest) = on_table(alloc, rest)?;
    let fresh = New::Column {
        name,
        column_type,
        fallback,
        table,
    };
    Ok((fresh, rest))
}

/// What is to enter, at the start.
#[tactic(auto, unfolding(crate::specs::Changes::new_at))]
pub(crate) fn fresh<'t, 'a>(
    alloc: Global,
    tokens: &'t [Token<'a>],
) -> Result<(New, &'t [Token<'a>]), LineFault>
    ensures { Gives (λ x. (x.0, x.1.now)) result (new_at tokens.entry.now) }
{
    let [first, rest @ ..] = tokens else {
        return Err(LineFault::Malformed);
    };
    if is_word(first, b"index") {
        new_index(alloc, rest)
    } else if is_word(first, b"column") {
        new_column(alloc, rest)
    } else {
        Err(LineFault::Malformed)
    }
}

/// `to STATE`, read whole.
#[tactic(auto, unfolding(crate::specs::Changes::to_state_of))]
pub(crate) fn to_state(tokens: &[Token<'_>]) -> Result<ElementState, LineFault>
    ensures { Gives (λ x. x) result (to_state_of tokens.now) }
{
    let rest = after_word(tokens, b"to")?;
    let (state, rest) = state(rest)?;
    at_end(state, rest)
}

/// The same, or nothing, which is delete-only.
pub(crate) fn optional_to_state(tokens: &[Token<'_>]) -> Result<ElementState, LineFault>
    ensures { Gives (λ x. x) result (optional_to_state_of tokens.now) }
{
    if tokens.is_empty() {
        return Ok(ElementState::DeleteOnly);
    }
    to_state(tokens)
}
