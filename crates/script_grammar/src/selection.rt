//! The selection of a query: which columns of which table, under which conditions.
ghost use Rattle.std.specs.Prelude.{◌≡◌, drop};
ghost use Rattle.script_tokens.specs.Productions.{Gives, is_mark};
ghost use Rattle.script_grammar.specs.Commands.{begins_with, columns_at, selected_at, key_condition_at, compared, between_at, comparison_at, column_condition_at, condition_at, conditions_of, IsJoined, optional_conditions_of, selection_of};

use crate::operation::tuple;
use collections::List;
use keycode::{Text, Value, Values};
use script_tokens::{
    LineFault, Mark, Production, Token, after_mark, after_word, is_mark, is_word, name, value,
};
use std::alloc::Global;

/// A condition on the rows of a table.
#[derive(Drop)]
pub enum Condition {
    /// `key = ( VALUE {, VALUE} )`: the values of the primary key.
    Key(Values),
    /// `COLUMN = VALUE`
    Equal {
        column: Text,
        value: Value,
    },
    /// `COLUMN >= VALUE`, which has no high bound, `COLUMN <= VALUE`, which has no low one, or
    /// `COLUMN between VALUE and VALUE`.
    Between {
        column: Text,
        low: Option<Value>,
        high: Option<Value>,
    },
}

/// `select COLUMN {, COLUMN} from TABLE [where COND {and COND}]`, or `*` in place of the columns.
/// Without `where` there is no condition.
#[derive(Drop)]
pub struct Selection {
    pub table: Text,
    /// The columns in the order of the line, or `None` for `*`.
    pub columns: Option<List<Text>>,
    pub conditions: List<Condition>,
}

fn begins_with(tokens: &[Token<'_>], wanted: Mark) -> bool
    ensures { result ≡ begins_with (is_mark wanted) tokens.now }
{
    match tokens {
        [first, ..] => is_mark(first, wanted),
        [] => false,
    }
}

/// The tokens after the first.
fn behind_first<'t, 'a>(tokens: &'t [Token<'a>]) -> &'t [Token<'a>]
    ensures { result.now ≡ drop 1 tokens.entry.now }
{
    match tokens {
        [_first, rest @ ..] => rest,
        [] => tokens,
    }
}

/// The columns at the start, with commas between them.
fn columns<'t, 'a>(
    alloc: Global,
    tokens: &'t [Token<'a>],
) -> Result<(List<Text>, &'t [Token<'a>]), LineFault>
    ensures { Gives (λ x. (x.0, x.1.now)) result (columns_at tokens.entry.now) }
{
    let mut columns = Vec::new(alloc);
    let mut rest = tokens;
    'columns: loop {
        let (column, behind) = name(alloc, rest)?;
        columns.push(column)?;
        if !begins_with(behind, Mark::Comma) {
            return Ok((List::new(columns), behind));
        }
        rest = behind_first(behind);
    }
}

/// The columns at the start, or none for `*`.
fn read_columns<'t, 'a>(
    alloc: Global,
    tokens: &'t [Token<'a>],
) -> Result<(Option<List<Text>>, &'t [Token<'a>]), LineFault>
    ensures { Gives (λ x. (x.0, x.1.now)) result (selected_at tokens.entry.now) }
{
    let [first, rest @ ..] = tokens else {
        return Err(LineFault::Malformed);
    };
    if is_mark(first, Mark::Star) {
        return Ok((None, rest));
    }
    let (columns, rest) = columns(alloc, tokens)?;
    Ok((Some(columns), rest))
}

#[tactic(auto, unfolding(crate::specs::Commands::key_condition_at))]
fn key_condition<'t, 'a>(
    alloc: Global,
    tokens: &'t [Token<'a>],
) -> Result<(Condition, &'t [Token<'a>]), LineFault>
    ensures { Gives (λ x. (x.0, x.1.now)) result (key_condition_at tokens.entry.now) }
{
    let rest = after_mark(tokens, Mark::Equal)?;
    let (key, rest) = tuple(alloc, rest)?;
    Ok((Condition::Key(key), rest))
}

/// The condition that a sign and the value after it make of a column, if it is `=`, `>=` or
/// `<=`.
fn condition_of(sign: &Token<'_>, column: Text, value: Value) -> Option<Condition>
    ensures { result ≡ compared sign.now column value }
{
    if is_mark(sign, Mark::Equal) {
        Some(Condition::Equal { column, value })
    } else if is_mark(sign, Mark::AtLeast) {
        let low = Some(value);
        let high = None;
        Some(Condition::Between { column, low, high })
    } else if is_mark(sign, Mark::AtMost) {
        let low = None;
        let high = Some(value);
        Some(Condition::Between { column, low, high })
    } else {
        None
    }
}

#[tactic(auto, unfolding(crate::specs::Commands::between_at))]
fn between<'t, 'a>(
    alloc: Global,
    column: Text,
    tokens: &'t [Token<'a>],
) -> Result<(Condition, &'t [Token<'a>]), LineFault>
    ensures { Gives (λ x. (x.0, x.1.now)) result (between_at column tokens.entry.now) }
{
    let (first, rest) = value(alloc, tokens)?;
    let rest = after_word(rest, b"and")?;
    let (last, rest) = value(alloc, rest)?;
    let low = Some(first);
    let high = Some(last);
    Ok((Condition::Between { column, low, high }, rest))
}

/// What follows a column's name in a condition.
#[tactic(auto, unfolding(crate::specs::Commands::comparison_at, crate::specs::Commands::compared_at))]
fn comparison<'t, 'a>(
    alloc: Global,
    column: Text,
    tokens: &'t [Token<'a>],
) -> Result<(Condition, &'t [Token<'a>]), LineFault>
    ensures { Gives (λ x. (x.0, x.1.now)) result (comparison_at column tokens.entry.now) }
{
    let [first, rest @ ..] = tokens else {
        return Err(LineFault::Malformed);
    };
    if is_word(first, b"between") {
        return between(alloc, column, rest);
    }
    let (value, rest) = value(alloc, rest)?;
    match condition_of(first, column, value) {
        Some(condition) => Ok((condition, rest)),
        None => Err(LineFault::Malformed),
    }
}

#[tactic(auto, unfolding(crate::specs::Commands::column_condition_at))]
fn column_condition<'t, 'a>(
    alloc: Global,
    tokens: &'t [Token<'a>],
) -> Result<(Condition, &'t [Token<'a>]), LineFault>
    ensures { Gives (λ x. (x.0, x.1.now)) result (column_condition_at tokens.entry.now) }
{
    let (column, rest) = name(alloc, tokens)?;
    comparison(alloc, column, rest)
}

/// The condition at the start.
#[tactic(auto, unfolding(crate::specs::Commands::condition_at))]
fn condition_at<'t, 'a>(
    alloc: Global,
    tokens: &'t [Token<'a>],
) -> Result<(Condition, &'t [Token<'a>]), LineFault>
    ensures { Gives (λ x. (x.0, x.1.now)) result (condition_at tokens.entry.now) }
{
    let [first, rest @ ..] = tokens else {
        return Err(LineFault::Malformed);
    };
    if is_word(first, b"key") {
        key_condition(alloc, rest)
    } else {
        column_condition(alloc, tokens)
    }
}

/// The conditions, with `and` between them, read to the end of the tokens.
#[tactic(auto, using(crate::proofs::Bounds::unbounded))]
fn conditions(alloc: Global, tokens: &[Token<'_>]) -> Result<List<Condition>, LineFault>
    ensures exact { Gives (λ x. x) result (conditions_of tokens.now) }
    // Their number has no bound of its own.
    ensures unbounded { IsJoined tokens.now }
{
    let mut conditions = Vec::new(alloc);
    let mut rest = tokens;
    // Each condition has a token at least, so the tokens bound their number.
    'conditions: for _bound in tokens {
        let (condition, behind) = condition_at(alloc, rest)?;
        conditions.push(condition)?;
        if behind.is_empty() {
            return Ok(List::new(conditions));
        }
        after_word(behind, b"and")?;
        rest = behind_first(behind);
    }
    Err(LineFault::Malformed)
}

fn optional_conditions(alloc: Global, tokens: &[Token<'_>]) -> Result<List<Condition>, LineFault>
    ensures { Gives (λ x. x) result (optional_conditions_of tokens.now) }
{
    if tokens.is_empty() {
        return Ok(List::new(Vec::new(alloc)));
    }
    let rest = after_word(tokens, b"where")?;
    conditions(alloc, rest)
}

impl Production for Selection {
    ghost parsed = { selection_of };

    #[tactic(auto, unfolding(crate::specs::Commands::selection_of))]
    fn read(alloc: Global, tokens: &[Token<'_>]) -> Result<Selection, LineFault> {
        let rest = after_word(tokens, b"select")?;
        let (columns, rest) = read_columns(alloc, rest)?;
        let rest = after_word(rest, b"from")?;
        let (table, rest) = name(alloc, rest)?;
        let conditions = optional_conditions(alloc, rest)?;
        Ok(Selection {
            table,
            columns,
            conditions,
        })
    }
}
