//! The operations of a transaction.
ghost use Rattle.script_tokens.specs.Productions.{Gives};
ghost use Rattle.script_grammar.specs.Commands.{tuple_at, sets_of, optional_sets_of, insert_of, update_of, delete_of, operation_of};

use collections::List;
use keycode::{Text, Value, Values};
use script_tokens::{
    LineFault, Mark, Production, Token, after_word, at_end, cut_brackets, is_word, name, read_each,
};
use std::alloc::Global;

/// An operation of a transaction on one row, which the values of its primary key name.
#[derive(Drop)]
pub enum Operation {
    /// `insert TABLE ( VALUE {, VALUE} ) [set COLUMN = VALUE {, COLUMN = VALUE}]`; no `set` makes
    /// an empty list.
    Insert {
        table: Text,
        key: Values,
        sets: List<(Text, Value)>,
    },
    /// `update TABLE ( VALUE {, VALUE} ) set COLUMN = VALUE {, COLUMN = VALUE}`
    Update {
        table: Text,
        key: Values,
        sets: List<(Text, Value)>,
    },
    /// `delete TABLE ( VALUE {, VALUE} )`
    Delete {
        table: Text,
        key: Values,
    },
}

/// The values in round brackets at the start.
#[tactic(auto, unfolding(crate::specs::Commands::tuple_at))]
pub(crate) fn tuple<'t, 'a>(
    alloc: Global,
    tokens: &'t [Token<'a>],
) -> Result<(Values, &'t [Token<'a>]), LineFault>
    ensures { Gives (λ x. (x.0, x.1.now)) result (tuple_at tokens.entry.now) }
{
    let (inner, rest) = cut_brackets(tokens)?;
    let values = read_each::<Value>(alloc, inner, Mark::Comma)?;
    Ok((values, rest))
}

#[tactic(auto, unfolding(crate::specs::Commands::sets_of))]
fn sets(alloc: Global, tokens: &[Token<'_>]) -> Result<List<(Text, Value)>, LineFault>
    ensures { Gives (λ x. x) result (sets_of tokens.now) }
{
    let rest = after_word(tokens, b"set")?;
    read_each::<(Text, Value)>(alloc, rest, Mark::Comma)
}

fn optional_sets(alloc: Global, tokens: &[Token<'_>]) -> Result<List<(Text, Value)>, LineFault>
    ensures { Gives (λ x. x) result (optional_sets_of tokens.now) }
{
    if tokens.is_empty() {
        return Ok(List::new(Vec::new(alloc)));
    }
    sets(alloc, tokens)
}

#[tactic(auto, unfolding(crate::specs::Commands::insert_of))]
fn insert(alloc: Global, tokens: &[Token<'_>]) -> Result<Operation, LineFault>
    ensures { Gives (λ x. x) result (insert_of tokens.now) }
{
    let (table, rest) = name(alloc, tokens)?;
    let (key, rest) = tuple(alloc, rest)?;
    let sets = optional_sets(alloc, rest)?;
    Ok(Operation::Insert { table, key, sets })
}

#[tactic(auto, unfolding(crate::specs::Commands::update_of))]
fn update(alloc: Global, tokens: &[Token<'_>]) -> Result<Operation, LineFault>
    ensures { Gives (λ x. x) result (update_of tokens.now) }
{
    let (table, rest) = name(alloc, tokens)?;
    let (key, rest) = tuple(alloc, rest)?;
    let sets = sets(alloc, rest)?;
    Ok(Operation::Update { table, key, sets })
}

#[tactic(auto, unfolding(crate::specs::Commands::delete_of))]
fn delete(alloc: Global, tokens: &[Token<'_>]) -> Result<Operation, LineFault>
    ensures { Gives (λ x. x) result (delete_of tokens.now) }
{
    let (table, rest) = name(alloc, tokens)?;
    let (key, rest) = tuple(alloc, rest)?;
    at_end(Operation::Delete { table, key }, rest)
}

impl Production for Operation {
    ghost parsed = { operation_of };

    #[tactic(auto, unfolding(crate::specs::Commands::operation_of))]
    fn read(alloc: Global, tokens: &[Token<'_>]) -> Result<Operation, LineFault> {
        let [first, rest @ ..] = tokens else {
            return Err(LineFault::Malformed);
        };
        if is_word(first, b"insert") {
            insert(alloc, rest)
        } else if is_word(first, b"update") {
            update(alloc, rest)
        } else if is_word(first, b"delete") {
            delete(alloc, rest)
        } else {
            Err(LineFault::Malformed)
        }
    }
}
