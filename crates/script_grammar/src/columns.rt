//! The columns of a table's declaration.
ghost use Rattle.std.specs.Prelude.{◌≡◌, true, IfOk};
ghost use Rattle.script_tokens.specs.Productions.{Gives};
ghost use Rattle.script_grammar.specs.Commands.{key_of, declared_of, keys_lead, keys_first, key_columns, other_columns};

use collections::List;
use keycode::Text;
use row_map::ColumnType;
use script_tokens::{LineFault, Production, Token, after_word, at_end, column_type, name};
use std::alloc::{AllocError, Global};

/// A column as a table's declaration has it, and whether it is of the primary key.
#[derive(Drop)]
pub struct Declared {
    pub name: Text,
    pub column_type: ColumnType,
    pub is_key: bool,
}

/// The names and types of columns.
pub type Columns = List<(Text, ColumnType)>;

fn key(tokens: &[Token<'_>]) -> Result<bool, LineFault>
    ensures { Gives (λ x. x) result (key_of tokens.now) }
{
    if tokens.is_empty() {
        return Ok(false);
    }
    let rest = after_word(tokens, b"key")?;
    at_end(true, rest)
}

impl Production for Declared {
    ghost parsed = { declared_of };

    #[tactic(auto, unfolding(crate::specs::Commands::declared_of))]
    fn read(alloc: Global, tokens: &[Token<'_>]) -> Result<Declared, LineFault> {
        let (name, rest) = name(alloc, tokens)?;
        let (column_type, rest) = column_type(rest)?;
        let is_key = key(rest)?;
        Ok(Declared {
            name,
            column_type,
            is_key,
        })
    }
}

fn keys_lead(columns: &[Declared]) -> bool
    ensures { result ≡ keys_lead true columns.now }
{
    let mut is_behind_key = true;
    for column in columns {
        if column.is_key && !is_behind_key {
            return false;
        }
        is_behind_key = column.is_key;
    }
    true
}

/// Whether there is a key column, and the key columns stand first.
pub fn keys_first(columns: &[Declared]) -> bool
    ensures { result ≡ keys_first columns.now }
{
    match columns {
        [first, rest @ ..] => first.is_key && keys_lead(rest),
        [] => false,
    }
}

/// The key columns, and the others.
pub fn split(alloc: Global, columns: List<Declared>) -> Result<(Columns, Columns), AllocError>
    ensures { IfOk result (λ x. x ≡ (key_columns columns, other_columns columns)) }
{
    let mut keys = Vec::new(alloc);
    let mut others = Vec::new(alloc);
    for column in columns.into_vec() {
        let Declared {
            name,
            column_type,
            is_key,
        } = column;
        if is_key {
            keys.push((name, column_type))?;
        } else {
            others.push((name, column_type))?;
        }
    }
    Ok((List::new(keys), List::new(others)))
}
