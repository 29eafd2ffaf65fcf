//! The lines before `open`, and `open` itself.
ghost use Rattle.std.specs.Prelude.{◌≡◌, IfOk, Some, None, false, if◌then◌else◌, codes, string_bytes, bytes_eq};
ghost use Rattle.script_grammar.specs.declared.command.Command.TheVariants as command;
ghost use Rattle.script_session.specs.Declare.{Declares, with_index};
ghost use Rattle.script_replies.specs.Texts.{line};
ghost use Rattle.script_session.specs.declared.session.Session.TheVariants.{Declaring};

use crate::session::{Answer, Declarations, Opened, Session, bad_line, nothing_declared, reply};
use byte_map::KeyMap;
use collections::List;
use keycode::Text;
use schema_version::TableDef;
use script_grammar::Command;
use script_replies::open_refusal;
use script_replies::world::{Config, World};
use std::alloc::{AllocError, Global};

fn ok(alloc: Global, declared: Declarations) -> Result<(Session, Answer), AllocError>
    ensures session { IfOk result (λ x. x.0 ≡ Declaring declared) }
    ensures text { IfOk result (λ x. string_bytes x.1.text ≡ line (codes "ok")) }
    ensures good { IfOk result (λ x. x.1.is_bad ≡ false) }
{
    let answer = reply("ok\n".to_string(alloc)?);
    Ok((Session::Declaring(declared), answer))
}

// Adds an index to the first table of this name, and tells whether there is one.
fn add_index(
    tables: &mut Vec<TableDef>,
    table: &[u8],
    name: Text,
    columns: List<Text>,
) -> Result<bool, AllocError>
    ensures added { IfOk result (λ found. with_index tables.old.items name table.now columns ≡ (if found then Some tables.new.items else None)) }
    ensures kept { IfOk result (λ found. found ≡ false → tables.new.items ≡ tables.old.items) }
{
    for place in 0..tables.as_slice().len() {
        if is_named(&tables[place], table) {
            let definition = &mut tables[place];
            definition.indexes.push((name, columns))?;
            return Ok(true);
        }
    }
    Ok(false)
}

fn is_named(definition: &TableDef, name: &[u8]) -> bool
    ensures { result ≡ bytes_eq name.now definition.now.name }
{
    name == definition.name.as_bytes()
}

fn index(
    alloc: Global,
    declared: Declarations,
    name: Text,
    table: &Text,
    columns: List<Text>,
) -> Result<(Session, Answer), AllocError>
    ensures { IfOk result (λ x. Declares declared (command.Index name table.now columns) (string_bytes x.1.text) x.1.is_bad x.0) }
{
    let length = declared.length;
    let mut tables = declared.tables.into_vec();
    let found = add_index(&mut tables, table.as_bytes(), name, columns)?;
    let declared = Declarations {
        tables: List::new(tables),
        length,
    };
    if found {
        ok(alloc, declared)
    } else {
        Ok((Session::Declaring(declared), bad_line(alloc)?))
    }
}

fn open(alloc: Global, declared: Declarations) -> Result<(Session, Answer), AllocError>
    ensures { IfOk result (λ x. Declares declared command.Open (string_bytes x.1.text) x.1.is_bad x.0) }
{
    let config = Config {
        length: declared.length,
        tables: declared.tables,
    };
    match World::open(alloc, &config) {
        Ok(world) => {
            let answer = reply("ok version 1\n".to_string(alloc)?);
            let opened = Opened {
                world,
                leases: KeyMap::new(alloc),
                pending: KeyMap::new(alloc),
                plan: List::new(Vec::new(alloc)),
            };
            Ok((Session::Running(opened), answer))
        }
        Err(fault) => {
            let answer = reply(open_refusal(alloc, fault)?);
            Ok((Session::Declaring(nothing_declared(alloc)), answer))
        }
    }
}

/// What a line before `open` answers, and what it leaves.
pub(crate) fn declare(
    alloc: Global,
    declared: Declarations,
    command: Command,
) -> Result<(Session, Answer), AllocError>
    ensures { IfOk result (λ x. Declares declared command (string_bytes x.1.text) x.1.is_bad x.0) }
{
    match command {
        Command::Length(length) => ok(
            alloc,
            Declarations {
                tables: declared.tables,
                length,
            },
        ),
        Command::Table { name, key, columns } => {
            let mut tables = declared.tables;
            let indexes = List::new(Vec::new(alloc));
            tables.push(TableDef {
                name,
                key,
                columns,
                indexes,
            })?;
            let length = declared.length;
            ok(alloc, Declarations { tables, length })
        }
        Command::Index {
            name,
            table,
            columns,
        } => index(alloc, declared, name, &table, columns),
        Command::Open => open(alloc, declared),
        _ => Ok((Session::Declaring(declared), bad_line(alloc)?)),
    }
}
