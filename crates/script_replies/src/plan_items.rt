//! The items of a step's line: its reorganisations and its moves.
ghost use Rattle.std.specs.Prelude.{◌≡◌, ◌++◌, IfOk, OnOk, string_bytes};
ghost use mathlib.Core.List.{map};
ghost use Rattle.schema_version.specs.Version.{table_at};
ghost use Rattle.script_replies.specs.PlanLines.{name_or_empty, dotted, element_text, reorg_text, move_text, item_texts, joined};

use change_plan::{PlanStep, Reorg};
use keycode::Text;
use schema_version::{Move, Schema};
use script_grammar::state_word;
use std::alloc::{AllocError, Global};

fn table_name(schema: &Schema, table: u32) -> &str
    ensures { result.now ≡ name_or_empty (table_at schema.now table) }
{
    match schema.table_name(table) {
        Some(name) => name,
        None => "",
    }
}

fn push_dotted(out: &mut String, schema: &Schema, table: u32, name: &Text) -> Result<(), AllocError>
    ensures { OnOk result (string_bytes out.new ≡ string_bytes out.old ++ dotted schema.now table name.now) }
{
    out.push_str(table_name(schema, table))?;
    out.push_str(".")?;
    out.push_str(name.as_str())
}

fn push_element(out: &mut String, schema: &Schema, number: u32) -> Result<(), AllocError>
    ensures { OnOk result (string_bytes out.new ≡ string_bytes out.old ++ element_text schema.now number) }
{
    match schema.element(number) {
        Some(element) => push_dotted(out, schema, element.table, &element.name),
        None => Ok(()),
    }
}

fn reorg_text(alloc: Global, schema: &Schema, reorg: Reorg) -> Result<String, AllocError>
    ensures { IfOk result (λ text. string_bytes text ≡ reorg_text schema.now reorg) }
{
    let mut text = String::new(alloc);
    match reorg {
        Reorg::Fill(number) => {
            text.push_str("fill ")?;
            push_element(&mut text, schema, number)?;
        }
        Reorg::Clear(number) => {
            text.push_str("clear ")?;
            push_element(&mut text, schema, number)?;
        }
    }
    Ok(text)
}

fn move_text(alloc: Global, schema: &Schema, a: &Move) -> Result<String, AllocError>
    ensures { IfOk result (λ text. string_bytes text ≡ move_text schema.now a.now) }
{
    let mut text = String::new(alloc);
    let word = match a {
        Move::Enter { fresh, to } => {
            push_dotted(&mut text, schema, fresh.table, &fresh.name)?;
            state_word(*to)
        }
        Move::Go { element, to } => {
            push_element(&mut text, schema, *element)?;
            state_word(*to)
        }
        Move::Turn { element } => {
            push_element(&mut text, schema, *element)?;
            "dropping"
        }
    };
    text.push_str(" ")?;
    text.push_str(word)?;
    Ok(text)
}

fn add_reorgs(
    alloc: Global,
    texts: &mut Vec<String>,
    schema: &Schema,
    reorgs: &[Reorg],
) -> Result<(), AllocError>
    ensures { OnOk result (map string_bytes texts.new.items ≡ map string_bytes texts.old.items ++ map (reorg_text schema.now) reorgs.now) }
{
    for reorg in reorgs {
        let text = reorg_text(alloc, schema, *reorg)?;
        texts.push(text)?;
    }
    Ok(())
}

fn add_moves(
    alloc: Global,
    texts: &mut Vec<String>,
    schema: &Schema,
    moves: &[Move],
) -> Result<(), AllocError>
    ensures { OnOk result (map string_bytes texts.new.items ≡ map string_bytes texts.old.items ++ map (move_text schema.now) moves.now) }
{
    for a in moves {
        let text = move_text(alloc, schema, a)?;
        texts.push(text)?;
    }
    Ok(())
}

fn item_texts(alloc: Global, schema: &Schema, step: &PlanStep) -> Result<Vec<String>, AllocError>
    ensures { IfOk result (λ texts. map string_bytes texts.items ≡ item_texts schema.now step.now) }
{
    let mut texts = Vec::new(alloc);
    add_reorgs(alloc, &mut texts, schema, step.before.as_slice())?;
    add_moves(alloc, &mut texts, schema, step.step.as_slice())?;
    Ok(texts)
}

/// The items of a step in a row, with a comma between each two.
pub(crate) fn join_items(
    alloc: Global,
    schema: &Schema,
    step: &PlanStep,
) -> Result<String, AllocError>
    ensures { IfOk result (λ text. string_bytes text ≡ joined (item_texts schema.now step.now)) }
{
    let texts = item_texts(alloc, schema, step)?;
    texts.as_slice().join(alloc, ", ")
}
