//! Plans of small batches, worked out from the edges of columns and indexes.
use crate::make::Literal::{self, Bool, Int as Whole, Letters, Null};
use crate::make::Plain::{self, Column, Go, Index, Required, Turn};
use crate::make::{G_AND_J_COME, Path, TABLE_T, mark, text, texts, value, version};
use change_plan::Reorg::{Clear, Fill};
use change_plan::{Change, PlanFault, PlanStep, Reorg, plan};
use keycode::Value;
use row_map::ColumnType::Int;
use schema_version::ElementState::{self, Absent, DeleteOnly, Public, WriteOnly};
use schema_version::{Kind, Move, NewElement, Schema};
use std::alloc::{AllocError, Global};
use std::test::*;

/// What is done with the table 1.
#[derive(Clone, Copy)]
enum Verb {
    AddIndex,
    DropIndex,
    AddColumn,
    /// A column of integers with this default.
    AddRequired(Literal),
    DropColumn,
    Abandon,
}

use Verb::{Abandon, AddColumn, AddIndex, AddRequired, DropColumn, DropIndex};

/// A change by the name of an element, and the columns of a new index, a byte each.
type Asked = (Verb, &'static str, &'static [u8]);

/// The moves of a step, and the reorganisations before it.
type PlainStep = (&'static [Reorg], &'static [Plain]);

type Wanted = Result<&'static [PlainStep], PlanFault>;

/// Steps from the table t, a batch of changes, and its plan.
type Case = (Path, &'static [Asked], Wanted);

static PLANS: [Case; 15] = [
    (&[], &[], Ok(&[])),
    (
        &[],
        &[(AddIndex, "j", b"b")],
        Ok(&[
            (&[], &[Index("j", &[2], DeleteOnly)]),
            (&[], &[Go(7, WriteOnly)]),
            (&[Fill(7)], &[Go(7, Public)]),
        ]),
    ),
    (
        &[],
        &[(DropIndex, "i", b"")],
        Ok(&[
            (&[], &[Go(6, WriteOnly)]),
            (&[], &[Go(6, DeleteOnly)]),
            (&[Clear(6)], &[Go(6, Absent)]),
        ]),
    ),
    // The name comes back under a new number.
    (
        &[&[Go(6, WriteOnly)], &[Go(6, DeleteOnly)], &[Go(6, Absent)]],
        &[(AddIndex, "i", b"a")],
        Ok(&[
            (&[], &[Index("i", &[1], DeleteOnly)]),
            (&[], &[Go(7, WriteOnly)]),
            (&[Fill(7)], &[Go(7, Public)]),
        ]),
    ),
    // A column stays until no index lists it.
    (
        &[],
        &[(DropColumn, "a", b""), (DropIndex, "i", b"")],
        Ok(&[
            (&[], &[Go(6, WriteOnly)]),
            (&[], &[Go(6, DeleteOnly)]),
            (&[Clear(6)], &[Go(6, Absent)]),
            (&[], &[Go(1, DeleteOnly)]),
            (&[Clear(1)], &[Go(1, Absent)]),
        ]),
    ),
    // An index waits for its column.
    (
        &[],
        &[(AddIndex, "j", b"f"), (AddColumn, "f", b"")],
        Ok(&[
            (&[], &[Column("f")]),
            (&[], &[Go(7, Public)]),
            (&[], &[Index("j", &[7], DeleteOnly)]),
            (&[], &[Go(8, WriteOnly)]),
            (&[Fill(8)], &[Go(8, Public)]),
        ]),
    ),
    // What is abandoned turns back first, and a column stays until no such index lists it.
    (
        &[&[Column("f"), Index("j", &[2], DeleteOnly)]],
        &[
            (DropColumn, "b", b""),
            (Abandon, "j", b""),
            (Abandon, "f", b""),
        ],
        Ok(&[
            (&[], &[Turn(8), Turn(7)]),
            (&[Clear(8), Clear(7)], &[Go(8, Absent), Go(7, Absent)]),
            (&[], &[Go(2, DeleteOnly)]),
            (&[Clear(2)], &[Go(2, Absent)]),
        ]),
    ),
    (
        &[&[Index("j", &[2], DeleteOnly)], &[Go(7, WriteOnly)]],
        &[(Abandon, "j", b""), (AddIndex, "k", b"c")],
        Ok(&[
            (&[], &[Turn(7), Index("k", &[3], DeleteOnly)]),
            (&[], &[Go(7, DeleteOnly), Go(8, WriteOnly)]),
            (&[Clear(7), Fill(8)], &[Go(7, Absent), Go(8, Public)]),
        ]),
    ),
    (&[], &[(Abandon, "i", b"")], Err(PlanFault::Unknown)),
    (&[], &[(DropIndex, "y", b"")], Err(PlanFault::Unknown)),
    (&[], &[(AddColumn, "z", b"")], Err(PlanFault::NameTaken)),
    (&[], &[(AddColumn, "1b", b"")], Err(PlanFault::Limit)),
    (&[], &[(DropColumn, "a", b"")], Err(PlanFault::StillIndexed)),
    (
        &[&[Go(6, WriteOnly)]],
        &[(DropIndex, "i", b"")],
        Err(PlanFault::InChange),
    ),
    // The second change of an element is refused, and the fault of what stands after it is not
    // reported.
    (
        &[],
        &[
            (DropIndex, "i", b""),
            (DropIndex, "i", b""),
            (AddColumn, "a", b""),
        ],
        Err(PlanFault::Unknown),
    ),
];

/// Plans of required columns, which are filled as indexes are.
static REQUIRED_PLANS: [Case; 8] = [
    (
        &[],
        &[(AddRequired(Whole(7)), "g", b"")],
        Ok(&[
            (&[], &[Required("g", Int, Whole(7), DeleteOnly)]),
            (&[], &[Go(7, WriteOnly)]),
            (&[Fill(7)], &[Go(7, Public)]),
        ]),
    ),
    // An index waits for its column, also if it stands before it in the batch.
    (
        &[],
        &[(AddIndex, "j", b"g"), (AddRequired(Whole(7)), "g", b"")],
        Ok(&[
            (&[], &[Required("g", Int, Whole(7), DeleteOnly)]),
            (&[], &[Go(7, WriteOnly)]),
            (&[Fill(7)], &[Go(7, Public)]),
            (&[], &[Index("j", &[7], DeleteOnly)]),
            (&[], &[Go(8, WriteOnly)]),
            (&[Fill(8)], &[Go(8, Public)]),
        ]),
    ),
    // The column stays until the index over it has gone.
    (
        G_AND_J_COME,
        &[(DropColumn, "g", b""), (DropIndex, "j", b"")],
        Ok(&[
            (&[], &[Go(8, WriteOnly)]),
            (&[], &[Go(8, DeleteOnly)]),
            (&[Clear(8)], &[Go(8, Absent)]),
            (&[], &[Go(7, WriteOnly)]),
            (&[], &[Go(7, DeleteOnly)]),
            (&[Clear(7)], &[Go(7, Absent)]),
        ]),
    ),
    // An index over columns of both kinds waits for the one that is public last.
    (
        &[],
        &[
            (AddColumn, "f", b""),
            (AddRequired(Whole(7)), "g", b""),
            (AddIndex, "j", b"fg"),
        ],
        Ok(&[
            (
                &[],
                &[Column("f"), Required("g", Int, Whole(7), DeleteOnly)],
            ),
            (&[], &[Go(7, Public), Go(8, WriteOnly)]),
            (&[Fill(8)], &[Go(8, Public)]),
            (&[], &[Index("j", &[7, 8], DeleteOnly)]),
            (&[], &[Go(9, WriteOnly)]),
            (&[Fill(9)], &[Go(9, Public)]),
        ]),
    ),
    (
        &[
            &[Required("g", Int, Whole(7), DeleteOnly)],
            &[Go(7, WriteOnly)],
        ],
        &[(Abandon, "g", b"")],
        Ok(&[
            (&[], &[Turn(7)]),
            (&[], &[Go(7, DeleteOnly)]),
            (&[Clear(7)], &[Go(7, Absent)]),
        ]),
    ),
    (&[], &[(AddRequired(Null), "g", b"")], Err(PlanFault::Limit)),
    (
        &[],
        &[(AddRequired(Bool(true)), "g", b"")],
        Err(PlanFault::Limit),
    ),
    (
        &[],
        &[(AddRequired(Null), "a", b"")],
        Err(PlanFault::NameTaken),
    ),
];

fn change(alloc: Global, asked: Asked) -> Result<Change, AllocError> {
    let table = 1;
    let name = text(alloc, asked.1)?;
    match asked.0 {
        AddIndex => {
            let columns = texts(alloc, asked.2)?;
            Ok(Change::AddIndex {
                table,
                name,
                columns,
            })
        }
        DropIndex => Ok(Change::DropIndex { table, name }),
        AddColumn => {
            let kind = Kind::Optional(Int);
            Ok(Change::AddColumn { table, name, kind })
        }
        AddRequired(literal) => {
            let fallback = value(alloc, literal)?;
            let kind = Kind::Required {
                column: Int,
                fallback,
            };
            Ok(Change::AddColumn { table, name, kind })
        }
        DropColumn => Ok(Change::DropColumn { table, name }),
        Abandon => Ok(Change::Abandon { table, name }),
    }
}

fn batch(alloc: Global, asked: &[Asked]) -> Result<Vec<Change>, AllocError> {
    let mut changes = Vec::new(alloc);
    for one in asked {
        changes.push(change(alloc, *one)?)?;
    }
    Ok(changes)
}

fn is_value(value: &Value, want: Literal) -> bool {
    match (value, want) {
        (Value::Null, Null) => true,
        (Value::Int(number), Whole(wanted)) => *number == wanted,
        (Value::Bool(truth), Bool(wanted)) => *truth == wanted,
        (Value::Text(text), Letters(count)) => text.as_bytes().len() == count,
        _ => false,
    }
}

/// Whether the element is the column that is wanted, or the index.
fn is_kind(kind: &Kind, want: Plain) -> bool {
    match (kind, want) {
        (Kind::Optional(column), Column(_)) => *column == Int,
        (Kind::Index(indexed_columns), Index(_, columns, _)) => indexed_columns.as_slice()
            == columns,
        (Kind::Required { column, fallback }, Required(_, wanted, literal, _)) => {
            *column == wanted && is_value(fallback, literal)
        }
        _ => false,
    }
}

/// Whether the element enters in this state, and under this name.
fn is_entry(fresh: &NewElement, to: ElementState, want: Plain) -> bool {
    let (name, state) = match want {
        Column(name) => (name, DeleteOnly),
        Index(name, _, state) => (name, state),
        Required(name, _, _, state) => (name, state),
        Go(_, _) | Turn(_) => return false,
    };
    fresh.table == 1 && fresh.name.as_str() == name && to == state && is_kind(&fresh.kind, want)
}

fn is_move(got: &Move, want: Plain) -> bool {
    match (got, want) {
        (Move::Go { element, to }, Go(number, state)) => *element == number && *to == state,
        (Move::Turn { element }, Turn(number)) => *element == number,
        (Move::Enter { fresh, to }, want) => is_entry(fresh, *to, want),
        _ => false,
    }
}

fn are_moves(got: &[Move], want: &[Plain]) -> bool {
    match (got, want) {
        ([], []) => true,
        ([first, rest @ ..], [wanted, others @ ..]) => {
            is_move(first, *wanted) && are_moves(rest, others)
        }
        _ => false,
    }
}

fn is_step(got: &PlanStep, want: PlainStep) -> bool {
    got.before.as_slice() == want.0 && are_moves(got.step.as_slice(), want.1)
}

fn are_steps(got: &[PlanStep], want: &[PlainStep]) -> bool {
    match (got, want) {
        ([], []) => true,
        ([first, rest @ ..], [wanted, others @ ..]) => {
            is_step(first, *wanted) && are_steps(rest, others)
        }
        _ => false,
    }
}

/// Whether the plan is the one that is wanted, or that memory was short.
fn is_planned(
    alloc: Global,
    schema: &Schema,
    changes: &[Change],
    want: Wanted,
) -> Result<bool, AllocError> {
    match (plan(alloc, schema, changes), want) {
        (Err(PlanFault::Memory), _) => Err(AllocError),
        (Ok(got), Ok(steps)) => Ok(are_steps(got.steps.as_slice(), steps)),
        (Err(got), Err(fault)) => Ok(got == fault),
        _ => Ok(false),
    }
}

fn is_batch_planned(alloc: Global, schema: &Schema, case: &Case) -> Result<bool, AllocError> {
    let changes = batch(alloc, case.1)?;
    is_planned(alloc, schema, &changes, case.2)
}

fn holds_once(alloc: Global, case: &Case) -> Result<bool, AllocError> {
    match version(alloc, &TABLE_T, case.0) {
        Ok(schema) => is_batch_planned(alloc, &schema, case),
        Err(_) => Err(AllocError),
    }
}

/// The same, asked once more if memory was short.
fn holds(alloc: Global, case: &Case) -> bool {
    match holds_once(alloc, case) {
        Err(AllocError) => holds_once(alloc, case) == Ok(true),
        reported => reported == Ok(true),
    }
}

#[test]
fn under_refusal_plans(rt: HostRuntime) {
    assert!(rt; mark(&rt));
    for row in 0..PLANS.len() {
        assert!(rt; holds(rt.alloc(), &PLANS[row]), "row {row}");
    }
    for row in 0..REQUIRED_PLANS.len() {
        assert!(rt;
            holds(rt.alloc(), &REQUIRED_PLANS[row]),
            "row {row} of required columns"
        );
    }
}
