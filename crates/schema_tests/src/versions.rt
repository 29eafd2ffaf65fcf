//! Declarations, steps and readers of a version.
use crate::make::Literal::{Bool, Int as Whole, Letters, Null};
use crate::make::Plain::{Column, Go, Index, Required, Turn};
use crate::make::{FULL, G_AND_J_COME, Path, PlainTable, TABLE_T, mark, version};
use crate::paths::{
    E_COMES_BACK, G_COMES_AND_GOES, G_TURNS_BACK, I_COMES_BACK, I_LEAVES, J_COMES_AND_GOES,
    J_STANDS_OVER_G, J_TURNS_BACK,
};
use row_map::ColumnType::{self, Int, Text};
use row_map::TableShape;
use schema_version::ElementState::{self, Absent, DeleteOnly, Public, WriteOnly};
use schema_version::{ElementDef, Schema, StepFault};
use std::alloc::{AllocError, Global};
use std::test::*;

const LONGEST_NAME: &str = "n2345678901234567890123456789012";

const LONG_NAME: &str = "n23456789012345678901234567890123";

/// What is asked of a version, with the answer.
#[derive(Clone, Copy)]
enum Ask {
    /// Its last step is refused.
    Refused(StepFault),
    /// The number of the element of a name in the table 1, that of the sixth live element, and the
    /// next one.
    Numbers(&'static str, Option<u32>, Option<u32>, u32),
    /// The state of the element of a number, its name, that of the live element at this place, and
    /// that of the table.
    Number(u32, ElementState, &'static str, &'static str, &'static str),
    /// Whether it has the columns of a table.
    Shape(u32, Option<&'static [(u32, ColumnType)]>),
    /// How many live elements a table has.
    Count(u32, Option<usize>),
}

use Ask::{Count, Number, Numbers as Numbered, Refused, Shape};

type Case = (PlainTable, Path, Ask);

const ONE: &[u32] = &[1];

static REFUSED: [Case; 24] = [
    (
        TABLE_T,
        &[&[Index("j", ONE, Public)]],
        Refused(StepFault::NotAdjacent),
    ),
    (
        TABLE_T,
        &[&[Go(1, DeleteOnly)]],
        Refused(StepFault::Dependent { on: 6 }),
    ),
    (
        TABLE_T,
        &[&[Go(6, DeleteOnly)]],
        Refused(StepFault::NotAdjacent),
    ),
    (TABLE_T, &[&[Column("a")]], Refused(StepFault::NameTaken)),
    (TABLE_T, &[&[Go(7, Public)]], Refused(StepFault::Unknown)),
    (
        TABLE_T,
        &[&[Column("f")], &[Go(7, Absent)]],
        Refused(StepFault::WrongWay),
    ),
    (
        TABLE_T,
        &[&[Go(5, DeleteOnly)], &[Go(5, Public)]],
        Refused(StepFault::WrongWay),
    ),
    (TABLE_T, &[&[Turn(7)]], Refused(StepFault::Unknown)),
    (TABLE_T, &[&[Turn(5)]], Refused(StepFault::NotAdjacent)),
    (
        TABLE_T,
        &[&[Column("f")], &[Go(7, Public), Turn(7)]],
        Refused(StepFault::NotAdjacent),
    ),
    (
        TABLE_T,
        &[&[Column("f")], &[Turn(7)], &[Turn(7)]],
        Refused(StepFault::WrongWay),
    ),
    (
        TABLE_T,
        &[&[Column("f")], &[Turn(7)], &[Go(7, Public)]],
        Refused(StepFault::WrongWay),
    ),
    (
        TABLE_T,
        &[&[Column("f"), Column("f")]],
        Refused(StepFault::NameTaken),
    ),
    (TABLE_T, &[&[Column(LONG_NAME)]], Refused(StepFault::Limit)),
    (TABLE_T, &[&[Column("b-c")]], Refused(StepFault::Limit)),
    (TABLE_T, &[&[Column("2b")]], Refused(StepFault::Limit)),
    (
        TABLE_T,
        &[&[Index("j", &[1, 2, 3, 4, 5], DeleteOnly)]],
        Refused(StepFault::Limit),
    ),
    (
        TABLE_T,
        &[&[Index("j", &[], DeleteOnly)]],
        Refused(StepFault::Limit),
    ),
    (
        TABLE_T,
        &[&[Index("j", &[1, 1], DeleteOnly)]],
        Refused(StepFault::Limit),
    ),
    (FULL, &[&[Column("more")]], Refused(StepFault::Limit)),
    (
        FULL,
        &[&[Index("more", ONE, DeleteOnly)]],
        Refused(StepFault::Limit),
    ),
    // Of two faults of a move the lower one is given.
    (
        TABLE_T,
        &[&[Index("a", &[6], DeleteOnly)]],
        Refused(StepFault::Unknown),
    ),
    (
        TABLE_T,
        &[&[Index("z", &[1, 1], DeleteOnly)]],
        Refused(StepFault::NameTaken),
    ),
    // Of two faulty moves the first one's fault is given.
    (
        TABLE_T,
        &[&[Go(6, Absent), Go(9, Public)]],
        Refused(StepFault::NotAdjacent),
    ),
];

/// Steps of required columns: a default is a value of the column's type, and no state is passed
/// over.
static REQUIRED_REFUSED: [Case; 10] = [
    (
        TABLE_T,
        &[&[Required("g", Int, Null, DeleteOnly)]],
        Refused(StepFault::Limit),
    ),
    (
        TABLE_T,
        &[&[Required("g", Int, Bool(true), DeleteOnly)]],
        Refused(StepFault::Limit),
    ),
    (
        TABLE_T,
        &[&[Required("g", Text, Whole(5), DeleteOnly)]],
        Refused(StepFault::Limit),
    ),
    (
        TABLE_T,
        &[&[Required("g", Text, Letters(1025), DeleteOnly)]],
        Refused(StepFault::Limit),
    ),
    (
        TABLE_T,
        &[&[Required("g", Int, Whole(5), WriteOnly)]],
        Refused(StepFault::NotAdjacent),
    ),
    (
        TABLE_T,
        &[
            &[Required("g", Int, Whole(5), DeleteOnly)],
            &[Go(7, Public)],
        ],
        Refused(StepFault::NotAdjacent),
    ),
    (
        TABLE_T,
        &[
            &[Required("g", Int, Whole(5), DeleteOnly)],
            &[Go(7, WriteOnly)],
            &[Go(7, Public)],
            &[Go(7, DeleteOnly)],
        ],
        Refused(StepFault::NotAdjacent),
    ),
    (TABLE_T, G_TURNS_BACK, Refused(StepFault::WrongWay)),
    // An index stands over it.
    (
        TABLE_T,
        J_STANDS_OVER_G,
        Refused(StepFault::Dependent { on: 8 }),
    ),
    // Of two faults of a move the lower one is given.
    (
        TABLE_T,
        &[&[Required("a", Int, Null, DeleteOnly)]],
        Refused(StepFault::NameTaken),
    ),
];

// table t (id int key, a int), index i on t (a)
const Q: PlainTable = (b't', b"a", b"i", b"a");

static ALLOWED: [Case; 29] = [
    (TABLE_T, &[], Numbered("i", Some(6), Some(6), 7)),
    (
        TABLE_T,
        &[&[Column("f"), Column("g")]],
        Numbered("g", Some(8), Some(6), 9),
    ),
    (
        TABLE_T,
        &[&[Column(LONGEST_NAME)]],
        Numbered(LONGEST_NAME, Some(7), Some(6), 8),
    ),
    (
        TABLE_T,
        &[&[Index("j", &[4, 3, 2, 1], DeleteOnly)]],
        Numbered("j", Some(7), Some(6), 8),
    ),
    (TABLE_T, I_LEAVES, Numbered("i", None, None, 7)),
    // A number never comes back.
    (TABLE_T, I_COMES_BACK, Numbered("i", Some(7), Some(7), 8)),
    (TABLE_T, I_COMES_BACK, Number(6, Absent, "", "", "")),
    (TABLE_T, I_COMES_BACK, Number(7, DeleteOnly, "i", "", "")),
    (TABLE_T, J_COMES_AND_GOES, Numbered("j", None, Some(6), 8)),
    (TABLE_T, J_TURNS_BACK, Numbered("j", None, Some(6), 8)),
    (
        TABLE_T,
        &[&[Column("f")], &[Turn(7)]],
        Number(7, DeleteOnly, "f", "", ""),
    ),
    (
        TABLE_T,
        &[&[Go(5, DeleteOnly)]],
        Number(5, DeleteOnly, "e", "i", ""),
    ),
    (
        TABLE_T,
        &[&[Go(5, DeleteOnly)], &[Go(5, Absent)]],
        Number(5, Absent, "", "", ""),
    ),
    (TABLE_T, E_COMES_BACK, Numbered("e", Some(7), Some(7), 8)),
    (TABLE_T, &[], Number(1, Public, "a", "b", "t")),
    (
        TABLE_T,
        &[],
        Shape(1, Some(&[(1, Int), (2, Int), (3, Int), (4, Int), (5, Int)])),
    ),
    (
        TABLE_T,
        &[&[Go(5, DeleteOnly)]],
        Shape(1, Some(&[(1, Int), (2, Int), (3, Int), (4, Int)])),
    ),
    (Q, &[], Shape(1, Some(&[(1, Int)]))),
    (Q, &[], Shape(2, None)),
    (
        TABLE_T,
        &[&[Required("g", Int, Whole(5), DeleteOnly)]],
        Number(7, DeleteOnly, "g", "", ""),
    ),
    (
        TABLE_T,
        &[&[Required("g", Text, Letters(1024), DeleteOnly)]],
        Numbered("g", Some(7), Some(6), 8),
    ),
    (
        TABLE_T,
        &[
            &[Required("g", Int, Whole(5), DeleteOnly)],
            &[Go(7, WriteOnly)],
        ],
        Shape(1, Some(&[(1, Int), (2, Int), (3, Int), (4, Int), (5, Int)])),
    ),
    (
        TABLE_T,
        G_AND_J_COME,
        Shape(
            1,
            Some(&[(1, Int), (2, Int), (3, Int), (4, Int), (5, Int), (7, Int)]),
        ),
    ),
    (TABLE_T, G_AND_J_COME, Number(8, Public, "j", "", "")),
    (TABLE_T, G_COMES_AND_GOES, Numbered("g", None, Some(6), 8)),
    (TABLE_T, G_AND_J_COME, Count(1, Some(8))),
    (TABLE_T, I_LEAVES, Count(1, Some(5))),
    (TABLE_T, &[], Count(2, None)),
    (TABLE_T, &[], Count(0, None)),
];

fn number_of(element: Option<&ElementDef>) -> Option<u32> {
    match element {
        Some(element) => Some(element.number),
        None => None,
    }
}

fn name_of(element: Option<&ElementDef>) -> &str {
    match element {
        Some(element) => element.name.as_str(),
        None => "",
    }
}

fn is_shape(shape: &TableShape, columns: &[(u32, ColumnType)]) -> bool {
    shape.number == 1
        && shape.key.as_slice() == [Int].as_slice()
        && shape.columns.as_slice() == columns
}

fn has_shape(
    alloc: Global,
    schema: &Schema,
    table: u32,
    want: Option<&[(u32, ColumnType)]>,
) -> Result<bool, AllocError> {
    match (schema.shape(alloc, table)?, want) {
        (Some(shape), Some(columns)) => Ok(is_shape(&shape, columns)),
        (None, None) => Ok(true),
        _ => Ok(false),
    }
}

fn count_of(schema: &Schema, table: u32) -> Option<usize> {
    let own = schema.elements_of(table)?;
    Some(own.len())
}

/// Whether these are the number of the element of a name, that of the sixth live element, and the
/// next one.
fn are_numbers(schema: &Schema, name: &str, numbers: (Option<u32>, Option<u32>, u32)) -> bool {
    number_of(schema.by_name(1, name)) == numbers.0
        && number_of(schema.live(5)) == numbers.1
        && schema.next_number() == numbers.2
}

/// Whether these are the names of an element, of the live element at its place, and of a table of
/// its number.
fn are_names(schema: &Schema, number: u32, names: (&str, &str, &str)) -> bool {
    name_of(schema.element(number)) == names.0
        && name_of(schema.live(number as usize)) == names.1
        && schema.table_name(number).unwrap_or("") == names.2
}

/// Whether the answer is the one that is wanted, or that memory was short.
type Answer = Result<bool, AllocError>;

fn answers(alloc: Global, schema: &Schema, ask: &Ask) -> Answer {
    match *ask {
        Refused(_) => Ok(false),
        Numbered(name, number, sixth, next) => Ok(are_numbers(schema, name, (number, sixth, next))),
        Number(number, state, name, at_place, table) => {
            Ok(schema.state(number) == state && are_names(schema, number, (name, at_place, table)))
        }
        Shape(table, columns) => has_shape(alloc, schema, table, columns),
        Count(table, count) => Ok(count_of(schema, table) == count),
    }
}

fn holds_once(alloc: Global, case: &Case) -> Answer {
    match version(alloc, &case.0, case.1) {
        Ok(schema) => answers(alloc, &schema, &case.2),
        Err(StepFault::Memory) => Err(AllocError),
        Err(got) => match case.2 {
            Refused(fault) => Ok(got == fault),
            _ => Ok(false),
        },
    }
}

/// The same, asked once more if memory was short.
fn holds(alloc: Global, case: &Case) -> bool {
    match holds_once(alloc, case) {
        Err(AllocError) => holds_once(alloc, case) == Ok(true),
        reported => reported == Ok(true),
    }
}

#[test]
fn under_refusal_refused_steps(rt: HostRuntime) {
    assert!(rt; mark(&rt));
    for row in 0..REFUSED.len() {
        assert!(rt; holds(rt.alloc(), &REFUSED[row]), "row {row}");
    }
    for row in 0..REQUIRED_REFUSED.len() {
        assert!(rt;
            holds(rt.alloc(), &REQUIRED_REFUSED[row]),
            "row {row} of a required column"
        );
    }
}

#[test]
fn under_refusal_allowed_steps(rt: HostRuntime) {
    assert!(rt; mark(&rt));
    for row in 0..ALLOWED.len() {
        assert!(rt; holds(rt.alloc(), &ALLOWED[row]), "row {row}");
    }
}
