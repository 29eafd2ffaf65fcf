//! Whether two versions, or parts of them, are equal. That the derived `==` decides is not found by
//! search, for the values inside.
ghost use Rattle.std.specs.Prelude.{◌≡◌};
ghost use Rattle.std.specs.Bool.{Decides};

use crate::element::{ElementDef, Kind, NewElement};
use crate::step::Move;
use collections::List;
use keycode::Value;
use row_map::ColumnType;

fn same_list(a: &List<u32>, b: &List<u32>) -> bool
    ensures { Decides result (a.now ≡ b.now) }
{
    a == b
}

fn same_value(a: &Value, b: &Value) -> bool
    ensures { Decides result (a.now ≡ b.now) }
{
    a == b
}

fn same_type(a: ColumnType, b: ColumnType) -> bool
    ensures { Decides result (a ≡ b) }
{
    a == b
}

fn same_kind(a: &Kind, b: &Kind) -> bool
    ensures { Decides result (a.now ≡ b.now) }
{
    match (a, b) {
        (Kind::Index(columns), Kind::Index(others)) => same_list(columns, others),
        (Kind::Optional(column), Kind::Optional(other)) => same_type(*column, *other),
        (
            Kind::Required { column, fallback },
            Kind::Required {
                column: other,
                fallback: second,
            },
        ) => same_type(*column, *other) && same_value(fallback, second),
        _ => false,
    }
}

impl ElementDef {
    /// Whether the other element is the same in all its parts. Never refused.
    pub fn is_same(&self, other: &ElementDef) -> bool
        ensures { Decides result (self.now ≡ other.now) }
    {
        self.number == other.number
            && self.table == other.table
            && self.name == other.name
            && same_kind(&self.kind, &other.kind)
            && self.state == other.state
            && self.way == other.way
    }
}

fn same_entry(a: &NewElement, b: &NewElement) -> bool
    ensures { Decides result (a.now ≡ b.now) }
{
    a.table == b.table && a.name == b.name && same_kind(&a.kind, &b.kind)
}

fn same_move(a: &Move, b: &Move) -> bool
    ensures { Decides result (a.now ≡ b.now) }
{
    match (a, b) {
        (
            Move::Enter { fresh, to },
            Move::Enter {
                fresh: other,
                to: second,
            },
        ) => same_entry(fresh, other) && *to == *second,
        (
            Move::Go { element, to },
            Move::Go {
                element: other,
                to: second,
            },
        ) => *element == *other && *to == *second,
        (Move::Turn { element }, Move::Turn { element: other }) => *element == *other,
        _ => false,
    }
}

/// Whether these are the same moves in the same order. Never refused.
pub fn are_same_moves(a: &[Move], b: &[Move]) -> bool
    ensures { Decides result (a.now ≡ b.now) }
{
    match (a, b) {
        ([], []) => true,
        ([first, rest @ ..], [other, others @ ..]) => {
            same_move(first, other) && are_same_moves(rest, others)
        }
        _ => false,
    }
}
