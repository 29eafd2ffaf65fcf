//! The faults of a step's moves, in their order.
ghost use Rattle.std.specs.Prelude.{◌≡◌, ◌+◌, is_some, nat_lt, nat_le, count_by};
ghost use Rattle.std.specs.List.{find};
ghost use Rattle.schema_version.specs.Version.{table_at, element_at};
ghost use Rattle.schema_version.specs.Moves.{is_unready as is_unready_of, count_like, max_like, is_entry};
ghost use Rattle.schema_version.specs.Names.{max_elements};
ghost use Rattle.schema_version.specs.Checks.{has_no_edge as has_no_edge_of, stands_against as stands_against_of, go_check, turn_check_at, enter_check, move_check, step_check, is_column_of as is_column_at, are_columns_of as are_columns_at, is_taken as is_taken_in, is_within_limits as is_within, has_key_column as has_key_column_in};

use crate::edges::edge;
use crate::element::{ElementDef, ElementState, Kind, NewElement, Way};
use crate::limits::{MAX_COLUMNS, MAX_ELEMENTS, MAX_INDEXES};
use crate::moves::{
    any_column_named, any_named, elements_like, enters_named, entries, entries_like, first_listing,
    is_fair_kind, moves_element,
};
use crate::names::is_name;
use crate::schema::Schema;
use crate::step::{Move, StepFault};

// Whether no edge of either way joins the states.
fn has_no_edge(kind: &Kind, from: ElementState, to: ElementState) -> bool
    ensures { result ≡ has_no_edge_of kind.now from to }
{
    edge(kind, Way::Adding, from, to).is_none() && edge(kind, Way::Dropping, from, to).is_none()
}

impl Schema {
    // Whether the column can't carry an index: it isn't public, or it moves in this step.
    fn is_unready(&self, step: &[Move], column: u32) -> bool
        ensures { result ≡ is_unready_of self.now step.now column }
    {
        !self.state(column).is_public() || moves_element(step, column)
    }

    fn first_unready(&self, step: &[Move], columns: &[u32]) -> Option<u32>
        ensures { result ≡ find (is_unready_of self.now step.now) columns.now }
    {
        columns.iter().copied().find(|c| self.is_unready(step, *c))
    }

    // The element that stands against a move of an element of this kind.
    fn stands_against(&self, step: &[Move], number: u32, kind: &Kind) -> Option<u32>
        ensures { result ≡ stands_against_of self.now step.now number kind.now }
    {
        match kind {
            Kind::Index(columns) => self.first_unready(step, columns.as_slice()),
            Kind::Optional(_) | Kind::Required { .. } => first_listing(self.elements(), number),
        }
    }

    // Whether a live element may go to a state, after these earlier moves of the step.
    fn check_go(
        &self,
        step: &[Move],
        earlier: &[Move],
        number: u32,
        element: &ElementDef,
        to: ElementState,
    ) -> Result<(), StepFault>
        ensures { result ≡ go_check self.now step.now earlier.now number element.now to }
    {
        if has_no_edge(&element.kind, element.state, to) || moves_element(earlier, number) {
            return Err(StepFault::NotAdjacent);
        }
        if edge(&element.kind, element.way, element.state, to).is_none() {
            return Err(StepFault::WrongWay);
        }
        match self.stands_against(step, number, &element.kind) {
            Some(on) => Err(StepFault::Dependent { on }),
            None => Ok(()),
        }
    }

    fn is_column_of(&self, table: u32, column: u32) -> bool
        ensures { result ≡ is_column_at table (element_at self.now column) }
    {
        match self.element(column) {
            Some(element) => element.table == table && element.kind.is_column(),
            None => false,
        }
    }

    fn are_columns_of(&self, table: u32, columns: &[u32]) -> bool
        ensures { result ≡ are_columns_at self.now table columns.now }
    {
        columns.iter().all(|c| self.is_column_of(table, *c))
    }

    /// Whether a column of the key of the table of this number has the name.
    pub fn has_key_column(&self, table: u32, name: &[u8]) -> bool
        ensures { result ≡ has_key_column_in (table_at self.now table) name.now }
    {
        match self.key_of(table) {
            Some(key) => any_column_named(key, name),
            None => false,
        }
    }

    fn is_taken(&self, earlier: &[Move], table: u32, name: &[u8]) -> bool
        ensures { result ≡ is_taken_in self.now earlier.now table name.now }
    {
        self.has_key_column(table, name)
            || any_named(self.elements(), table, name)
            || enters_named(earlier, table, name)
    }

    // Whether the table has room for one more index, or else for one more column.
    fn has_room(&self, earlier: &[Move], table: u32, index: bool) -> bool
        ensures { result ≡ nat_lt (count_like self.now earlier.now table index) (max_like index) }
    {
        let most = if index { MAX_INDEXES } else { MAX_COLUMNS };
        elements_like(self.elements(), table, index) + entries_like(earlier, table, index) < most
    }

    // Whether one more element gets a number.
    fn has_number(&self, earlier: &[Move]) -> bool
        ensures { result ≡ nat_le (self.now.next + count_by is_entry earlier.now) max_elements }
    {
        self.next_number() as usize + entries(earlier) <= MAX_ELEMENTS
    }

    fn is_within_limits(&self, earlier: &[Move], fresh: &NewElement) -> bool
        ensures { result ≡ is_within self.now earlier.now fresh.now }
    {
        is_name(fresh.name.as_bytes())
            && is_fair_kind(&fresh.kind)
            && self.has_room(earlier, fresh.table, fresh.kind.is_index())
            && self.has_number(earlier)
    }

    // Whether an element may enter, after these earlier moves of the step.
    fn check_entry(
        &self,
        step: &[Move],
        earlier: &[Move],
        fresh: &NewElement,
        to: ElementState,
    ) -> Result<(), StepFault>
        ensures { result ≡ enter_check self.now step.now earlier.now fresh.now to }
    {
        let columns = fresh.kind.indexed_columns();
        if self.table_name(fresh.table).is_none() || !self.are_columns_of(fresh.table, columns) {
            return Err(StepFault::Unknown);
        }
        if has_no_edge(&fresh.kind, ElementState::Absent, to) {
            return Err(StepFault::NotAdjacent);
        }
        if let Some(on) = self.first_unready(step, columns) {
            return Err(StepFault::Dependent { on });
        }
        if self.is_taken(earlier, fresh.table, fresh.name.as_bytes()) {
            return Err(StepFault::NameTaken);
        }
        if !self.is_within_limits(earlier, fresh) {
            return Err(StepFault::Limit);
        }
        Ok(())
    }

    // Whether the element of this number, if it is live, may turn back after these earlier moves of
    // the step.
    fn check_turn(&self, earlier: &[Move], number: u32) -> Result<(), StepFault>
        ensures { result ≡ turn_check_at earlier.now number (element_at self.now number) }
    {
        let Some(element) = self.element(number) else {
            return Err(StepFault::Unknown);
        };
        if element.state.is_public() || moves_element(earlier, number) {
            return Err(StepFault::NotAdjacent);
        }
        if matches!(element.way, Way::Dropping) {
            return Err(StepFault::WrongWay);
        }
        Ok(())
    }

    // Whether this move is allowed after these earlier ones of the step.
    fn check_move(&self, step: &[Move], earlier: &[Move], a: &Move) -> Result<(), StepFault>
        ensures { result ≡ move_check self.now step.now earlier.now a.now }
    {
        match a {
            Move::Enter { fresh, to } => self.check_entry(step, earlier, fresh, *to),
            Move::Go { element, to } => match self.element(*element) {
                Some(found) => self.check_go(step, earlier, *element, found, *to),
                None => Err(StepFault::Unknown),
            },
            Move::Turn { element } => self.check_turn(earlier, *element),
        }
    }

    /// Why the step isn't allowed: the first fault of its first faulty move.
    pub(crate) fn check_step(&self, step: &[Move]) -> Result<(), StepFault>
        ensures { result ≡ step_check self.now step.now }
    {
        for (i, a) in step.iter().enumerate() {
            self.check_move(step, &step[..i], a)?;
        }
        Ok(())
    }
}
