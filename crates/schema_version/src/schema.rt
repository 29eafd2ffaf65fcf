//! A version of the schema, and its readers.
ghost use Rattle.std.specs.Bool.{Decides};
ghost use Rattle.std.specs.Prelude.{◌≡◌, ◌+◌, Option, filter, slice_get, bytes_eq, position};
ghost use Rattle.std.specs.List.{find};
ghost use Rattle.std.specs.Option.{option_copied, option_map};
ghost use Rattle.schema_version.specs.Version.{Table, state_of, element_at, table_at, live, is_in, grouped, is_named as is_named_of};
ghost use Rattle.schema_version.specs.Held.{table_held, IsHeld, holding};
ghost use Rattle.std.specs.Prelude.{◌≤◌, ◌⊎◌, map, IfOk, IfErr, OnOk, count_by};
ghost use Rattle.schema_version.specs.Moves.{after_step, IsAllowed, IsRefused, is_entry};
ghost use Rattle.schema_version.specs.Names.{max_elements};
ghost use Rattle.schema_version.specs.Sound.{IsSoundVersion};
ghost use Rattle.schema_version.specs.Declare.{declared as declared_of, IsLawful};
ghost use Rattle.schema_version.specs.declared.table.DeclareFault.TheVariants as declare;
ghost use Rattle.schema_version.specs.Restored.{IsRestorable, part_of, version_with};
ghost use Rattle.schema_version.specs.declared.restore_fault.RestoreFault.TheVariants as restore;
ghost use Rattle.schema_version.specs.declared.step.StepFault.TheVariants.{Memory};

use crate::apply::{copy_elements, copy_tables, make_all};
use crate::by_table::by_table;
use crate::declare::{enter_tables, hold_tables};
use crate::element::{ElementDef, ElementState};
use crate::encoding::{encode, same_bytes};
use crate::lawful::are_lawful;
use crate::moves::is_named;
use crate::restore::{are_parts, hold_elements, hold_parts, push_parts};
use crate::restore_fault::RestoreFault;
use crate::step::{Move, Step, StepFault};
use crate::table::{Columns, DeclareFault, TableDef};
use collections::List;
use indexmap::IndexMap;
use keycode::Text;
use row_map::ColumnType;
use std::alloc::{AllocError, Global};
use std::marker::Model;

/// A version of the schema: its tables, which no step changes, its live elements by number, and the
/// next free number of an element.
///
/// Versions and their elements are those of "Online, Asynchronous Schema Change in F1" (Rae et al.,
/// 2013).
pub struct Schema {
    tables: IndexMap<String, Columns>,
    elements: IndexMap<u32, ElementDef>,
    next: u32,
    // All of the above as bytes, so that comparing two versions is comparing two strings.
    encoding: Vec<u8>,
    // The elements once more, table by table.
    by_table: Vec<List<ElementDef>>,
}

// By hand, so that a caller's proof sees one call and not each field's.
impl Drop for Schema {
    fn drop(self) {
        let Schema {
            tables: _,
            elements: _,
            next: _,
            encoding: _,
            by_table: _,
        } = self;
    }
}

impl Model for Schema {
    ghost use Rattle.schema_version.specs.Version.{Version};
    ghost use Rattle.schema_version.specs.Held.{version_code};

    ghost Value = { Version };

    ghost coded = { version_code };

    ghost use Rattle.schema_version.specs.Inside.{version_of, IsSound};

    ghost view = { version_of };

    ghost invariant = { IsSound };
}

impl Schema {
    /// What is true of every version, for a caller's proof. It does nothing and takes no memory.
    pub fn lemma_known(&self)
        ensures { IsSoundVersion self.now }
    {
        let _own = &self.elements;
    }

    /// The live element of this number, in whatever state; None for any other number.
    pub fn element(&self, number: u32) -> Option<&ElementDef>
        ensures { option_copied result ≡ element_at self.now number }
    {
        self.elements.get(&number)
    }

    /// Whether the other version is equal to this one: the same tables, live elements and next free
    /// number.
    pub fn is_same(&self, other: &Schema) -> bool
        ensures { Decides result (self.now ≡ other.now) }
    {
        same_bytes(self.encoding.as_slice(), other.encoding.as_slice())
    }

    /// The state of the element of this number. A number that no live element has, 0 among them, is
    /// Absent.
    pub fn state(&self, element: u32) -> ElementState
        ensures { result ≡ state_of self.now element }
    {
        match self.element(element) {
            Some(found) => found.state,
            None => ElementState::Absent,
        }
    }

    /// All live elements, by rising number.
    pub fn elements(&self) -> &[ElementDef]
        ensures { result.now ≡ live self.now }
    {
        self.elements.values().as_slice()
    }

    // The live elements of each table.
    fn groups(&self) -> &[List<ElementDef>]
        ensures { result.now ≡ grouped 1 (live self.now) self.now.tables }
    {
        self.by_table.as_slice()
    }

    // The live elements of the table at this place, from 0.
    fn group(&self, place: usize) -> Option<&List<ElementDef>>
        ensures { option_copied result ≡ slice_get (grouped 1 (live self.now) self.now.tables) place }
    {
        self.groups().get(place)
    }

    /// The live elements of the table of this number, from 1, by rising number; None for any other
    /// number.
    pub fn elements_of(&self, table: u32) -> Option<&[ElementDef]>
        ensures { option_map (λ own. own.now) result ≡ option_map (λ t. filter (is_in table) (live self.now)) (table_at self.now table) }
    {
        let place = table.checked_sub(1)?;
        let own = self.group(place as usize)?;
        Some(own.as_slice())
    }

    /// The live element at this place, from 0, among all live elements by rising number; None past
    /// the last.
    pub fn live(&self, place: usize) -> Option<&ElementDef>
        ensures { option_copied result ≡ slice_get (live self.now) place }
    {
        self.elements().get(place)
    }

    /// The live element under this name in the table of this number; None if there is none, or no
    /// such table.
    pub fn by_name(&self, table: u32, name: &str) -> Option<&ElementDef>
        ensures { option_copied result ≡ find (is_named_of table name.now) (live self.now) }
    {
        self.elements()
            .iter()
            .find(|e| is_named(*e, table, name.as_bytes()))
    }

    /// The next free number of an element: the one that the next element to enter gets.
    pub fn next_number(&self) -> u32
        ensures { result ≡ self.now.next }
    {
        self.next
    }

    // The table of this number, with its name.
    fn table_entry(&self, table: u32) -> Option<(&String, &Columns)>
        ensures { option_map (λ t. table_held (t.0.now, t.1.now)) result ≡ table_at self.now table }
    {
        let place = table.checked_sub(1)?;
        self.tables.get_index(place as usize)
    }

    /// The columns of the table's primary key.
    pub fn key_of(&self, table: u32) -> Option<&[(Text, ColumnType)]>
        ensures { option_map (λ k. k.now) result ≡ option_map (λ t. t.key) (table_at self.now table) }
    {
        let (_, key) = self.table_entry(table)?;
        Some(key.as_slice())
    }

    /// The name of the table of this number, from 1; None for any other number.
    pub fn table_name(&self, table: u32) -> Option<&str>
        ensures { option_map (λ n. n.now) result ≡ option_map (λ t. t.name) (table_at self.now table) }
    {
        let (name, _) = self.table_entry(table)?;
        Some(name.as_str())
    }

    /// A copy of each table's name and key, in the order of the tables' numbers. Refused only when
    /// out of memory.
    pub fn tables(&self) -> Result<List<(Text, Columns)>, AllocError>
        ensures { IfOk result (λ parts. parts ≡ map part_of self.now.tables) }
    {
        let mut parts = Vec::new(*self.encoding.allocator());
        push_parts(
            &mut parts,
            self.tables.keys().as_slice(),
            self.tables.values().as_slice(),
        )?;
        Ok(List::new(parts))
    }

    /// The number, from 1, of the table of this name; None if no table has it.
    pub fn table(&self, name: &str) -> Option<u32>
        ensures { result ≡ option_map (λ place. place + 1) (position (λ (t : Table). bytes_eq name.now t.name) self.now.tables) }
    {
        let place = self.tables.get_index_of(name)?;
        Some(place as u32 + 1)
    }

    // Whether the step is allowed.
    fn allow(&self, step: &[Move]) -> Result<(), StepFault>
        ensures allowed { OnOk result (IsAllowed self.now step.now) }
        ensures refused { IfErr result (λ fault. IsRefused self.now step.now fault) }
        ensures room { OnOk result (self.now.next + count_by is_entry step.now ≤ max_elements + 1) }
        ensures sound { OnOk result (IsSoundVersion (after_step self.now step.now)) }
    {
        let _own = &self.elements;
        self.check_step(step)
    }

    // A copy of the elements.
    fn elements_copied(&self) -> Result<IndexMap<u32, ElementDef>, AllocError>
        ensures held { IfOk result (λ copy. IsHeld copy.entries self.now.next) }
        ensures same { IfOk result (λ copy. holding self.now copy.entries self.now.next ≡ self.now) }
    {
        copy_elements(&self.elements)
    }

    // These tables with other elements.
    fn with_elements(
        &self,
        elements: IndexMap<u32, ElementDef>,
        next: u32,
    ) -> Result<Schema, AllocError>
        requires held { IsHeld elements.entries next }
        requires sound { IsSoundVersion (holding self.now elements.entries next) }
        ensures { IfOk result (λ made. made ≡ holding self.now elements.entries next) }
    {
        let tables = copy_tables(&self.tables)?;
        let alloc = *self.encoding.allocator();
        let encoding = encode(alloc, &tables, &elements, next)?;
        let by_table = by_table(
            alloc,
            elements.values().as_slice(),
            tables.values().as_slice(),
        )?;
        Ok(Schema {
            tables,
            elements,
            next,
            encoding,
            by_table,
        })
    }

    /// The version that a step gives. The moves are tried in order, each against this version and
    /// the whole step, and an empty step is allowed. Entered elements get the next numbers in the
    /// step's order.
    ///
    /// The first faulty move decides by its lowest fault, in the order of `StepFault`. Memory comes
    /// last: the whole step is tried before the first growth, so it never is in place of another
    /// fault. A refused call leaves nothing behind.
    pub fn apply(&self, step: &Step) -> Result<Schema, StepFault>
        ensures allowed { OnOk result (IsAllowed self.now step.now) }
        ensures after { IfOk result (λ then. then ≡ after_step self.now step.now) }
        ensures refused { IfErr result (λ fault. ((fault ≡ Memory) × IsAllowed self.now step.now) ⊎ IsRefused self.now step.now fault) }
    {
        let moves = step.as_slice();
        self.allow(moves)?;
        let mut elements = self.elements_copied()?;
        let next = make_all(&mut elements, self.next_number(), moves)?;
        Ok(self.with_elements(elements, next)?)
    }

    /// Version 1 of the declared tables. Elements are numbered from 1 table by table, a table's
    /// columns first and then its indexes, and all of them are public. Tables are numbered from 1
    /// in their order.
    ///
    /// BadTable comes if they may not be declared: other than 1 to 16 tables, 1 to 4 key columns,
    /// at most 32 columns and 16 indexes a table and 1 to 4 distinct columns an index; a name that
    /// isn't 1 to 32 bytes, a letter and then letters, digits and underscores; a name used twice
    /// among the tables or within one; an index over what is no column of its table outside the
    /// key. Then Memory. All is tried before the first growth.
    pub fn declared(alloc: Global, tables: &[TableDef]) -> Result<Schema, DeclareFault>
        ensures lawful { OnOk result (IsLawful tables.now) }
        ensures first { IfOk result (λ schema. schema ≡ declared_of tables.now) }
        ensures refused { IfErr result (λ fault. ((fault ≡ declare.Memory) × IsLawful tables.now) ⊎ ((fault ≡ declare.BadTable) × (¬ (IsLawful tables.now)))) }
    {
        if !are_lawful(tables) {
            return Err(DeclareFault::BadTable);
        }
        let held = hold_tables(alloc, tables)?;
        let mut elements = IndexMap::new(alloc);
        let next = enter_tables(alloc, &mut elements, tables)?;
        let encoding = encode(alloc, &held, &elements, next)?;
        let by_table = by_table(
            alloc,
            elements.values().as_slice(),
            held.values().as_slice(),
        )?;
        Ok(Schema {
            tables: held,
            elements,
            next,
            encoding,
            by_table,
        })
    }

    /// The version that has exactly these tables, each with its name and its key, these live
    /// elements by rising number, and this next free number of an element.
    ///
    /// Unsound comes if and only if no sound version has these parts, or the elements do not come by
    /// rising number. Then Memory: all is tried before the first growth.
    pub fn restored(
        alloc: Global,
        tables: &[(Text, Columns)],
        elements: &[ElementDef],
        next: u32,
    ) -> Result<Schema, RestoreFault>
        ensures whole { IfOk result (λ schema. schema ≡ version_with tables.now elements.now next) }
        ensures restorable { OnOk result (IsRestorable tables.now elements.now next) }
        ensures refused { IfErr result (λ fault. ((fault ≡ restore.Memory) × IsRestorable tables.now elements.now next) ⊎ ((fault ≡ restore.Unsound) × (¬ (IsRestorable tables.now elements.now next)))) }
    {
        if !are_parts(tables, elements, next) {
            return Err(RestoreFault::Unsound);
        }
        let tables = hold_parts(alloc, tables)?;
        let elements = hold_elements(alloc, next, elements)?;
        let encoding = encode(alloc, &tables, &elements, next)?;
        let by_table = by_table(
            alloc,
            elements.values().as_slice(),
            tables.values().as_slice(),
        )?;
        Ok(Schema {
            tables,
            elements,
            next,
            encoding,
            by_table,
        })
    }
}
