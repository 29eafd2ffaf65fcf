//! The codes of tables as they are declared.
ghost use Rattle.entry_code.specs.Code.{table_code};
ghost use Rattle.entry_code.specs.Known.{IsTable};
ghost use Rattle.entry_code.specs.inner.At.{table_at};

use crate::encoded::Encoded;
use crate::fault::CodeFault;
use collections::List;
use keycode::Text;
use schema_version::{Columns, TableDef};
use std::alloc::{AllocError, Global};

/// The parts of a table: its name, its key, its other columns and its indexes.
type Parts = (Text, (Columns, (Columns, List<(Text, List<Text>)>)));

impl Encoded for TableDef {
    ghost code = { table_code };

    ghost at = { table_at };

    ghost known = { IsTable };

    fn push(&self, out: &mut Vec<u8>) -> Result<(), AllocError> {
        self.name.push(out)?;
        self.key.push(out)?;
        self.columns.push(out)?;
        self.indexes.push(out)
    }

    #[tactic(auto, unfolding(crate::specs::inner::At::table_at))]
    fn read(alloc: Global, bytes: &[u8]) -> Result<(TableDef, &[u8]), CodeFault> {
        let ((name, (key, (columns, indexes))), rest) = <Parts>::read(alloc, bytes)?;
        Ok((
            TableDef {
                name,
                key,
                columns,
                indexes,
            },
            rest,
        ))
    }
}
