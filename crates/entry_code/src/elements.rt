//! The codes of live elements, of begun reorganisations, and of the parts of versions and heads.
ghost use Rattle.keycode.specs.Valid.{IsValue};
ghost use Rattle.entry_code.specs.Known.{IsAny};
ghost use Rattle.entry_code.specs.Parts.{way_code, element_code, work_code, span_code, progress_code, schema_code, parts_code, IsElement, IsSpan, IsProgress, IsSchema, IsHead};
ghost use Rattle.entry_code.specs.inner.PartsAt.{way_at, element_at, work_at, span_at, progress_at, schema_at, head_at};

use crate::encoded::Encoded;
use crate::fault::CodeFault;
use crate::numbers::read_byte;
use crate::parts::{HeadParts, SchemaParts};
use byte_map::Bytes;
use collections::List;
use keycode::Text;
use reorganise::{Progress, Span};
use schema_version::{Columns, ElementDef, ElementState, Kind, Way, Work};
use std::alloc::{AllocError, Global};

impl Encoded for Way {
    ghost code = { way_code };

    ghost at = { way_at };

    ghost known = { IsAny };

    fn push(&self, out: &mut Vec<u8>) -> Result<(), AllocError> {
        out.push(match self {
            Way::Adding => 0,
            Way::Dropping => 1,
        })?;
        Ok(())
    }

    #[tactic(auto, unfolding(crate::specs::inner::PartsAt::way_at))]
    fn read(_alloc: Global, bytes: &[u8]) -> Result<(Way, &[u8]), CodeFault> {
        let (tag, rest) = read_byte(bytes)?;
        match tag {
            0 => Ok((Way::Adding, rest)),
            1 => Ok((Way::Dropping, rest)),
            _ => Err(CodeFault::Malformed),
        }
    }
}

/// The parts of an element, in the order of its fields.
type ElementParts = (u32, (u32, (Text, (Kind, (ElementState, Way)))));

impl Encoded for ElementDef {
    ghost code = { element_code };

    ghost at = { element_at };

    ghost known = { IsElement IsValue };

    fn push(&self, out: &mut Vec<u8>) -> Result<(), AllocError> {
        self.number.push(out)?;
        self.table.push(out)?;
        self.name.push(out)?;
        self.kind.push(out)?;
        self.state.push(out)?;
        self.way.push(out)
    }

    #[tactic(auto, unfolding(crate::specs::inner::PartsAt::element_at))]
    fn read(alloc: Global, bytes: &[u8]) -> Result<(ElementDef, &[u8]), CodeFault> {
        let ((number, (table, (name, (kind, (state, way))))), rest) = <ElementParts>::read(
            alloc, bytes,
        )?;
        Ok((
            ElementDef {
                number,
                table,
                name,
                kind,
                state,
                way,
            },
            rest,
        ))
    }
}

impl Encoded for Work {
    ghost code = { work_code };

    ghost at = { work_at };

    ghost known = { IsAny };

    fn push(&self, out: &mut Vec<u8>) -> Result<(), AllocError> {
        out.push(match self {
            Work::Fill => 0,
            Work::Clear => 1,
        })?;
        Ok(())
    }

    #[tactic(auto, unfolding(crate::specs::inner::PartsAt::work_at))]
    fn read(_alloc: Global, bytes: &[u8]) -> Result<(Work, &[u8]), CodeFault> {
        let (tag, rest) = read_byte(bytes)?;
        match tag {
            0 => Ok((Work::Fill, rest)),
            1 => Ok((Work::Clear, rest)),
            _ => Err(CodeFault::Malformed),
        }
    }
}

impl Encoded for Span {
    ghost code = { span_code };

    ghost at = { span_at };

    ghost known = { IsSpan };

    fn push(&self, out: &mut Vec<u8>) -> Result<(), AllocError> {
        self.low.push(out)?;
        self.high.push(out)?;
        self.cursor.push(out)
    }

    #[tactic(auto, unfolding(crate::specs::inner::PartsAt::span_at))]
    fn read(alloc: Global, bytes: &[u8]) -> Result<(Span, &[u8]), CodeFault> {
        let ((low, (high, cursor)), rest) = <(Bytes, (Bytes, Bytes))>::read(alloc, bytes)?;
        Ok((Span { low, high, cursor }, rest))
    }
}

impl Encoded for Progress {
    ghost code = { progress_code };

    ghost at = { progress_at };

    ghost known = { IsProgress IsValue };

    fn push(&self, out: &mut Vec<u8>) -> Result<(), AllocError> {
        self.element.push(out)?;
        self.kind.push(out)?;
        self.pieces.push(out)
    }

    #[tactic(auto, unfolding(crate::specs::inner::PartsAt::progress_at))]
    fn read(alloc: Global, bytes: &[u8]) -> Result<(Progress, &[u8]), CodeFault> {
        let ((element, (kind, pieces)), rest) = <(ElementDef, (Work, List<Span>))>::read(
            alloc, bytes,
        )?;
        Ok((
            Progress {
                element,
                kind,
                pieces,
            },
            rest,
        ))
    }
}

/// The parts of a version: its tables, its live elements and the next free number.
type VersionParts = (List<(Text, Columns)>, (List<ElementDef>, u32));

impl Encoded for SchemaParts {
    ghost code = { schema_code };

    ghost at = { schema_at };

    ghost known = { IsSchema IsValue };

    fn push(&self, out: &mut Vec<u8>) -> Result<(), AllocError> {
        self.tables.push(out)?;
        self.elements.push(out)?;
        self.next.push(out)
    }

    #[tactic(auto, unfolding(crate::specs::inner::PartsAt::schema_at))]
    fn read(alloc: Global, bytes: &[u8]) -> Result<(SchemaParts, &[u8]), CodeFault> {
        let ((tables, (elements, next)), rest) = <VersionParts>::read(alloc, bytes)?;
        Ok((
            SchemaParts {
                tables,
                elements,
                next,
            },
            rest,
        ))
    }
}

/// The parts of a head behind the moments of publication.
type StateParts = (SchemaParts, (Option<SchemaParts>, List<Progress>));

impl Encoded for HeadParts {
    ghost code = { parts_code };

    ghost at = { head_at };

    ghost known = { IsHead IsValue };

    fn push(&self, out: &mut Vec<u8>) -> Result<(), AllocError> {
        self.place.push(out)?;
        self.moment.push(out)?;
        self.length.push(out)?;
        self.published.push(out)?;
        self.newest.push(out)?;
        self.before.push(out)?;
        self.begun.push(out)
    }

    #[tactic(auto, unfolding(crate::specs::inner::PartsAt::head_at))]
    fn read(alloc: Global, bytes: &[u8]) -> Result<(HeadParts, &[u8]), CodeFault> {
        let ((place, (moment, (length, (published, (newest, (before, begun)))))), rest) = <(
            u64,
            (u64, (u64, (List<u64>, StateParts))),
        )>::read(alloc, bytes)?;
        Ok((
            HeadParts {
                place,
                moment,
                length,
                published,
                newest,
                before,
                begun,
            },
            rest,
        ))
    }
}
