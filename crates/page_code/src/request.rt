//! A request for a page, and its code.
ghost use Rattle.std.specs.Prelude.{◌≡◌, ◌∷◌, IfErr, IfOk};
ghost use Rattle.collections.specs.Answers.{GivesOr};
ghost use Rattle.entry_code.specs.Read.{HasVersion, IsRead, IsAccepted};
ghost use Rattle.entry_code.specs.declared.fault.CodeFault.TheVariants.{Memory};
ghost use Rattle.entry_code.specs.inner.At.{query_at, whole_of, whole_at};
ghost use Rattle.keycode.specs.Valid.{IsStorable};
ghost use Rattle.page_code.specs.Code.{IsRequest, request_code};
ghost use Rattle.page_code.specs.inner.At.{request_at};

use crate::bounds::read_head;
use entry_code::{CodeFault, query_of};
use row_page::KeyRange;
use row_query::Query;
use std::alloc::{AllocError, Global};

/// A request for a page.
pub struct PageRequest {
    /// The rows that are asked for.
    pub query: Query,
    /// Between which keys.
    pub range: KeyRange,
    /// At most so many rows.
    pub limit: u32,
}

// By hand, so that a caller's proof sees one call and not each field's.
impl Drop for PageRequest {
    fn drop(self) {
        let PageRequest {
            query: _,
            range: _,
            limit: _,
        } = self;
    }
}

/// The code that begins with the version and goes on with these bytes.
fn versioned(alloc: Global, bytes: &[u8]) -> Result<Vec<u8>, AllocError>
    ensures { IfOk result (λ code. code.items ≡ 1 ∷ bytes.now) }
{
    let mut code = Vec::new(alloc);
    code.push(1)?;
    code.extend_from_slice(bytes)?;
    Ok(code)
}

/// The query that these bytes are the code of, without the version.
fn read_asked(alloc: Global, bytes: &[u8]) -> Result<Query, CodeFault>
    ensures { GivesOr Memory (λ x. x) result (whole_of (query_at bytes.now)) }
{
    let code = versioned(alloc, bytes)?;
    query_of(alloc, code.as_slice())
}

/// The request after the version.
fn read_body(alloc: Global, bytes: &[u8]) -> Result<PageRequest, CodeFault>
    ensures { GivesOr Memory (λ x. x) result (whole_of (request_at bytes.now)) }
{
    let ((range, limit), rest) = match read_head(alloc, bytes) {
        Ok(head) => head,
        Err(CodeFault::Memory) => return Err(CodeFault::Memory),
        Err(_) => return Err(CodeFault::Malformed),
    };
    let query = read_asked(alloc, rest)?;
    Ok(PageRequest {
        query,
        range,
        limit,
    })
}

#[tactic(auto, unfolding(entry_code::specs::inner::At::whole_at))]
fn read_request(alloc: Global, bytes: &[u8]) -> Result<PageRequest, CodeFault>
    ensures exact { GivesOr Memory (λ x. x) result (whole_at request_at bytes.now) }
    ensures versioned { IfErr result (λ fault. fault ≡ Memory → HasVersion bytes.now) }
{
    let [1, rest @ ..] = bytes else {
        return Err(CodeFault::Version);
    };
    read_body(alloc, rest)
}

/// The request whose code these `bytes` are: the version, which is 1; the key after which the rows
/// come and the key before which they end, each after a byte 1, or a byte 0 if there is none; the
/// limit in four bytes; and the query's code without its version, as `entry_code` has it. Refused as
/// `entry_code::query_of` is: `Version`, `Trailing`, `Malformed`; `Memory` may come in place of any
/// but `Version`. A text of more than 1,024 bytes is `Malformed`. What it takes of memory is bounded
/// by the bytes.
pub fn page_request_of(alloc: Global, bytes: &[u8]) -> Result<PageRequest, CodeFault>
    ensures read { IsRead (IsRequest IsStorable) request_code bytes.now result }
    ensures accepted { IsAccepted (IsRequest IsStorable) request_code bytes.now result }
{
    read_request(alloc, bytes)
}
