//! A table that is made of three chunks, and moves in it.

ghost use Rattle.std.specs.Prelude.{IfOk};
ghost use Rattle.chunk_table.specs.Meanings.{chunk_view};
ghost use Rattle.chunk_table.specs.Whole.{IsWritableChunk};

use crate::tables::{chunk_holds, read_owned, table_holds};
use crate::words::{read_namespace, read_range, read_version};
use chunk_table::{Chunk, OwnedList, Table};
use cluster_base::{NodeId, Time};
use fixtures::{RowFault, Rows, field, number};
use std::alloc::Global;

/// One step after another on a table that no catalogue made: `three | CHUNK | CHUNK | CHUNK` makes it of these, after four changes, where a
/// chunk is `MIN, MAX | VERSION | OWNER`; `moved | MIN, MAX | DONOR | OWNER` moves the chunk of that range from the donor to a new owner;
/// `table | CHANGES | COUNT` and `chunk | INDEX | MIN, MAX | VERSION | OWNERS`.
#[derive(Drop)]
pub struct Made {
    /// The table, once it is made.
    pub table: Option<Table>,
}

impl Rows for Made {
    fn holds(&mut self, alloc: Global, row: &str) -> Result<bool, RowFault> {
        let (verb, rest) = field(row);
        match verb {
            "three" => self.three(alloc, rest),
            "moved" => self.moved(alloc, rest),
            "table" => table_holds(self.table.as_ref(), rest),
            "chunk" => chunk_holds(self.table.as_ref(), rest),
            _ => Err(RowFault::Form),
        }
    }
}

impl Made {
    fn three(&mut self, alloc: Global, row: &str) -> Result<bool, RowFault> {
        self.table = read_table(alloc, row)?;
        Ok(self.table.is_some())
    }

    fn moved(&mut self, alloc: Global, row: &str) -> Result<bool, RowFault> {
        let (range, rest) = field(row);
        let (donor, owner) = field(rest);
        let donor = NodeId(number(donor)?);
        let owned = read_owned(owner)?;
        let range = read_range(range)?;
        let Some(table) = &self.table else {
            return Err(RowFault::Form);
        };
        let moved = table.moved(alloc, &range, donor, owned)?;
        self.table = Some(moved);
        Ok(true)
    }
}

fn read_table(alloc: Global, row: &str) -> Result<Option<Table>, RowFault> {
    let (lower, rest) = read_chunk(alloc, row)?;
    let (middle, rest) = read_chunk(alloc, rest)?;
    let (upper, _none) = read_chunk(alloc, rest)?;
    three_chunks(alloc, lower, middle, upper)
}

// Returns the chunk of a row, and the fields after it.
fn read_chunk(alloc: Global, row: &str) -> Result<(Chunk, &str), RowFault>
    ensures { IfOk result (λ x. IsWritableChunk (chunk_view x.0)) }
{
    let (range, rest) = field(row);
    let (version, rest) = field(rest);
    let (owner, rest) = field(rest);
    let owned = read_owned(owner)?;
    let version = read_version(version)?;
    let owners = Vec::from_slice(alloc, &[owned])?;
    let chunk = Chunk {
        range: read_range(range)?,
        version,
        history: OwnedList::of(owners),
    };
    Ok((chunk, rest))
}

// Returns the table of three chunks after four changes, if they make one.
fn three_chunks(
    alloc: Global,
    lower: Chunk,
    middle: Chunk,
    upper: Chunk,
) -> Result<Option<Table>, RowFault>
    requires lower { IsWritableChunk (chunk_view lower) }
    requires middle { IsWritableChunk (chunk_view middle) }
    requires upper { IsWritableChunk (chunk_view upper) }
{
    let mut chunks = Vec::new(alloc);
    chunks.push(lower)?;
    chunks.push(middle)?;
    chunks.push(upper)?;
    let namespace = read_namespace(alloc, "d.c")?;
    Ok(Table::of(namespace, 1, 4, Time(0), chunks))
}
