//! The batches of cursors.

use crate::long_documents::long_documents;
use cluster_base::{NameFault, Namespace, Time};
use cursor_shelf::{Shelf, ShelfFault};
use fixtures::{RowFault, Rows, field, number};
use std::alloc::Global;
use std::collections::VecDeque;

/// `LENGTHS | SIZE | COUNTS`: how many documents are in each batch of a cursor on documents of these lengths, where the size is requested, or none where it
/// is `none`; after the last one the cursor is closed.
#[derive(Drop)]
pub struct Batches;

impl Rows for Batches {
    fn holds(&mut self, alloc: Global, row: &str) -> Result<bool, RowFault> {
        let (lengths, rest) = field(row);
        let (size, counts) = field(rest);
        let size = size_of(size)?;
        let namespace = namespace_of(alloc)?;
        let mut shelf = shelf_of(alloc, lengths)?;
        are_batches(&mut shelf, &namespace, size, counts)
    }
}

// Returns a shelf with a cursor on documents of these lengths.
fn shelf_of(alloc: Global, lengths: &str) -> Result<Shelf, RowFault> {
    let namespace = namespace_of(alloc)?;
    let documents = long_documents(alloc, lengths)?;
    let mut shelf = Shelf::new(alloc);
    shelf.put(1, namespace, Time(1), VecDeque::from(documents))?;
    Ok(shelf)
}

fn size_of(word: &str) -> Result<Option<u64>, RowFault> {
    if word == "none" {
        return Ok(None);
    }
    let size = number(word)?;
    Ok(Some(size))
}

fn namespace_of(alloc: Global) -> Result<Namespace, RowFault> {
    match Namespace::read(alloc, "d.c") {
        Ok(namespace) => Ok(namespace),
        Err(NameFault::Form) => Err(RowFault::Form),
        Err(NameFault::Memory) => Err(RowFault::Memory),
    }
}

// Returns whether the batches have these numbers of documents, and no batch follows.
fn are_batches(
    shelf: &mut Shelf,
    namespace: &Namespace,
    size: Option<u64>,
    counts: &str,
) -> Result<bool, RowFault> {
    for count in counts.split(' ') {
        let wanted = number::<usize>(count)?;
        let found = next_count(shelf, namespace, size)?;
        if !is_so_many(found, wanted) {
            return Ok(false);
        }
    }
    let behind = next_count(shelf, namespace, size)?;
    Ok(behind.is_none())
}

fn is_so_many(found: Option<usize>, wanted: usize) -> bool {
    match found {
        Some(count) => count == wanted,
        None => false,
    }
}

// Returns the number of documents in the next batch of the cursor, if it is open; they are removed.
fn next_count(
    shelf: &mut Shelf,
    namespace: &Namespace,
    size: Option<u64>,
) -> Result<Option<usize>, RowFault> {
    match shelf.next(1, namespace, size) {
        Ok(batch) => {
            let count = batch.documents.len();
            shelf.advance(1, count);
            Ok(Some(count))
        }
        Err(ShelfFault::NotFound) => Ok(None),
        Err(ShelfFault::Memory) => Err(RowFault::Memory),
    }
}
