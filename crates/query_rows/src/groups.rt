//! What documents are grouped into, whole and in two parts.

use crate::shape_documents::{first_document, row_fault};
use bson_values::{Document, Value};
use fixtures::{RowFault, Rows};
use group_accum::{GroupFault, GroupSpec, Groups, PartialList};
use std::alloc::Global;
use std::sync::Arc;

/// `GROUP | DOCUMENTS | DOCUMENTS | DOCUMENTS`: what the documents of the first two lists are grouped into, one list after the other; and the same with each
/// list grouped by itself and then joined. In place of the last list `overflow`. A list is a document whose values are its documents.
#[derive(Drop)]
pub struct Grouped;

impl Rows for Grouped {
    fn holds(&mut self, alloc: Global, row: &str) -> Result<bool, RowFault> {
        let (words, others) = first_document(alloc, row)?;
        let (first, others) = first_document(alloc, others)?;
        let (second, wanted) = first_document(alloc, others)?;
        let mut whole = no_groups(alloc, &words)?;
        add_all(&mut whole, &first)?;
        add_all(&mut whole, &second)?;
        let mut joined = no_groups(alloc, &words)?;
        joined.join(part(alloc, &words, &first)?)?;
        joined.join(part(alloc, &words, &second)?)?;
        Ok(shows(alloc, whole, wanted)? && shows(alloc, joined, wanted)?)
    }
}

fn no_groups(alloc: Global, words: &Document) -> Result<Groups, RowFault> {
    let spec = GroupSpec::parse(alloc, words).map_err(row_fault)?;
    Ok(Groups::new(alloc, Arc::new(alloc, spec)?))
}

fn add_all(groups: &mut Groups, list: &Document) -> Result<(), RowFault> {
    for field in list.fields() {
        match &field.value {
            Value::Doc(document) => groups.add(document)?,
            _ => return Err(RowFault::Form),
        }
    }
    Ok(())
}

fn part(alloc: Global, words: &Document, list: &Document) -> Result<PartialList, RowFault> {
    let mut groups = no_groups(alloc, words)?;
    add_all(&mut groups, list)?;
    Ok(groups.partial()?)
}

fn shows(alloc: Global, groups: Groups, wanted: &str) -> Result<bool, RowFault> {
    match groups.finish() {
        Ok(documents) => is_list(alloc, &documents, wanted),
        Err(GroupFault::Overflow) => Ok(wanted == "overflow"),
        Err(GroupFault::Memory) => Err(RowFault::Memory),
    }
}

fn is_list(
    alloc: Global,
    documents: &[Arc<Document, Global>],
    wanted: &str,
) -> Result<bool, RowFault> {
    if wanted == "overflow" {
        return Ok(false);
    }
    let (list, _none) = first_document(alloc, wanted)?;
    if documents.len() != list.len() {
        return Ok(false);
    }
    for (document, field) in documents.iter().zip(list.fields()) {
        match &field.value {
            Value::Doc(other) if document.same_data(other) => {}
            _ => return Ok(false),
        }
    }
    Ok(true)
}
