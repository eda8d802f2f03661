//! Documents that are projections, sorts or groups, and documents that are not.

use crate::shape_documents::first_document;
use field_paths::{ParseFault, PathFault};
use fixtures::{RowFault, Rows};
use group_accum::GroupSpec;
use projection::Projection;
use sort_keys::SortSpec;
use std::alloc::Global;

/// `DOCUMENT | projection`, or in place of `projection` its first fault, in a word.
#[derive(Drop)]
pub struct Refusals;

impl Rows for Refusals {
    fn holds(&mut self, alloc: Global, row: &str) -> Result<bool, RowFault> {
        let (document, wanted) = first_document(alloc, row)?;
        match Projection::parse(alloc, &document) {
            Ok(_projection) => Ok(wanted == "projection"),
            Err(fault) => Ok(wanted == word_of(fault)),
        }
    }
}

/// `DOCUMENT | sort`, or in place of `sort` its first fault, in a word.
#[derive(Drop)]
pub struct Sorts;

impl Rows for Sorts {
    fn holds(&mut self, alloc: Global, row: &str) -> Result<bool, RowFault> {
        let (document, wanted) = first_document(alloc, row)?;
        match SortSpec::parse(alloc, &document) {
            Ok(_spec) => Ok(wanted == "sort"),
            Err(fault) => Ok(wanted == word_of(fault)),
        }
    }
}

/// `DOCUMENT | group`, or in place of `group` its first fault, in a word.
#[derive(Drop)]
pub struct GroupSpecs;

impl Rows for GroupSpecs {
    fn holds(&mut self, alloc: Global, row: &str) -> Result<bool, RowFault> {
        let (document, wanted) = first_document(alloc, row)?;
        match GroupSpec::parse(alloc, &document) {
            Ok(_spec) => Ok(wanted == "group"),
            Err(fault) => Ok(wanted == word_of(fault)),
        }
    }
}

fn word_of(fault: ParseFault) -> &'static str {
    match fault {
        ParseFault::UnknownOperator => "operator",
        ParseFault::BadOperand => "operand",
        ParseFault::Path(PathFault::Empty) => "empty",
        ParseFault::Path(PathFault::Digits) => "digits",
        ParseFault::Path(PathFault::Dollar) => "dollar",
        ParseFault::Path(PathFault::Long) => "long",
        ParseFault::Path(PathFault::Memory) => "memory",
        ParseFault::Deep => "deep",
        ParseFault::Memory => "memory",
    }
}
