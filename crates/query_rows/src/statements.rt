//! The effects and the outcomes of statements.

use crate::outcomes::is_outcome;
use crate::update_words::{apply_word, document_if_any, document_of, parse_word};
use fixtures::{RowFault, Rows, field};
use std::alloc::Global;
use update_ops::{Op, apply};
use value_compare::OpWords;

/// `insert | DOCUMENT | BEFORE | OUTCOME`, `update | FILTER | CHANGE | BEFORE | OUTCOME`, `upsert` likewise, and `delete | FILTER | BEFORE | OUTCOME`. A
/// document that does not exist is `none`. An outcome is `AFTER | N | MODIFIED | KEY`, where the key is the upserted one, or `none`; or a fault, in a word.
#[derive(Drop)]
pub struct Statements;

impl Rows for Statements {
    fn holds(&mut self, alloc: Global, row: &str) -> Result<bool, RowFault> {
        let (kind, statement) = field(row);
        let (first, rest) = field(statement);
        match kind {
            "insert" => insert_holds(alloc, first, rest),
            "update" => update_holds(alloc, first, rest, false),
            "upsert" => update_holds(alloc, first, rest, true),
            "delete" => delete_holds(alloc, first, rest),
            _ => Err(RowFault::Form),
        }
    }
}

// Returns whether an insert has the outcome.
fn insert_holds(alloc: Global, document: &str, rest: &str) -> Result<bool, RowFault> {
    let document = document_of(alloc, document)?;
    does(alloc, &OpWords::Insert(document), rest)
}

// Returns whether an update has the outcome.
fn update_holds(alloc: Global, filter: &str, rest: &str, upsert: bool) -> Result<bool, RowFault> {
    let (change, rest) = field(rest);
    let filter = document_of(alloc, filter)?;
    let change = document_of(alloc, change)?;
    let words = OpWords::Update {
        filter,
        change,
        upsert,
    };
    does(alloc, &words, rest)
}

// Returns whether a delete has the outcome.
fn delete_holds(alloc: Global, filter: &str, rest: &str) -> Result<bool, RowFault> {
    let filter = document_of(alloc, filter)?;
    does(alloc, &OpWords::Delete { filter }, rest)
}

// Returns whether a statement has the outcome, for the document before it, if any.
fn does(alloc: Global, words: &OpWords, row: &str) -> Result<bool, RowFault> {
    match Op::read(alloc, words) {
        Ok(op) => applies(alloc, &op, row),
        Err(fault) => Ok(parse_word(fault) == field(row).1),
    }
}

// The same for a statement that was read.
fn applies(alloc: Global, op: &Op, row: &str) -> Result<bool, RowFault> {
    let (before, wanted) = field(row);
    let before = document_if_any(alloc, before)?;
    match apply(alloc, op, before.as_ref()) {
        Ok(applied) => is_outcome(alloc, &applied, wanted),
        Err(fault) => Ok(apply_word(fault) == wanted),
    }
}
