//! Statements: inserts, updates and deletes (MongoDB manual, "insert", "update", "delete").

ghost use Rattle.std.specs.Prelude.{◌≡◌, IfErr, IfOk, Ok, true};
ghost use Rattle.std.specs.Result.{is_ok};
ghost use Rattle.value_model.specs.Keys.{valid_key};
ghost use Rattle.query_model.specs.Reading.{read_query};
ghost use Rattle.query_model.specs.Writes.{insert_write, read_delete, read_insert, read_start, read_update};
ghost use Rattle.field_paths.specs.ReadFaults.{Fails, Gives};
ghost use Rattle.update_ops.specs.Ops.{read_words, write_of};

use crate::change::Update;
use crate::filters::{equalities, is_plain_filter};
use bson_values::Document;
use field_paths::ParseFault;
use match_expr::{Expr, key_equal};
use std::alloc::Global;
use std::marker::Model;
use value_compare::{KeyFault, OpWords, key_of};

/// The document that an upsert begins with, which has a key to be stored under (MongoDB manual, "Upsert Behavior").
#[derive(Drop)]
pub struct Start {
    document: Document,
}

impl Model for Start {
    ghost use Rattle.std.specs.Prelude.{◌≡◌, true};
    ghost use Rattle.std.specs.Result.{is_ok};
    ghost use Rattle.bson_model.specs.Tree.{Fields};
    ghost use Rattle.bson_values.specs.Code.{fields_code};
    ghost use Rattle.value_model.specs.Keys.{valid_key};

    ghost Value = { Fields };

    ghost coded = { fields_code };

    ghost view = { λ s. s.document };

    ghost invariant = { λ s. is_ok (valid_key s.document) ≡ true };
}

impl Start {
    /// Returns the document.
    pub fn document(&self) -> &Document
        ensures document { result.now ≡ self.now }
        ensures key { is_ok (valid_key self.now) ≡ true }
    {
        &self.document
    }
}

/// One statement.
#[derive(Drop)]
pub enum Op {
    /// Inserts a document.
    Insert(Document),
    /// Changes the document where it matches the filter. Where there is none, an upsert changes the document that it begins with, and inserts the result.
    Update {
        filter: Expr,
        change: Update,
        upsert: Option<Start>,
    },
    /// Removes the document where it matches the filter.
    Delete {
        filter: Expr,
    },
}

impl Op {
    /// Returns the statement that the operands are. Returns the first fault: of an insert that its document has no key to be stored under (`BadOperand`); of
    /// an update or a delete that of its filter, then that of its change, and last that an upsert can't begin from the filter, which has a dotted path or a
    /// logical operator or requires no key (`BadOperand`). Returns `Memory` if memory runs out.
    pub fn read(alloc: Global, words: &OpWords) -> Result<Op, ParseFault>
        // A statement is what the definitions read from the operands.
        ensures write { IfOk result (λ op. read_words words.now ≡ Ok (write_of op)) }
        // A fault is the first, unless memory runs out.
        ensures fault { IfErr result (λ e. Fails e (read_words words.now)) }
    {
        match words {
            OpWords::Insert(document) => read_insert(alloc, document),
            OpWords::Update {
                filter,
                change,
                upsert,
            } => read_update(alloc, filter, change, *upsert),
            OpWords::Delete { filter } => read_delete(alloc, filter),
        }
    }
}

// The insert of a copy of the document.
fn insert_of(document: &Document) -> Result<Op, ParseFault>
    ensures gives { Gives write_of result (Ok (insert_write document.now)) }
{
    Ok(Op::Insert(document.copy()?))
}

// Returns the insert of a document that has a key to be stored under.
fn read_insert(alloc: Global, document: &Document) -> Result<Op, ParseFault>
    ensures gives { Gives write_of result (read_insert document.now) }
{
    match key_of(alloc, document) {
        Ok(_) => insert_of(document),
        Err(KeyFault::Absent) => Err(ParseFault::BadOperand),
        Err(KeyFault::Kind) => Err(ParseFault::BadOperand),
        Err(KeyFault::Memory) => Err(ParseFault::Memory),
    }
}

// Returns the document that an update begins with: for an upsert the equalities of its filter, which must require a key.
#[tactic(auto, using(crate::proofs::FilterNames::start_refused, crate::proofs::FilterNames::start_keyless, crate::proofs::FilterNames::start_read, crate::proofs::FilterNames::start_has_key))]
fn read_start(
    alloc: Global,
    upsert: bool,
    filter: &Document,
    asked: &Expr,
) -> Result<Option<Start>, ParseFault>
    requires { read_query filter.now ≡ Ok asked.now }
    ensures gives { Gives (λ s. s) result (read_start upsert asked.now) }
{
    if !upsert {
        return Ok(None);
    }
    if !is_plain_filter(filter) {
        return Err(ParseFault::BadOperand);
    }
    let Some(_key) = key_equal(asked) else {
        return Err(ParseFault::BadOperand);
    };
    let document = equalities(alloc, filter)?;
    Ok(Some(Start { document }))
}

// Returns an update, or an upsert.
fn read_update(
    alloc: Global,
    filter: &Document,
    change: &Document,
    upsert: bool,
) -> Result<Op, ParseFault>
    ensures gives { Gives write_of result (read_update filter.now change.now upsert) }
{
    let asked = Expr::parse(alloc, filter)?;
    let change = Update::parse(alloc, change)?;
    let upsert = read_start(alloc, upsert, filter, &asked)?;
    Ok(Op::Update {
        filter: asked,
        change,
        upsert,
    })
}

// A delete.
fn read_delete(alloc: Global, filter: &Document) -> Result<Op, ParseFault>
    ensures gives { Gives write_of result (read_delete filter.now) }
{
    let filter = Expr::parse(alloc, filter)?;
    Ok(Op::Delete { filter })
}
