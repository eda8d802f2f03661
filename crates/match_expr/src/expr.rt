//! Filters.

ghost use Rattle.std.specs.Prelude.{◌≡◌, IfErr, IfOk, Ok, option_map};
ghost use Rattle.bson_values.specs.View.{datum_of};
ghost use Rattle.query_model.specs.Holds.{holds};
ghost use Rattle.query_model.specs.KeySpans.{key_asked, key_equal, span_of};
ghost use Rattle.query_model.specs.Queries.{no_clauses};
ghost use Rattle.query_model.specs.Reading.{read_query};
ghost use Rattle.field_paths.specs.ReadFaults.{Fails};
ghost use Rattle.match_expr.specs.View.{query_before};

use crate::keys;
use crate::keys::as_key;
use crate::limits::KeyLimits;
use crate::matcher::query_holds;
use crate::parser::parse_within;
use crate::tree::{Clause, Clauses};
use bson_values::{Document, Memory, Value};
use field_paths::ParseFault;
use std::alloc::Global;
use std::marker::Model;
use value_compare::{Key, SpanList};

/// The most levels of queries and of operator documents in one another, the outermost query being level 1.
pub const MOST_LEVELS: usize = 100;

/// A filter, seen as the query that it is.
#[derive(Drop)]
pub struct Expr {
    query: Clauses,
    key: Option<Key>,
}

impl Model for Expr {
    ghost use Rattle.std.specs.Prelude.{◌≡◌};
    ghost use Rattle.query_model.specs.Queries.{Query};
    ghost use Rattle.query_model.specs.KeySpans.{key_equal};
    ghost use Rattle.match_expr.specs.Code.{query_code};

    ghost Value = { Query };

    ghost coded = { query_code };

    ghost view = { λ e. e.query };

    ghost invariant = { λ e. e.key ≡ key_equal e.query };
}

impl Expr {
    /// Returns the filter that a document is. Fails where it is none, with its first fault: fields from the left, and of each first its
    /// name (`UnknownOperator`, `Path`), then its operand by itself (`BadOperand`), then how deep the query or the operator document
    /// in it is (`Deep`), then what that has. Returns `Memory` if memory runs out.
    pub fn parse(alloc: Global, document: &Document) -> Result<Expr, ParseFault>
        // A filter is what the document reads as.
        ensures query { IfOk result (λ e. read_query document.now ≡ Ok e) }
        // A fault is the first, unless memory ran out.
        ensures fault { IfErr result (λ e. Fails e (read_query document.now)) }
    {
        let query = parse_within(alloc, MOST_LEVELS, document)?;
        let key = key_of(&query)?;
        Ok(Expr { query, key })
    }

    // Returns the query that it is.
    pub(crate) fn query(&self) -> &Clauses
        ensures { result.now ≡ self.now }
    {
        &self.query
    }

    // Returns its clauses, in order.
    pub(crate) fn clauses(&self) -> &[Clause]
        ensures { query_before result.now no_clauses ≡ self.now }
    {
        self.query.clauses()
    }
}

// Returns the key that a query targets, or `Memory` if memory runs out.
fn key_of(query: &Clauses) -> Result<Option<Key>, Memory>
    ensures { IfOk result (λ k. k ≡ key_equal query.now) }
{
    match keys::key_asked(query) {
        Some(value) => as_key(value),
        None => Ok(None),
    }
}

/// Returns whether the document matches the filter. Takes no memory.
pub fn holds(e: &Expr, document: &Document) -> bool
    ensures { result ≡ holds e.now document.now }
{
    query_holds(&e.query, document)
}

/// Returns the operand of the first equality on `_id` at the top, whether it may be a key or not.
pub fn key_asked(e: &Expr) -> Option<&Value>
    ensures { option_map (λ v. datum_of v.now) result ≡ key_asked e.now }
{
    keys::key_asked(&e.query)
}

/// Returns the key that the first equality on `_id` at the top targets; none where its value is no key.
pub fn key_equal(e: &Expr) -> Option<&Key>
    ensures { option_map (λ k. k.now) result ≡ key_equal e.now }
{
    e.key.as_ref()
}

/// Returns the ranges and points outside which the filter matches no document, or `Memory` if memory runs out.
pub fn key_span(alloc: Global, e: &Expr) -> Result<SpanList, Memory>
    ensures { IfOk result (λ s. s ≡ span_of e.now) }
{
    let mut limits = KeyLimits::new(alloc);
    limits.narrow(e)?;
    limits.into_spans()
}
