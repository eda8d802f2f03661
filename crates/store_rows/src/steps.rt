//! Steps on a collection.

ghost use Rattle.std.specs.Prelude.{◌≡◌, ◌<◌, ℕ, Some};
ghost use Rattle.bson_values.specs.Tree.{Datum};
ghost use Rattle.mvcc_collection.specs.Collections.{last_in};

use bson_values::{Document, Value};
use cluster_base::Time;
use fixtures::{RowFault, Rows, field, number, numbered, spelled_value};
use mvcc_collection::Collection;
use std::alloc::Global;
use std::sync::Arc;
use value_compare::{Bound, Key, KeyRange, Span, SpanList};

/// One step after another: `put | KEY | TIME | N` puts the document `{_id: N}` under the key, or none where N is `none`, and holds
/// where the time is later than those before; `reserve | KEY`; `get | KEY | TIME | N` or `none`; `point | KEY | TIME | NUMBERS` and
/// `range | KEY or min | KEY or max | TIME | NUMBERS`, the documents in order.
#[derive(Drop)]
pub struct Steps {
    collection: Collection,
    // the least time that may be put next
    next: u64,
    ghost below: { (k : Datum) (t : ℕ) → last_in collection k ≡ Some t → t < next },
}

impl Rows for Steps {
    fn holds(&mut self, alloc: Global, row: &str) -> Result<bool, RowFault> {
        let (verb, rest) = field(row);
        match verb {
            "put" => self.put(alloc, rest),
            "reserve" => self.reserve(alloc, rest),
            "get" => self.get(alloc, rest),
            "point" => self.point(alloc, rest),
            "range" => self.range(alloc, rest),
            _ => Err(RowFault::Form),
        }
    }
}

impl Steps {
    pub fn new(alloc: Global) -> Steps {
        Steps {
            collection: Collection::new(alloc),
            next: 0,
        }
    }

    fn put(&mut self, alloc: Global, row: &str) -> Result<bool, RowFault> {
        let (key, rest) = field(row);
        let (time, n) = field(rest);
        let time = number(time)?;
        let key = spelled_key(alloc, key)?;
        let document = document_of(alloc, n)?;
        self.put_at(&key, time, document)
    }

    // Returns whether the time is later than those before, so that it is put.
    fn put_at(
        &mut self,
        key: &Key,
        time: u64,
        document: Option<Arc<Document, Global>>,
    ) -> Result<bool, RowFault> {
        if time < self.next || time == u64::MAX {
            return Ok(false);
        }
        self.collection.reserve(key)?;
        self.collection.put(key, Time(time), document);
        self.next = time + 1;
        Ok(true)
    }

    fn reserve(&mut self, alloc: Global, row: &str) -> Result<bool, RowFault> {
        let key = spelled_key(alloc, row)?;
        self.collection.reserve(&key)?;
        Ok(true)
    }

    fn get(&self, alloc: Global, row: &str) -> Result<bool, RowFault> {
        let (key, rest) = field(row);
        let (time, n) = field(rest);
        let time = number(time)?;
        let key = spelled_key(alloc, key)?;
        match self.collection.get_at(&key, Time(time)) {
            None => Ok(n == "none"),
            Some(document) => is_numbered(document, n),
        }
    }

    fn point(&self, alloc: Global, row: &str) -> Result<bool, RowFault> {
        let (key, rest) = field(row);
        let key = spelled_key(alloc, key)?;
        self.scan(alloc, Span::Point(key), rest)
    }

    fn range(&self, alloc: Global, row: &str) -> Result<bool, RowFault> {
        let (min, rest) = field(row);
        let (max, rest) = field(rest);
        let min = spelled_bound(alloc, min)?;
        let max = spelled_bound(alloc, max)?;
        match KeyRange::new(min, max) {
            None => Err(RowFault::Form),
            Some(range) => self.scan(alloc, Span::Range(range), rest),
        }
    }

    fn scan(&self, alloc: Global, span: Span, row: &str) -> Result<bool, RowFault> {
        let (time, wanted) = field(row);
        let time = number(time)?;
        let mut spans = Vec::new(alloc);
        spans.push(span)?;
        let list = SpanList::of(spans);
        let documents = self.collection.scan_at(&list, Time(time))?;
        are_numbered(&documents, wanted)
    }
}

fn spelled_key(alloc: Global, words: &str) -> Result<Key, RowFault> {
    let value = spelled_value(alloc, words)?;
    Key::of(value).map_err(|_value| RowFault::Form)
}

fn spelled_bound(alloc: Global, words: &str) -> Result<Bound, RowFault> {
    match words {
        "min" => Ok(Bound::MinKey),
        "max" => Ok(Bound::MaxKey),
        _ => Ok(Bound::At(spelled_key(alloc, words)?)),
    }
}

fn document_of(alloc: Global, n: &str) -> Result<Option<Arc<Document, Global>>, RowFault> {
    if n == "none" {
        return Ok(None);
    }
    let document = numbered(alloc, number(n)?)?;
    Ok(Some(Arc::new(alloc, document)?))
}

// Returns whether the document is `{_id: n}`.
fn is_numbered(document: &Document, n: &str) -> Result<bool, RowFault> {
    let n: i32 = number(n)?;
    Ok(matches!(document.get("_id"), Some(Value::Int32(found)) if found.content == n))
}

// Returns whether the documents are `{_id: n}` of these numbers, in order.
fn are_numbered(documents: &[&Arc<Document, Global>], numbers: &str) -> Result<bool, RowFault> {
    let mut wanted = numbers.split_whitespace();
    for document in documents {
        let Some(n) = wanted.next() else {
            return Ok(false);
        };
        if !is_numbered(document, n)? {
            return Ok(false);
        }
    }
    Ok(wanted.next().is_none())
}
