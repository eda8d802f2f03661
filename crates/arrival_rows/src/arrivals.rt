//! Batches that arrive at the recipient of a move.

ghost use Rattle.std.specs.Prelude.{◌≡◌, ◌<◌, ℕ, Some};
ghost use Rattle.bson_values.specs.Tree.{Datum};
ghost use Rattle.move_model.specs.Recipients.{fit_of, next_fit};
ghost use Rattle.mvcc_collection.specs.Collections.{last_in};
ghost use Rattle.migration_recipient.specs.Takings.{applied_of};

use bson_values::{Aligned, Document, Value};
use cluster_base::{NodeId, RequestId, Time};
use fixtures::{RowFault, Rows, field, number, numbered};
use migration_recipient::{Fit, Taking};
use mvcc_collection::Collection;
use shard_records::{MoveBatch, MovedDocument, MovedList};
use std::alloc::Global;
use std::sync::Arc;
use value_compare::{Bound, Key, KeyRange};

/// One step after another: `batch | NUMBER | MEMBERS | FIT` is a batch that arrives, and holds where it fits so; it is applied where it is
/// the next. A member is a key and the `_id` of its document, or a key and `none`. `applied | NUMBER`: the number of the last.
/// `get | KEY | N or none`: which document is stored under the key.
#[derive(Drop)]
pub struct Arrivals {
    collection: Collection,
    taking: Taking,
    // the least time that may be put next
    next: u64,
    ghost below: { (k : Datum) (t : ℕ) → last_in collection k ≡ Some t → t < next },
}

impl Rows for Arrivals {
    fn holds(&mut self, alloc: Global, row: &str) -> Result<bool, RowFault> {
        let (verb, rest) = field(row);
        match verb {
            "batch" => self.batch(alloc, rest),
            "applied" => Ok(self.taking.applied() == number(rest)?),
            "get" => self.get(rest),
            _ => Err(RowFault::Form),
        }
    }
}

impl Arrivals {
    /// Returns the steps before the first batch.
    pub fn new(alloc: Global, range: KeyRange) -> Arrivals {
        let id = RequestId {
            router: NodeId(1),
            life: 1,
            count: 1,
        };
        Arrivals {
            collection: Collection::new(alloc),
            taking: Taking::start(id, range),
            next: 0,
        }
    }

    fn batch(&mut self, alloc: Global, row: &str) -> Result<bool, RowFault> {
        let (digits, rest) = field(row);
        let (words, fit) = field(rest);
        let number = number(digits)?;
        let docs = members_of(alloc, words)?;
        let batch = MoveBatch {
            number,
            upto: Bound::MaxKey,
            docs,
        };
        self.arrive(batch, fit)
    }

    // Returns whether the batch fits so; it is applied where it is the next.
    fn arrive(&mut self, batch: MoveBatch, fit: &str) -> Result<bool, RowFault> {
        match self.taking.fits(&batch) {
            Fit::Known => Ok(fit == "known"),
            Fit::Strange => Ok(fit == "strange"),
            Fit::Next => {
                let is_taken = self.take(batch)?;
                Ok(is_taken && fit == "next")
            }
        }
    }

    // Applies the next batch, and returns whether there is a time left for it.
    fn take(&mut self, batch: MoveBatch) -> Result<bool, RowFault>
        requires next { fit_of (applied_of self.old.taking) batch.number ≡ next_fit }
    {
        if self.next == u64::MAX {
            return Ok(false);
        }
        self.taking.reserve(&batch, &mut self.collection)?;
        self.taking
            .apply(batch, &mut self.collection, Time(self.next));
        self.next += 1;
        Ok(true)
    }

    fn get(&self, row: &str) -> Result<bool, RowFault> {
        let (key, n) = field(row);
        let key = key_of(key)?;
        match self.collection.get(&key) {
            None => Ok(n == "none"),
            Some(document) => is_numbered(document, n),
        }
    }
}

// Returns whether the document is `{_id: n}`.
fn is_numbered(document: &Document, n: &str) -> Result<bool, RowFault> {
    let n: i32 = number(n)?;
    Ok(matches!(document.get("_id"), Some(Value::Int32(found)) if found.content == n))
}

// Returns the members of the words: keys, each followed by the `_id` of its document or by `none`.
fn members_of(alloc: Global, words: &str) -> Result<MovedList, RowFault> {
    let mut docs = Vec::new(alloc);
    let mut left = words.split_whitespace();
    while let Some(key) = left.next() {
        let n = left.next().unwrap_or("none");
        docs.push(member_of(alloc, key, n)?)?;
    }
    Ok(MovedList::of(docs))
}

// Returns the member with the key of the word, and the document `{_id: n}`, or none.
fn member_of(alloc: Global, key: &str, n: &str) -> Result<MovedDocument, RowFault> {
    let key = key_of(key)?;
    let document = match n {
        "none" => None,
        _ => Some(Arc::new(alloc, numbered(alloc, number(n)?)?)?),
    };
    Ok(MovedDocument { key, document })
}

// Returns the key that is this int32.
fn key_of(word: &str) -> Result<Key, RowFault> {
    key_or_form(Key::of(Value::Int32(Aligned::of(number(word)?))))
}

// A value that is no key is let go here, in a function of any type: the drop of a value is long to prove.
fn key_or_form<T: Drop>(made: Result<Key, T>) -> Result<Key, RowFault> {
    match made {
        Ok(key) => Ok(key),
        Err(_value) => Err(RowFault::Form),
    }
}
