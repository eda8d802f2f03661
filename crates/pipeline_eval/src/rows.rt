//! What halves return.

ghost use Rattle.std.specs.Prelude.{◌≡◌, ◌<◌, ◌≤◌, ◌^◌, IfNone, IfOk, IfSome};
ghost use Rattle.pipeline_eval.specs.Rows.{rows_of};

use crate::half::share_all;
use bson_values::{Document, Memory};
use group_accum::PartialList;
use std::alloc::Global;
use std::marker::Model;
use std::sync::Arc;

/// The number of documents of a part is less than this.
const DOCUMENTS_OF_PART: u64 = 1 << 58;

/// The number of documents of a part: less than 2^58.
#[derive(Drop)]
pub struct PartCount {
    count: u64,
}

impl Model for PartCount {
    ghost use Rattle.std.specs.Prelude.{ℕ, ◌<◌, ◌^◌};

    ghost Value = { ℕ };

    ghost view = { λ c. c.count };

    ghost invariant = { λ c. c.count < 2 ^ 58 };
}

impl PartCount {
    /// Returns the number, or none where it is 2^58 or more.
    pub fn of(count: u64) -> Option<PartCount>
        ensures count { IfSome result (λ c. c ≡ count) }
        ensures none { IfNone result (2 ^ 58 ≤ count) }
    {
        if count < DOCUMENTS_OF_PART {
            Some(PartCount { count })
        } else {
            None
        }
    }

    /// Returns the number.
    pub fn get(&self) -> u64
        ensures count { result ≡ self.now }
        ensures bound { result < 2 ^ 58 }
    {
        self.count
    }
}

/// What a half returns for a part of the documents.
#[derive(Drop)]
pub enum Rows {
    /// Documents.
    Docs(Vec<Arc<Document, Global>>),
    /// The rows that they are grouped into.
    Partials(PartialList),
    /// The number of the documents.
    Counted(PartCount),
}

impl Rows {
    /// Returns a copy of the rows, which shares the documents, or `Memory` if memory runs out.
    pub fn copy(&self, alloc: Global) -> Result<Rows, Memory>
        ensures { IfOk result (λ rows. rows_of rows ≡ rows_of self.now) }
    {
        match self {
            Rows::Docs(documents) => Ok(Rows::Docs(share_all(alloc, documents)?)),
            Rows::Partials(list) => Ok(Rows::Partials(list.copy()?)),
            Rows::Counted(count) => Ok(Rows::Counted(PartCount { count: count.count })),
        }
    }
}
