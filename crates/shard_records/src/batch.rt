//! The documents that one shard sends another while a chunk moves (MongoDB manual, "Sharded Cluster Balancer", chunk migration procedure).

ghost use Rattle.std.specs.Prelude.{◌≡◌, ◌++◌, ◌∷◌, [], IfOk, OnErr, OnOk, length, map};
ghost use Rattle.shard_records.specs.Batches.{batch_view, moved_view};

use bson_values::{Document, Memory};
use std::alloc::Global;
use std::marker::Model;
use std::sync::Arc;
use value_compare::{Bound, Key};

/// A key of the range, and the document that is there, shared.
#[derive(Drop)]
pub struct MovedDocument {
    /// The key.
    pub key: Key,
    /// Its document; none where it has none.
    pub document: Option<Arc<Document, Global>>,
}

impl MovedDocument {
    /// Returns a copy of it; the document is shared. Fails if memory runs out.
    pub fn copy(&self) -> Result<MovedDocument, Memory>
        ensures { IfOk result (λ m. moved_view m ≡ moved_view self.now) }
    {
        let key = self.key.copy()?;
        let document = match &self.document {
            Some(document) => Some(Arc::try_clone(document)?),
            None => None,
        };
        Ok(MovedDocument { key, document })
    }
}

/// The documents of a batch.
#[derive(Drop)]
pub struct MovedList {
    docs: Vec<MovedDocument>,
}

impl Model for MovedList {
    ghost use Rattle.std.specs.Prelude.{List, map};
    ghost use Rattle.record_model.specs.Moves as moves;
    ghost use Rattle.shard_records.specs.BatchCode.{moved_list_code};

    ghost Value = { List moves.MovedDocument };

    ghost coded = { moved_list_code };

    ghost use Rattle.shard_records.specs.Batches.{moved_view};

    ghost view = { λ list. map moved_view list.docs.items };
}

impl MovedList {
    /// Returns the list of these documents, in order. Takes no memory.
    pub fn of(docs: Vec<MovedDocument>) -> MovedList
        ensures { result ≡ map moved_view docs.items }
    {
        MovedList { docs }
    }

    /// Returns the documents, in order.
    pub fn as_slice(&self) -> &[MovedDocument]
        ensures { map moved_view result.now ≡ self.now }
    {
        &self.docs
    }

    /// Returns the documents themselves, in order. Takes no memory.
    pub fn into_docs(self) -> Vec<MovedDocument>
        ensures { map moved_view result.items ≡ self }
    {
        self.docs
    }

    /// Returns a copy of the documents, shared. Fails if memory runs out.
    pub fn copy(&self, alloc: Global) -> Result<MovedList, Memory>
        ensures { IfOk result (λ list. list ≡ self.now) }
    {
        let docs = copy_all(alloc, &self.docs)?;
        Ok(MovedList { docs })
    }
}

// Returns a copy of the documents, shared. Fails if memory runs out.
fn copy_all(alloc: Global, docs: &[MovedDocument]) -> Result<Vec<MovedDocument>, Memory>
    ensures { IfOk result (λ copy. map moved_view copy.items ≡ map moved_view docs.now) }
{
    let mut copy = Vec::with_capacity(alloc, docs.len())?;
    for moved in docs {
        copy.push(moved.copy()?)?;
    }
    Ok(copy)
}

/// Documents of a range that moves, sent together.
#[derive(Drop)]
pub struct MoveBatch {
    /// The how many-th batch of the move it is, from 1 on.
    pub number: u64,
    /// Up to where the range was copied with this batch.
    pub upto: Bound,
    /// Its keys, each once, with their documents.
    pub docs: MovedList,
}

impl MoveBatch {
    /// Returns a copy of the batch; its documents are shared. Fails if memory runs out.
    pub fn copy(&self, alloc: Global) -> Result<MoveBatch, Memory>
        ensures { IfOk result (λ batch. batch_view batch ≡ batch_view self.now) }
    {
        let upto = self.upto.copy()?;
        let docs = self.docs.copy(alloc)?;
        Ok(MoveBatch {
            number: self.number,
            upto,
            docs,
        })
    }
}
