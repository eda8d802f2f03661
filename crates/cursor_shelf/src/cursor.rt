//! One cursor: the documents that are not returned yet.

ghost use Rattle.std.specs.Prelude.{◌≡◌, ◌≤◌, ◌<◌, ◌+◌, ◌&&◌, ◌++◌, ◌∷◌, [], IfOk, OnErr, OnOk, drop, length, map, nat_lt, take, ◌==◌};
ghost use Rattle.std.specs.Arc.{arc_value};
ghost use Rattle.std.specs.Str.{bytes_eq};
ghost use Rattle.std.specs.Vec.{vec_capacity, vec_len};
ghost use Rattle.bson_model.specs.Limits.{most_bytes_kept};
ghost use Rattle.cursor_shelf.specs.Cursors.{IsLongest, is_reached};
ghost use Rattle.pipeline_model.specs.Batches.{IsBatch};

use bson_values::{Document, MOST_BYTES_KEPT, Memory};
use cluster_base::{Namespace, Time};
use std::alloc::Global;
use std::collections::VecDeque;
use std::marker::Model;
use std::sync::Arc;

/// The first batch of documents.
#[derive(Drop)]
pub struct FirstBatch {
    /// The documents, in order.
    pub documents: Vec<Arc<Document, Global>>,
    /// Those that remain.
    pub rest: VecDeque<Arc<Document, Global>>,
}

/// An open cursor.
#[derive(Drop)]
pub(crate) struct Cursor {
    namespace: Namespace,
    time: Time,
    remaining: VecDeque<Arc<Document, Global>>,
}

impl Model for Cursor {
    ghost use Rattle.std.specs.Prelude.{map};
    ghost use Rattle.std.specs.Arc.{arc_value};
    ghost use Rattle.cursor_shelf.specs.Cursors.{OpenCursor, cursor_code};

    ghost Value = { OpenCursor };

    ghost coded = { cursor_code };

    ghost view = { λ c. record { namespace = c.namespace; time = c.time.0; remaining = map arc_value c.remaining.items } };
}

impl Cursor {
    /// Returns a cursor on the documents that remain of those that were read in the namespace at the time.
    pub(crate) fn new(
        namespace: Namespace,
        time: Time,
        remaining: VecDeque<Arc<Document, Global>>,
    ) -> Cursor
        ensures { result ≡ record { namespace = namespace; time = time.0; remaining = map arc_value remaining.items } }
    {
        Cursor {
            namespace,
            time,
            remaining,
        }
    }

    /// Replaces the documents that remain. Takes no memory.
    pub(crate) fn fill(&mut self, remaining: VecDeque<Arc<Document, Global>>)
        ensures { self.new ≡ record { namespace = self.old.namespace; time = self.old.time; remaining = map arc_value remaining.items } }
    {
        self.remaining = remaining;
    }

    /// Returns whether its documents belong to that namespace.
    pub(crate) fn is_of(&self, namespace: &Namespace) -> bool
        ensures { result ≡ bytes_eq self.now.namespace namespace.now }
    {
        self.namespace.as_str() == namespace.as_str()
    }

    /// Returns the time at which its documents were read.
    pub(crate) fn time(&self) -> Time
        ensures { result.0 ≡ self.now.time }
    {
        self.time
    }

    /// Returns how many documents remain.
    pub(crate) fn count(&self) -> usize
        ensures { result ≡ length self.now.remaining }
    {
        self.remaining.len()
    }

    /// Returns the documents of the next batch, shared, or `Memory` if memory runs out.
    pub(crate) fn next(
        &self,
        alloc: Global,
        size: Option<u64>,
    ) -> Result<Vec<Arc<Document, Global>>, Memory>
        ensures { IfOk result (λ b. IsBatch size self.now.remaining (map arc_value b.items)) }
    {
        let count = batch_length(&self.remaining, size);
        share_front(alloc, &self.remaining, count)
    }

    /// Removes the first `count` documents, or all. Takes no memory.
    pub(crate) fn advance(&mut self, count: usize)
        ensures { self.new ≡ record { namespace = self.old.namespace; time = self.old.time; remaining = drop count self.old.remaining } }
    {
        drop_front(&mut self.remaining, count);
    }
}

// Returns whether there are as many documents as the size requests.
fn is_reached(size: Option<u64>, count: usize) -> bool
    ensures { result ≡ is_reached size count }
{
    match size {
        Some(most) => most <= count as u64,
        None => false,
    }
}

// Returns whether documents with this number of bytes are too long for one batch: more than one document, and more bytes than a batch may have.
fn is_too_long(before: usize, bytes: usize) -> bool
    ensures { result ≡ (nat_lt 0 before && nat_lt most_bytes_kept bytes) }
{
    before > 0 && bytes > MOST_BYTES_KEPT
}

// Returns how many of the documents that remain are the next batch.
#[tactic(auto, using(crate::proofs::Longest::at_end))]
fn batch_length(remaining: &VecDeque<Arc<Document, Global>>, size: Option<u64>) -> usize
    ensures { IsLongest size (map arc_value remaining.now.items) result }
{
    let mut bytes = 0usize;
    for count in 0..remaining.len() {
        if is_reached(size, count) {
            return count;
        }
        bytes = bytes.saturating_add(remaining[count].size());
        if is_too_long(count, bytes) {
            return count;
        }
    }
    remaining.len()
}

// Appends a document, where there is room.
fn put(front: &mut Vec<Arc<Document, Global>>, document: Arc<Document, Global>)
    requires { vec_len front.old < vec_capacity front.old }
    ensures items { front.new.items ≡ front.old.items ++ document ∷ [] }
    ensures len { vec_len front.new ≡ vec_len front.old + 1 }
    ensures capacity { vec_capacity front.old ≤ vec_capacity front.new }
{
    let _ = front.push(document);
}

// Removes the first `count` documents, and returns them, or `Memory` if memory runs out.
#[tactic(auto, using(crate::proofs::Longest::front_is, crate::proofs::Longest::rest_is))]
fn take_front(
    alloc: Global,
    remaining: &mut VecDeque<Arc<Document, Global>>,
    count: usize,
) -> Result<Vec<Arc<Document, Global>>, Memory>
    requires { count ≤ length remaining.old.items }
    ensures front { IfOk result (λ b. b.items ≡ take count remaining.old.items) }
    ensures rest { OnOk result (remaining.new.items ≡ drop count remaining.old.items) }
{
    let mut front = Vec::with_capacity(alloc, count)?;
    for _ in 0..count {
        if let Some(document) = remaining.pop_front() {
            put(&mut front, document);
        }
    }
    Ok(front)
}

// Returns the first `count` documents, each shared, or `Memory` if memory runs out.
fn share_front(
    alloc: Global,
    remaining: &VecDeque<Arc<Document, Global>>,
    count: usize,
) -> Result<Vec<Arc<Document, Global>>, Memory>
    requires { count ≤ length remaining.now.items }
    ensures { IfOk result (λ b. map arc_value b.items ≡ take count (map arc_value remaining.now.items)) }
{
    let mut front = Vec::with_capacity(alloc, count)?;
    for place in 0..count {
        let shared = Arc::try_clone(&remaining[place])?;
        front.push(shared)?;
    }
    Ok(front)
}

// Removes the first `count` documents, or all.
fn drop_front(remaining: &mut VecDeque<Arc<Document, Global>>, count: usize)
    ensures { remaining.new.items ≡ drop count remaining.old.items }
{
    for _ in 0..count {
        if remaining.pop_front().is_none() {
            return;
        }
    }
}

/// Returns the first batch of documents, and those that remain: as many as the size, if one is given, and 16,777,216 bytes allow, or one (MongoDB manual,
/// "Cursor Batches"). Returns `Memory` if memory runs out.
pub fn first_batch(
    alloc: Global,
    size: Option<u64>,
    documents: Vec<Arc<Document, Global>>,
) -> Result<FirstBatch, Memory>
    ensures batch { IfOk result (λ b. IsBatch size (map arc_value documents.items) (map arc_value b.documents.items)) }
    ensures rest { IfOk result (λ b. map arc_value b.rest.items ≡ drop (length (map arc_value b.documents.items)) (map arc_value documents.items)) }
{
    let mut rest = VecDeque::from(documents);
    let count = batch_length(&rest, size);
    let documents = take_front(alloc, &mut rest, count)?;
    Ok(FirstBatch { documents, rest })
}
