//! A part in a move as its source.

ghost use Rattle.std.specs.Prelude.{◌≡◌, None, OnOk, true};
ghost use Rattle.std.specs.Coded.{Coded-set};
ghost use Rattle.bson_values.specs.Tree.{Datum};
ghost use Rattle.value_compare.specs.Bounds.{bound_of};
ghost use Rattle.value_compare.specs.Code.{bound_code};
ghost use Rattle.move_model.specs.Sources.{Marks, has_some, is_up_to, source_answered, source_start, stage_of};
ghost use Rattle.migration_source.specs.Changed.{changed_among};

mod batches;

use bson_values::{Memory, Value};
use cluster_base::RequestId;
use shard_records::MoveBatch;
use std::alloc::Global;
use std::collections::BTreeMap;
use value_compare::{Bound, Key, KeyRange, compare};

/// How far a copy is.
#[derive(Clone, Copy, Debug, PartialEq, Eq)]
pub enum GiveStage {
    /// The batch of this number is not answered.
    Unanswered(u64),
    /// All batches are answered, and the cursor is before the end of the range.
    Ready,
    /// All batches are answered, and the cursor is at the end of the range.
    AtEnd {
        /// Whether a changed key is still to be handed out.
        left: bool,
    },
}

/// A batch that may be handed out next, and the cursor after it.
#[derive(Drop)]
pub(crate) struct Prepared {
    batch: MoveBatch,
    cursor: Bound,
    ghost same: { bound_of cursor ≡ bound_of batch.upto } by { Coded-set bound_code (bound_of cursor) (bound_of batch.upto) },
}

/// What the source of a range keeps of its copy. Each key that has room among the changed ones has a place, and whether it changed. The next
/// batch and the range of the next section are there while they have room.
#[derive(Drop)]
pub struct Giving {
    alloc: Global,
    id: RequestId,
    range: KeyRange,
    number: u64,
    cursor: Bound,
    marks: BTreeMap<Key, bool>,
    unanswered: bool,
    prepared: Option<Prepared>,
    spare: Option<KeyRange>,
}

impl Giving {
    ghost use Rattle.migration_source.specs.Givings.{has_place, id_of, ready_of, source_of, spare_of, stage_view};

    /// A part of which no batch was handed out. Takes no memory.
    pub fn start(alloc: Global, id: RequestId, range: KeyRange) -> Giving
        ensures source { source_of result ≡ source_start range }
        ensures id { id_of result ≡ id }
    {
        Giving {
            alloc,
            id,
            range,
            number: 0,
            cursor: Bound::MinKey,
            marks: BTreeMap::new(alloc),
            unanswered: false,
            prepared: None,
            spare: None,
        }
    }

    /// Which move it is.
    pub fn id(&self) -> RequestId
        ensures { result ≡ id_of self.now }
    {
        self.id
    }

    /// Makes room for the next `changed` of the key. Returns `Memory` if memory runs out. Either way nothing else
    /// is to be seen of it.
    pub fn reserve(&mut self, key: &Key) -> Result<(), Memory>
        ensures room { OnOk result (has_place self.new key.now ≡ true) }
        ensures rooms { (k : Datum) → has_place self.old k ≡ true → has_place self.new k ≡ true }
        ensures ready { ready_of self.new ≡ ready_of self.old }
        ensures spare { spare_of self.new ≡ spare_of self.old }
        ensures source { source_of self.new ≡ source_of self.old }
        ensures id { id_of self.new ≡ id_of self.old }
    {
        if self.marks.contains_key(key) {
            return Ok(());
        }
        self.marks.insert(key.copy()?, false)?;
        Ok(())
    }

    /// The key was written. It is among the changed keys from now on where it was handed out, also with the last batch, and not otherwise.
    /// Takes no memory, since there is room for it. The next batch then has no room any more.
    pub fn changed(&mut self, key: &Key)
        requires room { has_place self.old key.now ≡ true }
        ensures marks { Marks key.now (source_of self.old) (source_of self.new) }
        ensures ready { ready_of self.new ≡ None }
        ensures spare { spare_of self.new ≡ spare_of self.old }
        ensures rooms { (k : Datum) → has_place self.new k ≡ has_place self.old k }
        ensures id { id_of self.new ≡ id_of self.old }
    {
        self.prepared = None;
        if self.range.contains(key) && is_up_to(&self.cursor, key) {
            if let Some(mark) = self.marks.get_mut(key) {
                *mark = true;
            }
        } else {
            let _places = self.marks.len();
        }
    }

    /// The batch of that number is answered. A number that is not that of the unanswered batch changes nothing.
    pub fn acked(&mut self, number: u64)
        ensures source { source_of self.new ≡ source_answered number (source_of self.old) }
        ensures ready { ready_of self.new ≡ ready_of self.old }
        ensures spare { spare_of self.new ≡ spare_of self.old }
        ensures rooms { (k : Datum) → has_place self.new k ≡ has_place self.old k }
        ensures id { id_of self.new ≡ id_of self.old }
    {
        self.unanswered = self.unanswered && self.number != number;
    }

    /// How far the copy is.
    pub fn stage(&self) -> GiveStage
        ensures { stage_view result ≡ stage_of (source_of self.now) }
    {
        if self.unanswered {
            return GiveStage::Unanswered(self.number);
        }
        if self.cursor.compare(self.range.max()).is_lt() {
            return GiveStage::Ready;
        }
        let left = has_changed(&self.marks);
        GiveStage::AtEnd { left }
    }
}

// Whether a key changed.
fn has_changed(marks: &BTreeMap<Key, bool>) -> bool
    ensures { result ≡ has_some (changed_among marks.now.entries) }
{
    for (key, changed) in marks.iter() {
        if *changed {
            return true;
        }
    }
    false
}

// Whether the key is at or below the cursor.
fn is_up_to(cursor: &Bound, key: &Key) -> bool
    ensures { result ≡ is_up_to (bound_of cursor.now) key.now }
{
    match cursor {
        Bound::MinKey => compare(key.value(), &Value::MinKey).is_le(),
        Bound::At(bound) => key.cmp(bound).is_le(),
        Bound::MaxKey => compare(key.value(), &Value::MaxKey).is_le(),
    }
}
