//! A part in a move as its recipient.

ghost use Rattle.std.specs.Prelude.{◌≡◌, ◌≤◌, ℕ, Some, OnOk, false, nat_le, if◌then◌else◌};
ghost use Rattle.bson_values.specs.Tree.{Datum};
ghost use Rattle.move_model.specs.Sources.{has_key};
ghost use Rattle.move_model.specs.Batches.{keys_of_members};
ghost use Rattle.move_model.specs.Recipients.{fit_of, next_fit, overlay};
ghost use Rattle.mvcc_collection.specs.Collections.{at_in, last_in, room_in};
ghost use Rattle.migration_recipient.specs.Applied.{HasRoom, IsLater, IsSame};
ghost use Rattle.migration_recipient.specs.Takings.{fit_view};

use crate::apply::{apply_all, reserve_all};
use bson_values::Memory;
use cluster_base::{RequestId, Time};
use mvcc_collection::Collection;
use shard_records::MoveBatch;
use value_compare::KeyRange;

/// How the number of a batch fits.
#[derive(Clone, Copy, Debug, PartialEq, Eq)]
pub enum Fit {
    /// It is the next.
    Next,
    /// It was applied before.
    Known,
    /// It is neither.
    Strange,
}

/// What the recipient of a range keeps of the copy.
#[derive(Drop)]
pub struct Taking {
    id: RequestId,
    range: KeyRange,
    applied: u64,
}

impl Taking {
    ghost use Rattle.migration_recipient.specs.Takings.{applied_of, id_of, range_of};

    /// A part of which no batch was applied. Takes no memory.
    pub fn start(id: RequestId, range: KeyRange) -> Taking
        ensures applied { applied_of result ≡ 0 }
        ensures id { id_of result ≡ id }
        ensures range { range_of result ≡ range }
    {
        Taking {
            id,
            range,
            applied: 0,
        }
    }

    /// Which move it is.
    pub fn id(&self) -> RequestId
        ensures { result ≡ id_of self.now }
    {
        self.id
    }

    /// The keys that move.
    pub fn range(&self) -> &KeyRange
        ensures { result.now ≡ range_of self.now }
    {
        &self.range
    }

    /// The number of the last batch that was applied, which is 0 before the first.
    pub fn applied(&self) -> u64
        ensures { result ≡ applied_of self.now }
    {
        self.applied
    }

    /// Whether the batch is the next, is known or is neither: `Next` where its number is one above that of the last batch that was
    /// applied, `Known` where it is from 1 to that number.
    pub fn fits(&self, b: &MoveBatch) -> Fit
        ensures { fit_view result ≡ fit_of (applied_of self.now) b.now.number }
    {
        fit_among(self.applied, b.number)
    }

    /// Makes room for the next `apply` of this batch. Fails with `Memory` out of memory. Either way nothing else is to be seen of it.
    pub fn reserve(&mut self, b: &MoveBatch, c: &mut Collection) -> Result<(), Memory>
        ensures room { OnOk result (HasRoom c.new b.now.docs) }
        ensures same { IsSame c.old c.new }
        ensures part { self.new ≡ self.old }
    {
        reserve_all(b.docs.as_slice(), c)
    }

    /// Applies the next batch: each of its keys has its document, or none, from the time on, and all else stays. Of two members with one
    /// key the later counts. Takes no memory.
    pub fn apply(&mut self, b: MoveBatch, c: &mut Collection, time: Time)
        requires next { fit_of (applied_of self.old) b.number ≡ next_fit }
        requires room { HasRoom c.old b.docs }
        requires later { IsLater c.old time.0 b.docs }
        ensures documents { (k : Datum) (t : ℕ) → at_in c.new k t ≡ (if nat_le time.0 t then overlay b.docs k (at_in c.old k t) else at_in c.old k t) }
        ensures last { (k : Datum) → last_in c.new k ≡ (if has_key k (keys_of_members b.docs) then Some time.0 else last_in c.old k) }
        ensures rooms { (k : Datum) → has_key k (keys_of_members b.docs) ≡ false → room_in c.old k ≤ room_in c.new k }
        ensures applied { applied_of self.new ≡ b.number }
        ensures id { id_of self.new ≡ id_of self.old }
        ensures range { range_of self.new ≡ range_of self.old }
    {
        let MoveBatch {
            number,
            upto: _,
            docs,
        } = b;
        self.applied = number;
        apply_all(docs.into_docs(), c, time);
    }
}

// How a number fits after the last number that was applied.
#[tactic(auto, using(crate::proofs::Fits::at_zero, crate::proofs::Fits::is_next, crate::proofs::Fits::is_known, crate::proofs::Fits::is_strange))]
fn fit_among(applied: u64, number: u64) -> Fit
    ensures { fit_view result ≡ fit_of applied number }
{
    if number == 0 {
        Fit::Strange
    } else if number - 1 == applied {
        Fit::Next
    } else if number <= applied {
        Fit::Known
    } else {
        Fit::Strange
    }
}
