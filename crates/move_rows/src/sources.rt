//! Steps on the source of a move.

ghost use Rattle.std.specs.Prelude.{◌≡◌, IsTrue, false};
ghost use Rattle.migration_source.specs.Givings.{IsAtEnd, source_of};

use crate::batches::Wanted;
use crate::growing::Growing;
use crate::words::{document_of, key_of, namespace_of, range_of, short_key};
use bson_values::Document;
use cluster_base::{Namespace, NodeId, RequestId, Time};
use critical_section::{Section, Want};
use fixtures::{RowFault, Rows, field, number};
use migration_source::{GiveStage, Giving};
use shard_records::MoveBatch;
use std::alloc::Global;
use std::sync::Arc;
use value_compare::{Key, KeyRange, Span};

/// One step after another on a collection and a part in a move of it: `start | BOUND | BOUND` begins with none and a range; `fill | FROM | TO`
/// stores a document of 14 bytes under each number; `write | KEY | BYTES` stores one of so many bytes, and `delete | KEY` none;
/// `batch | NUMBER | UPTO | MEMBERS` holds where the next batch is that; `acked | NUMBER`; `stage | STAGE`; `section | TIME | TIME | KEY | yes`
/// or `no` holds where the section of the first time is entered and makes a read of the key at the second time wait, or not.
#[derive(Drop)]
pub struct Sources {
    growing: Growing,
    giving: Giving,
}

impl Rows for Sources {
    fn holds(&mut self, alloc: Global, row: &str) -> Result<bool, RowFault> {
        let (verb, rest) = field(row);
        match verb {
            "start" => self.start(alloc, rest),
            "fill" => self.fill(alloc, rest),
            "write" => self.write(alloc, rest),
            "delete" => self.put(&key_of(rest)?, None),
            "batch" => self.batch(alloc, rest),
            "acked" => self.acked(rest),
            "stage" => is_stage(self.giving.stage(), rest),
            "section" => self.section(alloc, rest),
            _ => Err(RowFault::Form),
        }
    }
}

impl Sources {
    /// Returns the steps before the first.
    pub fn new(alloc: Global, range: KeyRange) -> Sources {
        let id = RequestId {
            router: NodeId(1),
            life: 1,
            count: 1,
        };
        Sources {
            growing: Growing::new(alloc),
            giving: Giving::start(alloc, id, range),
        }
    }

    fn start(&mut self, alloc: Global, row: &str) -> Result<bool, RowFault> {
        let (min, max) = field(row);
        let range = range_of(min, max)?;
        *self = Sources::new(alloc, range);
        Ok(true)
    }

    fn fill(&mut self, alloc: Global, row: &str) -> Result<bool, RowFault> {
        let (from, to) = field(row);
        let from: i32 = number(from)?;
        let to: i32 = number(to)?;
        for n in from..=to {
            if !self.put_small(alloc, n)? {
                return Ok(false);
            }
        }
        Ok(true)
    }

    fn put_small(&mut self, alloc: Global, n: i32) -> Result<bool, RowFault> {
        let key = short_key(n)?;
        let document = document_of(alloc, 14)?;
        self.put(&key, Some(document))
    }

    fn write(&mut self, alloc: Global, row: &str) -> Result<bool, RowFault> {
        let (key, bytes) = field(row);
        let key = key_of(key)?;
        let document = document_of(alloc, number(bytes)?)?;
        self.put(&key, Some(document))
    }

    // Stores the document, or none, and tells the source; returns whether there is a time left for it.
    fn put(
        &mut self,
        key: &Key,
        document: Option<Arc<Document, Global>>,
    ) -> Result<bool, RowFault> {
        self.giving.reserve(key)?;
        let is_put = self.growing.put(key, document)?;
        self.giving.changed(key);
        Ok(is_put)
    }

    fn batch(&mut self, alloc: Global, row: &str) -> Result<bool, RowFault> {
        let wanted = Wanted::read(alloc, row)?;
        match self.next()? {
            Some(batch) => wanted.is(&batch),
            None => Ok(false),
        }
    }

    // Returns the next batch, where the one before is answered.
    fn next(&mut self) -> Result<Option<MoveBatch>, RowFault> {
        self.giving.reserve_batch(&self.growing.collection)?;
        if !is_answered(&self.giving) {
            return Ok(None);
        }
        Ok(Some(self.giving.next_batch(&self.growing.collection)))
    }

    fn acked(&mut self, row: &str) -> Result<bool, RowFault> {
        self.giving.acked(number(row)?);
        Ok(true)
    }

    fn section(&mut self, alloc: Global, row: &str) -> Result<bool, RowFault> {
        let (time, rest) = field(row);
        let time = Time(number(time)?);
        let namespace = namespace_of(alloc, "d.c")?;
        match self.enter(namespace, time)? {
            Some(section) => is_covering(alloc, &section, rest),
            None => Ok(false),
        }
    }

    // Returns the section, where the copy is at its end.
    fn enter(
        &mut self,
        namespace: Namespace,
        time: Time,
    ) -> Result<Option<Section<u64>>, RowFault> {
        self.giving.reserve_batch(&self.growing.collection)?;
        if !is_at_end(&self.giving) {
            return Ok(None);
        }
        Ok(Some(self.giving.enter_section(namespace, time)))
    }
}

// `TIME | KEY | yes` or `no`: whether the section makes a read of the key at the time wait.
fn is_covering(alloc: Global, section: &Section<u64>, row: &str) -> Result<bool, RowFault> {
    let (time, rest) = field(row);
    let (key, answer) = field(rest);
    let want = Want::Read(Time(number(time)?));
    let namespace = namespace_of(alloc, "d.c")?;
    let span = Span::Point(key_of(key)?);
    Ok(section.covers(&namespace, &span, want) == (answer == "yes"))
}

// Returns whether the stage is that of the row.
fn is_stage(stage: GiveStage, row: &str) -> Result<bool, RowFault> {
    let (word, n) = field(row);
    match stage {
        GiveStage::Unanswered(found) => Ok(word == "unanswered" && found == number(n)?),
        GiveStage::Ready => Ok(word == "ready"),
        GiveStage::AtEnd { left } => Ok(word == if left { "left" } else { "end" }),
    }
}

// Returns whether no batch is unanswered.
#[tactic(auto, using(crate::proofs::Stages::ready, crate::proofs::Stages::ended))]
fn is_answered(giving: &Giving) -> bool
    ensures { IsTrue result → (source_of giving.now).unanswered ≡ false }
{
    match giving.stage() {
        GiveStage::Unanswered(_) => false,
        GiveStage::Ready => true,
        GiveStage::AtEnd { left: _ } => true,
    }
}

// Returns whether the cursor reached the end of the range, and no batch is unanswered.
#[tactic(auto, using(crate::proofs::Stages::at_end))]
fn is_at_end(giving: &Giving) -> bool
    ensures { IsTrue result → IsAtEnd (source_of giving.now) }
{
    match giving.stage() {
        GiveStage::Unanswered(_) => false,
        GiveStage::Ready => false,
        GiveStage::AtEnd { left: _ } => true,
    }
}
