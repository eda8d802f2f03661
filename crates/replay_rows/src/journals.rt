//! Journals that replay, and journals that do not.

ghost use Rattle.std.specs.Prelude.{◌≡◌};

use crate::named::NamedRecords;
use bson_values::Blob;
use catalogue_replay::CataloguePart;
use cluster_base::NodeId;
use fixtures::{RowFault, Rows, field, number};
use journal_replay::{OpenFault, Replays, replay};
use router_replay::RouterPart;
use shard_replay::ShardPart;
use std::alloc::Global;

/// `record | NAME | BYTES`: a record by name. `catalogue | NAMES | OUTCOME`, `shard | NAMES | OUTCOME`, `router | NAMES | OUTCOME`: the journal of node 0, 1 or 2
/// with these records; the outcome is `replays` or `refused INDEX`.
#[derive(Drop)]
pub struct Journals {
    named: NamedRecords,
}

impl Journals {
    /// Returns the rows' state before the first.
    pub fn new(alloc: Global) -> Journals {
        Journals {
            named: NamedRecords::new(alloc),
        }
    }
}

impl Rows for Journals {
    fn holds(&mut self, alloc: Global, row: &str) -> Result<bool, RowFault> {
        let (kind, rest) = field(row);
        if kind == "record" {
            self.named.add(alloc, rest)?;
            return Ok(true);
        }
        let (names, wanted) = field(rest);
        let records = self.named.list(alloc, names)?;
        is_outcome(outcome(alloc, kind, &records)?, wanted)
    }
}

// Returns whether the records of a node of this kind replay, and why not.
fn outcome(alloc: Global, kind: &str, records: &[Blob]) -> Result<Result<(), OpenFault>, RowFault> {
    match kind {
        "catalogue" => Ok(replays(alloc, CataloguePart::empty(alloc, NodeId(0)), records)),
        "shard" => Ok(replays(alloc, ShardPart::empty(alloc, NodeId(1)), records)),
        "router" => Ok(replays(alloc, RouterPart::empty(NodeId(2), 1), records)),
        _ => Err(RowFault::Form),
    }
}

fn replays<R: Replays>(alloc: Global, empty: R, records: &[Blob]) -> Result<(), OpenFault>
    requires { R.time empty ≡ 0 }
{
    match replay(alloc, empty, records) {
        Ok(_) => Ok(()),
        Err(fault) => Err(fault),
    }
}

fn is_outcome(outcome: Result<(), OpenFault>, wanted: &str) -> Result<bool, RowFault> {
    match outcome {
        Ok(()) => Ok(wanted == "replays"),
        Err(OpenFault::Refused { index }) => is_refused(index, wanted),
        Err(OpenFault::Memory) => Err(RowFault::Memory),
    }
}

fn is_refused(index: usize, wanted: &str) -> Result<bool, RowFault> {
    match wanted.split_once(' ') {
        Some(("refused", place)) => Ok(number::<usize>(place)? == index),
        _ => Ok(false),
    }
}
