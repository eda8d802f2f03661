//! What opens the nodes of the cluster again.

ghost use Rattle.std.specs.Prelude.{◌≡◌, ℕ, ◌-◌, ◌≤◌, IfErr, IfOk, IsTrue, OnOk};
ghost use Rattle.outside.specs.Causes.{Rose};
ghost use Rattle.outside.specs.Logs.{ByFault};
ghost use Rattle.any_node.specs.Kinds.{state_of};
ghost use Rattle.driver_steps.specs.Restarts.{IsOpenedAs, IsReread};
ghost use Rattle.journal_frames.specs.Views.{journal_facts};
ghost use Rattle.journal_starts.specs.Records.{part_at};

use any_node::AnyNode;
use bson_values::Memory;
use driver_steps::Opens;
use journal_frames::Journal;
use node_open::open_node;
use outside::disk::Disk;
use outside::log::{LogFault, RecordList};
use std::alloc::Global;

/// Opens nodes of a cluster with this number of shards.
#[derive(Drop)]
pub(crate) struct Opener {
    pub shards: u32,
}

impl<D: Disk> Opens<AnyNode, Journal<D>> for Opener {
    ghost part = { λ o at. part_at (o.shards - 1) at };

    fn reopen(&self, log: &mut Journal<D>) -> Result<RecordList, LogFault> {
        match log.reopen() {
            Ok(records) => Ok(records),
            Err(e) => Err(e),
        }
    }

    fn node(&self, alloc: Global, at: usize, records: RecordList) -> Result<AnyNode, Memory> {
        let Ok(me) = u32::try_from(at) else {
            return Err(Memory);
        };
        if self.shards == 0 {
            return Err(Memory);
        }
        match open_node(alloc, self.shards, me, records) {
            Ok(node) => Ok(node),
            Err(_) => Err(Memory),
        }
    }
}
