//! Reads that are not answered yet.

ghost use Rattle.std.specs.Prelude.{◌≡◌};
ghost use Rattle.std.specs.Arc.{arc_value};
ghost use Rattle.std.specs.Coded.{Coded-set};
ghost use Rattle.pipeline_model.specs.Split.{split};
ghost use Rattle.router_requests.specs.Code.{half_code, merge_code};
ghost use Rattle.pipeline_lang.specs.Halves.{half_of, merge_of};

use bson_values::Memory;
use cluster_base::Time;
use pipeline_lang::{Half, Merge, Pipeline};
use pipeline_split::split;
use std::alloc::Global;
use std::sync::Arc;

/// A pipeline with the parts that it is split into.
#[derive(Drop)]
pub struct Parts {
    pub(crate) pipeline: Pipeline,
    pub(crate) half: Arc<Half, Global>,
    pub(crate) merge: Merge,
    ghost first: { half_of (arc_value half) ≡ (split pipeline).0 } by { Coded-set half_code (half_of (arc_value half)) (split pipeline).0 },
    ghost second: { merge_of merge ≡ (split pipeline).1 } by { Coded-set merge_code (merge_of merge) (split pipeline).1 },
}

impl Parts {
    ghost use Rattle.std.specs.Prelude.{◌≡◌, IfOk};
    ghost use Rattle.std.specs.Arc.{arc_value};
    ghost use Rattle.pipeline_model.specs.Split.{split};
    ghost use Rattle.pipeline_lang.specs.Halves.{half_of, merge_of};
    ghost use Rattle.router_requests.specs.Works.{stages_of};

    /// Returns a pipeline with its parts, or `Memory` if memory runs out.
    pub fn of(alloc: Global, pipeline: Pipeline) -> Result<Parts, Memory>
        ensures { IfOk result (λ parts. stages_of parts ≡ pipeline) }
    {
        let (half, merge) = split(alloc, &pipeline)?;
        let half = Arc::new(alloc, half)?;
        Ok(Parts {
            pipeline,
            half,
            merge,
        })
    }

    /// Returns what each shard makes of its documents.
    pub fn half(&self) -> &Arc<Half, Global>
        ensures { half_of (arc_value result.now) ≡ (split (stages_of self.now)).0 }
    {
        &self.half
    }

    /// Returns how the shards' rows are merged.
    pub fn merge(&self) -> &Merge
        ensures { merge_of result.now ≡ (split (stages_of self.now)).1 }
    {
        &self.merge
    }
}

/// How the result of a read is returned.
#[derive(Clone, Copy, Debug, PartialEq, Eq)]
pub enum Telling {
    /// In batches, of which the first has so many documents at most, and is the only one where `single`.
    Batches { size: u64, single: bool },
    /// As the number of documents.
    Number,
}

/// A read that is not answered yet.
#[derive(Drop)]
pub struct OpenRead {
    /// Whether its time was named.
    pub named: bool,
    /// The time that it reads at.
    pub at: Time,
    /// What it makes of the documents.
    pub parts: Parts,
    pub telling: Telling,
}

impl OpenRead {
    ghost use Rattle.std.specs.Prelude.{◌≡◌, ◌≤◌};
    ghost use Rattle.node_model.specs.RouterRequests as requested;
    ghost use Rattle.router_requests.specs.Works.{read_at, read_view};

    /// Returns the time that it reads at, where the router's has come to this: its own, where that was named.
    pub fn at_reached(&self, time: Time) -> Time
        ensures read { read_at self.now result.0 ≡ requested.reached time.0 (read_view self.now) }
        ensures come { self.now.at.0 ≤ time.0 → result.0 ≤ time.0 }
    {
        if self.named { self.at } else { time }
    }

    // Is of this time now, unless one was named.
    pub(crate) fn reach(&mut self, time: Time)
        ensures { read_view self.new ≡ requested.reached time.0 (read_view self.old) }
    {
        self.at = self.at_reached(time);
    }
}
