//! Statements that are sent to a shard together.

ghost use Rattle.std.specs.Prelude.{◌≡◌, ◌++◌, IfOk, OnOk};
ghost use Rattle.node_model.specs.RouterRequests.{first_index};
ghost use Rattle.write_runs.specs.Runs.{run_view, runs_view};

use bson_values::Memory;
use chunk_table::Sent;
use cluster_base::NodeId;
use std::alloc::Global;

/// Statements of a write that were sent to a shard together.
#[derive(Drop)]
pub struct Run {
    /// The shard that they were sent to.
    pub shard: NodeId,
    /// The versions that were sent along.
    pub sent: Sent,
    /// The indices of those that are not answered.
    pub indices: Vec<u32>,
}

impl Run {
    /// Returns the index of its first statement.
    pub fn first(&self) -> u32
        ensures { result ≡ first_index self.now.indices.items }
    {
        match self.indices.first() {
            Some(index) => *index,
            None => 0,
        }
    }

    /// Returns a copy, or `Memory` if memory runs out.
    pub fn copy(&self) -> Result<Run, Memory>
        ensures { IfOk result (λ run. run_view run ≡ run_view self.now) }
    {
        let indices = Vec::from_slice(*self.indices.allocator(), self.indices.as_slice())?;
        Ok(Run {
            shard: self.shard,
            sent: self.sent,
            indices,
        })
    }
}

/// Returns copies of these runs, in order, or `Memory` if memory runs out.
pub fn copies_of(alloc: Global, runs: &[Run]) -> Result<Vec<Run>, Memory>
    ensures { IfOk result (λ list. runs_view list.items ≡ runs_view runs.now) }
{
    let mut list = Vec::with_capacity(alloc, runs.len())?;
    for run in runs {
        list.push(run.copy()?)?;
    }
    Ok(list)
}

/// Appends runs to a list, in order. Returns `Memory` if memory runs out.
#[tactic(auto, using(crate::proofs::Views::views_appended))]
pub fn add_runs(list: &mut Vec<Run>, more: Vec<Run>) -> Result<(), Memory>
    ensures { OnOk result (runs_view list.new.items ≡ runs_view list.old.items ++ runs_view more.items) }
{
    let mut more = more;
    list.append(&mut more)?;
    Ok(())
}
