//! The rows of all parts of a read.

ghost use Rattle.std.specs.Prelude.{◌≡◌, List, map};
ghost use Rattle.std.specs.Option.{option_map};
ghost use Rattle.node_model.specs.RouterNext as nexts;
ghost use Rattle.node_model.specs.RouterRows as rows;
ghost use Rattle.node_model.specs.States as states;
ghost use Rattle.protocol_model.specs.Bodies.{half_fault_view, rows_view};
ghost use Rattle.read_parts.specs.Parts.{IsFaultOf, IsGathered, alone, part_view, target_view};

use crate::parts::{Part, Target};
use cluster_base::NodeId;
use pipeline_eval::{EvalFault, Rows};
use protocol_model::HalfFault;
use std::alloc::Global;

/// Returns what a shard returned, if it did.
fn part_of(shard: NodeId, parts: &[Part]) -> Option<&Result<Rows, HalfFault>>
    ensures { option_map (λ r. rows_view r.now) result ≡ nexts.part_of shard.0 (map part_view parts.now) }
{
    for part in parts {
        if part.shard.0 == shard.0 {
            return Some(&part.rows);
        }
    }
    None
}

/// Returns what a shard returned, if it did, where a sender returns its part now: what it returned first counts.
#[tactic(auto, using(crate::proofs::Come::first_counts, crate::proofs::Come::comes_now, crate::proofs::Come::comes_not))]
fn part_among<'a>(
    shard: NodeId,
    parts: &'a [Part],
    sender: NodeId,
    told: &'a Result<Rows, HalfFault>,
) -> Option<&'a Result<Rows, HalfFault>>
    ensures { option_map (λ r. rows_view r.now) result ≡ nexts.part_of shard.0 (nexts.also_part (map part_view parts.now) sender.0 (rows_view told.now)) }
{
    match part_of(shard, parts) {
        Some(rows) => Some(rows),
        None => {
            if sender.0 == shard.0 {
                Some(told)
            } else {
                None
            }
        }
    }
}

/// Returns why a read has no rows, where a half has none.
fn fault_of(fault: HalfFault) -> EvalFault
    ensures { IsFaultOf (half_fault_view fault) result }
{
    match fault {
        HalfFault::Overflow => EvalFault::Overflow,
        HalfFault::TooMuch { bytes } => EvalFault::TooMuch { bytes },
    }
}

/// Returns the rows of the only part of a read.
#[tactic(auto, using(crate::proofs::Gathered::fault_gathered))]
fn gather_one(alloc: Global, told: Result<Rows, HalfFault>) -> Result<Vec<Rows>, EvalFault>
    ensures { (targets : List states.Target) (parts : List states.Part) → nexts.rows_of targets parts ≡ alone (rows_view told) →
        IsGathered targets parts result }
{
    let mut all = Vec::new(alloc);
    match told {
        Ok(rows) => {
            all.push(rows)?;
            Ok(all)
        }
        Err(fault) => Err(fault_of(fault)),
    }
}

/// Returns copies of the rows of all parts of a read, which share the documents.
fn gather_all(
    alloc: Global,
    targets: &[Target],
    parts: &[Part],
    sender: NodeId,
    told: &Result<Rows, HalfFault>,
) -> Result<Vec<Rows>, EvalFault>
    ensures { IsGathered (map target_view targets.now) (nexts.also_part (map part_view parts.now) sender.0 (rows_view told.now)) result }
{
    let mut all = Vec::with_capacity(alloc, targets.len())?;
    for target in targets {
        match part_among(target.shard, parts, sender, told) {
            Some(Ok(rows)) => all.push(rows.copy(alloc)?)?,
            Some(Err(fault)) => return Err(fault_of(*fault)),
            None => {}
        }
    }
    Ok(all)
}

/// Returns the rows of all parts of a read that was sent to these shards, in their order, where a sender returns its part now; or why the first that has no
/// rows has none. What the sender returned is moved where it is the only part; otherwise the rows are copied, and share their documents.
#[tactic(auto, using(crate::proofs::Gathered::only_gathered))]
pub fn gather(
    alloc: Global,
    targets: &[Target],
    parts: &[Part],
    sender: NodeId,
    told: Result<Rows, HalfFault>,
) -> Result<Vec<Rows>, EvalFault>
    ensures { IsGathered (map target_view targets.now) (nexts.also_part (map part_view parts.now) sender.0 (rows_view told)) result }
{
    if let [target] = targets
        && parts.is_empty()
        && target.shard.0 == sender.0
    {
        return gather_one(alloc, told);
    }
    gather_all(alloc, targets, parts, sender, &told)
}
