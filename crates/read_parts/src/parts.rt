//! To which shards a read was sent, and which of them returned their parts.

ghost use Rattle.std.specs.Prelude.{◌≡◌, ◌≢◌, [], Result, false, true, is_some, map};
ghost use Rattle.node_model.specs.Letters as letters;
ghost use Rattle.node_model.specs.RouterNext as nexts;
ghost use Rattle.pipeline_model.specs.Halves as halves;
ghost use Rattle.read_parts.specs.Parts.{part_view, target_view};

use chunk_table::Sent;
use cluster_base::NodeId;
use pipeline_eval::Rows;
use protocol_model::HalfFault;

/// A shard that a read was sent to, with the versions that were sent along.
#[derive(Clone, Copy, Debug, PartialEq, Eq)]
pub struct Target {
    pub shard: NodeId,
    pub sent: Sent,
}

/// What a shard returned for a read: its rows, or why there are none.
#[derive(Drop)]
pub struct Part {
    pub shard: NodeId,
    pub rows: Result<Rows, HalfFault>,
}

/// Returns whether a read was sent to a shard.
pub fn is_target(shard: NodeId, targets: &[Target]) -> bool
    ensures { result ≡ nexts.is_target shard.0 (map target_view targets.now) }
{
    for target in targets {
        if target.shard.0 == shard.0 {
            return true;
        }
    }
    false
}

/// Returns whether a shard returned its part.
pub fn has_part(shard: NodeId, parts: &[Part]) -> bool
    ensures { result ≡ is_some (nexts.part_of shard.0 (map part_view parts.now)) }
{
    for part in parts {
        if part.shard.0 == shard.0 {
            return true;
        }
    }
    false
}

/// Returns whether a shard that a read was sent to returned its part, or is the one that returns it now.
#[tactic(auto, using(crate::proofs::Come::has_come))]
fn has_come(target: &Target, parts: &[Part], sender: NodeId) -> bool
    ensures { (told : Result halves.Rows letters.HalfFault) →
        result ≡ is_some (nexts.part_of target.now.shard.0 (nexts.also_part (map part_view parts.now) sender.0 told)) }
{
    sender.0 == target.shard.0 || has_part(target.shard, parts)
}

/// Returns whether all shards that a read was sent to have returned their parts, where this one returns its part now.
pub fn have_all_come(targets: &[Target], parts: &[Part], sender: NodeId) -> bool
    ensures all { (told : Result halves.Rows letters.HalfFault) → result ≡ true →
        nexts.awaited (map target_view targets.now) (nexts.also_part (map part_view parts.now) sender.0 told) ≡ [] }
    ensures some { (told : Result halves.Rows letters.HalfFault) → result ≡ false →
        nexts.awaited (map target_view targets.now) (nexts.also_part (map part_view parts.now) sender.0 told) ≢ [] }
{
    for target in targets {
        if !has_come(target, parts, sender) {
            return false;
        }
    }
    true
}
