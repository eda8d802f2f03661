//! The durable part of a router.

ghost use Rattle.std.specs.Prelude.{◌≡◌, ◌≤◌, ◌^◌, IfOk};
ghost use Rattle.node_replay.specs.Durable.{empty_router};
ghost use Rattle.node_replay.specs.Follow.{router_follow};
ghost use Rattle.record_model.specs.Records.{block_record, life_record};

use crate::kind::{RouterRecord, kind_of};
use bson_values::Memory;
use cluster_base::NodeId;
use journal_replay::Replays;
use shard_records::Record;

/// This number of blocks is never written.
const MOST_BLOCKS: u64 = 1 << 56;

/// What the journal of a router says of it.
#[derive(Clone, Copy, Debug)]
pub struct RouterPart {
    me: NodeId,
    // How many shards it knows of; no record says it.
    shards: u32,
    // The life that it will begin.
    life: u64,
    // How many blocks of cursor numbers it wrote.
    blocks: u64,
    ghost few: { blocks ≤ 2 ^ 56 },
}

// Lets a record go that was read, and returns what came of it.
fn without<T: Drop>(_read: T, outcome: Result<bool, Memory>) -> Result<bool, Memory>
    ensures { result ≡ outcome }
{
    outcome
}

impl RouterPart {
    ghost use Rattle.router_replay.specs.RouterParts.{Leads, part_of};

    /// Returns what an empty journal says of the router of this number, in a cluster with this number of shards.
    pub fn empty(me: NodeId, shards: u32) -> RouterPart
        ensures { part_of result ≡ empty_router me.0 shards }
    {
        RouterPart {
            me,
            shards,
            life: 1,
            blocks: 0,
        }
    }

    /// Returns the number of the node.
    pub fn me(&self) -> NodeId
        ensures { result.0 ≡ (part_of self.now).me }
    {
        self.me
    }

    /// Returns how many shards the router knows of.
    pub fn shards(&self) -> u32
        ensures { result ≡ (part_of self.now).shards }
    {
        self.shards
    }

    /// Returns the life that the router will begin.
    pub fn life(&self) -> u64
        ensures { result ≡ (part_of self.now).life }
    {
        self.life
    }

    /// Returns how many blocks of cursor numbers were written.
    pub fn blocks(&self) -> u64
        ensures blocks { result ≡ (part_of self.now).blocks }
        ensures few { result ≤ 2 ^ 56 }
    {
        self.blocks
    }

    // Adds a life, and returns whether it may follow. Returns `Memory` where lives are exhausted.
    fn follow_life(&mut self, life: u64) -> Result<bool, Memory>
        ensures { IfOk result (λ b. Leads (router_follow (part_of self.old) (life_record life)) (part_of self.new) b) }
    {
        if life != self.life {
            return Ok(false);
        }
        self.life = life.checked_add(1).ok_or(Memory)?;
        Ok(true)
    }

    // Adds a block of cursor numbers, and returns whether it may follow. Returns `Memory` where blocks are exhausted.
    fn follow_block(&mut self, block: u64) -> Result<bool, Memory>
        ensures { IfOk result (λ b. Leads (router_follow (part_of self.old) (block_record block)) (part_of self.new) b) }
    {
        if self.life <= 1 || block != self.blocks {
            return Ok(false);
        }
        if block >= MOST_BLOCKS {
            return Err(Memory);
        }
        self.blocks = block + 1;
        Ok(true)
    }
}

impl Replays for RouterPart {
    ghost use Rattle.router_replay.specs.RouterParts.{part_of};
    ghost use Rattle.node_replay.specs.Durable.{durable_router};

    ghost durable = { λ part. durable_router (part_of part) };

    ghost time = { λ part. 0 };

    fn follow(&mut self, next: Record) -> Result<bool, Memory> {
        let outcome = match kind_of(&next) {
            RouterRecord::Life(life) => self.follow_life(life),
            RouterRecord::Block(block) => self.follow_block(block),
            RouterRecord::Other => Ok(false),
        };
        without(next, outcome)
    }
}
