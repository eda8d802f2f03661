//! The durable part of a shard.

ghost use Rattle.std.specs.Prelude.{◌≡◌, ◌≤◌, IfOk, Ok, false, max};
ghost use Rattle.chunk_model.specs.Tables.{table_of};
ghost use Rattle.node_model.specs.ShardRows as rows;
ghost use Rattle.node_replay.specs.Durable.{empty_shard};
ghost use Rattle.node_replay.specs.Follow.{has_table, shard_follow};
ghost use Rattle.node_replay.specs.Replays as replays;
ghost use Rattle.record_model.specs.Records.{ceiling_record, entry_record, table_record};
ghost use Rattle.shard_store.specs.Stores.{last_of, shard_of};

use crate::kind::{EntryRecord, ShardRecord, kind_of};
use crate::latest::latest_in_table;
use crate::same::same_reply;
use bson_values::Memory;
use chunk_table::Table;
use cluster_base::{NodeId, Time};
use journal_replay::Replays;
use route_cache::RouteCache;
use shard_records::Record;
use shard_store::ShardStore;
use std::alloc::Global;
use std::sync::Arc;

/// What the journal of a shard says of it.
#[derive(Drop)]
pub struct ShardPart {
    alloc: Global,
    me: NodeId,
    // The greatest time in the journal.
    time: Time,
    // The greatest time of an entry and of a time at which the shard was read.
    top: Time,
    // Whether there is a table.
    learned: bool,
    tables: RouteCache,
    store: ShardStore,
    ghost own: { shard_of store ≡ me.0 },
    ghost entered: { last_of store ≤ top.0 },
    ghost late: { top.0 ≤ time.0 },
    ghost has: { learned ≡ has_table tables.tables },
}

/// The parts of what a journal says of a shard.
#[derive(Drop)]
pub struct ShardParts {
    pub me: NodeId,
    /// The greatest time in the journal.
    pub time: Time,
    pub tables: RouteCache,
    pub store: ShardStore,
    /// The greatest time of an entry and of a time at which the shard was read.
    pub ceiling: Time,
}

// Lets a record go that may not follow.
fn refused<T: Drop>(_read: T) -> Result<bool, Memory>
    ensures { result ≡ Ok false }
{
    Ok(false)
}

impl ShardPart {
    ghost use Rattle.shard_store.specs.Stores.{entries_of};
    ghost use Rattle.shard_replay.specs.ShardParts.{Leads, part_of, time_of, words_of};

    /// Returns what an empty journal says of the shard of this number.
    pub fn empty(alloc: Global, me: NodeId) -> ShardPart
        ensures part { part_of result ≡ empty_shard me.0 }
        ensures time { time_of result ≡ 0 }
    {
        ShardPart {
            alloc,
            me,
            time: Time(0),
            top: Time(0),
            learned: false,
            tables: RouteCache::new(alloc),
            store: ShardStore::new(alloc, me),
        }
    }

    /// Returns its parts: the number of the node, the greatest time in the journal, the tables, the store, and the ceiling.
    pub fn into_parts(self) -> ShardParts
        ensures part { part_of self ≡ record { me = result.me.0; top = result.ceiling.0; tables = result.tables.tables; entries = entries_of result.store } }
        ensures time { result.time.0 ≡ time_of self }
        ensures own { shard_of result.store ≡ result.me.0 }
        ensures entered { last_of result.store ≤ result.time.0 }
    {
        ShardParts {
            me: self.me,
            time: self.time,
            tables: self.tables,
            store: self.store,
            ceiling: self.top,
        }
    }

    // Returns whether a table is new: there is none of its collection, or it has seen more changes.
    fn is_news(&self, table: &Table) -> bool
        ensures { result ≡ rows.is_news table.now (table_of table.now.namespace (part_of self.now).tables) }
    {
        match self.tables.get(table.namespace()) {
            Some(known) => table.longer_than(known),
            None => true,
        }
    }

    // Adds a table, and returns whether it may follow. Returns `Memory` if memory runs out.
    fn follow_table(&mut self, table: Table) -> Result<bool, Memory>
        ensures { IfOk result (λ b. Leads (shard_follow (part_of self.old) (table_record table)) (max (time_of self.old) (replays.latest_in_table table))
            (part_of self.new) (time_of self.new) b) }
    {
        if !self.is_news(&table) {
            return refused(table);
        }
        let latest = latest_in_table(&table);
        self.tables.reserve()?;
        let table = Arc::new(self.alloc, table)?;
        self.tables.adopt(table);
        self.learned = true;
        self.time = self.time.max(latest);
        Ok(true)
    }

    // Adds a time at which the shard was read, and returns whether it may follow.
    fn follow_ceiling(&mut self, time: Time) -> bool
        ensures { Leads (shard_follow (part_of self.old) (ceiling_record time.0)) (max (time_of self.old) time.0) (part_of self.new) (time_of self.new) result }
    {
        if time <= self.top || !self.learned {
            return false;
        }
        self.top = time;
        self.time = self.time.max(time);
        true
    }

    // Adds an entry, and returns whether it may follow: its outcome is computed as it was when it was made. Returns `Memory` if memory runs out, and where its
    // operands are none that can be stored.
    fn follow_entry(&mut self, entry: EntryRecord) -> Result<bool, Memory>
        ensures { IfOk result (λ b. Leads (shard_follow (part_of self.old) (entry_record (words_of entry))) (max (time_of self.old) entry.time.0)
            (part_of self.new) (time_of self.new) b) }
    {
        let EntryRecord {
            time,
            namespace,
            statement,
            op,
            reply,
        } = entry;
        if time <= self.top || self.tables.get(&namespace).is_none() {
            return refused((namespace, op, reply));
        }
        let words = Arc::new(self.alloc, op)?;
        let planned = self
            .store
            .plan_again(self.alloc, &namespace, statement, time, &words)?;
        match planned {
            Some(planned) => {
                if !same_reply(planned.outcome.reply(), &reply) {
                    return refused((namespace, planned, reply));
                }
                self.store.make(&namespace, planned)?;
                self.top = time;
                self.time = self.time.max(time);
                Ok(true)
            }
            None => Ok(false),
        }
    }
}

impl Replays for ShardPart {
    ghost use Rattle.shard_replay.specs.ShardParts.{part_of, time_of};
    ghost use Rattle.node_replay.specs.Durable.{durable_shard};

    ghost durable = { λ part. durable_shard (part_of part) };

    ghost time = { time_of };

    fn follow(&mut self, next: Record) -> Result<bool, Memory> {
        match kind_of(next) {
            ShardRecord::Table(table) => self.follow_table(table),
            ShardRecord::Entry(entry) => self.follow_entry(entry),
            ShardRecord::Ceiling(time) => Ok(self.follow_ceiling(time)),
            ShardRecord::Other => Ok(false),
        }
    }
}
