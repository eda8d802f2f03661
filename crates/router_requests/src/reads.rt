//! What becomes of open reads.

ghost use Rattle.std.specs.Prelude.{◌≡◌, ◌≤◌, ◌<◌, true, false};

use crate::asker::Asker;
use crate::read::OpenRead;
use crate::work::Wait;
use bson_values::Memory;
use chunk_table::Table;
use cluster_base::{Namespace, Time};
use protocol_model::{Message, Try};
use read_parts::{Target, is_owned, targets_of};
use std::alloc::Global;
use write_runs::{reaches, turn_after};

/// What a request waits for, the shards that it is sent to, and the messages.
#[derive(Drop)]
pub struct Sends {
    pub wait: Wait,
    pub targets: Vec<Target>,
    pub mail: Vec<Message>,
}

/// Returns whether a time is at most another.
pub fn has_come(at: Time, time: Time) -> bool
    ensures come { result ≡ true → at.0 ≤ time.0 }
    ensures ahead { result ≡ false → time.0 < at.0 }
{
    at.0 <= time.0
}

impl Asker {
    ghost use Rattle.std.specs.Prelude.{◌≡◌, Bool, IfOk, List, None, Option, Some, true, map};
    ghost use Rattle.std.specs.Option.{option_map};
    ghost use Rattle.chunk_model.specs.Tables as tables;
    ghost use Rattle.node_model.specs.RouterRequests as requested;
    ghost use Rattle.node_model.specs.States as states;
    ghost use Rattle.router_requests.specs.Askers.{asker_view};
    ghost use Rattle.router_requests.specs.Nexts.{read_by, read_next};
    ghost use Rattle.router_requests.specs.Works.{read_at, stages_of, telling_view};
    ghost use Rattle.write_runs.specs.Runs.{tries_view};

    // Returns how a read at a time goes on, after these tries, by a table that is enough: it is sent to each owner of its span. Returns `Memory` if memory runs
    // out.
    fn reads_by(
        self,
        alloc: Global,
        time: Time,
        count: u64,
        namespace: &Namespace,
        read: &OpenRead,
        at: Time,
        tries: &[Try],
        table: &Table,
    ) -> Result<Sends, Memory>
        requires reaches { requested.reaches table.now (tries_view tries.now) ≡ true }
        requires owned { requested.is_owned_at table.now at.0 ≡ true }
        ensures { (q : states.Open) (asks : Bool) → q.count ≡ count → q.namespace ≡ namespace.now → q.tries ≡ tries_view tries.now →
            IfOk result (λ s. read_by (asker_view self) time.0 (Some table.now) asks q read.now.named at.0 (stages_of read.now.parts)
            (telling_view read.now.telling) ≡ read_next q (read_at read.now at.0) s) }
    {
        let half = read.parts.half();
        let targets = targets_of(alloc, table, at, half)?;
        let turn = turn_after(tries)?;
        let mail = self.asks_to_read(alloc, time, count, namespace, turn, at, half, &targets, &[])?;
        Ok(Sends {
            wait: Wait::ForShards,
            targets,
            mail,
        })
    }

    // Returns how a read at a time goes on where no table is enough: the catalogue is asked if `asks`. Returns `Memory` if memory runs out.
    fn reads_without(
        self,
        alloc: Global,
        time: Time,
        namespace: &Namespace,
        asks: bool,
        read: &OpenRead,
        at: Time,
    ) -> Result<Sends, Memory>
        ensures { (q : states.Open) (known : Option tables.Table) → requested.table_to_read known at.0 q.tries ≡ None → q.namespace ≡ namespace.now →
            IfOk result (λ s. read_by (asker_view self) time.0 known asks q read.now.named at.0 (stages_of read.now.parts)
            (telling_view read.now.telling) ≡ read_next q (read_at read.now at.0) s) }
    {
        let mut mail = Vec::new(alloc);
        if asks {
            mail.push(self.asks_table_at(time, namespace, at)?)?;
        }
        Ok(Sends {
            wait: Wait::ForCatalogue,
            targets: Vec::new(alloc),
            mail,
        })
    }

    /// Returns how a read at a time goes on, after these tries, by the table of its collection, if one is known: it is sent to each owner of its span; or,
    /// where the table does not say of each key who owned it then, or is older than what the last try met, the catalogue is asked if `asks`. Returns `Memory` if
    /// memory runs out.
    pub fn read_on(
        self,
        alloc: Global,
        time: Time,
        count: u64,
        namespace: &Namespace,
        table: Option<&Table>,
        asks: bool,
        read: &OpenRead,
        at: Time,
        tries: &[Try],
    ) -> Result<Sends, Memory>
        ensures { (q : states.Open) → q.count ≡ count → q.namespace ≡ namespace.now → q.tries ≡ tries_view tries.now →
            IfOk result (λ s. read_by (asker_view self) time.0 (option_map (λ t. t.now) table.entry) asks q read.now.named at.0
            (stages_of read.now.parts) (telling_view read.now.telling) ≡ read_next q (read_at read.now at.0) s) }
    {
        let Some(table) = table else {
            return self.reads_without(alloc, time, namespace, asks, read, at);
        };
        if reaches(table, tries) && is_owned(table, at) {
            self.reads_by(alloc, time, count, namespace, read, at, tries, table)
        } else {
            self.reads_without(alloc, time, namespace, asks, read, at)
        }
    }
}
