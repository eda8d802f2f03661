//! Work that begins.

use crate::asker::Asker;
use crate::read::OpenRead;
use crate::reads::{Sends, has_come};
use crate::work::{Wait, Work};
use crate::writes::WriteNext;
use bson_values::Memory;
use chunk_table::Table;
use cluster_base::{Namespace, Time};
use protocol_model::Message;
use std::alloc::Global;
use write_runs::copies_of;

/// What becomes of work that begins.
#[derive(Drop)]
pub enum Begun {
    /// It waits for this.
    Waits(Sends),
    /// It is a write.
    Writes(WriteNext),
}

impl Asker {
    ghost use Rattle.std.specs.Prelude.{◌≡◌, ◌∷◌, [], IfOk};
    ghost use Rattle.std.specs.Option.{option_map};
    ghost use Rattle.node_model.specs.RouterRequests as requested;
    ghost use Rattle.node_model.specs.RouterNext as nexts;
    ghost use Rattle.node_model.specs.States as states;
    ghost use Rattle.protocol_model.specs.Messages.{letter_of};
    ghost use Rattle.router_requests.specs.Askers.{asker_view};
    ghost use Rattle.router_requests.specs.Nexts.{begins_by, begun_next, read_next};
    ghost use Rattle.router_requests.specs.Works.{read_view, work_view};

    // Returns how a read begins: where its time is ahead, the time of each shard is requested. Returns `Memory` if memory runs out.
    fn begins_reading(
        self,
        alloc: Global,
        time: Time,
        count: u64,
        namespace: &Namespace,
        table: Option<&Table>,
        read: &OpenRead,
    ) -> Result<Sends, Memory>
        ensures { (q : states.Open) → q.count ≡ count → q.namespace ≡ namespace.now → q.tries ≡ [] →
            IfOk result (λ s. begins_by (asker_view self) time.0 (option_map (λ t. t.now) table.entry) q (read_view read.now)
            ≡ read_next q (read_view read.now) s) }
    {
        if has_come(read.at, time) {
            return self.read_on(
                alloc,
                time,
                count,
                namespace,
                table,
                true,
                read,
                read.at,
                &[],
            );
        }
        Ok(Sends {
            wait: Wait::ForTime,
            targets: Vec::new(alloc),
            mail: self.asks_times(alloc, time, count, &[])?,
        })
    }

    // Returns how work begins that sends this message to the catalogue. Returns `Memory` if memory runs out.
    fn begins_asking(self, alloc: Global, letter: Message) -> Result<Sends, Memory>
        ensures { (q : states.Open) (work : states.Work) →
            IfOk result (λ s. nexts.stays (nexts.with_work q states.for_catalogue [] work) (letter_of letter ∷ [])
            ≡ read_next q work s) }
    {
        let mut mail = Vec::new(alloc);
        mail.push(letter)?;
        Ok(Sends {
            wait: Wait::ForCatalogue,
            targets: Vec::new(alloc),
            mail,
        })
    }

    /// Returns what becomes of work that begins, by the table of its collection, if one is known. Returns `Memory` if memory runs out, and where the answer
    /// to a write is longer than allowed.
    pub fn begins_work(
        self,
        alloc: Global,
        time: Time,
        count: u64,
        namespace: &Namespace,
        table: Option<&Table>,
        work: &Work,
    ) -> Result<Begun, Memory>
        ensures { (q : states.Open) → q.count ≡ count → q.namespace ≡ namespace.now → q.tries ≡ [] →
            IfOk result (λ next. begins_by (asker_view self) time.0 (option_map (λ t. t.now) table.entry) q
            (work_view (requested.id_of (asker_view self) count) work.now)
            ≡ begun_next (asker_view self) time.0 q (work_view (requested.id_of (asker_view self) count) work.now) next) }
    {
        match work {
            Work::Writing(write) => {
                let runs = copies_of(alloc, &write.runs)?;
                let next = self.write_on(
                    alloc,
                    time,
                    count,
                    namespace,
                    table,
                    true,
                    &[],
                    write,
                    &write.answers,
                    &write.tries,
                    runs,
                )?;
                Ok(Begun::Writes(next))
            }
            Work::Reading(read) => {
                let sends = self.begins_reading(alloc, time, count, namespace, table, read)?;
                Ok(Begun::Waits(sends))
            }
            Work::Sharding => {
                let letter = self.asks_to_begin(time, namespace)?;
                Ok(Begun::Waits(self.begins_asking(alloc, letter)?))
            }
            Work::Splitting(middle) => {
                let letter = self.asks_split(time, count, namespace, middle)?;
                Ok(Begun::Waits(self.begins_asking(alloc, letter)?))
            }
        }
    }
}
