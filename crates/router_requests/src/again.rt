//! What an open request sends again.

use crate::asker::Asker;
use crate::mail::list_of;
use crate::read::OpenRead;
use crate::work::{OpenRequest, Wait, Work};
use crate::write::OpenWrite;
use bson_values::Memory;
use cluster_base::Time;
use protocol_model::Message;
use std::alloc::Global;
use write_runs::turn_after;

impl Asker {
    ghost use Rattle.std.specs.Prelude.{◌≡◌, IfOk, map};
    ghost use Rattle.node_model.specs.RouterRequests as requested;
    ghost use Rattle.node_model.specs.RouterNext as nexts;
    ghost use Rattle.protocol_model.specs.Messages.{letter_of};
    ghost use Rattle.router_requests.specs.Askers.{asker_view};
    ghost use Rattle.router_requests.specs.Works.{open_view, read_view, write_view};

    // Returns the messages that an open write sends again: what was sent to shards, and what the catalogue was asked. Returns `Memory` if memory runs out.
    fn writes_again(
        self,
        alloc: Global,
        time: Time,
        request: &OpenRequest,
        write: &OpenWrite,
    ) -> Result<Vec<Message>, Memory>
        requires { (open_view (asker_view self).me (asker_view self).life request.now).work
            ≡ write_view (requested.id_of (asker_view self) request.now.count) write.now }
        ensures { IfOk result (λ asks. map (λ m. letter_of m) asks.items
            ≡ nexts.asks_again (asker_view self) time.0 (open_view (asker_view self).me (asker_view self).life request.now)) }
    {
        let mut asks = Vec::new(alloc);
        let count = request.count;
        let namespace = &request.namespace;
        if request.wait == Wait::ForCatalogue {
            asks.push(self.asks_to_begin(time, namespace)?)?;
        }
        self.add_runs_asked(
            alloc,
            &mut asks,
            time,
            count,
            namespace,
            write,
            &write.tries,
            &write.runs,
        )?;
        Ok(asks)
    }

    // Returns the messages that an open read sends again for what it waits for: to the shards that have not returned their parts. Returns `Memory` if memory
    // runs out.
    fn reads_again(
        self,
        alloc: Global,
        time: Time,
        request: &OpenRequest,
        read: &OpenRead,
    ) -> Result<Vec<Message>, Memory>
        requires { (open_view (asker_view self).me (asker_view self).life request.now).work ≡ read_view read.now }
        ensures { IfOk result (λ asks. map (λ m. letter_of m) asks.items
            ≡ nexts.asks_again (asker_view self) time.0 (open_view (asker_view self).me (asker_view self).life request.now)) }
    {
        let count = request.count;
        let namespace = &request.namespace;
        match request.wait {
            Wait::ForTime => self.asks_times(alloc, time, count, &request.told),
            Wait::ForCatalogue => {
                let letter = self.asks_table_at(time, namespace, read.at)?;
                list_of(alloc, Some(letter))
            }
            Wait::ForShards => self.asks_to_read(
                alloc,
                time,
                count,
                namespace,
                turn_after(&request.tries)?,
                read.at,
                read.parts.half(),
                &request.targets,
                &request.parts,
            ),
        }
    }

    /// Returns the messages that an open request sends again for what it waits for. Returns `Memory` if memory runs out.
    pub fn asks_again(
        self,
        alloc: Global,
        time: Time,
        request: &OpenRequest,
    ) -> Result<Vec<Message>, Memory>
        ensures { IfOk result (λ asks. map (λ m. letter_of m) asks.items
            ≡ nexts.asks_again (asker_view self) time.0 (open_view (asker_view self).me (asker_view self).life request.now)) }
    {
        match &request.work {
            Work::Writing(write) => self.writes_again(alloc, time, request, write),
            Work::Reading(read) => self.reads_again(alloc, time, request, read),
            Work::Sharding => {
                let letter = self.asks_to_begin(time, &request.namespace)?;
                list_of(alloc, Some(letter))
            }
            Work::Splitting(middle) => {
                let letter = self.asks_split(time, request.count, &request.namespace, middle)?;
                list_of(alloc, Some(letter))
            }
        }
    }
}
