//! Open requests at a moment.

ghost use Rattle.std.specs.Prelude.{◌≡◌, ℕ};
ghost use Rattle.node_model.specs.RouterNext as nexts;
ghost use Rattle.router_requests.specs.Works.{open_view};

use crate::asker::Asker;
use crate::fates::Stay;
use crate::next::{Next, of_refusal};
use crate::work::{OpenRequest, Work};
use crate::write::OpenWrite;
use bson_values::Memory;
use chunk_table::Table;
use cluster_base::Time;
use command_replies::expired_refusal;
use std::alloc::Global;
use write_runs::{binds, unanswered_indices};

/// Returns whether the time limit of a request has passed at a moment.
fn is_expired(request: &OpenRequest, moment: u64) -> bool
    ensures { (router life : ℕ) → result ≡ nexts.is_expired (open_view router life request.now) moment }
{
    if request.limit == 0 {
        return false;
    }
    match request.arrived.checked_add(request.limit) {
        Some(last) => last <= moment,
        None => false,
    }
}

impl Asker {
    ghost use Rattle.std.specs.Prelude.{◌≡◌, IfOk, List, map};
    ghost use Rattle.std.specs.Option.{option_map};
    ghost use Rattle.chunk_model.specs.Tables as tables;
    ghost use Rattle.node_model.specs.RouterRequests as requested;
    ghost use Rattle.node_model.specs.RouterNext as nexts;
    ghost use Rattle.router_requests.specs.Askers.{asker_view, knowing};
    ghost use Rattle.router_requests.specs.Nexts.{next_view, write_expires};
    ghost use Rattle.router_requests.specs.Works.{open_view, write_view};

    // Returns that a request stays as it is, and that what it waits for is requested again. Returns `Memory` if memory runs out.
    fn waits_on(self, alloc: Global, time: Time, request: &OpenRequest) -> Result<Next, Memory>
        ensures { IfOk result (λ next. nexts.stays (open_view (asker_view self).me (asker_view self).life request.now)
            (nexts.asks_again (asker_view self) time.0 (open_view (asker_view self).me (asker_view self).life request.now))
            ≡ next_view (asker_view self) time.0 (open_view (asker_view self).me (asker_view self).life request.now) next) }
    {
        let mail = self.asks_again(alloc, time, request)?;
        Ok(Next::Stays(Stay::Same, mail))
    }

    // Returns what becomes at a moment of an open write whose time limit has passed, by the table of its collection, if one is known. Returns `Memory` if
    // memory runs out, and where the answer is longer than allowed.
    fn write_expires(
        self,
        alloc: Global,
        time: Time,
        moment: u64,
        known: Option<&Table>,
        request: &OpenRequest,
        write: &OpenWrite,
    ) -> Result<Next, Memory>
        requires { (open_view (asker_view self).me (asker_view self).life request.now).work
            ≡ write_view (requested.id_of (asker_view self) request.now.count) write.now }
        ensures { (all : List tables.Table) → tables.table_of request.now.namespace all ≡ option_map (λ t. t.now) known.entry →
            IfOk result (λ next. write_expires (knowing all (asker_view self)) time.0 moment
            (open_view (asker_view self).me (asker_view self).life request.now)
            ≡ next_view (asker_view self) time.0 (open_view (asker_view self).me (asker_view self).life request.now) next) }
    {
        if binds(write.ordered, &write.runs) {
            let waits = self.waits_on(alloc, time, request)?;
            return Ok(waits);
        }
        let indices = unanswered_indices(alloc, &write.statements, &write.answers)?;
        let refusal = expired_refusal(request.arrived, moment);
        let next = self.gives_up(alloc, time, known, request, write, &refusal, &indices)?;
        Ok(next)
    }

    /// Returns what becomes of an open request at a moment, by the table of its collection, if one is known: where its time limit has passed it is refused, or
    /// what is not answered of a write; else what it waits for is requested again. Returns `Memory` if memory runs out, and where the answer to a write is
    /// longer than allowed.
    pub fn at_moment(
        self,
        alloc: Global,
        time: Time,
        moment: u64,
        known: Option<&Table>,
        request: &OpenRequest,
    ) -> Result<Next, Memory>
        ensures { (all : List tables.Table) → tables.table_of request.now.namespace all ≡ option_map (λ t. t.now) known.entry →
            IfOk result (λ next. nexts.at_moment (knowing all (asker_view self)) time.0 moment
            (open_view (asker_view self).me (asker_view self).life request.now)
            ≡ next_view (asker_view self) time.0 (open_view (asker_view self).me (asker_view self).life request.now) next) }
    {
        if !is_expired(request, moment) {
            let waits = self.waits_on(alloc, time, request)?;
            return Ok(waits);
        }
        match &request.work {
            Work::Writing(write) => {
                let next = self.write_expires(alloc, time, moment, known, request, write)?;
                Ok(next)
            }
            Work::Reading(_) => Ok(of_refusal(expired_refusal(request.arrived, moment))),
            Work::Sharding => Ok(of_refusal(expired_refusal(request.arrived, moment))),
            Work::Splitting(_) => Ok(of_refusal(expired_refusal(request.arrived, moment))),
        }
    }
}
