//! Work that is given up, and requests for tables that are refused.

ghost use Rattle.std.specs.Prelude.{◌≡◌, ◌&&◌};
ghost use Rattle.std.specs.Str.{bytes_eq};
ghost use Rattle.base_model.specs.Identities.{RequestId};
ghost use Rattle.command_replies.specs.Refusals.{refusal_view};
ghost use Rattle.node_model.specs.RouterNext as nexts;
ghost use Rattle.protocol_model.specs.Refusals.{lack_view};
ghost use Rattle.protocol_model.specs.Tables.{at_view};
ghost use Rattle.reply_model.specs.Outcomes as outcomes;
ghost use Rattle.router_requests.specs.Works.{wait_view, work_view};

use crate::asker::Asker;
use crate::next::{Next, of_answers, of_refusal, same};
use crate::tables::{is_for, waits_for};
use crate::work::{OpenRequest, Work};
use crate::write::OpenWrite;
use bson_values::Memory;
use chunk_table::Table;
use cluster_base::{Namespace, NodeId, Time};
use command_replies::{Refusal, memory_refusal, steps_refusal};
use protocol_model::{At, Lack};
use router_writes::given_up;
use std::alloc::Global;
use write_runs::{left_of, unsent_indices};

/// Returns the refusal that says what a node lacks.
pub fn lack_refusal(node: NodeId, lack: Lack) -> Refusal
    ensures { refusal_view result ≡ outcomes.lack_refusal node.0 (lack_view lack) }
{
    match lack {
        Lack::Memory => memory_refusal(),
        Lack::Steps { steps } => steps_refusal(node, steps),
    }
}

/// Returns whether what is asked for has no time.
fn is_no_time(at: At) -> bool
    ensures { result ≡ nexts.is_no_time (at_view at) }
{
    match at {
        At::NoTime => true,
        At::Time(_) => false,
    }
}

/// Returns whether this is the request for a table that work sends.
fn wants_table(work: &Work, create: bool, at: At) -> bool
    ensures { (id : RequestId) → result ≡ nexts.wants_table (work_view id work.now) create (at_view at) }
{
    match work {
        Work::Writing(_) => create && is_no_time(at),
        Work::Reading(read) => !create && is_for(at, read.at),
        Work::Sharding => create && is_no_time(at),
        Work::Splitting(_) => false,
    }
}

/// Returns whether a request waits for just this table.
fn waits_for_this(request: &OpenRequest, namespace: &Namespace, create: bool, at: At) -> bool
    ensures { (id : RequestId) → result ≡ (nexts.is_for_catalogue (wait_view request.now.wait) &&
        (bytes_eq request.now.namespace namespace.now && nexts.wants_table (work_view id request.now.work) create (at_view at))) }
{
    waits_for(request, namespace) && wants_table(&request.work, create, at)
}

impl Asker {
    ghost use Rattle.std.specs.Prelude.{◌≡◌, IfOk, List};
    ghost use Rattle.std.specs.Option.{option_map};
    ghost use Rattle.chunk_model.specs.Tables as tables;
    ghost use Rattle.command_replies.specs.Kinds.{kind_view};
    ghost use Rattle.command_replies.specs.Refusals.{refusal_view};
    ghost use Rattle.node_model.specs.RouterRequests as requested;
    ghost use Rattle.node_model.specs.RouterNext as nexts;
    ghost use Rattle.protocol_model.specs.Tables.{at_view};
    ghost use Rattle.router_requests.specs.Askers.{asker_view, knowing};
    ghost use Rattle.router_requests.specs.Nexts.{next_view};
    ghost use Rattle.router_requests.specs.Works.{open_view, statements_of, write_course, write_view};

    /// Returns what becomes of an open write of which these statements are refused, of an ordered write the first, by the table of its collection, if one is
    /// known. Returns `Memory` if memory runs out, and where the answer is longer than allowed.
    pub(crate) fn gives_up(
        self,
        alloc: Global,
        time: Time,
        known: Option<&Table>,
        request: &OpenRequest,
        write: &OpenWrite,
        refusal: &Refusal,
        indices: &[u32],
    ) -> Result<Next, Memory>
        requires { (open_view (asker_view self).me (asker_view self).life request.now).work
            ≡ write_view (requested.id_of (asker_view self) request.now.count) write.now }
        ensures { (all : List tables.Table) → tables.table_of request.now.namespace all ≡ option_map (λ t. t.now) known.entry →
            IfOk result (λ next. nexts.gives_up (knowing all (asker_view self)) time.0 (open_view (asker_view self).me (asker_view self).life request.now)
            (kind_view write.now.kind) write.now.ordered (statements_of (requested.id_of (asker_view self) request.now.count) write.now)
            (write_course write.now) (refusal_view refusal.now) indices.now
            ≡ next_view (asker_view self) time.0 (open_view (asker_view self).me (asker_view self).life request.now) next) }
    {
        let answers = given_up(alloc, write.ordered, refusal, indices, &write.answers)?;
        let runs = left_of(alloc, &answers, &write.runs)?;
        let next = self.write_on(
            alloc,
            time,
            request.count,
            &request.namespace,
            known,
            false,
            &[],
            write,
            &answers,
            &write.tries,
            runs,
        )?;
        Ok(of_answers(answers, next))
    }

    // Returns what becomes of an open write whose request for a table is refused. Returns `Memory` if memory runs out, and where the answer is longer than
    // allowed.
    fn table_given_up(
        self,
        alloc: Global,
        time: Time,
        refusal: &Refusal,
        known: Option<&Table>,
        request: &OpenRequest,
        write: &OpenWrite,
    ) -> Result<Next, Memory>
        requires { (open_view (asker_view self).me (asker_view self).life request.now).work
            ≡ write_view (requested.id_of (asker_view self) request.now.count) write.now }
        ensures { (all : List tables.Table) → tables.table_of request.now.namespace all ≡ option_map (λ t. t.now) known.entry →
            IfOk result (λ next. nexts.gives_up (knowing all (asker_view self)) time.0 (open_view (asker_view self).me (asker_view self).life request.now)
            (kind_view write.now.kind) write.now.ordered (statements_of (requested.id_of (asker_view self) request.now.count) write.now)
            (write_course write.now) (refusal_view refusal.now)
            (requested.indices_of (requested.unsent write.now.ordered (statements_of (requested.id_of (asker_view self) request.now.count) write.now)
            (write_course write.now)))
            ≡ next_view (asker_view self) time.0 (open_view (asker_view self).me (asker_view self).life request.now) next) }
    {
        let indices = unsent_indices(
            alloc,
            write.ordered,
            &write.statements,
            &write.answers,
            &write.runs,
        )?;
        let next = self.gives_up(alloc, time, known, request, write, refusal, &indices)?;
        Ok(next)
    }

    /// Returns what becomes of an open request after the request for a table of this collection was refused, where this table is the one that is known of the
    /// collection: what waits for just that is given up. Returns `Memory` if memory runs out, and where the answer to a write is longer than allowed.
    pub fn table_refused(
        self,
        alloc: Global,
        time: Time,
        namespace: &Namespace,
        create: bool,
        at: At,
        refusal: &Refusal,
        known: Option<&Table>,
        request: &OpenRequest,
    ) -> Result<Next, Memory>
        ensures { (all : List tables.Table) → tables.table_of namespace.now all ≡ option_map (λ t. t.now) known.entry →
            IfOk result (λ next. nexts.table_refused (knowing all (asker_view self)) time.0 namespace.now create (at_view at) (refusal_view refusal.now)
            (open_view (asker_view self).me (asker_view self).life request.now)
            ≡ next_view (asker_view self) time.0 (open_view (asker_view self).me (asker_view self).life request.now) next) }
    {
        if !waits_for_this(request, namespace, create, at) {
            return Ok(same(alloc));
        }
        match &request.work {
            Work::Writing(write) => {
                let next = self.table_given_up(alloc, time, refusal, known, request, write)?;
                Ok(next)
            }
            Work::Reading(_) => Ok(of_refusal(refusal.copy(alloc)?)),
            Work::Sharding => Ok(of_refusal(refusal.copy(alloc)?)),
            Work::Splitting(_) => Ok(same(alloc)),
        }
    }
}
