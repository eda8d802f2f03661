//! What becomes of open requests after a table arrives.

ghost use Rattle.std.specs.Prelude.{◌≡◌, ◌&&◌, [], not};
ghost use Rattle.std.specs.Arc.{arc_value};
ghost use Rattle.std.specs.Option.{is_some, option_map};
ghost use Rattle.std.specs.Str.{bytes_eq};
ghost use Rattle.node_model.specs.RouterRequests as requested;
ghost use Rattle.node_model.specs.RouterNext as nexts;
ghost use Rattle.protocol_model.specs.Tables.{at_view};
ghost use Rattle.router_requests.specs.Works.{wait_view};

use crate::asker::Asker;
use crate::next::{Next, of_sends, of_write, same};
use crate::read::OpenRead;
use crate::work::{OpenRequest, Wait, Work};
use crate::write::OpenWrite;
use bson_values::Memory;
use chunk_table::Table;
use cluster_base::{Namespace, Time};
use protocol_model::{At, TableTold};
use read_parts::is_owned;
use std::alloc::Global;
use write_runs::copies_of;

/// Returns whether what arrives for a time is the answer to a read of this one.
pub(crate) fn is_for(told: At, at: Time) -> bool
    ensures { result ≡ nexts.is_for (at_view told) at.0 }
{
    match told {
        At::NoTime => false,
        At::Time(told) => told.0 == at.0,
    }
}

/// Returns whether a table arrived of a collection that was to be created.
pub fn was_created(told: &TableTold) -> bool
    ensures { result ≡ nexts.was_created told.now.create (option_map (λ t. arc_value t) told.now.table) }
{
    match &told.table {
        None => false,
        Some(_) => told.create,
    }
}

/// Returns whether a request waits for the catalogue's answer about this collection.
pub(crate) fn waits_for(request: &OpenRequest, namespace: &Namespace) -> bool
    ensures { result ≡ (nexts.is_for_catalogue (wait_view request.now.wait) && bytes_eq request.now.namespace namespace.now) }
{
    request.wait == Wait::ForCatalogue && request.namespace.as_str() == namespace.as_str()
}

/// Returns whether this table, if it is known, says who owned each key at a time.
#[tactic(auto, using(crate::proofs::Reading::if_read))]
fn can_read(known: Option<&Table>, at: Time) -> bool
    ensures { result ≡ is_some (requested.table_to_read (option_map (λ t. t.now) known.entry) at.0 []) }
{
    match known {
        None => false,
        Some(table) => is_owned(table, at),
    }
}

/// Returns whether the answer for a time shows that nothing is there for a read at this time, where this table is known, or none.
fn is_empty(told: At, known: Option<&Table>, at: Time) -> bool
    ensures { result ≡ (nexts.is_for (at_view told) at.0 && not (is_some (requested.table_to_read (option_map (λ t. t.now) known.entry) at.0 []))) }
{
    is_for(told, at) && !can_read(known, at)
}

impl Asker {
    ghost use Rattle.std.specs.Prelude.{◌≡◌, IfOk, List, true};
    ghost use Rattle.std.specs.Option.{option_map};
    ghost use Rattle.chunk_model.specs.Tables as tables;
    ghost use Rattle.node_model.specs.RouterNext as nexts;
    ghost use Rattle.node_model.specs.RouterRequests as requested;
    ghost use Rattle.protocol_model.specs.Tables.{at_view};
    ghost use Rattle.router_requests.specs.Askers.{asker_view};
    ghost use Rattle.router_requests.specs.Nexts.{next_view, read_arrives, write_arrives};
    ghost use Rattle.router_requests.specs.Works.{open_view, read_view, write_view};

    // Returns what becomes of a read that waits for the catalogue, after a table arrived for a time, where this is the one that is known then. Returns `Memory`
    // if memory runs out.
    fn next_read(
        self,
        alloc: Global,
        time: Time,
        told: At,
        known: Option<&Table>,
        request: &OpenRequest,
        read: &OpenRead,
    ) -> Result<Next, Memory>
        requires { (open_view (asker_view self).me (asker_view self).life request.now).work ≡ read_view read.now }
        ensures { IfOk result (λ next. read_arrives (asker_view self) time.0 (option_map (λ t. t.now) known.entry) (at_view told)
            (open_view (asker_view self).me (asker_view self).life request.now)
            ≡ next_view (asker_view self) time.0 (open_view (asker_view self).me (asker_view self).life request.now) next) }
    {
        if is_empty(told, known, read.at) {
            return Ok(Next::IsEmpty(read.at, read.telling));
        }
        let count = request.count;
        let namespace = &request.namespace;
        let sends = self.read_on(
            alloc,
            time,
            count,
            namespace,
            known,
            false,
            read,
            read.at,
            &request.tries,
        )?;
        Ok(of_sends(sends))
    }

    // Returns what becomes of a write that waits for the catalogue, after a table arrived, where this is the one that is known then. Returns `Memory` if memory
    // runs out, and where the answer is longer than allowed.
    fn next_write(
        self,
        alloc: Global,
        time: Time,
        known: Option<&Table>,
        request: &OpenRequest,
        write: &OpenWrite,
    ) -> Result<Next, Memory>
        requires { (open_view (asker_view self).me (asker_view self).life request.now).work
            ≡ write_view (requested.id_of (asker_view self) request.now.count) write.now }
        ensures { IfOk result (λ next. write_arrives (asker_view self) time.0 (option_map (λ t. t.now) known.entry)
            (open_view (asker_view self).me (asker_view self).life request.now)
            ≡ next_view (asker_view self) time.0 (open_view (asker_view self).me (asker_view self).life request.now) next) }
    {
        let runs = copies_of(alloc, &write.runs)?;
        let next = self.write_on(
            alloc,
            time,
            request.count,
            &request.namespace,
            known,
            false,
            &[],
            write,
            &write.answers,
            &write.tries,
            runs,
        )?;
        Ok(of_write(next))
    }

    /// Returns what becomes of an open request after a table of this collection arrived for a time, where this is the one that is known then; `made` where the
    /// collection was to be created, and there it is. Returns `Memory` if memory runs out, and where the answer to a write is longer than allowed.
    pub fn next_of(
        self,
        alloc: Global,
        time: Time,
        namespace: &Namespace,
        made: bool,
        told: At,
        known: Option<&Table>,
        request: &OpenRequest,
    ) -> Result<Next, Memory>
        ensures { (after : List tables.Table) → tables.table_of namespace.now after ≡ option_map (λ t. t.now) known.entry →
            IfOk result (λ next. nexts.next_of (asker_view self) time.0 after namespace.now made (at_view told)
            (open_view (asker_view self).me (asker_view self).life request.now)
            ≡ next_view (asker_view self) time.0 (open_view (asker_view self).me (asker_view self).life request.now) next) }
    {
        if !waits_for(request, namespace) {
            return Ok(same(alloc));
        }
        match &request.work {
            Work::Writing(write) => self.next_write(alloc, time, known, request, write),
            Work::Reading(read) => self.next_read(alloc, time, told, known, request, read),
            Work::Sharding => {
                if made {
                    Ok(Next::IsSharded)
                } else {
                    Ok(same(alloc))
                }
            }
            Work::Splitting(_) => Ok(same(alloc)),
        }
    }
}
