//! What was sent for an open request is refused.

ghost use Rattle.std.specs.Prelude.{◌≡◌, ◌==◌, ◌&&◌, ◌++◌, ℕ, IfOk, map};
ghost use Rattle.std.specs.Option.{option_map};
ghost use Rattle.chunk_table.specs.Meanings.{version_view};
ghost use Rattle.node_model.specs.RouterRequests as requested;
ghost use Rattle.node_model.specs.RouterNext as nexts;
ghost use Rattle.node_model.specs.States as states;
ghost use Rattle.node_traits.specs.Lists.{listed};
ghost use Rattle.protocol_model.specs.Refusals.{cause_view, try_view};
ghost use Rattle.read_parts.specs.Parts.{part_view, target_view};
ghost use Rattle.router_requests.specs.Nexts.{next_view};
ghost use Rattle.write_runs.specs.Runs.{tries_view};

use crate::asker::Asker;
use crate::given_up::lack_refusal;
use crate::next::{Next, of_course, of_refusal, of_tries};
use crate::read::OpenRead;
use crate::times::has_told;
use crate::work::{OpenRequest, Wait, Work};
use crate::write::OpenWrite;
use bson_values::Memory;
use chunk_table::{Table, Version};
use cluster_base::{NodeId, Time};
use protocol_model::{Cause, Try};
use read_parts::{Part, Target, has_part, is_target};
use router_writes::{after_stale, refusal_by};
use std::alloc::Global;
use write_runs::{Course, Run, binds_run, has_all_tries, is_below, is_turn, run_with};

/// Returns the try that a turn was which was sent to these shards and met this version, if it was sent to any.
fn tried(met: Version, targets: &[Target]) -> Option<Try>
    ensures { listed (option_map try_view result) ≡ nexts.tried (version_view met) (map target_view targets.now) }
{
    match targets.first() {
        Some(target) => Some(Try {
            sent: target.sent.collection,
            met,
        }),
        None => None,
    }
}

/// Returns the tries of a read with one more, that of a turn that was sent to these shards and met this version. Returns `Memory` if memory runs out.
fn also_tried(
    alloc: Global,
    tries: &[Try],
    met: Version,
    targets: &[Target],
) -> Result<Vec<Try>, Memory>
    ensures { IfOk result (λ more. tries_view more.items ≡ tries_view tries.now ++ nexts.tried (version_view met) (map target_view targets.now)) }
{
    let mut more = Vec::from_slice(alloc, tries)?;
    let Some(one) = tried(met, targets) else {
        return Ok(more);
    };
    more.push(one)?;
    Ok(more)
}

/// Returns whether a read awaits the part of a shard.
fn is_awaited(shard: NodeId, targets: &[Target], parts: &[Part]) -> bool
    ensures { result ≡ nexts.is_target shard.0 (nexts.awaited (map target_view targets.now) (map part_view parts.now)) }
{
    is_target(shard, targets) && !has_part(shard, parts)
}

/// Returns whether a read that waits for shards awaits the part of a shard in this turn, where it begins with this statement.
fn is_awaited_in(request: &OpenRequest, sender: NodeId, turn: u32, first: u32) -> bool
    ensures { result ≡ ((turn == requested.turn_after (tries_view request.now.tries.items)) && ((first == 0)
        && nexts.is_target sender.0 (nexts.awaited (map target_view request.now.targets.items) (map part_view request.now.parts.items)))) }
{
    is_turn(turn, &request.tries)
        && first == 0
        && is_awaited(sender, &request.targets, &request.parts)
}

/// Returns what becomes of what has no turn, if it is refused.
fn task_refused(turn: u32, first: u32, cause: Cause) -> Option<Next>
    ensures { (r : states.Router) (time : ℕ) (q : states.Open) →
        option_map (λ next. next_view r time q next) result ≡ nexts.task_refused r time q turn first (cause_view cause) }
{
    match cause {
        Cause::Stale { .. } => None,
        Cause::Lack { node, lack } => {
            if turn == 0 && first == 0 {
                Some(of_refusal(lack_refusal(node, lack)))
            } else {
                None
            }
        }
    }
}

impl Asker {
    ghost use Rattle.std.specs.Prelude.{◌≡◌, IfOk, List, Some};
    ghost use Rattle.std.specs.Option.{option_map};
    ghost use Rattle.chunk_model.specs.Tables as tables;
    ghost use Rattle.chunk_table.specs.Meanings.{version_view};
    ghost use Rattle.command_replies.specs.Kinds.{kind_view};
    ghost use Rattle.node_model.specs.Letters as letters;
    ghost use Rattle.node_model.specs.RouterRequests as requested;
    ghost use Rattle.node_model.specs.RouterNext as nexts;
    ghost use Rattle.protocol_model.specs.Refusals.{cause_view};
    ghost use Rattle.router_requests.specs.Askers.{asker_view, knowing};
    ghost use Rattle.router_requests.specs.Nexts.{next_view};
    ghost use Rattle.router_requests.specs.Works.{open_view, read_view, stages_of, statements_of, telling_view, write_course, write_view};
    ghost use Rattle.write_runs.specs.Runs.{run_view};

    // Returns what becomes of an open write of which this run met a later table with this version. Returns `Memory` if memory runs out, and where the answer is
    // longer than allowed.
    fn write_is_stale(
        self,
        alloc: Global,
        time: Time,
        known: Option<&Table>,
        request: &OpenRequest,
        write: &OpenWrite,
        run: &Run,
        met: Version,
    ) -> Result<Next, Memory>
        requires { (open_view (asker_view self).me (asker_view self).life request.now).work
            ≡ write_view (requested.id_of (asker_view self) request.now.count) write.now }
        ensures { (all : List tables.Table) → tables.table_of request.now.namespace all ≡ option_map (λ t. t.now) known.entry →
            IfOk result (λ next. nexts.write_refused (knowing all (asker_view self)) time.0
            (open_view (asker_view self).me (asker_view self).life request.now) (letters.is_stale (version_view met)) (kind_view write.now.kind)
            write.now.ordered (statements_of (requested.id_of (asker_view self) request.now.count) write.now) (write_course write.now) (run_view run.now)
            ≡ Some (next_view (asker_view self) time.0 (open_view (asker_view self).me (asker_view self).life request.now) next)) }
    {
        let course = after_stale(
            alloc,
            write.ordered,
            &write.answers,
            &write.tries,
            &write.runs,
            run,
            met,
        )?;
        let Course {
            answers,
            tries,
            runs,
        } = course;
        let next = self.write_on(
            alloc,
            time,
            request.count,
            &request.namespace,
            known,
            is_below(known, met),
            &[],
            write,
            &answers,
            &tries,
            runs,
        )?;
        Ok(of_course(answers, tries, next))
    }

    // Returns what becomes of an open write of which this run is refused, if anything. Returns `Memory` if memory runs out, and where the answer is longer than
    // allowed.
    fn write_refused(
        self,
        alloc: Global,
        time: Time,
        known: Option<&Table>,
        request: &OpenRequest,
        write: &OpenWrite,
        run: &Run,
        cause: Cause,
    ) -> Result<Option<Next>, Memory>
        requires { (open_view (asker_view self).me (asker_view self).life request.now).work
            ≡ write_view (requested.id_of (asker_view self) request.now.count) write.now }
        ensures { (all : List tables.Table) → tables.table_of request.now.namespace all ≡ option_map (λ t. t.now) known.entry →
            IfOk result (λ found. nexts.write_refused (knowing all (asker_view self)) time.0
            (open_view (asker_view self).me (asker_view self).life request.now) (cause_view cause) (kind_view write.now.kind)
            write.now.ordered (statements_of (requested.id_of (asker_view self) request.now.count) write.now) (write_course write.now) (run_view run.now)
            ≡ option_map (λ next. next_view (asker_view self) time.0 (open_view (asker_view self).me (asker_view self).life request.now) next) found) }
    {
        match cause {
            Cause::Stale { met } => {
                let next = self.write_is_stale(alloc, time, known, request, write, run, met)?;
                Ok(Some(next))
            }
            Cause::Lack { node, lack } => {
                if binds_run(write.ordered, run) {
                    return Ok(None);
                }
                let refusal = lack_refusal(node, lack);
                let indices = &run.indices;
                let next = self.gives_up(alloc, time, known, request, write, &refusal, indices)?;
                Ok(Some(next))
            }
        }
    }

    // Returns what becomes of an open read whose turn met a later table with this version: it goes on after one try more, or has had all its tries. Returns
    // `Memory` if memory runs out.
    fn read_again(
        self,
        alloc: Global,
        time: Time,
        known: Option<&Table>,
        request: &OpenRequest,
        read: &OpenRead,
        met: Version,
    ) -> Result<Next, Memory>
        requires { (open_view (asker_view self).me (asker_view self).life request.now).work ≡ read_view read.now }
        ensures { (all : List tables.Table) → tables.table_of request.now.namespace all ≡ option_map (λ t. t.now) known.entry →
            IfOk result (λ next. nexts.read_refused (knowing all (asker_view self)) time.0
            (open_view (asker_view self).me (asker_view self).life request.now) (letters.is_stale (version_view met)) read.now.named read.now.at.0
            (stages_of read.now.parts) (telling_view read.now.telling)
            ≡ next_view (asker_view self) time.0 (open_view (asker_view self).me (asker_view self).life request.now) next) }
    {
        let tries = also_tried(alloc, &request.tries, met, &request.targets)?;
        if has_all_tries(&tries) {
            return Ok(of_refusal(refusal_by(alloc, &tries)?));
        }
        let sends = self.read_on(
            alloc,
            time,
            request.count,
            &request.namespace,
            known,
            true,
            read,
            read.at,
            &tries,
        )?;
        Ok(of_tries(tries, sends))
    }

    // Returns what becomes of an open read that waits for shards, if its turn is refused. Returns `Memory` if memory runs out.
    fn read_refused(
        self,
        alloc: Global,
        time: Time,
        known: Option<&Table>,
        request: &OpenRequest,
        read: &OpenRead,
        cause: Cause,
    ) -> Result<Next, Memory>
        requires { (open_view (asker_view self).me (asker_view self).life request.now).work ≡ read_view read.now }
        ensures { (all : List tables.Table) → tables.table_of request.now.namespace all ≡ option_map (λ t. t.now) known.entry →
            IfOk result (λ next. nexts.read_refused (knowing all (asker_view self)) time.0
            (open_view (asker_view self).me (asker_view self).life request.now) (cause_view cause) read.now.named read.now.at.0
            (stages_of read.now.parts) (telling_view read.now.telling)
            ≡ next_view (asker_view self) time.0 (open_view (asker_view self).me (asker_view self).life request.now) next) }
    {
        match cause {
            Cause::Stale { met } => {
                let next = self.read_again(alloc, time, known, request, read, met)?;
                Ok(next)
            }
            Cause::Lack { node, lack } => Ok(of_refusal(lack_refusal(node, lack))),
        }
    }

    // Returns what becomes of an open read of which what this shard was sent is refused, if anything. Returns `Memory` if memory runs out.
    fn reading_refused(
        self,
        alloc: Global,
        time: Time,
        known: Option<&Table>,
        request: &OpenRequest,
        read: &OpenRead,
        sender: NodeId,
        turn: u32,
        first: u32,
        cause: Cause,
    ) -> Result<Option<Next>, Memory>
        requires { (open_view (asker_view self).me (asker_view self).life request.now).work ≡ read_view read.now }
        ensures { (all : List tables.Table) → tables.table_of request.now.namespace all ≡ option_map (λ t. t.now) known.entry →
            IfOk result (λ found. nexts.refused_next (knowing all (asker_view self)) time.0
            (open_view (asker_view self).me (asker_view self).life request.now) sender.0 turn first (cause_view cause)
            ≡ option_map (λ next. next_view (asker_view self) time.0 (open_view (asker_view self).me (asker_view self).life request.now) next) found) }
    {
        match request.wait {
            Wait::ForTime => {
                if has_told(&request.told, sender) {
                    return Ok(None);
                }
                Ok(task_refused(turn, first, cause))
            }
            Wait::ForCatalogue => Ok(None),
            Wait::ForShards => {
                if !is_awaited_in(request, sender, turn, first) {
                    return Ok(None);
                }
                let next = self.read_refused(alloc, time, known, request, read, cause)?;
                Ok(Some(next))
            }
        }
    }

    /// Returns what a refusal of what was sent to a node does to the open request that it is about, if anything, by the table of its collection, if one is
    /// known; turn and first are those of the refusal. Returns `Memory` if memory runs out, and where the answer to a write is longer than allowed.
    pub fn refused_next(
        self,
        alloc: Global,
        time: Time,
        known: Option<&Table>,
        request: &OpenRequest,
        sender: NodeId,
        turn: u32,
        first: u32,
        cause: Cause,
    ) -> Result<Option<Next>, Memory>
        ensures { (all : List tables.Table) → tables.table_of request.now.namespace all ≡ option_map (λ t. t.now) known.entry →
            IfOk result (λ found. nexts.refused_next (knowing all (asker_view self)) time.0
            (open_view (asker_view self).me (asker_view self).life request.now) sender.0 turn first (cause_view cause)
            ≡ option_map (λ next. next_view (asker_view self) time.0 (open_view (asker_view self).me (asker_view self).life request.now) next) found) }
    {
        match &request.work {
            Work::Writing(write) => match run_with(turn, first, &write.tries, &write.runs) {
                None => Ok(None),
                Some(run) => {
                    let next = self.write_refused(alloc, time, known, request, write, run, cause)?;
                    Ok(next)
                }
            },
            Work::Reading(read) => {
                let next = self.reading_refused(
                    alloc, time, known, request, read, sender, turn, first, cause,
                )?;
                Ok(next)
            }
            Work::Sharding => Ok(None),
            Work::Splitting(_) => Ok(task_refused(turn, first, cause)),
        }
    }
}
