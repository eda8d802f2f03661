//! Answers to reads.

use crate::node::RouterNode;
use crate::step_plan::{Change, NewCursor, StepPlan};
use bson_values::Memory;
use cluster_base::{NodeId, RequestId, Time};
use command_replies::Answer;
use cursor_shelf::{FirstBatch, first_batch};
use group_merge::merge;
use pipeline_eval::{EvalFault, Rows};
use protocol_model::HalfFault;
use read_parts::{gather, have_all_come};
use router_replies::{
    DocumentList, batch_answer, block_records, count_told, excess_answer, is_only, overflow_answer,
    reply_to,
};
use router_requests::{OpenRead, OpenRequest, Telling};

impl RouterNode {
    ghost use Rattle.std.specs.Prelude.{◌≡◌, [], ◌∷◌, ◌++◌, ◌<◌, ◌-◌, pos, ℕ, List, IfOk, None, Some, drop, length, map, option_map, true};
    ghost use Rattle.group_accum.specs.Sizes.{capped};
    ghost use Rattle.pipeline_model.specs.Batches.{IsBatch};
    ghost use Rattle.bson_model.specs.Tree.{Fields};
    ghost use Rattle.pipeline_eval.specs.Rows.{rows_of};
    ghost use Rattle.std.specs.Arc.{arc_value};
    ghost use Rattle.command_replies.specs.AnswerMeanings.{answer_view};
    ghost use Rattle.command_model.specs.Answers.{first_answer};
    ghost use Rattle.base_model.specs.Identities as identities;
    ghost use Rattle.pipeline_model.specs.Lengths.{excess_of_answer};
    ghost use Rattle.node_model.specs.Letters.{Letter};
    ghost use Rattle.node_traits.specs.Ids.{id_view};
    ghost use Rattle.pipeline_model.specs.Split.{split};
    ghost use Rattle.node_model.specs.RouterRequests as requested;
    ghost use Rattle.node_model.specs.RouterNext as nexts;
    ghost use Rattle.node_model.specs.RouterRows.{as_before, batch_of, gives_number, new_cursor, next_number};
    ghost use Rattle.pipeline_model.specs.Runs.{listed};
    ghost use Rattle.node_model.specs.States as states;
    ghost use Rattle.read_parts.specs.Parts.{part_view, target_view};
    ghost use Rattle.router_requests.specs.Works.{open_view, read_view, stages_of, telling_view};
    ghost use Rattle.protocol_model.specs.Bodies.{rows_view};
    ghost use Rattle.router_cursors.specs.Marks.{is_left};
    ghost use Rattle.router_node.specs.RouterStates.{router_of};
    ghost use Rattle.router_node.specs.StepPlans.{IsHeard};
    ghost use Rattle.router_node.specs.Tellings.{IsPart, MayTell, MayTellMerged, MayTellOf};

    // Returns the plan to answer an open read, at a time of the router, without a cursor. Returns `Memory` if memory runs out.
    fn plan_answer(
        &self,
        time: Time,
        request: &OpenRequest,
        answer: &Answer,
    ) -> Result<StepPlan, Memory>
        ensures { (m : Letter) → time.0 ≡ requested.heard (router_of self.now) m →
            MayTell (router_of self.now) m (open_view self.now.me.0 self.now.life request.now) (answer_view answer.now) (as_before (router_of self.now)) →
            IfOk result (λ p. IsHeard (router_of self.now) m p) }
    {
        let reply = reply_to(
            self.alloc,
            request.link,
            request.number,
            &request.head,
            answer,
        )?;
        Ok(self.hears(time, Change::Closes(request.count), None, reply))
    }

    // Returns the plan to answer an open read with a first batch, at a time of the router, where a cursor has the other documents. Returns `Memory` if memory
    // runs out, and where the numbers of cursors are exhausted.
    fn plan_cursor(
        &self,
        time: Time,
        request: &OpenRequest,
        at: Time,
        batch: FirstBatch,
    ) -> Result<StepPlan, Memory>
        ensures { (m : Letter) → time.0 ≡ requested.heard (router_of self.now) m → is_left (map arc_value batch.rest.items) ≡ true →
            MayTell (router_of self.now) m (open_view self.now.me.0 self.now.life request.now)
            (first_answer (batch_of (open_view self.now.me.0 self.now.life request.now) at.0 (pos (next_number (router_of self.now)))
            (map arc_value batch.documents.items)))
            (gives_number (router_of self.now) ((router_of self.now).cursors
            ++ new_cursor (router_of self.now) (open_view self.now.me.0 self.now.life request.now) at.0 (map arc_value batch.rest.items) ∷ [])) →
            IfOk result (λ p. IsHeard (router_of self.now) m p) }
    {
        let Some(next) = self.cursors.next_number() else {
            return Err(Memory);
        };
        let answer = batch_answer(&request.namespace, next.number, batch.documents, at)?;
        let reply = reply_to(
            self.alloc,
            request.link,
            request.number,
            &request.head,
            &answer,
        )?;
        let records = block_records(self.alloc, next.block)?;
        let opened = NewCursor {
            namespace: request.namespace.copy()?,
            time: at,
            rest: batch.rest,
        };
        let change = Change::Shelves(request.count, opened);
        Ok(self.hears_keeping(time, change, reply, records))
    }

    // Returns the plan to answer an open read with its first batch, at a time of the router. Returns `Memory` if memory runs out, and where the numbers of
    // cursors are exhausted.
    fn plan_batch(
        &self,
        time: Time,
        request: &OpenRequest,
        at: Time,
        batch: FirstBatch,
        single: bool,
    ) -> Result<StepPlan, Memory>
        ensures { (m : Letter) (size : ℕ) (documents : List Fields) → time.0 ≡ requested.heard (router_of self.now) m → excess_of_answer documents ≡ None →
            IsBatch (Some size) documents (map arc_value batch.documents.items) →
            map arc_value batch.rest.items ≡ drop (length (map arc_value batch.documents.items)) documents →
            MayTellOf (router_of self.now) m (open_view self.now.me.0 self.now.life request.now) at.0 (states.in_batches size single) (listed documents) →
            IfOk result (λ p. IsHeard (router_of self.now) m p) }
    {
        if is_only(single, &batch) {
            let answer = batch_answer(&request.namespace, 0, batch.documents, at)?;
            self.plan_answer(time, request, &answer)
        } else {
            self.plan_cursor(time, request, at, batch)
        }
    }

    // Returns the plan to answer an open read with the number of its documents, at a time of the router. Returns `Memory` if memory runs out, and where its
    // stages are not those of a count.
    fn plan_number(
        &self,
        time: Time,
        request: &OpenRequest,
        at: Time,
        documents: &DocumentList,
    ) -> Result<StepPlan, Memory>
        ensures { (m : Letter) → time.0 ≡ requested.heard (router_of self.now) m →
            MayTellOf (router_of self.now) m (open_view self.now.me.0 self.now.life request.now) at.0 states.as_number
            (listed (map arc_value documents.now.items)) →
            IfOk result (λ p. IsHeard (router_of self.now) m p) }
    {
        match count_told(documents) {
            Some(count) => {
                let answer = Answer::Count { count, time: at };
                self.plan_answer(time, request, &answer)
            }
            None => Err(Memory),
        }
    }

    // Returns the plan to answer an open read with these documents, at a time of the router. Returns `Memory` if memory runs out.
    fn plan_documents(
        &self,
        time: Time,
        request: &OpenRequest,
        read: &OpenRead,
        documents: DocumentList,
    ) -> Result<StepPlan, Memory>
        ensures { (m : Letter) → time.0 ≡ requested.heard (router_of self.now) m → excess_of_answer (map arc_value documents.items) ≡ None →
            MayTellOf (router_of self.now) m (open_view self.now.me.0 self.now.life request.now) read.now.at.0 (telling_view read.now.telling)
            (listed (map arc_value documents.items)) →
            IfOk result (λ p. IsHeard (router_of self.now) m p) }
    {
        match read.telling {
            Telling::Batches { size, single } => {
                let batch = first_batch(self.alloc, Some(size), documents)?;
                self.plan_batch(time, request, read.at, batch, single)
            }
            Telling::Number => self.plan_number(time, request, read.at, &documents),
        }
    }

    // Returns the plan to refuse an open read whose result has this number of bytes, at a time of the router. Returns `Memory` if memory runs out, and where
    // the number does not fit into 64 bits.
    fn plan_excess(&self, time: Time, request: &OpenRequest, bytes: u64) -> Result<StepPlan, Memory>
        ensures { (m : Letter) (at : ℕ) (telling : states.Telling) (documents : List Fields) → time.0 ≡ requested.heard (router_of self.now) m →
            option_map capped (excess_of_answer documents) ≡ Some bytes →
            MayTellOf (router_of self.now) m (open_view self.now.me.0 self.now.life request.now) at telling (listed documents) →
            IfOk result (λ p. IsHeard (router_of self.now) m p) }
    {
        if bytes == u64::MAX {
            return Err(Memory);
        }
        self.plan_answer(time, request, &excess_answer(bytes))
    }

    // Returns the plan to answer an open read with what these rows merge to, at a time of the router. Returns `Memory` if memory runs out.
    fn plan_merged(
        &self,
        time: Time,
        request: &OpenRequest,
        read: &OpenRead,
        all: Vec<Rows>,
    ) -> Result<StepPlan, Memory>
        ensures { (m : Letter) → time.0 ≡ requested.heard (router_of self.now) m →
            MayTellMerged (router_of self.now) m (open_view self.now.me.0 self.now.life request.now) read.now.at.0 (telling_view read.now.telling)
            (split (stages_of read.now.parts)).1 (map rows_of all.items) →
            IfOk result (λ p. IsHeard (router_of self.now) m p) }
    {
        let by = read.parts.merge();
        match merge(self.alloc, by, all) {
            Ok(documents) => self.plan_documents(time, request, read, documents),
            Err(EvalFault::Overflow) => self.plan_answer(time, request, &overflow_answer()),
            Err(EvalFault::TooMuch { bytes }) => self.plan_excess(time, request, bytes),
            Err(EvalFault::Memory) => Err(Memory),
        }
    }

    // Returns the plan for an open read whose last part arrived, at a time of the router. Returns `Memory` if memory runs out.
    fn plan_gathered(
        &self,
        sender: NodeId,
        time: Time,
        request: &OpenRequest,
        read: &OpenRead,
        told: Result<Rows, HalfFault>,
    ) -> Result<StepPlan, Memory>
        ensures { (m : Letter) (id : identities.RequestId) → m.sender ≡ sender.0 → time.0 ≡ requested.heard (router_of self.now) m →
            IsPart (router_of self.now) m id (open_view self.now.me.0 self.now.life request.now) (rows_view told) →
            nexts.awaited (map target_view request.now.targets.items) (nexts.also_part (map part_view request.now.parts.items) sender.0 (rows_view told)) ≡ [] →
            (open_view self.now.me.0 self.now.life request.now).work ≡ read_view read.now → IfOk result (λ p. IsHeard (router_of self.now) m p) }
    {
        match gather(self.alloc, &request.targets, &request.parts, sender, told) {
            Ok(all) => self.plan_merged(time, request, read, all),
            Err(EvalFault::Overflow) => self.plan_answer(time, request, &overflow_answer()),
            Err(EvalFault::TooMuch { bytes }) => {
                self.plan_answer(time, request, &excess_answer(bytes))
            }
            Err(EvalFault::Memory) => Err(Memory),
        }
    }

    // Returns the plan for a part of an open read that a shard returned, at a time of the router. Returns `Memory` if memory runs out.
    pub(crate) fn plan_part(
        &self,
        sender: NodeId,
        time: Time,
        id: RequestId,
        request: &OpenRequest,
        read: &OpenRead,
        told: Result<Rows, HalfFault>,
    ) -> Result<StepPlan, Memory>
        ensures { (m : Letter) → m.sender ≡ sender.0 → time.0 ≡ requested.heard (router_of self.now) m →
            IsPart (router_of self.now) m (id_view id) (open_view self.now.me.0 self.now.life request.now) (rows_view told) →
            (open_view self.now.me.0 self.now.life request.now).work ≡ read_view read.now → IfOk result (λ p. IsHeard (router_of self.now) m p) }
    {
        if have_all_come(&request.targets, &request.parts, sender) {
            self.plan_gathered(sender, time, request, read, told)
        } else {
            let change = Change::Gains(id.count, sender, told);
            Ok(self.hears(time, change, None, None))
        }
    }
}
