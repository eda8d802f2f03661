//! Answers to writes.

use crate::node::RouterNode;
use crate::step_plan::{Change, StepPlan};
use bson_values::Memory;
use cluster_base::{RequestId, Time};
use command_replies::Answer;
use node_traits::ReplyList;
use protocol_model::{Done, StatementOutcome, WriteDone};
use router_requests::{OpenRequest, OpenWrite, Stay, Work, WriteNext, WriteSends, spare_list};
use router_writes::note;
use write_runs::{left_of, rest_of_served};

impl RouterNode {
    ghost use Rattle.std.specs.Prelude.{◌≡◌, IfOk, Some, map};
    ghost use Rattle.command_replies.specs.AnswerMeanings.{answer_view};
    ghost use Rattle.node_model.specs.Letters as letters;
    ghost use Rattle.node_model.specs.RouterRequests as requested;
    ghost use Rattle.node_model.specs.RouterNext as nexts;
    ghost use Rattle.node_model.specs.RouterRows as rows;
    ghost use Rattle.node_traits.specs.Ids.{id_view};
    ghost use Rattle.protocol_model.specs.Bodies.{write_done_view};
    ghost use Rattle.protocol_model.specs.Statements.{done_view};
    ghost use Rattle.router_requests.specs.Nexts.{write_next};
    ghost use Rattle.router_requests.specs.Works.{open_view, work_of, write_view};
    ghost use Rattle.router_requests.specs.declared.writes.WriteNext.TheVariants.{GoesOn};
    ghost use Rattle.write_runs.specs.Runs.{course_view};
    ghost use Rattle.router_node.specs.News.{IsNews, next_noted};
    ghost use Rattle.router_node.specs.RouterStates.{router_of};
    ghost use Rattle.router_node.specs.StepPlans.{IsHeard};

    // Returns the plan where a write is answered, or `Memory` if memory runs out.
    fn plan_written(
        &self,
        time: Time,
        id: RequestId,
        request: &OpenRequest,
        write: &OpenWrite,
        noted: &[Option<StatementOutcome>],
        answer: &Answer,
    ) -> Result<StepPlan, Memory>
        ensures { (m : letters.Letter) → time.0 ≡ requested.heard (router_of self.now) m →
            IsNews (router_of self.now) m (id_view id) (open_view self.now.me.0 self.now.life request.now) write.now noted.now →
            next_noted (router_of self.now) time.0 (open_view self.now.me.0 self.now.life request.now) write.now noted.now
            ≡ nexts.is_told (nexts.reply_to (router_of self.now) time.0 (open_view self.now.me.0 self.now.life request.now) (answer_view answer.now)) →
            IfOk result (λ p. IsHeard (router_of self.now) m p) }
    {
        let reply = self.answered(request, answer)?;
        Ok(self.hears(time, Change::Closes(request.count), None, reply))
    }

    // Returns the plan where a write goes on. Returns `Memory` if memory runs out.
    fn plan_sent(
        &self,
        time: Time,
        id: RequestId,
        request: &OpenRequest,
        write: &OpenWrite,
        noted: Vec<Option<StatementOutcome>>,
        sends: WriteSends,
    ) -> Result<StepPlan, Memory>
        ensures { (m : letters.Letter) → time.0 ≡ requested.heard (router_of self.now) m →
            IsNews (router_of self.now) m (id_view id) (open_view self.now.me.0 self.now.life request.now) write.now noted.items →
            next_noted (router_of self.now) time.0 (open_view self.now.me.0 self.now.life request.now) write.now noted.items
            ≡ write_next (router_of self.now) time.0 (open_view self.now.me.0 self.now.life request.now)
            (work_of (requested.id_of (router_of self.now) request.now.count) write.now (course_view noted.items write.now.tries.items write.now.runs.items))
            (GoesOn sends) →
            IfOk result (λ p. IsHeard (router_of self.now) m p) }
    {
        let WriteSends { wait, runs, mail } = sends;
        let change = Change::Goes(id.count, Stay::Answers(wait, noted, runs));
        let mail = spare_list(self.alloc, mail)?;
        let replies = ReplyList::new(self.alloc);
        Ok(self.hears_all(time, change, mail, replies))
    }

    // Returns what becomes of an open write that has these answers: the rest of the runs that were served in part is sent again, or the next run is sent, or it
    // is answered. Returns `Memory` if memory runs out.
    fn next_noted(
        &self,
        time: Time,
        request: &OpenRequest,
        write: &OpenWrite,
        noted: &[Option<StatementOutcome>],
    ) -> Result<WriteNext, Memory>
        ensures { IfOk result (λ next. next_noted (router_of self.now) time.0 (open_view self.now.me.0 self.now.life request.now) write.now noted.now
            ≡ write_next (router_of self.now) time.0 (open_view self.now.me.0 self.now.life request.now)
            (work_of (requested.id_of (router_of self.now) request.now.count) write.now (course_view noted.now write.now.tries.items write.now.runs.items))
            next) }
    {
        let rest = rest_of_served(self.alloc, noted, &write.runs)?;
        let left = left_of(self.alloc, noted, &write.runs)?;
        self.asker().write_on(
            self.alloc,
            time,
            request.count,
            &request.namespace,
            self.table_of(&request.namespace),
            write.ordered,
            &rest,
            write,
            noted,
            &write.tries,
            left,
        )
    }

    // Returns the plan where an open write has these answers, which are more than before. Returns `Memory` if memory runs out.
    fn plan_noted(
        &self,
        time: Time,
        id: RequestId,
        request: &OpenRequest,
        write: &OpenWrite,
        noted: Vec<Option<StatementOutcome>>,
    ) -> Result<StepPlan, Memory>
        ensures { (m : letters.Letter) → time.0 ≡ requested.heard (router_of self.now) m →
            IsNews (router_of self.now) m (id_view id) (open_view self.now.me.0 self.now.life request.now) write.now noted.items →
            IfOk result (λ p. IsHeard (router_of self.now) m p) }
    {
        let next = self.next_noted(time, request, write, &noted)?;
        match next {
            WriteNext::IsWritten(answer) => {
                self.plan_written(time, id, request, write, &noted, &answer)
            }
            WriteNext::GoesOn(sends) => self.plan_sent(time, id, request, write, noted, sends),
        }
    }

    // Returns the plan for outcomes of an open write, at a time of the router. Returns `Memory` if memory runs out.
    fn plan_told(
        &self,
        time: Time,
        id: RequestId,
        request: &OpenRequest,
        write: &OpenWrite,
        dones: &[Done],
    ) -> Result<StepPlan, Memory>
        requires open { rows.open_of (router_of self.now) (id_view id) ≡ Some (open_view self.now.me.0 self.now.life request.now) }
        requires work { (open_view self.now.me.0 self.now.life request.now).work
            ≡ write_view (requested.id_of (router_of self.now) request.now.count) write.now }
        ensures { (m : letters.Letter) → m.body ≡ letters.write_done (id_view id) (map done_view dones.now) → time.0 ≡ requested.heard (router_of self.now) m →
            IfOk result (λ p. IsHeard (router_of self.now) m p) }
    {
        let noted = note(self.alloc, write.ordered, &write.answers, dones)?;
        match noted {
            None => Ok(self.late(time)),
            Some(noted) => self.plan_noted(time, id, request, write, noted),
        }
    }

    // Returns the plan for the outcomes of a write, at a time of the router. Returns `Memory` if memory runs out.
    pub(crate) fn plan_dones(&self, time: Time, told: &WriteDone) -> Result<StepPlan, Memory>
        ensures { (m : letters.Letter) → m.body ≡ write_done_view told.now → time.0 ≡ requested.heard (router_of self.now) m →
            IfOk result (λ p. IsHeard (router_of self.now) m p) }
    {
        match self.open_of(told.id) {
            None => Ok(self.late(time)),
            Some(request) => match &request.work {
                Work::Reading(_) => Ok(self.late(time)),
                Work::Sharding => Ok(self.late(time)),
                Work::Splitting(_) => Ok(self.late(time)),
                Work::Writing(write) => {
                    self.plan_told(time, told.id, request, write, &told.dones)
                }
            },
        }
    }
}
