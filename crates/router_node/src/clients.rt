//! Requests of clients.

ghost use Rattle.std.specs.Prelude.{◌≡◌};
ghost use Rattle.command_model.specs.Command.{time_limit};
ghost use Rattle.protocol_model.specs.Heads.{head_request};

use crate::node::RouterNode;
use crate::plans::TimedPlan;
use crate::step_plan::{Change, StepPlan};
use bson_values::Memory;
use cluster_base::Namespace;
use command_replies::Answer;
use node_traits::MailList;
use opmsg_frames::Request;
use protocol_model::{Head, Message};
use read_parts::Target;
use router_replies::{RequestPlan, reply_to};
use router_requests::{Begun, OpenRequest, Sends, Wait, Work, WriteNext, WriteSends, spare_list};

/// The head of a request that arrived on a link, with the number of its reply and its time limit in milliseconds, 0 where it has none.
#[derive(Drop)]
pub(crate) struct Asked {
    pub(crate) link: u32,
    pub(crate) number: i32,
    pub(crate) head: Head,
    pub(crate) limit: u64,
    ghost limited: { time_limit (head_request head) ≡ limit },
}

impl RouterNode {
    ghost use Rattle.std.specs.Prelude.{◌≡◌, ◌<◌, ◌+◌, ◌-◌, ◌^◌, ℕ, IfOk, List, map};
    ghost use Rattle.command_replies.specs.AnswerMeanings.{answer_view};
    ghost use Rattle.command_model.specs.Command.{command_of};
    ghost use Rattle.node_model.specs.Letters.{client_input};
    ghost use Rattle.node_model.specs.RouterRequests as requested;
    ghost use Rattle.node_model.specs.RouterNext.{is_told, reply_to, stays, with_work};
    ghost use Rattle.node_model.specs.RouterRows.{opened_request};
    ghost use Rattle.node_model.specs.States as states;
    ghost use Rattle.protocol_model.specs.Messages.{letter_of};
    ghost use Rattle.read_parts.specs.Parts.{target_view};
    ghost use Rattle.router_requests.specs.Lists.{taken_of};
    ghost use Rattle.router_requests.specs.Nexts.{write_next};
    ghost use Rattle.router_requests.specs.Works.{wait_view, work_view};
    ghost use Rattle.protocol_model.specs.Heads.{head_request};
    ghost use Rattle.protocol_model.specs.Requests.{request_of};
    ghost use Rattle.router_node.specs.RouterStates.{router_of};
    ghost use Rattle.router_node.specs.Begins.{Begins};
    ghost use Rattle.router_node.specs.Rows.{started};
    ghost use Rattle.router_node.specs.StepPlans.{IsPlanned};

    // Returns the plan for a request that is answered at once, or `Memory` if memory runs out.
    fn plan_plain(&self, asked: Asked, answer: Answer) -> Result<StepPlan, Memory>
        requires few { taken_of self.now.requests < 2 ^ 64 - 1 }
        requires plan { requested.plan_of (started (router_of self.now))
            (requested.id_of (router_of self.now) (taken_of self.now.requests + 1)) asked.head.more (command_of (head_request asked.head))
            ≡ requested.at_once (answer_view answer) }
        ensures { IfOk result (λ p. IsPlanned (router_of self.now) (client_input asked.link asked.number (head_request asked.head)) p) }
    {
        let Asked {
            link,
            number,
            head,
            limit: _,
        } = asked;
        let reply = reply_to(self.alloc, link, number, &head, &answer)?;
        let mail = MailList::new(self.alloc);
        self.starts(self.time, self.moment, Change::Counts, mail, reply)
    }

    // Returns the plan for a request whose work begins, and which waits for this after it was sent to these shards. Returns `Memory` if memory runs out.
    fn plan_waits(
        &self,
        asked: Asked,
        count: u64,
        namespace: Namespace,
        wait: Wait,
        targets: Vec<Target>,
        work: Work,
        mail: Vec<Message>,
    ) -> Result<StepPlan, Memory>
        requires few { taken_of self.now.requests < 2 ^ 64 - 1 }
        requires next { count ≡ taken_of self.now.requests + 1 }
        ensures { (needed : states.Work) → Begins (router_of self.now) asked.link asked.number (head_request asked.head) namespace needed
            (stays (with_work (opened_request (started (router_of self.now)) asked.link asked.number (head_request asked.head) namespace needed)
            (wait_view wait) (map target_view targets.items) (work_view (requested.id_of (router_of self.now) count) work)) (map letter_of mail.items)) →
            IfOk result (λ p. IsPlanned (router_of self.now) (client_input asked.link asked.number (head_request asked.head)) p) }
    {
        let Asked {
            link,
            number,
            head,
            limit,
        } = asked;
        let request = OpenRequest {
            count,
            link,
            number,
            head,
            arrived: self.moment,
            limit,
            tries: Vec::new(self.alloc),
            namespace,
            wait,
            told: Vec::new(self.alloc),
            targets,
            parts: Vec::new(self.alloc),
            work,
        };
        let opened = Box::new(self.alloc, request)?;
        let mail = spare_list(self.alloc, mail)?;
        self.starts(self.time, self.moment, Change::Opens(opened), mail, None)
    }

    // Returns the plan for a request whose work is done when it begins. Returns `Memory` if memory runs out.
    fn plan_done(&self, asked: Asked, answer: &Answer) -> Result<StepPlan, Memory>
        requires few { taken_of self.now.requests < 2 ^ 64 - 1 }
        ensures { (namespace : List ℕ) (needed : states.Work) → Begins (router_of self.now) asked.link asked.number (head_request asked.head) namespace needed
            (is_told (reply_to (router_of self.now) self.now.time.0
            (opened_request (started (router_of self.now)) asked.link asked.number (head_request asked.head) namespace needed) (answer_view answer.now))) →
            IfOk result (λ p. IsPlanned (router_of self.now) (client_input asked.link asked.number (head_request asked.head)) p) }
    {
        let Asked {
            link,
            number,
            head,
            limit: _,
        } = asked;
        let reply = reply_to(self.alloc, link, number, &head, answer)?;
        let mail = MailList::new(self.alloc);
        self.starts(self.time, self.moment, Change::Counts, mail, reply)
    }

    // Returns the plan for a write that begins, and of which this becomes. Returns `Memory` if memory runs out.
    fn plan_begun(
        &self,
        asked: Asked,
        count: u64,
        namespace: Namespace,
        work: Work,
        next: WriteNext,
    ) -> Result<StepPlan, Memory>
        requires few { taken_of self.now.requests < 2 ^ 64 - 1 }
        requires next { count ≡ taken_of self.now.requests + 1 }
        ensures { (needed : states.Work) → needed ≡ work_view (requested.id_of (router_of self.now) count) work →
            Begins (router_of self.now) asked.link asked.number (head_request asked.head) namespace needed
            (write_next (started (router_of self.now)) self.now.time.0
            (opened_request (started (router_of self.now)) asked.link asked.number (head_request asked.head) namespace needed) needed next) →
            IfOk result (λ p. IsPlanned (router_of self.now) (client_input asked.link asked.number (head_request asked.head)) p) }
    {
        match next {
            WriteNext::GoesOn(sends) => {
                let WriteSends { wait, runs, mail } = sends;
                let work = work.with_runs(runs);
                let targets = Vec::new(self.alloc);
                self.plan_waits(asked, count, namespace, wait, targets, work, mail)
            }
            WriteNext::IsWritten(answer) => self.plan_done(asked, &answer),
        }
    }

    // Returns the plan for a request that needs work, or `Memory` if memory runs out.
    fn plan_open(
        &self,
        asked: Asked,
        count: u64,
        namespace: Namespace,
        work: Work,
    ) -> Result<StepPlan, Memory>
        requires few { taken_of self.now.requests < 2 ^ 64 - 1 }
        requires next { count ≡ taken_of self.now.requests + 1 }
        requires plan { requested.plan_of (started (router_of self.now))
            (requested.id_of (router_of self.now) count) asked.head.more (command_of (head_request asked.head))
            ≡ requested.needs namespace (work_view (requested.id_of (router_of self.now) count) work) }
        ensures { IfOk result (λ p. IsPlanned (router_of self.now) (client_input asked.link asked.number (head_request asked.head)) p) }
    {
        let table = self.table_of(&namespace);
        let asker = self.asker();
        let begun = asker.begins_work(self.alloc, self.time, count, &namespace, table, &work)?;
        match begun {
            Begun::Waits(sends) => {
                let Sends {
                    wait,
                    targets,
                    mail,
                } = sends;
                self.plan_waits(asked, count, namespace, wait, targets, work, mail)
            }
            Begun::Writes(next) => self.plan_begun(asked, count, namespace, work, next),
        }
    }

    // Returns the plan for a request that arrives on a link; the number is that of its reply. Returns `Memory` if memory runs out.
    pub(crate) fn plan_client(
        &self,
        link: u32,
        number: i32,
        request: Request,
    ) -> Result<StepPlan, Memory>
        ensures { IfOk result (λ p. IsPlanned (router_of self.now) (client_input link number (request_of request)) p) }
    {
        let taken = self.requests.taken();
        if taken == u64::MAX {
            // This number of requests is never taken: each is one of 2^56 steps.
            return Err(Memory);
        }
        let (head, body) = Head::of(request);
        let TimedPlan { limit, plan } = self.plan_of(head.form, head.more, body)?;
        let asked = Asked {
            link,
            number,
            head,
            limit,
        };
        match plan {
            RequestPlan::AtOnce(answer) => self.plan_plain(asked, answer),
            RequestPlan::Needs { namespace, work } => self.plan_open(
                asked,
                taken + 1,
                namespace,
                work,
            ),
            RequestPlan::NeedsBatch(more) => self.plan_more(asked, more),
            RequestPlan::NeedsEnd(kill) => self.plan_end(asked, kill),
        }
    }
}
