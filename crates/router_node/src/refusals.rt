//! Refusals of what the router requested.

use crate::all_next::AllNext;
use crate::node::RouterNode;
use crate::step_plan::{Change, StepPlan};
use bson_values::Memory;
use cluster_base::{Namespace, NodeId, RequestId, Time};
use command_replies::{Answer, Refusal};
use node_traits::ReplyList;
use protocol_model::{About, At, Cause, Lack, Refused};
use router_replies::{empty_answer, sharded_answer};
use router_requests::{Next, OpenRequest, lack_refusal, spare_list};

impl RouterNode {
    ghost use Rattle.std.specs.Prelude.{◌≡◌, IfOk, Some, map};
    ghost use Rattle.std.specs.Option.{option_map};
    ghost use Rattle.command_replies.specs.AnswerMeanings.{answer_view};
    ghost use Rattle.command_replies.specs.Refusals.{refusal_view};
    ghost use Rattle.node_model.specs.Letters as letters;
    ghost use Rattle.node_model.specs.RouterRequests as requested;
    ghost use Rattle.node_model.specs.RouterNext as nexts;
    ghost use Rattle.node_model.specs.RouterRows as rows;
    ghost use Rattle.node_traits.specs.Ids.{id_view};
    ghost use Rattle.protocol_model.specs.Tables.{at_view};
    ghost use Rattle.protocol_model.specs.Refusals.{cause_view, lack_view, refused_view};
    ghost use Rattle.router_requests.specs.Nexts.{next_view};
    ghost use Rattle.router_requests.specs.Works.{open_view};
    ghost use Rattle.router_node.specs.AllNext.{AreNext};
    ghost use Rattle.router_node.specs.Goings.{MayGo};
    ghost use Rattle.router_node.specs.RouterStates.{router_of};
    ghost use Rattle.router_node.specs.StepPlans.{IsHeard};

    // OF A REQUEST

    // Returns the plan to answer an open request, at a time of the router. Returns `Memory` if memory runs out.
    fn plan_closes(
        &self,
        time: Time,
        request: &OpenRequest,
        answer: &Answer,
    ) -> Result<StepPlan, Memory>
        ensures { (m : letters.Letter) → time.0 ≡ requested.heard (router_of self.now) m →
            MayGo (router_of self.now) m (open_view self.now.me.0 self.now.life request.now) (nexts.is_told
            (nexts.reply_to (router_of self.now) time.0 (open_view self.now.me.0 self.now.life request.now) (answer_view answer.now))) →
            IfOk result (λ p. IsHeard (router_of self.now) m p) }
    {
        let reply = self.answered(request, answer)?;
        Ok(self.hears(time, Change::Closes(request.count), None, reply))
    }

    // Returns the plan where this becomes of an open request, at a time of the router. Returns `Memory` if memory runs out.
    fn plan_goes(
        &self,
        time: Time,
        id: RequestId,
        request: &OpenRequest,
        next: Next,
    ) -> Result<StepPlan, Memory>
        requires open { rows.open_of (router_of self.now) (id_view id) ≡ Some (open_view self.now.me.0 self.now.life request.now) }
        ensures { (m : letters.Letter) → time.0 ≡ requested.heard (router_of self.now) m →
            MayGo (router_of self.now) m (open_view self.now.me.0 self.now.life request.now)
            (next_view (router_of self.now) time.0 (open_view self.now.me.0 self.now.life request.now) next) →
            IfOk result (λ p. IsHeard (router_of self.now) m p) }
    {
        match next {
            Next::Stays(stay, mail) => {
                let change = Change::Goes(id.count, stay);
                let mail = spare_list(self.alloc, mail)?;
                let replies = ReplyList::new(self.alloc);
                Ok(self.hears_all(time, change, mail, replies))
            }
            Next::IsTold(answer) => self.plan_closes(time, request, &answer),
            Next::IsEmpty(at, telling) => {
                let answer = empty_answer(self.alloc, &request.namespace, at, telling)?;
                self.plan_closes(time, request, &answer)
            }
            Next::IsSharded => {
                let answer = sharded_answer(&request.namespace, time)?;
                self.plan_closes(time, request, &answer)
            }
        }
    }

    // Returns what a refusal of what was sent for an open request does to it, if anything. Returns `Memory` if memory runs out.
    fn next_refused(
        &self,
        sender: NodeId,
        time: Time,
        request: &OpenRequest,
        turn: u32,
        first: u32,
        cause: Cause,
    ) -> Result<Option<Next>, Memory>
        ensures { IfOk result (λ found. nexts.refused_next (router_of self.now) time.0 (open_view self.now.me.0 self.now.life request.now)
            sender.0 turn first (cause_view cause)
            ≡ option_map (λ next. next_view (router_of self.now) time.0 (open_view self.now.me.0 self.now.life request.now) next) found) }
    {
        let known = self.table_of(&request.namespace);
        self.asker().refused_next(self.alloc, time, known, request, sender, turn, first, cause)
    }

    // Returns the plan for a refusal of what was sent for an open request, in a turn and from a statement on. Returns `Memory` if memory runs out.
    fn plan_open_refused(
        &self,
        sender: NodeId,
        time: Time,
        id: RequestId,
        request: &OpenRequest,
        turn: u32,
        first: u32,
        cause: Cause,
    ) -> Result<StepPlan, Memory>
        requires open { rows.open_of (router_of self.now) (id_view id) ≡ Some (open_view self.now.me.0 self.now.life request.now) }
        ensures { (m : letters.Letter) → m.sender ≡ sender.0 → m.body ≡ letters.refused (letters.of_request (id_view id) turn first) (cause_view cause) →
            time.0 ≡ requested.heard (router_of self.now) m → IfOk result (λ p. IsHeard (router_of self.now) m p) }
    {
        let found = self.next_refused(sender, time, request, turn, first, cause)?;
        match found {
            None => Ok(self.late(time)),
            Some(next) => self.plan_goes(time, id, request, next),
        }
    }

    // Returns the plan for a refusal of what was sent for a request, in a turn and from a statement on. Returns `Memory` if memory runs out.
    fn plan_request_refused(
        &self,
        sender: NodeId,
        time: Time,
        id: RequestId,
        turn: u32,
        first: u32,
        cause: Cause,
    ) -> Result<StepPlan, Memory>
        ensures { (m : letters.Letter) → m.sender ≡ sender.0 → m.body ≡ letters.refused (letters.of_request (id_view id) turn first) (cause_view cause) →
            time.0 ≡ requested.heard (router_of self.now) m → IfOk result (λ p. IsHeard (router_of self.now) m p) }
    {
        match self.open_of(id) {
            None => Ok(self.late(time)),
            Some(request) => {
                self.plan_open_refused(sender, time, id, request, turn, first, cause)
            }
        }
    }

    // OF A TABLE

    // Returns what becomes of an open request after the request for a table of this collection was refused. Returns `Memory` if memory runs out.
    fn next_without(
        &self,
        time: Time,
        namespace: &Namespace,
        create: bool,
        at: At,
        refusal: &Refusal,
        request: &OpenRequest,
    ) -> Result<Next, Memory>
        ensures { IfOk result (λ next. nexts.table_refused (router_of self.now) time.0 namespace.now create (at_view at) (refusal_view refusal.now)
            (open_view self.now.me.0 self.now.life request.now)
            ≡ next_view (router_of self.now) time.0 (open_view self.now.me.0 self.now.life request.now) next) }
    {
        let known = self.table_of(namespace);
        self.asker().table_refused(
            self.alloc, time, namespace, create, at, refusal, known, request,
        )
    }

    // Returns what becomes of these open requests after the request for a table was refused, or `Memory` if memory runs out.
    fn all_without(
        &self,
        time: Time,
        namespace: &Namespace,
        create: bool,
        at: At,
        refusal: &Refusal,
        requests: &[Box<OpenRequest>],
    ) -> Result<AllNext, Memory>
        ensures { IfOk result (λ all. AreNext
            (λ q. nexts.table_refused (router_of self.now) time.0 namespace.now create (at_view at) (refusal_view refusal.now) q)
            (map (λ q. open_view self.now.me.0 self.now.life q.value) requests.now) all) }
    {
        let mut all = AllNext::with_room(self.alloc, requests.len())?;
        for request in requests {
            let next = self.next_without(time, namespace, create, at, refusal, request)?;
            self.add_next(&mut all, time, request, next)?;
        }
        Ok(all)
    }

    // Returns the plan for a refusal of the request for a table, since a node lacks something. Returns `Memory` if memory runs out.
    fn plan_table_refused(
        &self,
        time: Time,
        namespace: &Namespace,
        create: bool,
        at: At,
        node: NodeId,
        lack: Lack,
    ) -> Result<StepPlan, Memory>
        ensures { (m : letters.Letter) → m.body ≡ letters.refused (letters.of_table namespace.now create (at_view at)) (letters.is_lack node.0 (lack_view lack)) →
            time.0 ≡ requested.heard (router_of self.now) m → IfOk result (λ p. IsHeard (router_of self.now) m p) }
    {
        let refusal = lack_refusal(node, lack);
        let requests = self.requests.as_slice();
        let all = self.all_without(time, namespace, create, at, &refusal, requests)?;
        let AllNext {
            fates,
            mail,
            replies,
        } = all;
        let change = Change::Learns(None, fates);
        Ok(self.hears_all(time, change, mail, replies))
    }

    // Returns the plan for a refusal, at a time of the router. Returns `Memory` if memory runs out.
    pub(crate) fn plan_refused(
        &self,
        sender: NodeId,
        time: Time,
        told: Refused,
    ) -> Result<StepPlan, Memory>
        ensures { (m : letters.Letter) → m.sender ≡ sender.0 → m.body ≡ refused_view told → time.0 ≡ requested.heard (router_of self.now) m →
            IfOk result (λ p. IsHeard (router_of self.now) m p) }
    {
        let Refused { about, cause } = told;
        match about {
            About::Request { id, turn, first } => {
                self.plan_request_refused(sender, time, id, turn, first, cause)
            }
            About::Table {
                namespace,
                create,
                at,
            } => match cause {
                Cause::Stale { .. } => Ok(self.late(time)),
                Cause::Lack { node, lack } => {
                    self.plan_table_refused(time, &namespace, create, at, node, lack)
                }
            },
        }
    }
}
