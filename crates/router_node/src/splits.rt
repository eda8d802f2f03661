//! The steps of splits.

use crate::node::RouterNode;
use crate::step_plan::{Change, StepPlan};
use bson_values::Memory;
use cluster_base::{RequestId, Time};
use protocol_model::SplitDone;
use router_replies::split_answer;
use router_requests::{OpenRequest, Work};

impl RouterNode {
    ghost use Rattle.std.specs.Prelude.{◌≡◌, IfOk, Some};
    ghost use Rattle.bson_model.specs.Tree.{Datum};
    ghost use Rattle.node_model.specs.Letters.{Letter, split_done};
    ghost use Rattle.node_model.specs.RouterRequests as requested;
    ghost use Rattle.node_model.specs.RouterRows as rows;
    ghost use Rattle.node_model.specs.States.{splitting};
    ghost use Rattle.node_traits.specs.Ids.{id_view};
    ghost use Rattle.protocol_model.specs.Bodies.{split_done_view};
    ghost use Rattle.router_requests.specs.Works.{open_view};
    ghost use Rattle.router_node.specs.RouterStates.{router_of};
    ghost use Rattle.router_node.specs.StepPlans.{IsHeard};

    // Returns the plan to answer an open split, at a time of the router. Returns `Memory` if memory runs out.
    fn plan_found(
        &self,
        time: Time,
        id: RequestId,
        request: &OpenRequest,
        found: bool,
    ) -> Result<StepPlan, Memory>
        requires open { rows.open_of (router_of self.now) (id_view id) ≡ Some (open_view self.now.me.0 self.now.life request.now) }
        ensures { (m : Letter) (middle : Datum) → m.body ≡ split_done (id_view id) found → time.0 ≡ requested.heard (router_of self.now) m →
            (open_view self.now.me.0 self.now.life request.now).work ≡ splitting middle → IfOk result (λ p. IsHeard (router_of self.now) m p) }
    {
        let answer = split_answer(found, time);
        let reply = self.answered(request, &answer)?;
        Ok(self.hears(time, Change::Closes(request.count), None, reply))
    }

    // Returns the plan for the catalogue's answer to a split, at a time of the router. Returns `Memory` if memory runs out.
    pub(crate) fn plan_split_done(&self, time: Time, told: SplitDone) -> Result<StepPlan, Memory>
        ensures { (m : Letter) → m.body ≡ split_done_view told → time.0 ≡ requested.heard (router_of self.now) m →
            IfOk result (λ p. IsHeard (router_of self.now) m p) }
    {
        match self.open_of(told.id) {
            None => Ok(self.late(time)),
            Some(request) => match &request.work {
                Work::Writing(_) => Ok(self.late(time)),
                Work::Reading(_) => Ok(self.late(time)),
                Work::Sharding => Ok(self.late(time)),
                Work::Splitting(_) => self.plan_found(time, told.id, request, told.found),
            },
        }
    }
}
