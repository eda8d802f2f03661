//! Moments.

use crate::all_next::AllNext;
use crate::node::RouterNode;
use crate::step_plan::{Change, StepPlan};
use bson_values::Memory;
use cluster_base::{Time, moment_time};
use router_requests::{Next, OpenRequest};

impl RouterNode {
    ghost use Rattle.std.specs.Prelude.{◌≡◌, IfOk, map};
    ghost use Rattle.node_model.specs.Letters.{moment_input};
    ghost use Rattle.node_model.specs.RouterNext as nexts;
    ghost use Rattle.router_requests.specs.Nexts.{next_view};
    ghost use Rattle.router_requests.specs.Works.{open_view};
    ghost use Rattle.router_node.specs.AllNext.{AreNext};
    ghost use Rattle.router_node.specs.RouterStates.{router_of};
    ghost use Rattle.router_node.specs.Rows.{started};
    ghost use Rattle.router_node.specs.StepPlans.{IsPlanned};

    // Returns what becomes of an open request at a moment. Returns `Memory` if memory runs out.
    fn next_at(&self, time: Time, moment: u64, request: &OpenRequest) -> Result<Next, Memory>
        ensures { IfOk result (λ next. nexts.at_moment (started (router_of self.now)) time.0 moment (open_view self.now.me.0 self.now.life request.now)
            ≡ next_view (router_of self.now) time.0 (open_view self.now.me.0 self.now.life request.now) next) }
    {
        let known = self.table_of(&request.namespace);
        self.asker()
            .at_moment(self.alloc, time, moment, known, request)
    }

    // Returns what becomes of these open requests at a moment, or `Memory` if memory runs out.
    fn all_at(
        &self,
        time: Time,
        moment: u64,
        requests: &[Box<OpenRequest>],
    ) -> Result<AllNext, Memory>
        ensures { IfOk result (λ all. AreNext (λ q. nexts.at_moment (started (router_of self.now)) time.0 moment q)
            (map (λ q. open_view self.now.me.0 self.now.life q.value) requests.now) all) }
    {
        let mut all = AllNext::with_room(self.alloc, requests.len())?;
        for request in requests {
            let next = self.next_at(time, moment, request)?;
            self.add_next(&mut all, time, request, next)?;
        }
        Ok(all)
    }

    // Returns the plan for a moment, or `Memory` if memory runs out.
    pub(crate) fn plan_moment(&self, moment: u64) -> Result<StepPlan, Memory>
        ensures { IfOk result (λ p. IsPlanned (router_of self.now) (moment_input moment) p) }
    {
        let time = self.time.max(moment_time(moment));
        let all = self.all_at(time, moment, self.requests.as_slice())?;
        let AllNext {
            fates,
            mail,
            replies,
        } = all;
        let change = Change::Learns(None, fates);
        self.starts_all(time, moment, change, mail, replies)
    }
}
