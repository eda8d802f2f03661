//! The steps of open reads.

ghost use Rattle.std.specs.Prelude.{◌≡◌, ◌≢◌, ◌⊎◌, true, false, map};
ghost use Rattle.node_model.specs.RouterRequests as requested;
ghost use Rattle.node_model.specs.RouterNext as nexts;
ghost use Rattle.node_model.specs.RouterRows as rows;
ghost use Rattle.read_parts.specs.Parts.{target_view};
ghost use Rattle.write_runs.specs.Runs.{tries_view};

use crate::node::RouterNode;
use crate::step_plan::{Change, StepPlan};
use bson_values::Memory;
use cluster_base::{NodeId, RequestId, Time};
use command_replies::Answer;
use node_traits::ReplyList;
use protocol_model::{ReadRows, TimeTold, Try};
use read_parts::{Target, is_target};
use router_replies::{reply_to, time_ahead};
use router_requests::{OpenRead, OpenRequest, Sends, Wait, Work, also_told, has_come, spare_list};
use write_runs::is_turn;

/// Returns whether rows are a part of a read that was sent to these shards in the turn after these tries: they are of that turn, and from one of them.
fn is_part(turn: u32, sender: NodeId, tries: &[Try], targets: &[Target]) -> bool
    ensures turn { result ≡ true → turn ≡ requested.turn_after (tries_view tries.now) }
    ensures sent { result ≡ true → nexts.is_target sender.0 (map target_view targets.now) ≡ true }
    ensures other { result ≡ false → (turn ≢ requested.turn_after (tries_view tries.now)) ⊎ (nexts.is_target sender.0 (map target_view targets.now) ≡ false) }
{
    is_turn(turn, tries) && is_target(sender, targets)
}

impl RouterNode {
    ghost use Rattle.std.specs.Prelude.{◌≡◌, ◌≤◌, ◌<◌, [], IfOk, Some};
    ghost use Rattle.node_model.specs.Letters.{Letter, time_told};
    ghost use Rattle.node_model.specs.States.{for_time};
    ghost use Rattle.router_requests.specs.Works.{open_view, read_view};
    ghost use Rattle.node_model.specs.RouterRequests as requested;
    ghost use Rattle.node_model.specs.RouterNext as nexts;
    ghost use Rattle.node_model.specs.RouterRows as rows;
    ghost use Rattle.node_traits.specs.Ids.{id_view};
    ghost use Rattle.protocol_model.specs.Bodies.{read_rows_view, time_told_view};
    ghost use Rattle.router_node.specs.RouterStates.{router_of};
    ghost use Rattle.router_node.specs.StepPlans.{IsHeard};

    // Returns the plan for the rows of a read that a shard returned, or `Memory` if memory runs out.
    pub(crate) fn plan_rows(
        &self,
        sender: NodeId,
        time: Time,
        told: ReadRows,
    ) -> Result<StepPlan, Memory>
        ensures { (m : Letter) → m.sender ≡ sender.0 → m.body ≡ read_rows_view told → time.0 ≡ requested.heard (router_of self.now) m →
            IfOk result (λ p. IsHeard (router_of self.now) m p) }
    {
        match self.open_of(told.id) {
            None => Ok(self.late(time)),
            Some(request) => match &request.work {
                Work::Writing(_) => Ok(self.late(time)),
                Work::Sharding => Ok(self.late(time)),
                Work::Splitting(_) => Ok(self.late(time)),
                Work::Reading(read) => {
                    if is_part(told.turn, sender, &request.tries, &request.targets) {
                        self.plan_part(sender, time, told.id, request, read, told.rows)
                    } else {
                        Ok(self.late(time))
                    }
                }
            },
        }
    }

    // Returns the plan with which an open read of a time that is reached proceeds, at a time of the router. Returns `Memory` if memory runs out.
    fn plan_go(
        &self,
        time: Time,
        id: RequestId,
        request: &OpenRequest,
        read: &OpenRead,
    ) -> Result<StepPlan, Memory>
        requires open { rows.open_of (router_of self.now) (id_view id) ≡ Some (open_view self.now.me.0 self.now.life request.now) }
        requires waits { (open_view self.now.me.0 self.now.life request.now).wait ≡ for_time }
        requires work { (open_view self.now.me.0 self.now.life request.now).work ≡ read_view read.now }
        requires come { read.now.at.0 ≤ time.0 }
        ensures { (m : Letter) → m.body ≡ time_told (id_view id) → time.0 ≡ requested.heard (router_of self.now) m →
            IfOk result (λ p. IsHeard (router_of self.now) m p) }
    {
        let sends = self.asker().read_on(
            self.alloc,
            time,
            request.count,
            &request.namespace,
            self.table_of(&request.namespace),
            true,
            read,
            read.at_reached(time),
            &request.tries,
        )?;
        let Sends {
            wait,
            targets,
            mail,
        } = sends;
        let change = Change::Reaches(id.count, wait, targets);
        let mail = spare_list(self.alloc, mail)?;
        let replies = ReplyList::new(self.alloc);
        Ok(self.hears_all(time, change, mail, replies))
    }

    // Returns the plan to refuse an open read of a time that is ahead of every shard, at a time of the router. Returns `Memory` if memory runs out.
    fn plan_ahead(
        &self,
        sender: NodeId,
        time: Time,
        id: RequestId,
        request: &OpenRequest,
        read: &OpenRead,
    ) -> Result<StepPlan, Memory>
        requires open { rows.open_of (router_of self.now) (id_view id) ≡ Some (open_view self.now.me.0 self.now.life request.now) }
        requires waits { (open_view self.now.me.0 self.now.life request.now).wait ≡ for_time }
        requires work { (open_view self.now.me.0 self.now.life request.now).work ≡ read_view read.now }
        requires ahead { time.0 < read.now.at.0 }
        requires all { requested.untold (nexts.also_told (open_view self.now.me.0 self.now.life request.now).told sender.0)
            (requested.shards_of (router_of self.now)) ≡ [] }
        ensures { (m : Letter) → m.sender ≡ sender.0 → m.body ≡ time_told (id_view id) → time.0 ≡ requested.heard (router_of self.now) m →
            IfOk result (λ p. IsHeard (router_of self.now) m p) }
    {
        let answer = Answer::Refused(time_ahead(time));
        let reply = reply_to(
            self.alloc,
            request.link,
            request.number,
            &request.head,
            &answer,
        )?;
        Ok(self.hears(time, Change::Closes(request.count), None, reply))
    }

    // Returns the plan for an open read of a time that is ahead, after a shard returned its time, at a time of the router. Returns `Memory` if memory runs
    // out.
    fn plan_hear(
        &self,
        sender: NodeId,
        time: Time,
        id: RequestId,
        request: &OpenRequest,
        read: &OpenRead,
    ) -> Result<StepPlan, Memory>
        requires open { rows.open_of (router_of self.now) (id_view id) ≡ Some (open_view self.now.me.0 self.now.life request.now) }
        requires waits { (open_view self.now.me.0 self.now.life request.now).wait ≡ for_time }
        requires work { (open_view self.now.me.0 self.now.life request.now).work ≡ read_view read.now }
        requires ahead { time.0 < read.now.at.0 }
        ensures { (m : Letter) → m.sender ≡ sender.0 → m.body ≡ time_told (id_view id) → time.0 ≡ requested.heard (router_of self.now) m →
            IfOk result (λ p. IsHeard (router_of self.now) m p) }
    {
        let told = also_told(self.alloc, &request.told, sender)?;
        if self.asker().have_all_told(&told) {
            return self.plan_ahead(sender, time, id, request, read);
        }
        Ok(self.hears(time, Change::Told(id.count, told), None, None))
    }

    // Returns the plan for an open read that waits for its time, after a shard returned its time, at a time of the router. Returns `Memory` if memory runs
    // out.
    fn plan_reached(
        &self,
        sender: NodeId,
        time: Time,
        id: RequestId,
        request: &OpenRequest,
        read: &OpenRead,
    ) -> Result<StepPlan, Memory>
        requires open { rows.open_of (router_of self.now) (id_view id) ≡ Some (open_view self.now.me.0 self.now.life request.now) }
        requires waits { (open_view self.now.me.0 self.now.life request.now).wait ≡ for_time }
        requires work { (open_view self.now.me.0 self.now.life request.now).work ≡ read_view read.now }
        ensures { (m : Letter) → m.sender ≡ sender.0 → m.body ≡ time_told (id_view id) → time.0 ≡ requested.heard (router_of self.now) m →
            IfOk result (λ p. IsHeard (router_of self.now) m p) }
    {
        if has_come(read.at, time) {
            self.plan_go(time, id, request, read)
        } else {
            self.plan_hear(sender, time, id, request, read)
        }
    }

    // Returns the plan for a read after a shard returned its time, at a time of the router. Returns `Memory` if memory runs out.
    pub(crate) fn plan_time(
        &self,
        sender: NodeId,
        time: Time,
        told: &TimeTold,
    ) -> Result<StepPlan, Memory>
        ensures { (m : Letter) → m.sender ≡ sender.0 → m.body ≡ time_told_view told.now → time.0 ≡ requested.heard (router_of self.now) m →
            IfOk result (λ p. IsHeard (router_of self.now) m p) }
    {
        match self.open_of(told.id) {
            None => Ok(self.late(time)),
            Some(request) => match &request.work {
                Work::Writing(_) => Ok(self.late(time)),
                Work::Sharding => Ok(self.late(time)),
                Work::Splitting(_) => Ok(self.late(time)),
                Work::Reading(read) => match request.wait {
                    Wait::ForCatalogue => Ok(self.late(time)),
                    Wait::ForShards => Ok(self.late(time)),
                    Wait::ForTime => self.plan_reached(sender, time, told.id, request, read),
                },
            },
        }
    }
}
