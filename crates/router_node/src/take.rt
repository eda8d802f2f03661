//! A step that is taken.

use crate::node::RouterNode;
use crate::step_plan::{Change, NewCursor, StepPlan};
use cluster_base::Time;
use node_traits::Outputs;
use protocol_model::Message;
use router_replies::learn;

impl RouterNode {
    ghost use Rattle.std.specs.Prelude.{◌≡◌};
    ghost use Rattle.router_node.specs.RouterStates.{router_of};
    ghost use Rattle.router_node.specs.StepPlans.{FollowsBy, HasRoomFor, IsReady, changed, router_then};

    // Sets the time and the moment, and whether the life began, and makes the planned change. Takes no memory.
    fn change(&mut self, time: Time, moment: u64, begun: bool, change: Change)
        requires follows { FollowsBy (router_of self.old) begun change }
        requires room { HasRoomFor self.old change }
        ensures state { router_of self.new ≡ changed (router_of self.old) time.0 begun moment change }
        ensures steps { self.new.steps ≡ self.old.steps }
    {
        self.time = time;
        self.moment = moment;
        self.begun = begun;
        match change {
            Change::Stays => {}
            Change::Counts => self.requests.count_one(),
            Change::Opens(request) => self.requests.push(request),
            Change::Closes(count) => self.requests.remove(count),
            Change::Reaches(count, wait, targets) => {
                self.requests.reach(count, time, wait, targets)
            }
            Change::Told(count, told) => self.requests.hear(count, told),
            Change::Gains(count, shard, rows) => self.requests.note_part(count, shard, rows),
            Change::Goes(count, stay) => self.requests.stay(count, stay),
            Change::Learns(table, fates) => {
                learn(&mut self.tables, &mut self.requests, table, fates)
            }
            Change::Shelves(count, opened) => {
                self.requests.remove(count);
                let NewCursor {
                    namespace,
                    time: at,
                    rest,
                } = opened;
                self.cursors.open(&namespace, at, rest)
            }
            Change::Advances(number, count) => {
                self.requests.count_one();
                self.cursors.advance(number, count)
            }
            Change::Ends(numbers) => {
                self.requests.count_one();
                self.cursors.close(&numbers)
            }
        }
    }

    // Changes the router as planned, and returns its messages and replies. Takes no memory.
    pub(crate) fn take(&mut self, plan: StepPlan) -> Outputs<Message>
        requires ready { IsReady self.old plan }
        ensures state { router_of self.new ≡ router_then (router_of self.old) plan }
        ensures mail { result.mail ≡ plan.mail }
        ensures replies { result.replies ≡ plan.replies }
        ensures steps { self.new.steps ≡ self.old.steps }
    {
        let StepPlan {
            time,
            moment,
            begun,
            change,
            mail,
            replies,
            records: _,
        } = plan;
        self.change(time, moment, begun, change);
        Outputs { mail, replies }
    }
}
