//! The plan of a step, before it is taken.

ghost use Rattle.std.specs.Prelude.{◌≡◌};
ghost use Rattle.node_traits.specs.Lists.{listed};

use crate::mail::mail_of;
use crate::node::RouterNode;
use bson_values::{Blob, Document, Memory};
use chunk_table::Table;
use cluster_base::{Namespace, NodeId, Time};
use node_traits::{MailList, ReplyList, ToLink};
use pipeline_eval::Rows;
use protocol_model::{HalfFault, Message};
use read_parts::Target;
use router_requests::{Fate, OpenRequest, Stay, Wait};
use std::alloc::Global;
use std::collections::VecDeque;
use std::sync::Arc;

/// The change of the open requests and the cursors.
#[derive(Drop)]
pub(crate) enum Change {
    /// No change.
    Stays,
    /// One more request was taken, and is answered at once.
    Counts,
    /// One more request was taken, and is open.
    Opens(Box<OpenRequest>),
    /// The one with this count is answered.
    Closes(u64),
    /// The read with this count reads at the time that is reached, unless it named one, and waits for this; it was sent to these shards.
    Reaches(u64, Wait, Vec<Target>),
    /// These shards have returned their time to the read with this count.
    Told(u64, Vec<NodeId>),
    /// This shard has returned its part to the read with this count.
    Gains(u64, NodeId, Result<Rows, HalfFault>),
    /// The one with this count stays open like this.
    Goes(u64, Stay),
    /// A table that arrived is stored, if one did, and this becomes of the open requests, in their order.
    Learns(Option<Arc<Table, Global>>, Vec<Fate>),
    /// The one with this count is answered with its first batch, and a cursor has the other documents.
    Shelves(u64, NewCursor),
    /// One more request was taken, and is answered with this number of documents of the cursor of this number.
    Advances(i64, usize),
    /// One more request was taken, and closes the cursors of these numbers.
    Ends(Vec<i64>),
}

/// A cursor that is opened: the documents that it has not shown yet, of a namespace at a time.
#[derive(Drop)]
pub(crate) struct NewCursor {
    pub(crate) namespace: Namespace,
    pub(crate) time: Time,
    pub(crate) rest: VecDeque<Arc<Document, Global>>,
}

/// What a step will write, send and reply, and the router after it: at which time and moment, in its life or not, and the change of its open requests and
/// tables.
#[derive(Drop)]
pub(crate) struct StepPlan {
    pub(crate) time: Time,
    pub(crate) moment: u64,
    pub(crate) begun: bool,
    pub(crate) change: Change,
    pub(crate) mail: MailList<Message>,
    pub(crate) replies: ReplyList,
    pub(crate) records: Vec<Blob>,
}

/// Returns the list of the reply, if there is one.
fn replies_of(alloc: Global, reply: Option<ToLink>) -> ReplyList
    ensures { result ≡ listed reply }
{
    match reply {
        Some(reply) => ReplyList::of_one(alloc, reply),
        None => ReplyList::new(alloc),
    }
}

impl RouterNode {
    ghost use Rattle.std.specs.Prelude.{◌≡◌, [], List, IfOk, true, map};
    ghost use Rattle.node_model.specs.Journal.{Kept};
    ghost use Rattle.node_traits.specs.Effects.{spellings};
    ghost use Rattle.node_traits.specs.Lists.{listed};
    ghost use Rattle.router_requests.specs.Askers.{letters_of};
    ghost use Rattle.protocol_model.specs.Messages.{letter_of};
    ghost use Rattle.router_node.specs.RouterStates.{router_of};
    ghost use Rattle.router_node.specs.StepPlans.{Hears, HearsKeeping, Starts};
    ghost use Rattle.router_node.specs.declared.step_plan.Change.TheVariants.{Stays};

    // Returns a plan at a time with this change, these messages and these replies. Takes no memory.
    pub(crate) fn hears_all(
        &self,
        time: Time,
        change: Change,
        mail: MailList<Message>,
        replies: ReplyList,
    ) -> StepPlan
        ensures { Hears (router_of self.now) time.0 change (map letter_of mail) replies result }
    {
        StepPlan {
            time,
            moment: self.moment,
            begun: self.begun,
            change,
            mail,
            replies,
            records: Vec::new(self.alloc),
        }
    }

    // Returns a plan at a time with this change, this message and this reply. Takes no memory.
    pub(crate) fn hears(
        &self,
        time: Time,
        change: Change,
        message: Option<Message>,
        reply: Option<ToLink>,
    ) -> StepPlan
        ensures { Hears (router_of self.now) time.0 change (letters_of message) (listed reply) result }
    {
        let mail = mail_of(self.alloc, message);
        let replies = replies_of(self.alloc, reply);
        StepPlan {
            time,
            moment: self.moment,
            begun: self.begun,
            change,
            mail,
            replies,
            records: Vec::new(self.alloc),
        }
    }

    // Returns a plan at a time with these records, this change and this reply. Takes no memory.
    pub(crate) fn hears_keeping(
        &self,
        time: Time,
        change: Change,
        reply: Option<ToLink>,
        records: Vec<Blob>,
    ) -> StepPlan
        ensures { (kept : List Kept) → records.items ≡ spellings kept → HearsKeeping (router_of self.now) time.0 change (listed reply) kept result }
    {
        let replies = replies_of(self.alloc, reply);
        StepPlan {
            time,
            moment: self.moment,
            begun: self.begun,
            change,
            mail: MailList::new(self.alloc),
            replies,
            records,
        }
    }

    // Returns a plan that changes only the time.
    pub(crate) fn late(&self, time: Time) -> StepPlan
        ensures { Hears (router_of self.now) time.0 Stays [] [] result }
    {
        StepPlan {
            time,
            moment: self.moment,
            begun: self.begun,
            change: Change::Stays,
            mail: MailList::new(self.alloc),
            replies: ReplyList::new(self.alloc),
            records: Vec::new(self.alloc),
        }
    }

    // Returns a plan with this reply before which the life begins, if it did not begin. Returns `Memory` if memory runs out.
    pub(crate) fn starts(
        &self,
        time: Time,
        moment: u64,
        change: Change,
        mail: MailList<Message>,
        reply: Option<ToLink>,
    ) -> Result<StepPlan, Memory>
        ensures { IfOk result (λ p. Starts (router_of self.now) time.0 moment change (map letter_of mail) (listed reply) p) }
    {
        let replies = replies_of(self.alloc, reply);
        self.starts_all(time, moment, change, mail, replies)
    }

    // Returns a plan with these replies before which the life begins, if it did not begin. Returns `Memory` if memory runs out.
    pub(crate) fn starts_all(
        &self,
        time: Time,
        moment: u64,
        change: Change,
        mail: MailList<Message>,
        replies: ReplyList,
    ) -> Result<StepPlan, Memory>
        ensures { IfOk result (λ p. Starts (router_of self.now) time.0 moment change (map letter_of mail) replies p) }
    {
        let records = self.life_records()?;
        Ok(StepPlan {
            time,
            moment,
            begun: true,
            change,
            mail,
            replies,
            records,
        })
    }
}
