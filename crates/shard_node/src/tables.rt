//! Tables at a shard, and the requests that wait for them.

ghost use Rattle.std.specs.Prelude.{◌≡◌, ◌++◌, ◌∷◌, [], ℕ, Bool, List, IfOk, OnOk, Some, false, true, filter, map};
ghost use Rattle.std.specs.Arc.{arc_value};
ghost use Rattle.std.specs.List.{flat_map};
ghost use Rattle.chunk_table.specs.Meanings.{version_view};
ghost use Rattle.chunk_table.specs.Tables.{table_of};
ghost use Rattle.chunk_table.specs.Verdicts.{router_is_old, shard_is_old, verdict_of};
ghost use Rattle.node_traits.specs.Letters as letters;
ghost use Rattle.node_traits.specs.Letters.{Letter, is_lack, letter_input, moment_input, no_time, of_request, of_table, refused, table_told};
ghost use Rattle.node_traits.specs.ShardRows.{Ask, ask_in, asks_again, asks_table, heard, index_shown, is_news, refuses, says, tries, wants_table, was_seen};
ghost use Rattle.protocol_model.specs.Messages.{letter_of};
ghost use Rattle.protocol_model.specs.Refusals.{cause_view, lack_view};
ghost use Rattle.shard_requests.specs.Asks.{ask_view};
ghost use Rattle.shard_node.specs.Plans.{Follows, IsPlanned};
ghost use Rattle.shard_node.specs.State.{shard_view};

use crate::node::ShardNode;
use crate::plan::{Change, StepPlan};
use bson_values::Memory;
use chunk_table::{Table, Version};
use cluster_base::{Namespace, NodeId, Time, moment_time};
use node_traits::MailList;
use protocol_model::{At, Body, Cause, Message, TableAsk};
use shard_requests::{
    Ask as Asked, NoTable, ask_in, is_news, is_parked, later, refused_by, table_records,
    wants_table,
};
use std::alloc::Global;
use std::sync::Arc;

/// The number of the catalogue.
const CATALOGUE: NodeId = NodeId(0);

impl ShardNode {
    // Returns the message that requests a table, or `Memory` if memory runs out.
    fn ask_table(&self, time: Time, namespace: &Namespace) -> Result<Message, Memory>
        ensures { IfOk result (λ m. letter_of m ≡ asks_table (shard_view self.now) time.0 namespace.now) }
    {
        let ask = TableAsk {
            namespace: namespace.copy()?,
            create: false,
            at: At::NoTime,
        };
        Ok(self.message(CATALOGUE, time, Body::TableAsk(ask)))
    }

    // Returns the plan for a request that waits for a table, which is requested once. Returns `Memory` if memory runs out.
    pub(crate) fn plan_wait(&self, time: Time, message: Message) -> Result<StepPlan, Memory>
        requires time { time.0 ≡ heard (shard_view self.now) (letter_of message) }
        requires unseen { was_seen (letter_of message).body (shard_view self.now).entries ≡ false }
        requires old { (a : Ask) × (ask_in (letter_of message).body ≡ Some a)
            × (verdict_of a.sent self.now.me.0 (table_of a.namespace self.now.tables.tables) ≡ shard_is_old) }
        ensures planned { IfOk result (λ p. IsPlanned (shard_view self.now) (letter_input (letter_of message)) p) }
        ensures follows { IfOk result (λ p. Follows self.now p) }
    {
        let Some(ask) = ask_in(&message.body) else {
            return Ok(StepPlan::of_time(self.alloc, time));
        };
        if is_parked(&self.parked, &ask) {
            return Ok(StepPlan::of_time(self.alloc, time));
        }
        let asked = self.ask_table(time, ask.namespace)?;
        Ok(StepPlan {
            time,
            mail: MailList::of_one(self.alloc, asked),
            records: Vec::new(self.alloc),
            change: Change::Park(message),
        })
    }

    // Returns the message that a request is not served.
    fn refusal(&self, time: Time, ask: &Asked<'_>, cause: Cause) -> Message
        ensures { letter_of result ≡ says (shard_view self.now) ask.now.id.router.0 time.0 (refused
            (of_request (ask_view ask.now).id (ask_view ask.now).turn (index_shown (ask_view ask.now).first)) (cause_view cause)) }
    {
        self.message(ask.id.router, time, Body::Refused(refused_by(ask, cause)))
    }

    // Returns the plan for a request that was sent with an older table: it is not served.
    pub(crate) fn plan_stale(&self, time: Time, message: &Message, met: Version) -> StepPlan
        requires time { time.0 ≡ heard (shard_view self.now) (letter_of message.now) }
        requires unseen { was_seen (letter_of message.now).body (shard_view self.now).entries ≡ false }
        requires old { (a : Ask) × (ask_in (letter_of message.now).body ≡ Some a)
            × (verdict_of a.sent self.now.me.0 (table_of a.namespace self.now.tables.tables) ≡ router_is_old (version_view met)) }
        ensures planned { IsPlanned (shard_view self.now) (letter_input (letter_of message.now)) result }
        ensures follows { Follows self.now result }
    {
        let Some(ask) = ask_in(&message.body) else {
            return StepPlan::of_time(self.alloc, time);
        };
        let told = self.refusal(time, &ask, Cause::Stale { met });
        StepPlan::of_message(self.alloc, time, told)
    }

    // Requests the table of a request that waits, after other messages. Returns `Memory` if memory runs out.
    fn ask_again(
        &self,
        time: Time,
        parked: &Message,
        mail: &mut MailList<Message>,
    ) -> Result<(), Memory>
        ensures { OnOk result (map letter_of mail.new ≡ map letter_of mail.old ++ asks_again (shard_view self.now) time.0 (letter_of parked.now ∷ [])) }
    {
        if let Some(ask) = ask_in(&parked.body) {
            mail.push(self.ask_table(time, ask.namespace)?)?;
        }
        Ok(())
    }

    // Returns the plan for a moment: the table of each request that waits is requested again. Returns `Memory` if memory runs out.
    pub(crate) fn plan_moment(&self, moment: u64) -> Result<StepPlan, Memory>
        ensures planned { IfOk result (λ p. IsPlanned (shard_view self.now) (moment_input moment) p) }
        ensures follows { IfOk result (λ p. Follows self.now p) }
    {
        let time = later(self.time, moment_time(moment));
        let mut mail = MailList::new(self.alloc);
        for message in &self.parked {
            self.ask_again(time, message, &mut mail)?;
        }
        Ok(StepPlan::of_mail(self.alloc, time, mail))
    }

    // What waited is tried again, if it waited for this table, after other messages. Returns `Memory` if memory runs out.
    fn try_again(
        &self,
        time: Time,
        namespace: &Namespace,
        parked: &Message,
        mail: &mut MailList<Message>,
    ) -> Result<(), Memory>
        ensures { OnOk result (map letter_of mail.new
            ≡ map letter_of mail.old ++ tries (shard_view self.now) time.0 (filter (wants_table namespace.now) (letter_of parked.now ∷ []))) }
    {
        if wants_table(parked, namespace) {
            let body = parked.body.copy(self.alloc)?;
            mail.push(self.message(self.me, time, body))?;
        }
        Ok(())
    }

    // Returns all that waited for the table of a collection, in order, as messages to the shard itself. Returns `Memory` if memory runs out.
    fn tries(&self, time: Time, namespace: &Namespace) -> Result<MailList<Message>, Memory>
        ensures { IfOk result (λ mail. map letter_of mail
            ≡ tries (shard_view self.now) time.0 (filter (wants_table namespace.now) (shard_view self.now).parked)) }
    {
        let mut mail = MailList::new(self.alloc);
        for message in &self.parked {
            self.try_again(time, namespace, message, &mut mail)?;
        }
        Ok(mail)
    }

    // Returns the plan for a table that arrives: one that is new is stored, and what waited for it is tried again. Returns `Memory` if memory runs out.
    pub(crate) fn plan_table(
        &self,
        time: Time,
        table: Arc<Table, Global>,
    ) -> Result<StepPlan, Memory>
        ensures planned { (m : Letter) (namespace : List ℕ) (create : Bool) (at : letters.At) → m.body ≡ table_told namespace create at (Some (arc_value table))
            → time.0 ≡ heard (shard_view self.now) m → IfOk result (λ p. IsPlanned (shard_view self.now) (letter_input m) p) }
        ensures follows { IfOk result (λ p. Follows self.now p) }
    {
        if is_news(&self.tables, &table) {
            return self.learn(time, table);
        }
        Ok(StepPlan::of_time(self.alloc, time))
    }

    // Returns the plan for a table that is new, which is stored, and what waited for it is tried again. Returns `Memory` if memory runs out.
    fn learn(&self, time: Time, table: Arc<Table, Global>) -> Result<StepPlan, Memory>
        requires news { is_news (arc_value table) (table_of (arc_value table).namespace self.now.tables.tables) ≡ true }
        ensures planned { (m : Letter) (namespace : List ℕ) (create : Bool) (at : letters.At) → m.body ≡ table_told namespace create at (Some (arc_value table))
            → time.0 ≡ heard (shard_view self.now) m → IfOk result (λ p. IsPlanned (shard_view self.now) (letter_input m) p) }
        ensures follows { IfOk result (λ p. Follows self.now p) }
    {
        let records = table_records(self.alloc, &table)?;
        let mail = self.tries(time, table.namespace())?;
        Ok(StepPlan {
            time,
            mail,
            records,
            change: Change::Learn(table),
        })
    }

    // Returns to its router that the table of a request that waits can't be had, if it waits for this one, after other messages. Returns `Memory` if memory
    // runs out.
    fn refuse(
        &self,
        time: Time,
        missing: &NoTable,
        parked: &Message,
        mail: &mut MailList<Message>,
    ) -> Result<(), Memory>
        ensures { OnOk result (map letter_of mail.new ≡ map letter_of mail.old
            ++ flat_map (refuses (shard_view self.now) time.0 missing.now.node.0 (lack_view missing.now.lack))
            (filter (wants_table missing.now.namespace) (letter_of parked.now ∷ []))) }
    {
        if !wants_table(parked, &missing.namespace) {
            return Ok(());
        }
        let Some(ask) = ask_in(&parked.body) else {
            return Ok(());
        };
        let cause = Cause::Lack {
            node: missing.node,
            lack: missing.lack,
        };
        mail.push(self.refusal(time, &ask, cause))
    }

    // Returns what the routers of all that waited for a table that can't be had learn, in order. Returns `Memory` if memory runs out.
    fn refusals(&self, time: Time, missing: &NoTable) -> Result<MailList<Message>, Memory>
        ensures { IfOk result (λ mail. map letter_of mail
            ≡ flat_map (refuses (shard_view self.now) time.0 missing.now.node.0 (lack_view missing.now.lack))
            (filter (wants_table missing.now.namespace) (shard_view self.now).parked)) }
    {
        let mut mail = MailList::new(self.alloc);
        for message in &self.parked {
            self.refuse(time, missing, message, &mut mail)?;
        }
        Ok(mail)
    }

    // Returns the plan for a table that can't be had: what waited for it waits no longer, and its routers learn why. Returns `Memory` if memory runs out.
    pub(crate) fn plan_no_table(&self, time: Time, missing: NoTable) -> Result<StepPlan, Memory>
        ensures planned { (m : Letter) → m.body ≡ refused (of_table missing.namespace false no_time) (is_lack missing.node.0 (lack_view missing.lack))
            → time.0 ≡ heard (shard_view self.now) m → IfOk result (λ p. IsPlanned (shard_view self.now) (letter_input m) p) }
        ensures follows { IfOk result (λ p. Follows self.now p) }
    {
        let mail = self.refusals(time, &missing)?;
        Ok(StepPlan {
            time,
            mail,
            records: Vec::new(self.alloc),
            change: Change::Release(missing.namespace),
        })
    }
}
