//! Requests about cursors.

use crate::clients::Asked;
use crate::node::RouterNode;
use crate::step_plan::{Change, StepPlan};
use bson_values::Memory;
use command_replies::Answer;
use command_words::{GetMore, KillCursors};
use cursor_shelf::{Batch as Shown, ShelfFault};
use node_traits::MailList;
use router_replies::{next_answer, not_open, reply_to};

impl RouterNode {
    ghost use Rattle.std.specs.Prelude.{◌≡◌, ◌<◌, ◌+◌, ◌-◌, ◌^◌, IfOk, None, Some, length};
    ghost use Rattle.command_model.specs.Command.{command_of};
    ghost use Rattle.command_words.specs.Commands.{kill_view, more_view};
    ghost use Rattle.reply_model.specs.Cursors.{Cursor, ShowsNext, open_cursor};
    ghost use Rattle.node_model.specs.Letters.{client_input};
    ghost use Rattle.node_model.specs.RouterRequests as requested;
    ghost use Rattle.router_requests.specs.Lists.{taken_of};
    ghost use Rattle.protocol_model.specs.Heads.{head_request};
    ghost use Rattle.router_cursors.specs.CursorLists.{advanced, batch_of};
    ghost use Rattle.router_node.specs.RouterStates.{router_of};
    ghost use Rattle.router_node.specs.Rows.{started};
    ghost use Rattle.router_node.specs.StepPlans.{IsPlanned};

    // Returns the plan to answer with the next batch of a cursor; a request that gets no reply does not change the cursor. Returns `Memory` if memory runs
    // out.
    fn plan_next(&self, asked: Asked, more: GetMore, shown: Shown) -> Result<StepPlan, Memory>
        requires few { taken_of self.now.requests < 2 ^ 64 - 1 }
        requires plan { requested.plan_of (started (router_of self.now))
            (requested.id_of (router_of self.now) (taken_of self.now.requests + 1)) asked.head.more (command_of (head_request asked.head))
            ≡ requested.needs_batch (more_view more) }
        requires shows { (c : Cursor)
            × (open_cursor (requested.id_of (router_of self.now) (taken_of self.now.requests + 1)) more.cursor more.namespace (router_of self.now).cursors ≡ Some c)
            × ShowsNext (requested.id_of (router_of self.now) (taken_of self.now.requests + 1)) more.size (router_of self.now).cursors c
            (batch_of more.cursor more.namespace shown)
            (advanced (requested.id_of (router_of self.now) (taken_of self.now.requests + 1)) more.cursor (length shown.documents.items)
            (router_of self.now).cursors) }
        ensures { IfOk result (λ p. IsPlanned (router_of self.now) (client_input asked.link asked.number (head_request asked.head)) p) }
    {
        let cursor = more.cursor;
        let count = shown.documents.len();
        let answer = next_answer(more, shown);
        let Asked {
            link,
            number,
            head,
            limit: _,
        } = asked;
        let reply = reply_to(self.alloc, link, number, &head, &answer)?;
        let mail = MailList::new(self.alloc);
        if head.more {
            self.starts(self.time, self.moment, Change::Counts, mail, reply)
        } else {
            let change = Change::Advances(cursor, count);
            self.starts(self.time, self.moment, change, mail, reply)
        }
    }

    // Returns the plan for a request of the next batch of a cursor that is not open, or `Memory` if memory runs out.
    fn plan_not_open(&self, asked: Asked, more: GetMore) -> Result<StepPlan, Memory>
        requires few { taken_of self.now.requests < 2 ^ 64 - 1 }
        requires plan { requested.plan_of (started (router_of self.now))
            (requested.id_of (router_of self.now) (taken_of self.now.requests + 1)) asked.head.more (command_of (head_request asked.head))
            ≡ requested.needs_batch (more_view more) }
        requires none { open_cursor (requested.id_of (router_of self.now) (taken_of self.now.requests + 1)) more.cursor more.namespace
            (router_of self.now).cursors ≡ None }
        ensures { IfOk result (λ p. IsPlanned (router_of self.now) (client_input asked.link asked.number (head_request asked.head)) p) }
    {
        let answer = Answer::Refused(not_open(more.cursor));
        let Asked {
            link,
            number,
            head,
            limit: _,
        } = asked;
        let reply = reply_to(self.alloc, link, number, &head, &answer)?;
        let mail = MailList::new(self.alloc);
        self.starts(self.time, self.moment, Change::Counts, mail, reply)
    }

    // Returns the plan for a request of the next batch of a cursor, or `Memory` if memory runs out.
    pub(crate) fn plan_more(&self, asked: Asked, more: GetMore) -> Result<StepPlan, Memory>
        requires few { taken_of self.now.requests < 2 ^ 64 - 1 }
        requires plan { requested.plan_of (started (router_of self.now))
            (requested.id_of (router_of self.now) (taken_of self.now.requests + 1)) asked.head.more (command_of (head_request asked.head))
            ≡ requested.needs_batch (more_view more) }
        ensures { IfOk result (λ p. IsPlanned (router_of self.now) (client_input asked.link asked.number (head_request asked.head)) p) }
    {
        match self
            .cursors
            .next_batch(more.cursor, &more.namespace, more.size)
        {
            Ok(shown) => self.plan_next(asked, more, shown),
            Err(ShelfFault::NotFound) => self.plan_not_open(asked, more),
            Err(ShelfFault::Memory) => Err(Memory),
        }
    }

    // Returns the plan for a request to close cursors, or `Memory` if memory runs out.
    pub(crate) fn plan_end(&self, asked: Asked, kill: KillCursors) -> Result<StepPlan, Memory>
        requires few { taken_of self.now.requests < 2 ^ 64 - 1 }
        requires plan { requested.plan_of (started (router_of self.now))
            (requested.id_of (router_of self.now) (taken_of self.now.requests + 1)) asked.head.more (command_of (head_request asked.head))
            ≡ requested.needs_end (kill_view kill) }
        ensures { IfOk result (λ p. IsPlanned (router_of self.now) (client_input asked.link asked.number (head_request asked.head)) p) }
    {
        let closing = self.cursors.closing(&kill.namespace, &kill.cursors)?;
        let closed = Vec::from_slice(self.alloc, &closing.killed)?;
        let answer = Answer::Killed {
            killed: closing.killed,
            missing: closing.missing,
        };
        let Asked {
            link,
            number,
            head,
            limit: _,
        } = asked;
        let reply = reply_to(self.alloc, link, number, &head, &answer)?;
        let mail = MailList::new(self.alloc);
        self.starts(self.time, self.moment, Change::Ends(closed), mail, reply)
    }
}
