//! What becomes of open requests.

ghost use Rattle.std.specs.Prelude.{◌≡◌, ◌++◌, OnOk, map};
ghost use Rattle.node_model.specs.RouterNext as nexts;
ghost use Rattle.node_model.specs.States as states;
ghost use Rattle.node_traits.specs.Lists.{listed};
ghost use Rattle.protocol_model.specs.Messages.{letter_of};
ghost use Rattle.router_requests.specs.Fates.{stay_of};
ghost use Rattle.router_node.specs.AllNext.{Adds};

use crate::node::RouterNode;
use bson_values::Memory;
use cluster_base::Time;
use command_replies::Answer;
use node_traits::{MailList, ReplyList, ToLink};
use protocol_model::Message;
use router_replies::{empty_answer, sharded_answer};
use router_requests::{Fate, Next, OpenRequest, Stay, add_all};
use std::alloc::Global;

/// What becomes of open requests, in their order, with the messages and the replies.
#[derive(Drop)]
pub(crate) struct AllNext {
    pub(crate) fates: Vec<Fate>,
    pub(crate) mail: MailList<Message>,
    pub(crate) replies: ReplyList,
}

impl AllNext {
    ghost use Rattle.std.specs.Prelude.{◌≡◌, [], IfOk};

    /// Returns what becomes of no request, with room for so many. Returns `Memory` if memory runs out.
    pub(crate) fn with_room(alloc: Global, count: usize) -> Result<AllNext, Memory>
        ensures fates { IfOk result (λ all. all.fates.items ≡ []) }
        ensures mail { IfOk result (λ all. all.mail ≡ []) }
        ensures replies { IfOk result (λ all. all.replies ≡ []) }
    {
        Ok(AllNext {
            fates: Vec::with_capacity(alloc, count)?,
            mail: MailList::new(alloc),
            replies: ReplyList::new(alloc),
        })
    }
}

/// Appends the reply to a request, if there is one. Returns `Memory` if memory runs out.
fn add_reply(replies: &mut ReplyList, reply: Option<ToLink>) -> Result<(), Memory>
    ensures { OnOk result (replies.new ≡ replies.old ++ listed reply) }
{
    match reply {
        Some(reply) => replies.push(reply),
        None => Ok(()),
    }
}

/// Appends an open request that stays open like this, and the messages that it sends. Returns `Memory` if memory runs out.
fn add_stay(all: &mut AllNext, stay: Stay, mail: Vec<Message>) -> Result<(), Memory>
    ensures { (q : states.Open) → OnOk result (Adds q (nexts.stays (stay_of q stay) (map (λ m. letter_of m) mail.items)) all.old all.new) }
{
    add_all(&mut all.mail, mail)?;
    all.fates.push(Fate::Stays(stay))?;
    Ok(())
}

impl RouterNode {
    ghost use Rattle.std.specs.Prelude.{◌≡◌, ℕ, OnOk};
    ghost use Rattle.command_replies.specs.AnswerMeanings.{answer_view};
    ghost use Rattle.node_model.specs.RouterNext as nexts;
    ghost use Rattle.router_requests.specs.Nexts.{next_view};
    ghost use Rattle.router_requests.specs.Works.{open_view};
    ghost use Rattle.router_node.specs.AllNext.{Adds};
    ghost use Rattle.router_node.specs.RouterStates.{router_of};

    // Appends the answer to an open request, which leaves. Returns `Memory` if memory runs out.
    fn add_told(
        &self,
        all: &mut AllNext,
        request: &OpenRequest,
        answer: &Answer,
    ) -> Result<(), Memory>
        ensures { (time : ℕ) → OnOk result (Adds (open_view self.now.me.0 self.now.life request.now)
            (nexts.is_told (nexts.reply_to (router_of self.now) time (open_view self.now.me.0 self.now.life request.now) (answer_view answer.now))) all.old all.new) }
    {
        let reply = self.answered(request, answer)?;
        add_reply(&mut all.replies, reply)?;
        all.fates.push(Fate::Leaves)?;
        Ok(())
    }

    // Appends what becomes of an open request at a time. Returns `Memory` if memory runs out.
    pub(crate) fn add_next(
        &self,
        all: &mut AllNext,
        time: Time,
        request: &OpenRequest,
        next: Next,
    ) -> Result<(), Memory>
        ensures { OnOk result (Adds (open_view self.now.me.0 self.now.life request.now)
            (next_view (router_of self.now) time.0 (open_view self.now.me.0 self.now.life request.now) next) all.old all.new) }
    {
        match next {
            Next::Stays(stay, mail) => add_stay(all, stay, mail),
            Next::IsTold(answer) => self.add_told(all, request, &answer),
            Next::IsEmpty(at, telling) => {
                let answer = empty_answer(self.alloc, &request.namespace, at, telling)?;
                self.add_told(all, request, &answer)
            }
            Next::IsSharded => {
                let answer = sharded_answer(&request.namespace, time)?;
                self.add_told(all, request, &answer)
            }
        }
    }
}
