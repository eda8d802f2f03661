//! Messages and replies of steps.

ghost use Rattle.std.specs.Prelude.{◌≡◌, map};
ghost use Rattle.router_requests.specs.Askers.{letters_of};
ghost use Rattle.protocol_model.specs.Messages.{letter_of};

use crate::node::RouterNode;
use bson_values::Memory;
use command_replies::Answer;
use node_traits::{MailList, ToLink};
use protocol_model::Message;
use router_replies::reply_to;
use router_requests::OpenRequest;
use std::alloc::Global;

/// Returns the list of the message, if there is one.
pub(crate) fn mail_of(alloc: Global, message: Option<Message>) -> MailList<Message>
    ensures { map (λ m. letter_of m) result ≡ letters_of message }
{
    match message {
        Some(message) => MailList::of_one(alloc, message),
        None => MailList::new(alloc),
    }
}

impl RouterNode {
    ghost use Rattle.std.specs.Prelude.{◌≡◌, ◌∷◌, [], ℕ, IfOk};
    ghost use Rattle.command_replies.specs.AnswerMeanings.{answer_view};
    ghost use Rattle.node_model.specs.RouterNext as nexts;
    ghost use Rattle.node_traits.specs.Effects.{puts_of};
    ghost use Rattle.node_traits.specs.Lists.{listed};
    ghost use Rattle.router_requests.specs.Works.{open_view};
    ghost use Rattle.router_node.specs.RouterStates.{router_of};

    // Returns the reply to an open request with this answer, at a time of the router, or none where none is requested. Returns `Memory` if memory runs out,
    // and where the answer is longer than allowed.
    pub(crate) fn answered(
        &self,
        request: &OpenRequest,
        answer: &Answer,
    ) -> Result<Option<ToLink>, Memory>
        ensures { (time : ℕ) → IfOk result (λ reply. listed reply
            ≡ puts_of (nexts.reply_to (router_of self.now) time (open_view self.now.me.0 self.now.life request.now) (answer_view answer.now) ∷ [])) }
    {
        reply_to(
            self.alloc,
            request.link,
            request.number,
            &request.head,
            answer,
        )
    }
}
