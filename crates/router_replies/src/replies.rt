//! Replies.

ghost use Rattle.std.specs.Prelude.{◌≡◌, ◌∷◌, [], ℕ, IfOk};
ghost use Rattle.command_model.specs.Answers.{answer_document};
ghost use Rattle.command_replies.specs.AnswerMeanings.{answer_view};
ghost use Rattle.base_model.specs.Identities as identities;
ghost use Rattle.node_traits.specs.Effects.{puts_of};
ghost use Rattle.node_traits.specs.Lists.{listed};
ghost use Rattle.opmsg_model.specs.Replies as wire;
ghost use Rattle.opmsg_frames.specs.RequestMeanings.{form_view};
ghost use Rattle.protocol_model.specs.Heads.{head_request};

use bson_values::{Blob, Memory};
use command_replies::{Answer, write_answer};
use node_traits::ToLink;
use opmsg_frames::write_reply;
use protocol_model::Head;
use std::alloc::Global;

/// The greatest number of levels of a document that is written.
const MOST_LEVELS: usize = 104;

/// The greatest number of bytes of a document that is written.
const MOST_BYTES: usize = 400_000_000;

/// Returns the bytes of the reply with this number to a request. Returns `Memory` if memory runs out, and where the answer is larger than allowed.
fn bytes_of(alloc: Global, head: &Head, number: i32, answer: &Answer) -> Result<Blob, Memory>
    ensures { IfOk result (λ bytes. bytes ≡ wire.reply_bytes (form_view head.now.form) head.now.id number (answer_document (answer_view answer.now))) }
{
    let document = write_answer(alloc, answer)?;
    if document.levels() > MOST_LEVELS || document.size() > MOST_BYTES {
        return Err(Memory);
    }
    let mut bytes = Vec::new(alloc);
    write_reply(head.form, head.id, number, &document, &mut bytes)?;
    Blob::of(alloc, &bytes)
}

/// Returns the reply with this number to a request, for its link, or none where none is requested. Returns `Memory` if memory runs out, and where the answer
/// is larger than allowed.
pub fn reply_to(
    alloc: Global,
    link: u32,
    number: i32,
    head: &Head,
    answer: &Answer,
) -> Result<Option<ToLink>, Memory>
    ensures { (id : identities.RequestId) (time : ℕ) → IfOk result (λ reply. listed reply ≡ puts_of (record {
      id = id;
      link = link;
      number = number;
      request = head_request head.now;
      time = time;
      document = answer_document (answer_view answer.now);
    } ∷ [])) }
{
    if head.more {
        return Ok(None);
    }
    let bytes = bytes_of(alloc, head, number, answer)?;
    Ok(Some(ToLink { link, bytes }))
}
