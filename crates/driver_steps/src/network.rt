//! Messages and replies on their way.

ghost use Rattle.std.specs.Prelude.{◌≡◌, ◌++◌, [], List, OnErr, OnOk};
ghost use Rattle.node_traits.specs.declared.outputs.ToLink.{ToLink};

use bson_values::Memory;
use node_traits::{MailList, Outputs, ToLink};
use std::alloc::Global;
use std::collections::VecDeque;
use std::mem;

/// Messages that wait to be delivered, in order of sending, and replies that were not handed on yet, in order.
#[derive(Drop)]
pub struct Network<M> {
    pub waiting: VecDeque<M>,
    pub replies: Vec<ToLink>,
}

/// Appends messages to others, in order. After an `Err` some may have been appended.
fn put_behind<M: Drop>(mail: MailList<M>, waiting: &mut VecDeque<M>) -> Result<(), Memory>
    ensures { OnOk result (waiting.new.items ≡ waiting.old.items ++ mail) }
{
    let (items, last) = mail.into_parts();
    let mut items = VecDeque::from_vec(items);
    waiting.append(&mut items)?;
    if let Some(last) = last {
        waiting.push_back(last)?;
    }
    Ok(())
}

impl<M: Drop> Network<M> {
    /// Returns a network without messages and replies.
    pub fn new(alloc: Global) -> Network<M>
        ensures waiting { result.waiting.items ≡ [] }
        ensures replies { result.replies.items ≡ [] }
    {
        Network {
            waiting: VecDeque::new(alloc),
            replies: Vec::new(alloc),
        }
    }

    /// Queues what a step sends and returns. Returns `Memory` if memory runs out; then messages or replies of that step may be missing.
    pub fn take(&mut self, outputs: Outputs<M>) -> Result<(), Memory>
        ensures waiting { OnOk result (self.new.waiting.items ≡ self.old.waiting.items ++ outputs.mail) }
        ensures replies { OnOk result (self.new.replies.items ≡ self.old.replies.items ++ outputs.replies) }
        ensures missing { OnErr result ((missing : List ToLink) × (self.old.replies.items ++ outputs.replies ≡ self.new.replies.items ++ missing)) }
    {
        match outputs.replies.append_to(&mut self.replies) {
            Ok(()) => {}
            Err(e) => return Err(e),
        }
        match put_behind(outputs.mail, &mut self.waiting) {
            Ok(()) => Ok(()),
            Err(e) => Err(e),
        }
    }

    /// Hands the replies on, in order; none is left.
    pub fn hand_on(&mut self, alloc: Global) -> Vec<ToLink>
        ensures replies { result.items ≡ self.old.replies.items }
        ensures none { self.new.replies.items ≡ [] }
        ensures waiting { self.new.waiting.items ≡ self.old.waiting.items }
    {
        mem::replace(&mut self.replies, Vec::new(alloc))
    }
}
