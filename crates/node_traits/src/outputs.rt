//! What a step sends.

ghost use Rattle.std.specs.Prelude.{◌≡◌};
ghost use Rattle.node_traits.specs.declared.outputs.NotTaken.TheVariants.{Memory as out_of_memory};
ghost use Rattle.node_traits.specs.Faults.{cause_of};

use crate::list::SpareList;
use bson_values::{Blob, Memory};

/// The bytes of a reply, for a link.
#[derive(Drop)]
pub struct ToLink {
    /// The number of the link on which the request came.
    pub link: u32,
    /// A whole message.
    pub bytes: Blob,
}

/// Messages, in the order of sending.
pub type MailList<M> = SpareList<M>;

/// Replies, in order.
pub type ReplyList = SpareList<ToLink>;

/// The messages and the replies of a step. Both are sent once its records are in the journal.
#[derive(Drop)]
pub struct Outputs<M: Drop> {
    pub mail: MailList<M>,
    pub replies: ReplyList,
}

/// Why a step was not taken.
#[derive(Clone, Copy, Debug, PartialEq, Eq)]
pub enum NotTaken {
    /// The disk of the log failed; its count of faults is shown. The log and the node must be reopened.
    Disk { faults: u64 },
    /// The node is at its last step: its count of steps, or a time, is at its end.
    Steps,
    /// Out of memory. The node and the log are unchanged.
    Memory,
}

impl From<Memory> for NotTaken {
    ghost from_gives = { λ _ e. e ≡ out_of_memory };

    fn from(_e: Memory) -> NotTaken {
        NotTaken::Memory
    }
}

/// A step that was not taken, and what is returned of it: who sent a request learns that it was not served.
#[derive(Drop)]
pub enum StepFault<M: Drop> {
    /// The disk of the log failed; its count of faults is shown. The log and the node must be reopened.
    Disk { faults: u64 },
    /// The node is at its last step: its count of steps, or a time, is at its end.
    Steps { told: Outputs<M> },
    /// Out of memory. The node and the log are unchanged.
    Memory { told: Outputs<M> },
}

impl<M: Drop> StepFault<M> {
    /// Returns why the step was not taken.
    pub fn cause(&self) -> NotTaken
        ensures { result ≡ cause_of self.now }
    {
        match self {
            StepFault::Disk { faults } => NotTaken::Disk { faults: *faults },
            StepFault::Steps { .. } => NotTaken::Steps,
            StepFault::Memory { .. } => NotTaken::Memory,
        }
    }
}
