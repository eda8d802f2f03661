//! What drivers know of a node: its inputs, the messages and replies of a step, and its records in the journal.
#![tactic(auto)]

mod append;
mod count;
mod list;
mod mail;
mod node;
mod outputs;

pub use append::append_records;
pub use count::StepCount;
pub use list::SpareList;
pub use mail::Mail;
pub use node::Node;
pub use outputs::{MailList, NotTaken, Outputs, ReplyList, StepFault, ToLink};
