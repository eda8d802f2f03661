//! The outcomes of the statements of a write, how a write goes on that met a later table or is given up, and the joint answer.
#![tactic(auto)]

mod answers;
mod copies;
mod given;
mod noted;
mod stale;
mod told;

pub use answers::answer_of;
pub use given::given_up;
pub use noted::{is_answered, none_yet, note};
pub use stale::{after_stale, refusal_by};
