//! Groups of documents (MongoDB manual, "$group").
#![tactic(auto)]

mod absorb;
mod copies;
mod documents;
mod fault;
mod groups;
mod key;
mod laws;
mod own;
mod parser;
mod partials;
mod sizes;
mod spec;

pub use fault::GroupFault;
pub use groups::Groups;
pub use laws::rows_stand_for_documents;
pub use partials::PartialList;
pub use spec::GroupSpec;
