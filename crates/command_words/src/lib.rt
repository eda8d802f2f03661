//! Commands as values: the commands of requests.
#![tactic(auto)]

mod aggregate;
mod command;
mod count;
mod draft;
mod end_sessions;
mod fault;
mod find;
mod forms;
mod get_more;
mod handshake;
mod hello;
mod is_master;
mod kill_cursors;
mod limit;
mod ping;
mod reading;
mod shard_collection;
mod split;
mod writes;

pub use command::Command;
pub use fault::CommandFault;
pub use find::Find;
pub use get_more::GetMore;
pub use is_master::Legacy;
pub use kill_cursors::KillCursors;
pub use limit::time_limit;
pub use reading::{Batches, Reading};
pub use split::SplitCommand;
pub use writes::WriteCommand;
