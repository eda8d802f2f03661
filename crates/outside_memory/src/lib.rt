//! The outside in memory, for tests and theorems. Each form does exactly what its clauses say, and fails at exactly the
//! calls that its list names, or where memory runs out.
#![tactic(auto)]

mod acceptor;
mod call;
mod calls;
mod clock;
mod disk;
pub mod examples;
mod gate;
mod link;
mod plan;
mod sink;
mod source;

pub use acceptor::MemAcceptor;
pub use call::{Call, Piece};
pub use clock::{FixedClock, ListClock};
pub use disk::MemDisk;
pub use gate::OpenGate;
pub use link::MemLink;
pub use sink::MemSink;
pub use source::MemSource;
