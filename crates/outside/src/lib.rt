//! The world outside the process as traits: streams of bytes, links of clients, a disk, a clock and a gate. Each error that they return has a cause that the
//! trait counts, and nothing else is counted. The standard implementations use the process's own streams, files and clock.
#![tactic(auto)]

pub mod clock;
pub mod disk;
pub mod examples;
pub mod exchange;
pub mod gate;
pub mod log;
pub mod standard;
pub mod streams;
pub mod witness;
