//! Mailboxes between threads.
#![tactic(auto)]

mod routes;

pub use routes::{Posted, Routes, Waiting};
