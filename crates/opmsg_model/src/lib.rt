//! Which requests the bytes of a connection contain, with all parts of a message, and which bytes a reply has (MongoDB Wire Protocol, "OP_MSG", "OP_QUERY",
//! "OP_REPLY"). Definitions, and worked examples.
#![tactic(auto)]

pub mod examples;
