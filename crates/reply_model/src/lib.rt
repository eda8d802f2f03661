//! Requests with what their routers knew and their replies, and which of these are right by one history. Definitions.
#![tactic(auto)]
