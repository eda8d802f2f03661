//! The command of a request, or its first refusal with its evidence. Definitions, and lemmas that other crates use.
#![tactic(auto)]
