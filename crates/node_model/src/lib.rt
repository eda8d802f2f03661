//! What nodes are and may do: their messages, their states, the rows of their steps, and the runs of all of them. Definitions.
#![tactic(auto)]
