//! What one history says of a request, a statement and an answer: what the laws of nodes cite. Lemmas alone.
#![tactic(auto)]
