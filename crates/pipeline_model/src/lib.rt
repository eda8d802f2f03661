//! What pipelines answer, whole and split over parts of the documents (MongoDB manual, "Aggregation Pipeline"). Definitions, and what
//! the code above cites of them.
#![tactic(auto)]
