//! The results of pipelines on documents, whole and by halves (MongoDB manual, "Aggregation Pipeline").
#![tactic(auto)]

mod answers;
mod fault;
mod half;
mod kept;
mod lengths;
mod rows;
mod runs;
mod sorting;
mod steps;
mod tops;

pub use answers::eval;
pub use fault::EvalFault;
pub use half::{eval_half, share_all};
pub use kept::share_kept;
pub use lengths::MOST_BYTES_ANSWERED;
pub use rows::{PartCount, Rows};
pub use sorting::sorted;
pub use steps::counted;
