//! What is known of each cursor.

use cluster_base::Time;

/// The number of a cursor, and the time at which its documents were read.
#[derive(Clone, Copy, Debug, PartialEq, Eq)]
pub struct Mark {
    pub number: u64,
    pub time: Time,
}
