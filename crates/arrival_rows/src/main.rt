//! Checks rows of data about the recipient in a move: what it does with batches that arrive late or again. It prints how many rows hold, and
//! each row that does not.
#![tactic(auto)]

mod arrivals;

use crate::arrivals::Arrivals;
use fixtures::check_file;
use std::io;
use value_compare::{Bound, KeyRange};

fn main(rt: HostRuntime) -> io::Result<()> {
    match KeyRange::new(Bound::MinKey, Bound::MaxKey) {
        Some(range) => check_file(&rt, "arrivals.txt", &mut Arrivals::new(rt.alloc(), range)),
        None => Ok(()),
    }
}
