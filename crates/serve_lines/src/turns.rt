//! Whose turn it is.

use std::sync::{Condvar, Mutex, Wait};

/// How many replies were written, on all links together.
#[derive(Drop)]
pub struct Turns {
    replies: Mutex<u64>,
    more: Condvar,
}

impl Turns {
    /// Returns the count before the first reply.
    pub fn new() -> Turns {
        Turns {
            replies: Mutex::new(0),
            more: Condvar::new(),
        }
    }

    /// Counts a reply.
    pub fn count<R: Wait>(&self, rt: &R) {
        let mut replies = self.replies.lock(rt);
        *replies = replies.saturating_add(1);
        drop(replies);
        self.more.notify_all();
    }

    /// Waits until so many replies were written.
    pub fn wait<R: Wait>(&self, rt: &R, count: u64) {
        let _replies = self
            .more
            .wait_while(rt, self.replies.lock(rt), |replies| *replies < count);
    }
}
