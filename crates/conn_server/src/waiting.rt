//! Waiting for the next link.

use crate::entrance::{Lending, Turn, take_turn};
use crate::shared::Shared;
use node_cell::Numbering;
use node_traits::Node;
use outside::log::Log;
use outside::streams::Acceptor;
use std::sync::Wait;
use std::thread::Parker;
use std::time::Duration;

/// How long it waits before it looks again, in milliseconds.
const PAUSE: u64 = 2;

/// Waits for the next link that a client opens, and returns it; `None` if the acceptor met a fault, or the nodes have stopped.
pub(crate) fn next_link<N: Node, L: Log, K: Numbering, A: Acceptor, B: Lending, R: Wait>(
    rt: &R,
    shared: &Shared<N, L, K>,
    turn: &mut Turn<A, B>,
) -> Option<A::Link> {
    let parker = Parker::new();
    for _ in rt.forever() {
        if shared.desk.lock(rt).is_stopped() {
            return None;
        }
        match take_turn(turn) {
            Ok(Some(link)) => return Some(link),
            Ok(None) => {}
            Err(_) => return None,
        }
        parker.park_timeout(rt, Duration::from_millis(PAUSE));
    }
    None
}
