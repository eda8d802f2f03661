//! Where replies wait for their links.

use crossbeam_channel::{Receiver, Sender, bounded};
use node_cell::{Numbering, Reply};
use node_traits::Node;
use outside::log::Log;
use std::alloc::Global;

/// How many replies wait for a link: it takes its next request once it wrote the reply to the last.
const ROOM: usize = 16;

/// The links that were accepted, by their numbers, each with the box of its replies until it ends; and whether the nodes have stopped.
#[derive(Drop)]
pub(crate) struct Desk<N: Node, L: Log, K: Numbering> {
    replies: Vec<Option<Sender<Reply<N, L, K>>>>,
    stopped: bool,
}

impl<N: Node, L: Log, K: Numbering> Desk<N, L, K> {
    /// Returns a desk without links.
    pub(crate) fn new(alloc: Global) -> Desk<N, L, K> {
        Desk {
            replies: Vec::new(alloc),
            stopped: false,
        }
    }

    /// Gives the next link its number and the box of its replies; `None` if the nodes have stopped, there are 2^32 - 1 links, or memory runs out.
    pub(crate) fn open(&mut self, alloc: Global) -> Option<(u32, Receiver<Reply<N, L, K>>)> {
        let number = self.replies.len();
        if self.stopped || number >= u32::MAX as usize {
            return None;
        }
        let Ok((to, from)) = bounded(alloc, ROOM) else {
            return None;
        };
        if self.replies.push(Some(to)).is_err() {
            return None;
        }
        Some((number as u32, from))
    }

    /// Returns the way to the box of a link.
    pub(crate) fn sender(&self, link: u32) -> Option<Sender<Reply<N, L, K>>> {
        match self.replies.get(link as usize) {
            Some(Some(sender)) => sender.clone().ok(),
            _ => None,
        }
    }

    /// Lets go the box of a link that has ended.
    pub(crate) fn leave(&mut self, link: u32) {
        if let Some(place) = self.replies.get_mut(link as usize) {
            *place = None;
        }
    }

    /// Closes the boxes of all links: no more replies come, and no more links are opened.
    pub(crate) fn stop(&mut self) {
        self.stopped = true;
        self.replies.clear();
    }

    /// Returns whether the nodes have stopped.
    pub(crate) fn is_stopped(&self) -> bool {
        self.stopped
    }
}
