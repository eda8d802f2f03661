//! Where links are kept once they have ended.

use crate::link::Heard;
use crate::links::Links;
use crate::opened::Opened;
use crossbeam_channel::Receiver;
use node_cell::{Numbering, Reply};
use node_traits::Node;
use outside::log::Log;
use outside::streams::Link;
use std::alloc::Global;

/// The links that were opened, at their numbers: the box of each one's replies until its thread takes it, and what was said on it once it has ended.
#[derive(Drop)]
pub(crate) struct Slots<N: Node, L: Log, K: Numbering, S: Link + Drop, O: Opened<S>> {
    replies: Vec<Option<Receiver<Reply<N, L, K>>>>,
    slots: Vec<Option<Heard<N, L, K, S, O>>>,
}

impl<N: Node, L: Log, K: Numbering, S: Link + Drop, O: Opened<S>> Slots<N, L, K, S, O> {
    /// Returns no slots.
    pub(crate) fn new(alloc: Global) -> Slots<N, L, K, S, O> {
        Slots {
            replies: Vec::new(alloc),
            slots: Vec::new(alloc),
        }
    }

    /// Makes the slot of the next link, with the box of its replies. Returns whether there was memory for it.
    pub(crate) fn open(&mut self, replies: Receiver<Reply<N, L, K>>) -> bool {
        self.replies.push(Some(replies)).is_ok() && self.slots.push(None).is_ok()
    }

    /// Takes the box of the replies of the link with a number out of its slot; `None` if there is none.
    pub(crate) fn take_replies(&mut self, number: u32) -> Option<Receiver<Reply<N, L, K>>> {
        match self.replies.get_mut(number as usize) {
            Some(replies) => replies.take(),
            None => None,
        }
    }

    /// Keeps a link that has ended in its slot.
    pub(crate) fn keep(&mut self, heard: Heard<N, L, K, S, O>) {
        let number = heard.talk.link() as usize;
        if let Some(slot) = self.slots.get_mut(number) {
            *slot = Some(heard);
        }
    }

    /// Returns the links that have ended, in the order of their numbers, and whether these are all that were opened.
    pub(crate) fn into_links(self, alloc: Global) -> (bool, Links<N, L, K, S>) {
        let mut links = Links::new(alloc);
        let mut all = true;
        for slot in self.slots {
            let Some(heard) = slot else {
                all = false;
                continue;
            };
            if !links.add(heard) {
                all = false;
            }
        }
        (all, links)
    }
}
