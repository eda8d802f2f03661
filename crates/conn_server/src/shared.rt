//! What all threads share.

ghost use Rattle.std.specs.Prelude.{◌≡◌};

use crate::desk::Desk;
use mail_routes::{Routes, Waiting};
use node_cell::{Book, Cell, CellFault, Delivered, Letter, Note, Numbering, Stepped};
use node_traits::{Node, NotTaken};
use outside::log::Log;
use std::alloc::Global;
use std::collections::VecDeque;
use std::sync::{Mutex, Wait};
use std::thread::Threads;

/// The most letters that are delivered together.
const MOST_LETTERS: usize = 1024;

/// Letters that are delivered together, and whether the end mark came after them.
#[derive(Drop)]
struct Batch<N: Node, L: Log, K: Numbering> {
    letters: VecDeque<Letter<N, L, K>>,
    at_end: bool,
}

/// On which thread a step was taken.
#[derive(Clone, Copy, Debug, PartialEq, Eq)]
pub(crate) enum Origin {
    /// That of a link.
    Link,
    /// One of a node's, or the one that gives moments.
    Node,
}

/// The nodes under their locks, the letters on their way, the replies that wait, and a note from which those of the links are split.
#[derive(Drop)]
pub(crate) struct Shared<N: Node, L: Log, K: Numbering> {
    pub(crate) book: Book<N, L, K>,
    pub(crate) cells: Vec<Cell<N, L, K>>,
    pub(crate) routes: Routes<Letter<N, L, K>>,
    pub(crate) desk: Mutex<Desk<N, L, K>>,
    pub(crate) root: Mutex<Note<N, L, K>>,
    pub(crate) routers_from: usize,
}

impl<N: Node, L: Log, K: Numbering> Shared<N, L, K> {
    /// Returns how many boxes there are: one for the messages of others to a node, and then one for those of each node to itself.
    pub(crate) fn boxes(&self) -> usize {
        self.cells.len().wrapping_mul(2)
    }

    /// Returns a note for a link.
    pub(crate) fn note<R: Wait>(&self, rt: &R) -> Note<N, L, K> {
        self.root.lock(rt).split(&self.book)
    }

    /// Returns the place of the router that serves a link: links go to the routers in turn.
    pub(crate) fn router_of(&self, link: u32) -> usize {
        let routers = self.cells.len().saturating_sub(self.routers_from);
        if routers == 0 {
            return self.cells.len();
        }
        self.routers_from.wrapping_add(link as usize % routers)
    }

    /// Sends a letter of a node on its way. If its box is full, a link waits for room, and a node's thread drops the letter: these threads make room.
    fn send_letter<R: Wait>(&self, rt: &R, at: usize, letter: Letter<N, L, K>, from: Origin) {
        let to = letter.to().0 as usize;
        let own = if to == at { self.cells.len() } else { 0 };
        let _ = match from {
            Origin::Link => self.routes.post(rt, own.wrapping_add(to), letter),
            Origin::Node => self.routes.send(rt, own.wrapping_add(to), letter),
        };
    }

    /// Sends the messages of a step of a node on their way, and its replies to their links.
    pub(crate) fn send_out<R: Wait>(
        &self,
        rt: &R,
        at: usize,
        stepped: &mut Stepped<N, L, K>,
        from: Origin,
    )
        ensures { stepped.new.taken ≡ stepped.old.taken }
    {
        'letters: for _ in rt.forever() {
            let Some(letter) = stepped.next_letter(&self.book) else {
                break;
            };
            self.send_letter(rt, at, letter, from);
        }
        'replies: for _ in rt.forever() {
            let Some(reply) = stepped.next_reply(&self.book) else {
                break;
            };
            let sender = self.desk.lock(rt).sender(reply.link());
            if let Some(sender) = sender {
                let _ = sender.send(rt, reply);
            }
        }
    }

    /// Sends out what a step gave, or notes why it was not taken.
    pub(crate) fn take_in<R: Wait>(
        &self,
        rt: &R,
        at: usize,
        stepped: Result<Stepped<N, L, K>, CellFault>,
    ) {
        match stepped {
            Ok(mut stepped) => self.send_out(rt, at, &mut stepped, Origin::Node),
            Err(e) => self.met(rt, e),
        }
    }

    /// Notes why a step was not taken. A node that takes no more steps stops the server; a step for which memory ran out is lost.
    pub(crate) fn met<R: Wait>(&self, rt: &R, fault: CellFault) {
        match fault {
            CellFault::NotTaken(NotTaken::Memory) => {}
            CellFault::NotTaken(NotTaken::Disk { .. } | NotTaken::Steps) | CellFault::Halted(_) =>
                self.desk.lock(rt).stop(),
        }
    }

    /// Reports to each node, in order, that it was opened.
    pub(crate) fn report_openings<R: Wait>(&self, rt: &R, alloc: Global) {
        for (at, cell) in self.cells.iter().enumerate() {
            self.take_in(rt, at, cell.report_opening(rt, alloc, &self.book));
        }
    }

    /// Gives each node, in order, a moment, in milliseconds since 1970.
    pub(crate) fn give_moment<R: Wait>(&self, rt: &R, alloc: Global, moment: u64) {
        for (at, cell) in self.cells.iter().enumerate() {
            self.take_in(rt, at, cell.give_moment(rt, alloc, &self.book, moment));
        }
    }

    /// Takes the letters that wait in a box, after one that was taken, and does not wait for more. Where memory runs out for a letter it is left in the box; the
    /// one that was taken is lost then.
    fn take_waiting<R: Wait>(
        &self,
        rt: &R,
        alloc: Global,
        mailbox: usize,
        first: Letter<N, L, K>,
    ) -> Batch<N, L, K> {
        let mut letters = VecDeque::new(alloc);
        let mut at_end = false;
        if letters.push_back(first).is_err() {
            return Batch { letters, at_end };
        }
        for _ in 1..MOST_LETTERS {
            if letters.reserve(1).is_err() {
                break;
            }
            match self.routes.try_take(rt, mailbox) {
                Waiting::Letter(letter) => letters.push_back_reserved(letter),
                Waiting::End => {
                    at_end = true;
                    break;
                }
                Waiting::Nothing => break,
            }
        }
        Batch { letters, at_end }
    }

    /// Delivers letters to a node together, and sends out what each step gave.
    fn deliver<R: Threads + Wait + Sync>(
        &self,
        rt: &R,
        alloc: Global,
        at: usize,
        letters: VecDeque<Letter<N, L, K>>,
    ) {
        let Some(cell) = self.cells.get(at) else {
            return;
        };
        let Delivered { steps, fault } = cell.deliver(rt, alloc, &self.book, letters);
        for mut stepped in steps {
            self.send_out(rt, at, &mut stepped, Origin::Node);
        }
        if let Some(fault) = fault {
            self.met(rt, fault);
        }
    }

    /// Delivers the letters in a box to a node until its end mark comes. Those that wait are delivered together, so that their records are appended at once.
    pub(crate) fn serve_box<R: Threads + Wait + Sync>(
        &self,
        rt: &R,
        alloc: Global,
        mailbox: usize,
    ) {
        let count = self.cells.len();
        let at = if mailbox < count {
            mailbox
        } else {
            mailbox - count
        };
        for _ in rt.forever() {
            let Some(first) = self.routes.take(rt, mailbox) else {
                return;
            };
            let Batch { letters, at_end } = self.take_waiting(rt, alloc, mailbox, first);
            self.deliver(rt, alloc, at, letters);
            if at_end {
                return;
            }
        }
    }
}
