//! What the threads run.

ghost use Rattle.std.specs.Thread.{IsSync};

use crate::link::serve_link;
use crate::opened::Opened;
use crate::shared::Shared;
use crate::slots::Slots;
use crate::talk::Talk;
use node_cell::Numbering;
use node_traits::Node;
use outside::clock::Clock;
use outside::log::Log;
use outside::streams::Link;
use outside::witness::DiskLink;
use std::alloc::Global;
use std::marker::PhantomData;
use std::sync::atomic::{AtomicBool, Ordering};
use std::sync::{Mutex, Wait};
use std::thread::{Parker, Scope, Threads};
use std::time::Duration;
use wire_nodes::WireRequests;

/// How long a round of moments waits for the next, in seconds.
const ROUND: u64 = 1;

/// What a thread runs to its end.
pub(crate) trait Job: Sized + Drop {
    /// Runs it.
    fn run<R: Threads + Wait + Sync>(self, rt: &R)
        requires { IsSync R.row };
}

/// Runs a job in a thread of its own; where none can be started, here.
pub(crate) fn begin<'s, E, J, R>(scope: &'s Scope<'s, E>, rt: &'s R, job: J)
where
    J: Job + Send + 's,
    R: Threads + Wait + Sync + 's,
{
    match scope.spawn(
        move ||
            requires { IsSync R.row }
        { job.run(rt) },
    ) {
        Ok(_) => {}
        Err(refused) => (refused.value)(),
    }
}

/// Runs a job in a thread of its own, and returns whether one could be started.
pub(crate) fn try_begin<'s, E, J, R>(scope: &'s Scope<'s, E>, rt: &'s R, job: J) -> bool
where
    J: Job + Send + 's,
    R: Threads + Wait + Sync + 's,
{
    scope
        .spawn(
            move ||
                requires { IsSync R.row }
            { job.run(rt) },
        )
        .is_ok()
}

/// Where the jobs of links come from.
pub(crate) trait Entrance {
    /// The job of a link.
    type Job: Job;

    /// Waits for the next link that a client opens, and returns its job. `None` if the acceptor met a fault, the nodes have stopped, or memory ran out.
    fn next<R: Wait>(&mut self, rt: &R) -> Option<Self::Job>;
}

/// The threads of the nodes, and the one that gives moments.
pub(crate) trait Crew {
    /// The job of a box.
    type OfBox: Job;

    /// The job of moments.
    type OfMoments: Job;

    /// Returns how many boxes there are.
    fn boxes(&self) -> usize;

    /// Returns the job of the box with a number.
    fn box_job(&self, mailbox: usize) -> Self::OfBox;

    /// Returns the job that gives moments.
    fn moments_job(&self) -> Self::OfMoments;

    /// Ends these threads.
    fn end<R: Wait>(&self, rt: &R);
}

/// Delivers the letters in a box.
#[derive(Drop)]
pub(crate) struct BoxJob<'s, N: Node, L: Log, K: Numbering> {
    pub(crate) alloc: Global,
    pub(crate) shared: &'s Shared<N, L, K>,
    pub(crate) mailbox: usize,
}

impl<'s, N: Node, L: Log, K: Numbering> Job for BoxJob<'s, N, L, K> {
    fn run<R: Threads + Wait + Sync>(self, rt: &R) {
        self.shared.serve_box(rt, self.alloc, self.mailbox);
    }
}

/// Gives moments in rounds until the last link has ended.
#[derive(Drop)]
pub(crate) struct MomentsJob<'s, N: Node, L: Log, K: Numbering, C> {
    pub(crate) alloc: Global,
    pub(crate) shared: &'s Shared<N, L, K>,
    pub(crate) clock: &'s C,
    pub(crate) parker: &'s Parker,
    pub(crate) ended: &'s AtomicBool,
}

impl<'s, N: Node, L: Log, K: Numbering, C: Clock> Job for MomentsJob<'s, N, L, K, C> {
    fn run<R: Threads + Wait + Sync>(self, rt: &R) {
        for _ in rt.forever() {
            self.parker.park_timeout(rt, Duration::from_secs(ROUND));
            if self.ended.load(Ordering::SeqCst) {
                return;
            }
            self.shared.give_moment(rt, self.alloc, self.clock.now());
        }
    }
}

/// What the nodes' threads and the one that gives moments share.
#[derive(Drop)]
pub(crate) struct NodeCrew<'s, N: Node, L: Log, K: Numbering, C> {
    pub(crate) alloc: Global,
    pub(crate) shared: &'s Shared<N, L, K>,
    pub(crate) clock: &'s C,
    pub(crate) parker: &'s Parker,
    pub(crate) ended: &'s AtomicBool,
}

impl<'s, N: Node, L: Log, K: Numbering, C: Clock> Crew for NodeCrew<'s, N, L, K, C> {
    type OfBox = BoxJob<'s, N, L, K>;

    type OfMoments = MomentsJob<'s, N, L, K, C>;

    fn boxes(&self) -> usize {
        self.shared.boxes()
    }

    fn box_job(&self, mailbox: usize) -> BoxJob<'s, N, L, K> {
        BoxJob {
            alloc: self.alloc,
            shared: self.shared,
            mailbox,
        }
    }

    fn moments_job(&self) -> MomentsJob<'s, N, L, K, C> {
        MomentsJob {
            alloc: self.alloc,
            shared: self.shared,
            clock: self.clock,
            parker: self.parker,
            ended: self.ended,
        }
    }

    fn end<R: Wait>(&self, rt: &R) {
        self.ended.store(true, Ordering::SeqCst);
        self.parker.unpark();
        self.shared.routes.close(rt);
    }
}

/// Serves the link with a number, whose slot was opened, to its end, and keeps it in that slot.
#[derive(Drop)]
pub(crate) struct LinkJob<'s, N: Node, L: Log, K: Numbering, Q, S: Link + Drop, O: Opened<S>> {
    pub(crate) alloc: Global,
    pub(crate) shared: &'s Shared<N, L, K>,
    pub(crate) link: S,
    pub(crate) number: u32,
    pub(crate) slots: &'s Mutex<Slots<N, L, K, S, O>>,
    pub(crate) of: PhantomData<Q>,
}

impl<'s, N, L, K, Q, S, O> Job for LinkJob<'s, N, L, K, Q, S, O>
where
    N: Node,
    L: Log,
    K: Numbering,
    Q: WireRequests<N>,
    S: DiskLink<L::Of> + Drop,
    O: Opened<S>,
{
    fn run<R: Threads + Wait + Sync>(self, rt: &R) {
        let LinkJob {
            alloc,
            shared,
            link,
            number,
            slots,
            ..
        } = self;
        let waiting = slots.lock(rt).take_replies(number);
        let Some(replies) = waiting else {
            return;
        };
        let talk = Talk::new(alloc, number, shared.note(rt));
        let heard = serve_link::<N, L, K, Q, S, O, R>(rt, alloc, shared, link, talk, replies);
        shared.desk.lock(rt).leave(number);
        slots.lock(rt).keep(heard);
    }
}
