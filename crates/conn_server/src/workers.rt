//! The threads: two for each node, one for each link, one that gives moments, and the one that accepts links.

ghost use Rattle.std.specs.Prelude.{◌≡◌, ◌≤◌, IsTrue};
ghost use Rattle.outside.specs.Causes.{Rose};
ghost use Rattle.conn_server.specs.declared.workers.Accepted.TheVariants as accepts;

use crate::entrance::{Gate, Lending, Turn, lend, take_back};
use crate::jobs::{Crew, Entrance, NodeCrew, begin, try_begin};
use crate::links::Links;
use crate::opened::Opened;
use crate::shared::Shared;
use crate::slots::Slots;
use node_cell::Numbering;
use node_traits::Node;
use outside::clock::Clock;
use outside::log::Log;
use outside::streams::{Acceptor, Link};
use outside::witness::DiskLink;
use std::alloc::Global;
use std::marker::{Brand, PhantomData};
use std::snapshot::Snapshot;
use std::sync::atomic::AtomicBool;
use std::sync::{Mutex, Wait};
use std::thread;
use std::thread::{Parker, Scope, Threads};
use wire_nodes::WireRequests;

/// Serves so many links, each in a thread of its own. Returns whether so many came.
fn accept_links<'s, E, T, R>(
    scope: &'s Scope<'s, E>,
    rt: &'s R,
    entrance: &mut T,
    sessions: u32,
) -> bool
where
    T: Entrance,
    T::Job: Send + 's,
    R: Threads + Wait + Sync + 's,
{
    for _ in 0..sessions {
        let Some(job) = entrance.next(rt) else {
            return false;
        };
        begin(scope, rt, job);
    }
    true
}

/// Serves so many links, each in a thread of its own, and waits for their ends. Returns whether so many came.
fn serve_links<T, R>(rt: &R, entrance: &Mutex<T>, sessions: u32) -> bool
where
    T: Entrance,
    T::Job: Send,
    R: Threads + Wait + Sync,
{
    thread::scope(thread::scope_env(), rt, move |scope| {
        accept_links::<_, T, R>(scope, rt, &mut entrance.lock(rt), sessions)
    })
}

/// Starts the threads of the nodes, and the one that gives moments. Returns whether all were started.
fn start_crew<'s, E, W, R>(scope: &'s Scope<'s, E>, rt: &'s R, crew: &W) -> bool
where
    W: Crew,
    W::OfBox: Send + 's,
    W::OfMoments: Send + 's,
    R: Threads + Wait + Sync + 's,
{
    for mailbox in 0..crew.boxes() {
        if !try_begin(scope, rt, crew.box_job(mailbox)) {
            return false;
        }
    }
    try_begin(scope, rt, crew.moments_job())
}

/// Serves so many links by the nodes on threads until all have ended. Returns whether so many came.
fn serve_on_threads<W, T, R>(rt: &R, crew: &W, entrance: &Mutex<T>, sessions: u32) -> bool
where
    W: Crew,
    W::OfBox: Send,
    W::OfMoments: Send,
    T: Entrance,
    T::Job: Send,
    R: Threads + Wait + Sync,
{
    thread::scope(thread::scope_env(), rt, move |scope| {
        let all = start_crew(scope, rt, crew) && serve_links::<T, R>(rt, entrance, sessions);
        crew.end(rt);
        all
    })
}

/// How the acceptor ended.
#[derive(Clone, Copy, Debug, PartialEq, Eq)]
pub(crate) enum Accepted {
    /// All links were accepted.
    All,
    /// The acceptor met a fault.
    Failed,
    /// The nodes have stopped, or memory ran out.
    Stopped,
}

/// Returns how the acceptor ended.
fn accepted_by(all: bool, failed: bool) -> Accepted
    ensures { result ≡ accepts.Failed → IsTrue failed }
{
    if failed {
        Accepted::Failed
    } else if all {
        Accepted::All
    } else {
        Accepted::Stopped
    }
}

/// Serves links by the nodes on threads until all links have ended, and keeps these; returns how the acceptor, which has a name, ended, and the acceptor.
fn serve_lent<'a, N, L, K, Q, A, B, C, O, R>(
    rt: &R,
    alloc: Global,
    shared: &'a Shared<N, L, K>,
    acceptor: &'a mut A,
    clock: &C,
    sessions: u32,
    slots: &'a Mutex<Slots<N, L, K, A::Link, O>>,
) -> (Accepted, &'a mut A)
where
    N: Node + Send,
    N::Input: Send,
    N::Mail: Send,
    N::Request: Send,
    L: Log + Send,
    L::Of: Send,
    K: Numbering + Send + Sync,
    Q: WireRequests<N> + Send,
    A: Acceptor,
    A::Link: DiskLink<L::Of> + Send,
    B: Lending,
    C: Clock + Sync,
    O: Opened<A::Link> + Send,
    R: Threads + Wait + Sync,
    requires name { acceptor.ghost_name ≡ B.name }
    requires faults { A.fault_count acceptor.old ≡ B.faults }
    ensures same { result.1.ghost_name ≡ acceptor.entry.ghost_name }
    ensures accept { result.0 ≡ accepts.Failed → Rose (A.fault_count acceptor.old) (A.fault_count result.1.now) }
    ensures later { A.fault_count acceptor.old ≤ A.fault_count result.1.now }
{
    let gate = Mutex::new(Gate::<'a, N, L, K, Q, A, B, O> {
        turn: lend::<A, B>(acceptor),
        alloc,
        shared,
        slots,
        of: PhantomData,
    });
    let parker = Parker::new();
    let ended = AtomicBool::new(false);
    let crew = NodeCrew {
        alloc,
        shared,
        clock,
        parker: &parker,
        ended: &ended,
    };
    let all = serve_on_threads::<NodeCrew<N, L, K, C>, Gate<N, L, K, Q, A, B, O>, R>(
        rt, &crew, &gate, sessions,
    );
    let Gate { turn, .. } = gate.into_inner();
    let Turn {
        acceptor: back,
        failed,
        ..
    } = turn;
    (accepted_by(all, failed), back)
}

/// How the acceptor ended, and the links that did.
#[derive(Drop)]
pub(crate) struct Ended<N: Node, L: Log, K: Numbering, S: Link + Drop> {
    pub(crate) accepted: Accepted,
    pub(crate) links: Links<N, L, K, S>,
}

/// Returns how the acceptor ended, or that memory ran out where not all links were kept.
fn kept(all: bool, accepted: Accepted) -> Accepted
    ensures { result ≡ accepts.Failed → accepted ≡ accepts.Failed }
{
    if all { accepted } else { Accepted::Stopped }
}

/// Serves links by the nodes on threads until all links have ended, and returns these.
pub(crate) fn serve_all<N, L, K, Q, A, C, R>(
    rt: &R,
    alloc: Global,
    shared: &Shared<N, L, K>,
    acceptor: &mut A,
    clock: &C,
    sessions: u32,
) -> Ended<N, L, K, A::Link>
where
    N: Node + Send,
    N::Input: Send,
    N::Mail: Send,
    N::Request: Send,
    L: Log + Send,
    L::Of: Send,
    K: Numbering + Send + Sync,
    Q: WireRequests<N> + Send,
    A: Acceptor,
    A::Link: DiskLink<L::Of> + Send,
    C: Clock + Sync,
    R: Threads + Wait + Sync,
    ensures accept { result.accepted ≡ accepts.Failed → Rose (A.fault_count acceptor.old) (A.fault_count acceptor.new) }
    ensures later { A.fault_count acceptor.old ≤ A.fault_count acceptor.new }
{
    let slots = Mutex::new(Slots::new(alloc));
    let (accepted, back) = serve_lent::<N, L, K, Q, A, Brand, C, Snapshot<A::Link>, R>(
        rt, alloc, shared, acceptor, clock, sessions, &slots,
    );
    take_back(back);
    let (all, links) = slots.into_inner().into_links(alloc);
    Ended {
        accepted: kept(all, accepted),
        links,
    }
}
