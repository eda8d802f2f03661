//! Where links come in.

ghost use Rattle.std.specs.Prelude.{◌≡◌, ℕ, ◌≤◌, IsTrue};
ghost use Rattle.outside.specs.Causes.{Rose};

use crate::jobs::{Entrance, LinkJob};
use crate::opened::Opened;
use crate::shared::Shared;
use crate::slots::Slots;
use crate::waiting::next_link;
use node_cell::Numbering;
use node_traits::Node;
use outside::log::Log;
use outside::streams::{Acceptor, Failed};
use outside::witness::DiskLink;
use std::alloc::Global;
use std::marker::{Brand, PhantomData};
use std::sync::{Mutex, Wait};
use wire_nodes::WireRequests;

/// Which acceptor it is, and how many faults it had met before.
pub(crate) trait Lending {
    // its name
    ghost name: { ℕ };

    // its faults
    ghost faults: { ℕ };
}

impl Lending for Brand {
    ghost name = { 0 };

    ghost faults = { 0 };
}

/// An acceptor that was lent, and whether it met a fault since.
#[derive(Drop)]
pub(crate) struct Turn<'a, A: Acceptor, B: Lending> {
    pub(crate) acceptor: &'a mut A,
    pub(crate) failed: bool,
    pub(crate) of: PhantomData<B>,
    pub(crate) ghost same: { acceptor.ghost_name ≡ B.name },
    pub(crate) ghost cause: { IsTrue failed → Rose B.faults (A.fault_count acceptor.now) },
    pub(crate) ghost later: { B.faults ≤ A.fault_count acceptor.now },
}

/// Lends the acceptor.
pub(crate) fn lend<'a, A: Acceptor, B: Lending>(acceptor: &'a mut A) -> Turn<'a, A, B>
    requires name { acceptor.ghost_name ≡ B.name }
    requires faults { A.fault_count acceptor.old ≡ B.faults }
{
    Turn {
        acceptor,
        failed: false,
        of: PhantomData,
    }
}

/// Ends the loan of what was lent on: this use of the reference ties it to the one that lent it.
pub(crate) fn take_back<T>(lent: &mut T)
    ensures { lent.new ≡ lent.old }
{}

/// Returns the next link that a client opens; `None` if none was opened for a moment.
///
/// # Errors
/// `Failed` if the acceptor met a fault, which is noted.
pub(crate) fn take_turn<A: Acceptor, B: Lending>(
    turn: &mut Turn<A, B>,
) -> Result<Option<A::Link>, Failed> {
    match turn.acceptor.next() {
        Ok(link) => Ok(link),
        Err(e) => {
            turn.failed = true;
            Err(e)
        }
    }
}

/// An acceptor that was lent, and where its links are served and kept.
#[derive(Drop)]
pub(crate) struct Gate<
    'a,
    N: Node,
    L: Log,
    K: Numbering,
    Q,
    A: Acceptor,
    B: Lending,
    O: Opened<A::Link>,
> {
    pub(crate) turn: Turn<'a, A, B>,
    pub(crate) alloc: Global,
    pub(crate) shared: &'a Shared<N, L, K>,
    pub(crate) slots: &'a Mutex<Slots<N, L, K, A::Link, O>>,
    pub(crate) of: PhantomData<Q>,
}

impl<'a, N, L, K, Q, A, B, O> Entrance for Gate<'a, N, L, K, Q, A, B, O>
where
    N: Node,
    L: Log,
    K: Numbering,
    Q: WireRequests<N>,
    A: Acceptor,
    A::Link: DiskLink<L::Of>,
    B: Lending,
    O: Opened<A::Link>,
{
    type Job = LinkJob<'a, N, L, K, Q, A::Link, O>;

    fn next<R: Wait>(&mut self, rt: &R) -> Option<LinkJob<'a, N, L, K, Q, A::Link, O>> {
        let shared = self.shared;
        let slots = self.slots;
        let alloc = self.alloc;
        let Some(link) = next_link(rt, shared, &mut self.turn) else {
            return None;
        };
        let opened = shared.desk.lock(rt).open(alloc);
        let Some((number, replies)) = opened else {
            return None;
        };
        if !slots.lock(rt).open(replies) {
            return None;
        }
        Some(LinkJob {
            alloc,
            shared,
            link,
            number,
            slots,
            of: PhantomData,
        })
    }
}
