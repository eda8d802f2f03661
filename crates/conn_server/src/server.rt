//! Nodes on threads, from their start to their end.

ghost use Rattle.std.specs.Prelude.{◌≡◌, ◌⊎◌, ◌↔◌, ◌<◌, ◌≤◌, ◌^◌, [], IfErr, IfOk, IsTrue, length, vec_len, vec_capacity};
ghost use Rattle.std.specs.List.{AllByRecursion};
ghost use Rattle.outside.specs.Causes.{Rose};
ghost use Rattle.driver_steps.specs.Seats.{AreOpen};
ghost use Rattle.node_cell.specs.Courses.{node_facts};
ghost use Rattle.node_cell.specs.Standing.{AreFrom};
ghost use Rattle.node_cell.specs.Board.{pairs_of};
ghost use Rattle.node_cell.specs.Views.{all_at_start, nothing_seen, sights_of};
ghost use Rattle.conn_server.specs.Conversations.{AreServed, link_facts, some_failed};
ghost use Rattle.conn_server.specs.declared.server.ServeEnd.TheVariants as ends;
ghost use Rattle.conn_server.specs.declared.workers.Accepted.TheVariants as accepts;

use crate::desk::Desk;
use crate::shared::Shared;
use crate::workers::{Accepted, Ended, serve_all};
use driver_steps::Seat;
use mail_routes::Routes;
use node_cell::{Halt, Note, Numbering, Numbers, Pass, Placed, cells, close_cells};
use node_traits::Node;
use outside::clock::Clock;
use outside::exchange::Spoken;
use outside::log::Log;
use outside::streams::Acceptor;
use outside::witness::DiskLink;
use std::alloc::Global;
use std::marker::Brand;
use std::sync::{Mutex, Wait};
use std::thread::Threads;
use wire_nodes::WireRequests;

/// How a server ended.
#[derive(Clone, Copy, Debug, PartialEq, Eq)]
pub enum ServeEnd {
    /// All links were accepted and have ended.
    Done,
    /// The acceptor met a fault; the links that were accepted before have ended.
    AcceptFailed,
    /// The disk of a node failed.
    DiskFailed,
    /// Memory ran out, no thread could be started, or a node is at its last step.
    OutOfMemory,
}

/// The nodes with their logs at the end, in order of their places, and the links, in the order in which they were accepted.
#[derive(Drop)]
pub struct Served<N, L, S> {
    pub end: ServeEnd,
    pub nodes: Vec<Placed<N, L>>,
    pub links: Vec<Spoken<S>>,
}

/// Why nothing was served, with the nodes as they were.
#[derive(Drop)]
pub struct Unserved<N, L> {
    pub end: ServeEnd,
    pub seats: Vec<Seat<N, L>>,
}

/// Returns whether the disk of a node failed.
fn is_some_failed<N, L>(nodes: &[Placed<N, L>]) -> bool
    ensures { result ≡ some_failed nodes.now }
{
    'nodes: for node in nodes {
        if let Some(Halt::Disk { .. }) = node.halt {
            return true;
        }
    }
    false
}

/// Returns whether there are as many links as were wanted.
fn are_all<S>(links: &Vec<Spoken<S>>, sessions: u32) -> bool
    ensures { IsTrue result → vec_len links.now ≡ sessions }
{
    links.len() as u64 == sessions as u64
}

/// Returns how the server ended: a disk that failed comes first, and then another stop of the nodes. `all` is whether there are as many links as were wanted.
fn end_of(accepted: Accepted, all: bool, stopped: bool, failed: bool) -> ServeEnd
    ensures done { result ≡ ends.Done → IsTrue all }
    ensures failed { (result ≡ ends.DiskFailed) ↔ IsTrue failed }
    ensures accept { result ≡ ends.AcceptFailed → accepted ≡ accepts.Failed }
{
    if failed {
        return ServeEnd::DiskFailed;
    }
    if stopped {
        return ServeEnd::OutOfMemory;
    }
    match accepted {
        Accepted::All if all => ServeEnd::Done,
        Accepted::Failed => ServeEnd::AcceptFailed,
        _ => ServeEnd::OutOfMemory,
    }
}

/// The nodes under their locks before the first step, with room for them at the end.
#[derive(Drop)]
struct Ready<N: Node, L: Log, K: Numbering> {
    shared: Shared<N, L, K>,
    pass: Pass<N, L>,
    ended: Vec<Placed<N, L>>,
}

/// Puts the nodes under their locks, under the name of a table.
///
/// # Errors
/// The nodes, if memory runs out.
fn make_ready<N: Node, L: Log + Drop, K: Numbering>(
    alloc: Global,
    numbers: Numbers<N, L>,
    pass: Pass<N, L>,
    seats: Vec<Seat<N, L>>,
) -> Result<Ready<N, L, K>, Vec<Seat<N, L>>>
    requires table { numbers.table.shared.table_id ≡ K.table }
    requires routers { numbers.routers ≡ K.routers }
    requires of { pass.table_id ≡ K.table }
    requires pass { pass.me ≡ (all_at_start L.facts seats.items, []) }
    requires seen { pairs_of numbers.seen.items ≡ sights_of L.facts seats.items }
    requires start { numbers.table.shared.key.seats.value.items ≡ seats.items }
    requires open { AreOpen L.facts.is_open seats.items }
    ensures table { IfOk result (λ r. r.pass.table_id ≡ K.table) }
    ensures pass { IfOk result (λ r. r.pass.me ≡ (nothing_seen, [])) }
    ensures len { IfOk result (λ r. vec_len r.shared.cells ≡ vec_len seats) }
    ensures start { IfOk result (λ r. r.shared.book.table ≡ numbers.table) }
    ensures routers { IfOk result (λ r. r.shared.book.routers ≡ numbers.routers) }
    ensures none { IfOk result (λ r. r.ended.items ≡ []) }
    ensures room { IfOk result (λ r. vec_len r.shared.cells ≤ vec_capacity r.ended) }
    ensures err { IfErr result (λ r. r.items ≡ seats.items) }
{
    let mut pass = pass;
    let routers_from = numbers.routers as usize;
    let book = numbers.named::<K>(&mut pass);
    let Ok(ended) = Vec::with_capacity(alloc, seats.len()) else {
        return Err(seats);
    };
    let Ok(count) = u32::try_from(seats.len()) else {
        return Err(seats);
    };
    let Ok(routes) = Routes::new(alloc, count.wrapping_mul(2)) else {
        return Err(seats);
    };
    let root = Note::of(&book, &mut pass);
    let (cells, pass) = match cells(alloc, &book, pass, seats) {
        Ok(made) => made,
        Err(seats) => return Err(seats),
    };
    let desk = Mutex::new(Desk::new(alloc));
    let shared = Shared {
        book,
        cells,
        routes,
        desk,
        root: Mutex::new(root),
        routers_from,
    };
    Ok(Ready {
        shared,
        pass,
        ended,
    })
}

/// Serves links by nodes under their locks, and takes the nodes out of these at the end.
fn serve_ready<N, L, K, Q, A, C, R>(
    rt: &R,
    alloc: Global,
    acceptor: &mut A,
    clock: &C,
    ready: Ready<N, L, K>,
    sessions: u32,
) -> Served<N, L, A::Link>
where
    N: Node + Send,
    N::Input: Send,
    N::Mail: Send,
    N::Request: Send,
    L: Log + Send + Drop,
    L::Of: Send,
    K: Numbering + Send + Sync,
    Q: WireRequests<N> + Send,
    A: Acceptor,
    A::Link: DiskLink<L::Of> + Send,
    C: Clock + Sync,
    R: Threads + Wait + Sync,
    requires table { ready.pass.table_id ≡ K.table }
    requires pass { ready.pass.me ≡ (nothing_seen, []) }
    requires all { vec_len ready.shared.cells ≡ length ready.shared.book.table.shared.key.seats.value.items }
    requires none { ready.ended.items ≡ [] }
    requires room { vec_len ready.shared.cells ≤ vec_capacity ready.ended }
    ensures places { AreFrom 0 result.nodes.items }
    ensures len { vec_len result.nodes ≡ vec_len ready.shared.cells }
    ensures failed { (result.end ≡ ends.DiskFailed) ↔ IsTrue (some_failed result.nodes.items) }
    ensures done { result.end ≡ ends.Done → vec_len result.links ≡ sessions }
    ensures accept { result.end ≡ ends.AcceptFailed → Rose (A.fault_count acceptor.old) (A.fault_count acceptor.new) }
    ensures served { AreServed (node_facts N.state N.steps (λ m. N.Mail.letter m) N.meaning L.facts)
        (link_facts A.Link.Source.tells A.Link.Source.left A.Link.Sink.tells A.Link.Sink.held A.Link.Sink.noted A.Link.is_closed)
        ready.shared.book.routers ready.shared.book.table.shared.key.seats.value.items
        result.nodes.items result.links.items }
    ensures later { A.fault_count acceptor.old ≤ A.fault_count acceptor.new }
{
    let Ready {
        shared,
        pass,
        ended,
    } = ready;
    shared.report_openings(rt, alloc);
    shared.give_moment(rt, alloc, clock.now());
    let Ended { accepted, links } = serve_all::<N, L, K, Q, A, C, R>(
        rt, alloc, &shared, acceptor, clock, sessions,
    );
    let Shared {
        book,
        cells,
        desk,
        ..
    } = shared;
    let stopped = desk.into_inner().is_stopped();
    let (spoken, notes) = links.into_parts();
    let nodes = close_cells(rt, book, pass, cells, notes, ended);
    let failed = is_some_failed(&nodes);
    let all = are_all(&spoken, sessions);
    Served {
        end: end_of(accepted, all, stopped, failed),
        nodes,
        links: spoken,
    }
}

/// Serves links under the name of a table.
fn serve_named<N, L, K, Q, A, C, R>(
    rt: &R,
    alloc: Global,
    acceptor: &mut A,
    clock: &C,
    numbers: Numbers<N, L>,
    pass: Pass<N, L>,
    seats: Vec<Seat<N, L>>,
    sessions: u32,
) -> Result<Served<N, L, A::Link>, Unserved<N, L>>
where
    N: Node + Send,
    N::Input: Send,
    N::Mail: Send,
    N::Request: Send,
    L: Log + Send + Drop,
    L::Of: Send,
    K: Numbering + Send + Sync,
    Q: WireRequests<N> + Send,
    A: Acceptor,
    A::Link: DiskLink<L::Of> + Send,
    C: Clock + Sync,
    R: Threads + Wait + Sync,
    requires table { numbers.table.shared.table_id ≡ K.table }
    requires routers { numbers.routers ≡ K.routers }
    requires of { pass.table_id ≡ K.table }
    requires pass { pass.me ≡ (all_at_start L.facts seats.items, []) }
    requires seen { pairs_of numbers.seen.items ≡ sights_of L.facts seats.items }
    requires start { numbers.table.shared.key.seats.value.items ≡ seats.items }
    requires open { AreOpen L.facts.is_open seats.items }
    ensures places { IfOk result (λ s. AreFrom 0 s.nodes.items) }
    ensures len { IfOk result (λ s. vec_len s.nodes ≡ vec_len seats) }
    ensures failed { IfOk result (λ s. (s.end ≡ ends.DiskFailed) ↔ IsTrue (some_failed s.nodes.items)) }
    ensures done { IfOk result (λ s. s.end ≡ ends.Done → vec_len s.links ≡ sessions) }
    ensures accept { IfOk result (λ s. s.end ≡ ends.AcceptFailed → Rose (A.fault_count acceptor.old) (A.fault_count acceptor.new)) }
    ensures served { IfOk result (λ s. AreServed (node_facts N.state N.steps (λ m. N.Mail.letter m) N.meaning L.facts)
        (link_facts A.Link.Source.tells A.Link.Source.left A.Link.Sink.tells A.Link.Sink.held A.Link.Sink.noted A.Link.is_closed)
        numbers.routers seats.items s.nodes.items s.links.items) }
    ensures unserved { IfErr result (λ u. u.seats.items ≡ seats.items) }
    ensures not_failed { IfErr result (λ u. u.end ≡ ends.OutOfMemory) }
    ensures later { A.fault_count acceptor.old ≤ A.fault_count acceptor.new }
{
    match make_ready::<N, L, K>(alloc, numbers, pass, seats) {
        Ok(ready) => Ok(serve_ready::<N, L, K, Q, A, C, R>(
            rt, alloc, acceptor, clock, ready, sessions,
        )),
        Err(seats) => Err(Unserved {
            end: ServeEnd::OutOfMemory,
            seats,
        }),
    }
}

/// Accepts so many links, and serves them by the nodes, of which those from a place on are routers; link j goes to router j modulo their number. Each node takes
/// its steps under a lock of its own, on threads of its own, and each link has a thread. Returns once all links have ended, and were closed.
///
/// # Errors
/// Memory ran out (`ServeEnd::OutOfMemory`): nothing was served, and the nodes are as they were.
pub fn serve<N, L, Q, A, C, R>(
    rt: &R,
    alloc: Global,
    acceptor: &mut A,
    clock: &C,
    seats: Vec<Seat<N, L>>,
    routers_from: u64,
    sessions: u32,
) -> Result<Served<N, L, A::Link>, Unserved<N, L>>
where
    N: Node + Send,
    N::Input: Send,
    N::Mail: Send,
    N::Request: Send,
    L: Log + Send + Drop,
    L::Of: Send,
    Q: WireRequests<N> + Send,
    A: Acceptor,
    A::Link: DiskLink<L::Of> + Send,
    C: Clock + Sync,
    R: Threads + Wait + Sync,
    requires few { vec_len seats ≤ 64 }
    requires small { AllByRecursion (λ s. N.steps s.node < 2 ^ 56) seats.items }
    requires open { AreOpen L.facts.is_open seats.items }
    ensures places { IfOk result (λ s. AreFrom 0 s.nodes.items) }
    ensures len { IfOk result (λ s. vec_len s.nodes ≡ vec_len seats) }
    ensures failed { IfOk result (λ s. (s.end ≡ ends.DiskFailed) ↔ IsTrue (some_failed s.nodes.items)) }
    ensures done { IfOk result (λ s. s.end ≡ ends.Done → vec_len s.links ≡ sessions) }
    ensures accept { IfOk result (λ s. s.end ≡ ends.AcceptFailed → Rose (A.fault_count acceptor.old) (A.fault_count acceptor.new)) }
    ensures served { IfOk result (λ s. AreServed (node_facts N.state N.steps (λ m. N.Mail.letter m) N.meaning L.facts)
        (link_facts A.Link.Source.tells A.Link.Source.left A.Link.Sink.tells A.Link.Sink.held A.Link.Sink.noted A.Link.is_closed)
        routers_from seats.items s.nodes.items s.links.items) }
    ensures unserved { IfErr result (λ u. u.seats.items ≡ seats.items) }
    ensures not_failed { IfErr result (λ u. u.end ≡ ends.OutOfMemory) }
    ensures later { A.fault_count acceptor.old ≤ A.fault_count acceptor.new }
{
    let Ok((numbers, pass)) = Numbers::new(alloc, &seats, routers_from) else {
        return Err(Unserved {
            end: ServeEnd::OutOfMemory,
            seats,
        });
    };
    serve_named::<N, L, Brand, Q, A, C, R>(
        rt, alloc, acceptor, clock, numbers, pass, seats, sessions,
    )
}
