//! Messages that are delivered, each of all that were ever sent.

ghost use Rattle.std.specs.Prelude.{◌≡◌, ◌≢◌, ◌⊎◌, ◌<◌, ◌≤◌, List, Some, length, map, option_map, vec_len, IfErr, IfOk, IfSome, OnOk, Err, IsTrue};
ghost use Rattle.std.specs.List.{slice_get};
ghost use Rattle.std.specs.VecDeque.{deque_len};
ghost use Rattle.node_model.specs.World.{World};
ghost use Rattle.node_traits.specs.declared.outputs.ToLink.{ToLink};
ghost use Rattle.driver_steps.specs.Crashes.{Since};
ghost use Rattle.driver_steps.specs.Seats.{AreOpen, HasMore, faults_of, left_of, places_of, seat_since};
ghost use Rattle.driver_steps.specs.Together.{hosted};
ghost use Rattle.driver_steps.specs.Worlds.{StandsFor, network_view};
ghost use Rattle.pipe_driver.specs.Counts.{HaveRisenWhere};
ghost use Rattle.pipe_driver.specs.declared.status.Status.TheVariants as statuses;
ghost use Rattle.sim_driver.specs.Moves.{HasDeliveredOne, HasSettledBut, IsCut, IsLessFrom, IsNextAt, IsOfKindAt, IsPartOfDelivery, IsPassedAt, IsReceiverAt, PassesOrDelivers};
ghost use Rattle.sim_driver.specs.Plays.{IsPartOfSettling};
ghost use Rattle.sim_driver.specs.Scripts.{AreDelivered, marked, next_from, place_from};

use crate::delivered::Delivered;
use bson_values::Memory;
use driver_steps::{Network, Seat, deliver};
use node_traits::{Mail, Node};
use outside::log::Log;
use outside::witness::Witness;
use pipe_driver::Status;
use std::alloc::Global;
use std::collections::VecDeque;
use std::marker::Sync;
use std::thread::Threads;

/// Returns a copy of the message at a place. Fails if out of memory.
pub fn copy_at<M: Mail>(alloc: Global, sent: &VecDeque<M>, at: usize) -> Result<M, Memory>
    requires { at < deque_len sent.now }
    ensures { IfOk result (λ message. slice_get (map M.letter sent.now.items) at ≡ Some (M.letter message)) }
{
    match sent.get(at) {
        Some(message) => match message.copy(alloc) {
            Ok(copy) => Ok(copy),
            Err(e) => Err(e),
        },
        None => Err(Memory),
    }
}

/// Returns the node that the message at a place goes to.
fn receiver_at<M: Mail>(sent: &VecDeque<M>, at: usize) -> u64
    requires { at < deque_len sent.now }
    ensures { IsReceiverAt (map M.letter sent.now.items) at result }
{
    match sent.get(at) {
        Some(message) => message.to().0 as u64,
        None => 0,
    }
}

/// Returns the place of the k-th message, from 0, to a node among all that were sent.
pub fn find<M: Mail>(sent: &VecDeque<M>, node: u64, k: u64) -> Option<usize>
    ensures place { result ≡ place_from 0 node k (map M.letter sent.now.items) }
    ensures within { IfSome result (λ at. at < deque_len sent.now) }
{
    let mut left = k;
    'sent: for at in 0..sent.len() {
        if receiver_at(sent, at) != node {
            continue;
        }
        if left == 0 {
            return Some(at);
        }
        left -= 1;
    }
    None
}

/// Delivers the message at a place among all that were sent; those that the step sends come after them.
///
/// # Errors
/// - `Status::DiskFailed` if a disk failed.
/// - `Status::OutOfMemory` if out of memory.
pub fn deliver_at<R: Threads + Sync, N: Node, L: Log, K: Witness<L::Of>>(
    rt: &R,
    alloc: Global,
    seats: &mut Vec<Seat<N, L>>,
    out: &mut K,
    network: &mut Network<N::Mail>,
    at: usize,
) -> Result<(), Status>
    requires at { at < deque_len network.old.waiting }
    requires open { AreOpen L.facts.is_open seats.old.items }
    ensures delivered { (since : Since L) (w : World) (handed : List ToLink) →
        StandsFor (seat_since N.state N.steps L.facts since) (hosted K.tells L.facts since (K.noted out.old) seats.old.items) (network_view
        (λ m. N.Mail.letter m) network.old) handed w 0 →
        OnOk result (HasDeliveredOne (seat_since N.state N.steps L.facts since) (hosted K.tells L.facts since (K.noted out.new) seats.new.items)
        (network_view (λ m. N.Mail.letter m) network.new) handed w at) }
    ensures cut { (since : Since L) (w : World) (handed : List ToLink) →
        StandsFor (seat_since N.state N.steps L.facts since) (hosted K.tells L.facts since (K.noted out.old) seats.old.items) (network_view
        (λ m. N.Mail.letter m) network.old) handed w 0 →
        IfErr result (λ status. IsCut (seat_since N.state N.steps L.facts since) (hosted K.tells L.facts since (K.noted out.new) seats.new.items) w
        (IsPartOfDelivery w at) status) }
    ensures len { vec_len seats.new ≡ vec_len seats.old }
    ensures open { result ≢ Err statuses.DiskFailed → AreOpen L.facts.is_open seats.new.items }
    ensures falls { OnOk result (IsLessFrom (left_of N.steps seats.old.items) (left_of N.steps seats.new.items) at
        (map (λ m. N.Mail.letter m) network.old.waiting.items) (map (λ m. N.Mail.letter m) network.new.waiting.items)) }

    // Of the sink: notes alone.
    ensures held { K.held out.new ≡ K.held out.old }
    ensures sink { K.fault_count out.new ≡ K.fault_count out.old }
    ensures noted { IsTrue K.tells → HasMore (K.noted out.old) (K.noted out.new) }

    // Of the logs' disks.
    ensures other { IfErr result (λ status. (status ≡ statuses.DiskFailed) ⊎ (status ≡ statuses.OutOfMemory)) }
    ensures disk_fault { HaveRisenWhere (result ≡ Err statuses.DiskFailed) (faults_of L.facts.fault_count seats.old.items)
        (faults_of L.facts.fault_count seats.new.items) }
    ensures places { places_of L.facts.place seats.new.items ≡ places_of L.facts.place seats.old.items }
{
    let message = match copy_at(alloc, &network.waiting, at) {
        Ok(message) => message,
        Err(_) => return Err(Status::OutOfMemory),
    };
    match deliver(rt, alloc, seats, out, network, message) {
        Ok(()) => Ok(()),
        Err(e) => Err(Status::of(e)),
    }
}

/// Returns whether the message at a place is of the kind.
fn is_of_kind<M: Mail>(sent: &VecDeque<M>, at: usize, kind: &[u8]) -> bool
    requires { at < deque_len sent.now }
    ensures { IsOfKindAt (map M.letter sent.now.items) at kind.now result }
{
    match sent.get(at) {
        Some(message) => message.kind().as_bytes() == kind,
        None => false,
    }
}

/// Returns whether the message at a place is passed over: it was delivered, or is of the kind that is excepted.
fn is_passed<M: Mail>(
    sent: &VecDeque<M>,
    at: usize,
    except: Option<&[u8]>,
    delivered: &Delivered,
) -> bool
    requires { at < deque_len sent.now }
    ensures { IsPassedAt (map M.letter sent.now.items) at (option_map (λ k. k.now) except.entry) delivered.now result }
{
    if delivered.has(at) {
        return true;
    }
    match except {
        Some(kind) => is_of_kind(sent, at, kind),
        None => false,
    }
}

/// Returns whether the message at a place is of the kind, and was not delivered.
fn is_next<M: Mail>(sent: &VecDeque<M>, at: usize, kind: &[u8], delivered: &Delivered) -> bool
    requires { at < deque_len sent.now }
    ensures { IsNextAt (map M.letter sent.now.items) at kind.now delivered.now result }
{
    if delivered.has(at) {
        return false;
    }
    is_of_kind(sent, at, kind)
}

/// Returns the place of the first message of the kind that was not delivered, from a place before which all were.
pub fn find_next<M: Mail>(
    sent: &VecDeque<M>,
    first: usize,
    kind: &[u8],
    delivered: &Delivered,
) -> Option<usize>
    requires { AreDelivered first delivered.now }
    ensures place { result ≡ next_from 0 kind.now delivered.now (map M.letter sent.now.items) }
    ensures within { IfSome result (λ at. at < deque_len sent.now) }
{
    let mut at = first;
    'sent: while at < sent.len() {
        if is_next(sent, at, kind, delivered) {
            return Some(at);
        }
        at += 1;
    }
    None
}

/// Delivers the message at a place among all that were sent, and notes that.
///
/// # Errors
/// As `deliver_at` has them; `Status::OutOfMemory` also if memory runs out for the note.
pub fn deliver_and_mark<R: Threads + Sync, N: Node, L: Log, K: Witness<L::Of>>(
    rt: &R,
    alloc: Global,
    seats: &mut Vec<Seat<N, L>>,
    out: &mut K,
    network: &mut Network<N::Mail>,
    at: usize,
    delivered: &mut Delivered,
) -> Result<(), Status>
    requires at { at < deque_len network.old.waiting }
    requires open { AreOpen L.facts.is_open seats.old.items }
    ensures delivered { (since : Since L) (w : World) (handed : List ToLink) →
        StandsFor (seat_since N.state N.steps L.facts since) (hosted K.tells L.facts since (K.noted out.old) seats.old.items) (network_view
        (λ m. N.Mail.letter m) network.old) handed w 0 →
        OnOk result (HasDeliveredOne (seat_since N.state N.steps L.facts since) (hosted K.tells L.facts since (K.noted out.new) seats.new.items)
        (network_view (λ m. N.Mail.letter m) network.new) handed w at) }
    ensures marked { OnOk result (delivered.new ≡ marked at delivered.old) }
    ensures cut { (since : Since L) (w : World) (handed : List ToLink) →
        StandsFor (seat_since N.state N.steps L.facts since) (hosted K.tells L.facts since (K.noted out.old) seats.old.items) (network_view
        (λ m. N.Mail.letter m) network.old) handed w 0 →
        IfErr result (λ status. IsCut (seat_since N.state N.steps L.facts since) (hosted K.tells L.facts since (K.noted out.new) seats.new.items) w
        (IsPartOfDelivery w at) status) }
    ensures len { vec_len seats.new ≡ vec_len seats.old }
    ensures open { result ≢ Err statuses.DiskFailed → AreOpen L.facts.is_open seats.new.items }
    ensures falls { OnOk result (IsLessFrom (left_of N.steps seats.old.items) (left_of N.steps seats.new.items) at
        (map (λ m. N.Mail.letter m) network.old.waiting.items) (map (λ m. N.Mail.letter m) network.new.waiting.items)) }

    // Of the sink: notes alone.
    ensures held { K.held out.new ≡ K.held out.old }
    ensures sink { K.fault_count out.new ≡ K.fault_count out.old }
    ensures noted { IsTrue K.tells → HasMore (K.noted out.old) (K.noted out.new) }

    // Of the logs' disks.
    ensures other { IfErr result (λ status. (status ≡ statuses.DiskFailed) ⊎ (status ≡ statuses.OutOfMemory)) }
    ensures disk_fault { HaveRisenWhere (result ≡ Err statuses.DiskFailed) (faults_of L.facts.fault_count seats.old.items)
        (faults_of L.facts.fault_count seats.new.items) }
    ensures places { places_of L.facts.place seats.new.items ≡ places_of L.facts.place seats.old.items }
{
    match deliver_at(rt, alloc, seats, out, network, at) {
        Ok(()) => {}
        Err(status) => return Err(status),
    }
    match delivered.mark(at) {
        Ok(()) => Ok(()),
        Err(_) => Err(Status::OutOfMemory),
    }
}

/// Delivers the message at a place among all that were sent, unless it is passed over.
///
/// # Errors
/// As `deliver_and_mark` has them.
fn deliver_unless<R: Threads + Sync, N: Node, L: Log, K: Witness<L::Of>>(
    rt: &R,
    alloc: Global,
    seats: &mut Vec<Seat<N, L>>,
    out: &mut K,
    network: &mut Network<N::Mail>,
    at: usize,
    except: Option<&[u8]>,
    delivered: &mut Delivered,
) -> Result<(), Status>
    requires at { at < deque_len network.old.waiting }
    requires open { AreOpen L.facts.is_open seats.old.items }
    ensures delivered { (since : Since L) (w : World) (handed : List ToLink) →
        StandsFor (seat_since N.state N.steps L.facts since) (hosted K.tells L.facts since (K.noted out.old) seats.old.items) (network_view
        (λ m. N.Mail.letter m) network.old) handed w 0 →
        OnOk result (PassesOrDelivers (seat_since N.state N.steps L.facts since) (hosted K.tells L.facts since (K.noted out.new) seats.new.items)
        (network_view (λ m. N.Mail.letter m) network.new) handed w (option_map (λ k. k.now) except.entry) at delivered.old delivered.new) }
    ensures cut { (since : Since L) (w : World) (handed : List ToLink) →
        StandsFor (seat_since N.state N.steps L.facts since) (hosted K.tells L.facts since (K.noted out.old) seats.old.items) (network_view
        (λ m. N.Mail.letter m) network.old) handed w 0 →
        IfErr result (λ status. IsCut (seat_since N.state N.steps L.facts since) (hosted K.tells L.facts since (K.noted out.new) seats.new.items) w
        (IsPartOfDelivery w at) status) }
    ensures len { vec_len seats.new ≡ vec_len seats.old }
    ensures open { result ≢ Err statuses.DiskFailed → AreOpen L.facts.is_open seats.new.items }
    ensures falls { OnOk result (IsLessFrom (left_of N.steps seats.old.items) (left_of N.steps seats.new.items) at
        (map (λ m. N.Mail.letter m) network.old.waiting.items) (map (λ m. N.Mail.letter m) network.new.waiting.items)) }

    // Of the sink: notes alone.
    ensures held { K.held out.new ≡ K.held out.old }
    ensures sink { K.fault_count out.new ≡ K.fault_count out.old }
    ensures noted { IsTrue K.tells → HasMore (K.noted out.old) (K.noted out.new) }

    // Of the logs' disks.
    ensures other { IfErr result (λ status. (status ≡ statuses.DiskFailed) ⊎ (status ≡ statuses.OutOfMemory)) }
    ensures disk_fault { HaveRisenWhere (result ≡ Err statuses.DiskFailed) (faults_of L.facts.fault_count seats.old.items)
        (faults_of L.facts.fault_count seats.new.items) }
    ensures places { places_of L.facts.place seats.new.items ≡ places_of L.facts.place seats.old.items }
{
    if is_passed(&network.waiting, at, except, delivered) {
        return Ok(());
    }
    match deliver_and_mark(rt, alloc, seats, out, network, at, delivered) {
        Ok(()) => Ok(()),
        Err(status) => Err(status),
    }
}

/// Delivers what was not delivered, in order of sending, and what is sent meanwhile, until none is left but messages of the kind that is
/// excepted, if there is one. All messages before `first` were delivered.
///
/// # Errors
/// The first of a delivery, as `deliver_and_mark` has it.
pub fn settle_but<R: Threads + Sync, N: Node, L: Log, K: Witness<L::Of>>(
    rt: &R,
    alloc: Global,
    seats: &mut Vec<Seat<N, L>>,
    out: &mut K,
    network: &mut Network<N::Mail>,
    first: usize,
    except: Option<&[u8]>,
    delivered: &mut Delivered,
) -> Result<(), Status>
    requires open { AreOpen L.facts.is_open seats.old.items }
    requires first { AreDelivered first delivered.old }
    ensures settled { (since : Since L) (w : World) (handed : List ToLink) → length delivered.old ≤ length w.sent →
        StandsFor (seat_since N.state N.steps L.facts since) (hosted K.tells L.facts since (K.noted out.old) seats.old.items) (network_view
        (λ m. N.Mail.letter m) network.old) handed w 0 →
        OnOk result (HasSettledBut (seat_since N.state N.steps L.facts since) (hosted K.tells L.facts since (K.noted out.new) seats.new.items)
        (network_view (λ m. N.Mail.letter m) network.new) handed w (option_map (λ k. k.now) except.entry) delivered.old delivered.new) }
    ensures cut { (since : Since L) (w : World) (handed : List ToLink) → length delivered.old ≤ length w.sent →
        StandsFor (seat_since N.state N.steps L.facts since) (hosted K.tells L.facts since (K.noted out.old) seats.old.items) (network_view
        (λ m. N.Mail.letter m) network.old) handed w 0 →
        IfErr result (λ status. IsCut (seat_since N.state N.steps L.facts since) (hosted K.tells L.facts since (K.noted out.new) seats.new.items) w
        (IsPartOfSettling (option_map (λ k. k.now) except.entry) w delivered.old) status) }
    ensures len { vec_len seats.new ≡ vec_len seats.old }
    ensures open { result ≢ Err statuses.DiskFailed → AreOpen L.facts.is_open seats.new.items }

    // Of the sink: notes alone.
    ensures held { K.held out.new ≡ K.held out.old }
    ensures sink { K.fault_count out.new ≡ K.fault_count out.old }
    ensures noted { IsTrue K.tells → HasMore (K.noted out.old) (K.noted out.new) }

    // Of the logs' disks.
    ensures other { IfErr result (λ status. (status ≡ statuses.DiskFailed) ⊎ (status ≡ statuses.OutOfMemory)) }
    ensures disk_fault { HaveRisenWhere (result ≡ Err statuses.DiskFailed) (faults_of L.facts.fault_count seats.old.items)
        (faults_of L.facts.fault_count seats.new.items) }
    ensures places { places_of L.facts.place seats.new.items ≡ places_of L.facts.place seats.old.items }
{
    let mut at = first;
    'messages: while at < network.waiting.len() {
        match deliver_unless(rt, alloc, seats, out, network, at, except, delivered) {
            Ok(()) => at += 1,
            Err(status) => return Err(status),
        }
    }
    Ok(())
}
