//! Nodes with their journals, and the disks that these leave.

ghost use Rattle.std.specs.Prelude.{◌≡◌, ◌≤◌, [], map, vec_len, vec_capacity, IsTrue};
ghost use Rattle.std.specs.List.{AllByRecursion};
ghost use Rattle.cluster_service.specs.OpenJournals.{IsDurable};
ghost use Rattle.cluster_service.specs.Seats.{seats_of};

use driver_steps::Seat;
use journal_frames::Journal;
use outside::disk::Disk;

/// Moves each node with the journal in its place, in order of their numbers, into an empty vector that has room for them.
pub fn put_in<N: Drop, D: Disk>(
    seats: &mut Vec<Seat<N, Journal<D>>>,
    nodes: Vec<N>,
    journals: Vec<Journal<D>>,
)
    requires empty { seats.old.items ≡ [] }
    requires as_many { vec_len nodes ≡ vec_len journals }
    requires room { vec_len journals ≤ vec_capacity seats.old }
    ensures items { seats.new.items ≡ seats_of nodes.items journals.items }
    ensures len { vec_len seats.new ≡ vec_len journals }
{
    let mut nodes = nodes.into_iter();
    for log in journals {
        if let Some(node) = nodes.next() {
            seats.push_reserved(Seat { node, log });
        }
    }
}

/// Returns the disk of a node's journal.
fn disk_of<N: Drop, D: Disk>(seat: Seat<N, Journal<D>>) -> D
    ensures disk { result ≡ seat.log.disk }
    ensures durable { IsTrue seat.log.is_open → IsTrue D.tells → IsDurable D.content D.may_leave result }
{
    let Seat { log, .. } = seat;
    log.into_disk()
}

/// Moves the disks of the journals of nodes, in order of their numbers, into an empty vector that has room for them.
pub fn take_disks<N: Drop, D: Disk>(seats: Vec<Seat<N, Journal<D>>>, back: &mut Vec<D>)
    requires empty { back.old.items ≡ [] }
    requires room { vec_len seats ≤ vec_capacity back.old }
    ensures disks { back.new.items ≡ map (λ s. s.log.disk) seats.items }
    ensures durable { IsTrue D.tells → AllByRecursion (λ s. IsTrue s.log.is_open) seats.items → AllByRecursion (IsDurable D.content D.may_leave) back.new.items }
{
    for seat in seats {
        back.push_reserved(disk_of(seat));
    }
}
