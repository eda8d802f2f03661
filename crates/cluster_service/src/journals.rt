//! The journals of the nodes, and the disks that they leave.

ghost use Rattle.std.specs.Prelude.{◌≡◌, ◌+◌, ◌≤◌, ◌++◌, [], vec_len, vec_capacity, IsTrue};
ghost use Rattle.std.specs.List.{AllByRecursion};
ghost use Rattle.cluster_service.specs.OpenJournals.{AreAllOpen, IsDurable, disks_of};

use journal_frames::Journal;
use outside::disk::Disk;

/// Returns the disk of a journal.
fn close_one<D: Disk>(journal: Journal<D>) -> D
    ensures disk { result ≡ journal.disk }
    ensures durable { IsTrue journal.is_open → IsTrue D.tells → IsDurable D.content D.may_leave result }
{
    journal.into_disk()
}

/// Moves the disks of the journals, in order, into an empty vector that has room for them.
pub fn close_all<D: Disk>(journals: Vec<Journal<D>>, back: &mut Vec<D>)
    requires empty { back.old.items ≡ [] }
    requires room { vec_len journals ≤ vec_capacity back.old }
    ensures disks { back.new.items ≡ disks_of journals.items }
    ensures durable { IsTrue D.tells → AreAllOpen journals.items → AllByRecursion (IsDurable D.content D.may_leave) back.new.items }
    ensures capacity { vec_capacity back.new ≡ vec_capacity back.old }
{
    for journal in journals {
        back.push_reserved(close_one(journal));
    }
}
