//! Sinks and links that note the state of disks.
ghost use Rattle.std.specs.Prelude.{◌≡◌, ◌++◌, ◌∷◌, [], length, IsTrue};
ghost use Rattle.outside.specs.Notes.{Note};

use crate::disk::Disk;
use crate::streams::{Link, Sink};
use ghost_list::GhostList;
use std::marker::Model;

/// A sink to which disks are shown. A note records the place of a disk, the moment of the disk's own clock, and how many bytes were written to the sink
/// before. Since the disk is borrowed for it, no program can note a disk that does not exist, or another moment than the present one. So a contract can say
/// what was on the disks before a byte was written.
pub trait Witness<D: Disk>: Sink {
    /// Notes the disk. Nothing is written, and nothing is done at run time.
    fn note(&mut self, disk: &D)
        ensures noted { IsTrue Self.Sink.tells → Self.Sink.noted self.new ≡ Self.Sink.noted self.old
            ++ record { place = D.place disk.now; moment = D.moment disk.now; length = length (Self.Sink.held self.old) } ∷ [] }
        ensures held { Self.Sink.held self.new ≡ Self.Sink.held self.old }
        ensures faults { Self.Sink.fault_count self.new ≡ Self.Sink.fault_count self.old }
        ensures aside { Self.Sink.beside self.new ≡ Self.Sink.beside self.old };
}

/// A disk as it was when it was seen: its place, and the moment of its own clock then. It has no bytes, and what is seen on one thread may be noted on another.
/// Since the disk is borrowed for it, no program can see a disk that does not exist, or a moment that is still to come.
#[derive(Drop)]
pub struct SeenDisk<D: Disk> {
    // The disk as it was. A list that only proofs read may go to another thread where its items may.
    disk: GhostList<D, usize>,
}

impl<D: Disk> Model for SeenDisk<D> {
    ghost use Rattle.outside.specs.Notes.{Sight, sight_by};

    ghost Value = { Sight };

    ghost view = { λ s. sight_by D.place D.moment s.disk.items };
}

impl<D: Disk> SeenDisk<D> {
    /// Sees a disk as it is.
    pub fn of(disk: &D) -> SeenDisk<D>
        ensures { result ≡ record { place = D.place disk.now; moment = D.moment disk.now } }
    {
        SeenDisk {
            disk: GhostList::new().with(disk, &0),
        }
    }
}

/// A link to which disks are shown. A note records the place of a disk that was seen, the moment of the disk's own clock then, and how many bytes were written
/// to the link before. So a contract can say what was on the disks before a byte was written.
pub trait DiskLink<D: Disk>: Link {
    /// Notes a disk that was seen. Nothing is written, and nothing is done at run time.
    fn note(&mut self, seen: &SeenDisk<D>)
        ensures noted { IsTrue Self.Sink.tells → Self.Sink.noted self.new ≡ Self.Sink.noted self.old
            ++ record { place = seen.now.place; moment = seen.now.moment; length = length (Self.Sink.held self.old) } ∷ [] }
        ensures held { Self.Sink.held self.new ≡ Self.Sink.held self.old }
        ensures left { Self.Source.left self.new ≡ Self.Source.left self.old }
        ensures takes { Self.Source.fault_count self.new ≡ Self.Source.fault_count self.old }
        ensures puts { Self.Sink.fault_count self.new ≡ Self.Sink.fault_count self.old };
}
