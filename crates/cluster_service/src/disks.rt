//! The disks, in order of their nodes: opened as journals, and returned.

ghost use Rattle.std.specs.Prelude.{◌≡◌, ◌≤◌, ◌+◌, ◌++◌, [], vec_len, vec_capacity, IfOk, IfErr};
ghost use Rattle.cluster_service.specs.Openings.{AreOpenedUpTo, AreUnopened, InThrees, IsOpenedOn, IsUnopened, disk_facts};

use crate::journals::close_all;
use crate::status::Status;
use journal_frames::{Journal, OpenFault};
use outside::disk::Disk;
use outside::log::RecordList;
use std::alloc::{AllocError, Global};

/// A journal that was not opened: why, and its disk.
#[derive(Drop)]
struct Unopened<D: Drop> {
    status: Status,
    disk: D,
}

/// Journals that were not opened: why, and their disks.
#[derive(Drop)]
pub struct AllUnopened<D: Drop> {
    pub status: Status,
    pub disks: Vec<D>,
}

/// Opens the journal on a disk, and returns it with the records that were found.
fn open_one<D: Disk>(alloc: Global, disk: D) -> Result<(Journal<D>, RecordList), Unopened<D>>
    ensures opened { IfOk result (λ x. IsOpenedOn (disk_facts D.tells D.content D.may_leave D.moment D.left_at D.place D.fault_count) disk x.0 x.1) }
    ensures unopened { IfErr result (λ u.
        IsUnopened (disk_facts D.tells D.content D.may_leave D.moment D.left_at D.place D.fault_count) u.status disk u.disk) }
{
    match Journal::open(alloc, disk) {
        Ok(opened) => Ok(opened),
        Err(OpenFault::Disk(disk)) => Err(Unopened {
            status: Status::DiskFailed,
            disk,
        }),
        Err(OpenFault::Damaged { disk, .. }) => Err(Unopened {
            status: Status::DamagedJournal,
            disk,
        }),
        Err(OpenFault::Memory(disk)) => Err(Unopened {
            status: Status::OutOfMemory,
            disk,
        }),
    }
}

/// Opens the journals on the disks, in order of their nodes, up to the first that is not opened: returns its status, if there is one. That disk and
/// those after it are put into `unopened`. All vectors must have room.
fn open_some<D: Disk>(
    alloc: Global,
    disks: Vec<D>,
    journals: &mut Vec<Journal<D>>,
    found: &mut Vec<RecordList>,
    unopened: &mut Vec<D>,
) -> Option<Status>
    requires journals { journals.old.items ≡ [] }
    requires found { found.old.items ≡ [] }
    requires unopened { unopened.old.items ≡ [] }
    requires room { vec_len disks ≤ vec_capacity journals.old }
    requires found_room { vec_len disks ≤ vec_capacity found.old }
    requires unopened_room { vec_len disks ≤ vec_capacity unopened.old }
    ensures { AreOpenedUpTo (disk_facts D.tells D.content D.may_leave D.moment D.left_at D.place D.fault_count)
        disks.items [] result journals.new.items found.new.items unopened.new.items }
{
    let mut stopped = None;
    for disk in disks {
        match stopped {
            Some(_) => unopened.push_reserved(disk),
            None => match open_one(alloc, disk) {
                Ok((journal, records)) => {
                    journals.push_reserved(journal);
                    found.push_reserved(records);
                }
                Err(u) => {
                    stopped = Some(u.status);
                    unopened.push_reserved(u.disk);
                }
            },
        }
    }
    stopped
}

/// Appends disks to those that a vector has, which has room for them.
fn put_after<D: Drop>(disks: Vec<D>, all: &mut Vec<D>)
    requires { vec_len all.old + vec_len disks ≤ vec_capacity all.old }
    ensures { all.new.items ≡ all.old.items ++ disks.items }
{
    for disk in disks {
        all.push_reserved(disk);
    }
}

/// Empty vectors with room for the disks, the journals and the records of so many nodes.
#[derive(Drop)]
struct Rooms<D: Disk> {
    journals: Vec<Journal<D>>,
    found: Vec<RecordList>,
    unopened: Vec<D>,
    back: Vec<D>,
}

fn rooms_for<D: Disk>(alloc: Global, count: usize) -> Result<Rooms<D>, AllocError>
    ensures journals { IfOk result (λ rooms. (rooms.journals.items ≡ []) × (count ≤ vec_capacity rooms.journals)) }
    ensures found { IfOk result (λ rooms. (rooms.found.items ≡ []) × (count ≤ vec_capacity rooms.found)) }
    ensures unopened { IfOk result (λ rooms. (rooms.unopened.items ≡ []) × (count ≤ vec_capacity rooms.unopened)) }
    ensures back { IfOk result (λ rooms. (rooms.back.items ≡ []) × (count ≤ vec_capacity rooms.back)) }
{
    Ok(Rooms {
        journals: Vec::with_capacity(alloc, count)?,
        found: Vec::with_capacity(alloc, count)?,
        unopened: Vec::with_capacity(alloc, count)?,
        back: Vec::with_capacity(alloc, count)?,
    })
}

/// The journals of nodes, which are open, the records that were found in each, and an empty vector with room for their disks.
#[derive(Drop)]
pub struct Opened<D: Disk> {
    pub journals: Vec<Journal<D>>,
    pub found: Vec<RecordList>,
    pub back: Vec<D>,
}

/// Opens the journals on the disks, in order of their nodes. Where one is not opened, or memory runs out, all disks are returned, each in its
/// place.
pub fn open_all<D: Disk>(alloc: Global, disks: Vec<D>) -> Result<Opened<D>, AllUnopened<D>>
    ensures opened { IfOk result (λ all.
        InThrees (IsOpenedOn (disk_facts D.tells D.content D.may_leave D.moment D.left_at D.place D.fault_count))
        disks.items all.journals.items all.found.items) }
    ensures back { IfOk result (λ all. (all.back.items ≡ []) × (vec_len disks ≤ vec_capacity all.back)) }
    ensures unopened { IfErr result (λ u.
        AreUnopened (disk_facts D.tells D.content D.may_leave D.moment D.left_at D.place D.fault_count) u.status disks.items u.disks.items) }
{
    let Ok(rooms) = rooms_for(alloc, disks.len()) else {
        return Err(AllUnopened {
            status: Status::OutOfMemory,
            disks,
        });
    };
    let Rooms {
        mut journals,
        mut found,
        mut unopened,
        mut back,
    } = rooms;
    match open_some(alloc, disks, &mut journals, &mut found, &mut unopened) {
        None => Ok(Opened {
            journals,
            found,
            back,
        }),
        Some(status) => {
            close_all(journals, &mut back);
            put_after(unopened, &mut back);
            Err(AllUnopened {
                status,
                disks: back,
            })
        }
    }
}
