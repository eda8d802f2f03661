//! Disks over files of the system, and a journal on one.

use crate::disks::answers;
use crate::journals::tells;
use crate::records::run;
use fixtures::{RowFault, Rows, check_file, field};
use outside::standard::FileDisk;
use std::alloc::{AllocError, Global};
use std::{env, fs, io, process};

/// `disk | NAME | CALLS | ANSWERS`: the results of calls of a disk over the file of this name; `journal | NAME | STEP | ANSWER`: the result of a step of a
/// journal there. Each row has a new disk; the files remain.
#[derive(Drop)]
struct Files<'a> {
    rt: HostRuntime,
    folder: &'a str,
}

impl Rows for Files<'_> {
    fn holds(&mut self, alloc: Global, row: &str) -> Result<bool, RowFault> {
        let (kind, rest) = field(row);
        let (name, rest) = field(rest);
        let disk = disk_in(self.rt, self.folder, name)?;
        let (step, wanted) = field(rest);
        match kind {
            "disk" => is_answered(alloc, disk, step, wanted),
            "journal" => is_told(alloc, disk, step, wanted),
            _ => Err(RowFault::Form),
        }
    }
}

fn disk_in(rt: HostRuntime, folder: &str, name: &str) -> Result<FileDisk<HostRuntime>, AllocError> {
    let path = format!(in rt.alloc(); "{folder}/{name}")?;
    Ok(FileDisk::new(rt, path))
}

fn is_answered(
    alloc: Global,
    disk: FileDisk<HostRuntime>,
    calls: &str,
    wanted: &str,
) -> Result<bool, RowFault> {
    let mut disk = disk;
    let found = answers(alloc, &mut disk, calls)?;
    Ok(found.as_str() == wanted)
}

fn is_told(
    alloc: Global,
    disk: FileDisk<HostRuntime>,
    step: &str,
    wanted: &str,
) -> Result<bool, RowFault> {
    let (told, _disk) = run(alloc, disk, step);
    tells(told, wanted)
}

/// Checks the rows about files, in a new folder that is removed after them.
pub fn check_files(rt: HostRuntime) -> io::Result<()> {
    let folder = folder_name(rt)?;
    fs::create_dir(&rt, folder.as_str())?;
    let folder_text = folder.as_str();
    check_file(
        &rt,
        "files.txt",
        &mut Files {
            rt,
            folder: folder_text,
        },
    )?;
    fs::remove_dir_all(&rt, folder.as_str())
}

// Returns the name of a folder of this process.
fn folder_name(rt: HostRuntime) -> io::Result<String> {
    let parent = env::temp_dir(&rt)?;
    Ok(format!(in rt.alloc(); "{}/world-{}", parent.display(), process::id(rt.process()))?)
}
