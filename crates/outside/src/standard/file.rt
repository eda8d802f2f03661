//! A disk over a file of the system.
ghost use Rattle.std.specs.Prelude.{◌≡◌, ◌≤◌, [], length, false, Ok, IfOk, OnOk, OnErr, string_bytes};
ghost use Rattle.outside.specs.Causes.{Rose, next_count};

use crate::disk::Disk;
use crate::streams::Failed;
use std::fs::{File, Files, OpenFile, OpenOptions};
use std::io;
use std::io::{Read, Seek, SeekFrom, Write};
use std::path::Path;

/// A disk over a file, which is opened at the disk's first call, and created if it does not exist. It counts the errors that it meets; its content is not
/// observable. Where the file can't be opened each call is an error.
#[derive(Drop)]
pub struct FileDisk<R: Files + Drop> {
    runtime: R,
    path: String,
    file: LazyFile<R>,
    faults: u64,
}

impl<R: Files + Drop> FileDisk<R> {
    /// Returns a disk over the file of this path, with no error met.
    pub fn new(rt: R, path: String) -> FileDisk<R>
        ensures place { string_bytes result.path ≡ string_bytes path }
        ensures faults { result.faults ≡ 0 }
    {
        FileDisk {
            runtime: rt,
            path,
            file: LazyFile { file: None },
            faults: 0,
        }
    }

    /// The result of a call, whose error is counted.
    fn counted<T: Drop>(&mut self, answer: io::Result<T>) -> Result<T, Failed>
        ensures same { IfOk result (λ x. answer ≡ Ok x) }
        ensures fault { OnErr result (self.new.faults ≡ next_count self.old.faults) }
        ensures calm { OnOk result (self.new.faults ≡ self.old.faults) }
        ensures later { self.old.faults ≤ self.new.faults }
        ensures path { self.new.path ≡ self.old.path }
    {
        match answer {
            Ok(x) => Ok(x),
            Err(_) => {
                self.faults = self.faults.saturating_add(1);
                Err(Failed)
            }
        }
    }
}

impl<R: Files + Drop> Disk for FileDisk<R> {
    ghost tells = { false };

    ghost content = { λ _. [] };

    ghost may_leave = { λ _ _. Unit {0} };

    ghost moment = { λ _. 0 };

    ghost left_at = { λ _ _ _. Unit {0} };

    ghost fault_count = { λ d. d.faults };

    ghost place = { λ d. string_bytes d.path };

    ghost counts_now = { λ _ _ _. tt };

    ghost only_now = { λ _ _ _. tt };

    fn len(&mut self) -> Result<u64, Failed>
        ensures cause { OnErr result (Rose self.old.faults self.new.faults) }
        ensures calm { OnOk result (self.new.faults ≡ self.old.faults) }
        ensures later { self.old.faults ≤ self.new.faults }
        ensures place { string_bytes self.new.path ≡ string_bytes self.old.path }

        // An error is counted once.
        ensures fault { OnErr result (self.new.faults ≡ next_count self.old.faults) }
    {
        let answer = self.file.len(&self.runtime, self.path.as_str());
        self.counted(answer)
    }

    fn read(&mut self, at: u64, buf: &mut [u8]) -> Result<usize, Failed>
        ensures count { IfOk result (λ n. n ≤ length buf.old) }
        ensures len { length buf.new ≡ length buf.old }
        ensures cause { OnErr result (Rose self.old.faults self.new.faults) }
        ensures calm { OnOk result (self.new.faults ≡ self.old.faults) }
        ensures later { self.old.faults ≤ self.new.faults }
        ensures place { string_bytes self.new.path ≡ string_bytes self.old.path }

        // An error is counted once.
        ensures fault { OnErr result (self.new.faults ≡ next_count self.old.faults) }
    {
        let answer = self.file.read(&self.runtime, self.path.as_str(), at, buf);
        self.counted(answer)
    }

    fn write_at(&mut self, at: u64, piece: &[u8]) -> Result<(), Failed>
        ensures cause { OnErr result (Rose self.old.faults self.new.faults) }
        ensures calm { OnOk result (self.new.faults ≡ self.old.faults) }
        ensures later { self.old.faults ≤ self.new.faults }
        ensures place { string_bytes self.new.path ≡ string_bytes self.old.path }

        // An error is counted once.
        ensures fault { OnErr result (self.new.faults ≡ next_count self.old.faults) }
    {
        let answer = self
            .file
            .write_at(&self.runtime, self.path.as_str(), at, piece);
        self.counted(answer)
    }

    fn cut(&mut self, len: u64) -> Result<(), Failed>
        ensures cause { OnErr result (Rose self.old.faults self.new.faults) }
        ensures calm { OnOk result (self.new.faults ≡ self.old.faults) }
        ensures later { self.old.faults ≤ self.new.faults }
        ensures place { string_bytes self.new.path ≡ string_bytes self.old.path }

        // An error is counted once.
        ensures fault { OnErr result (self.new.faults ≡ next_count self.old.faults) }
    {
        let answer = self.file.cut(&self.runtime, self.path.as_str(), len);
        self.counted(answer)
    }

    fn sync(&mut self) -> Result<(), Failed>
        ensures cause { OnErr result (Rose self.old.faults self.new.faults) }
        ensures calm { OnOk result (self.new.faults ≡ self.old.faults) }
        ensures later { self.old.faults ≤ self.new.faults }
        ensures place { string_bytes self.new.path ≡ string_bytes self.old.path }

        // An error is counted once.
        ensures fault { OnErr result (self.new.faults ≡ next_count self.old.faults) }
    {
        let answer = self.file.sync(&self.runtime, self.path.as_str());
        self.counted(answer)
    }

    fn faults(&self) -> u64
        ensures { result ≡ self.now.faults }
    {
        self.faults
    }
}

/// A file that is opened at its first use.
#[derive(Drop)]
struct LazyFile<R: Files + Drop> {
    file: Option<R::File>,
}

impl<R: Files + Drop> LazyFile<R> {
    /// Returns the open file. Where it was not open, the file of this path is opened, or created, and its folder is synced, so that its name is durable.
    fn open(&mut self, runtime: &R, path: &str) -> io::Result<&mut R::File> {
        if self.file.is_none() {
            let file = OpenOptions::new()
                .read(true)
                .write(true)
                .create(true)
                .open(runtime, path)?;
            File::open(runtime, folder_of(path))?.sync_all()?;
            self.file = Some(file);
        }
        match &mut self.file {
            Some(file) => Ok(file),
            None => unreachable!(),
        }
    }

    /// Returns the file's length in bytes.
    fn len(&mut self, runtime: &R, path: &str) -> io::Result<u64> {
        Ok(self.open(runtime, path)?.metadata()?.len())
    }

    /// Reads bytes from the offset `at` on into the front of `buf`, and returns their number.
    fn read(&mut self, runtime: &R, path: &str, at: u64, buf: &mut [u8]) -> io::Result<usize>
        ensures count { IfOk result (λ n. n ≤ length buf.old) }
        ensures len { length buf.new ≡ length buf.old }
    {
        let file = self.open(runtime, path)?;
        file.seek(SeekFrom::Start(at))?;
        file.read(buf)
    }

    /// Writes the piece from the offset `at` on.
    fn write_at(&mut self, runtime: &R, path: &str, at: u64, piece: &[u8]) -> io::Result<()> {
        let file = self.open(runtime, path)?;
        file.seek(SeekFrom::Start(at))?;
        file.write_all(piece)
    }

    /// Cuts the file to `len` bytes, if it is longer.
    fn cut(&mut self, runtime: &R, path: &str, len: u64) -> io::Result<()> {
        let file = self.open(runtime, path)?;
        if len < file.metadata()?.len() {
            file.set_len(len)?;
        }
        Ok(())
    }

    /// Makes the file's content durable.
    fn sync(&mut self, runtime: &R, path: &str) -> io::Result<()> {
        self.open(runtime, path)?.sync_all()
    }
}

/// Returns the folder that the file of this path is in.
fn folder_of(path: &str) -> Path<'_> {
    match Path::new(path).parent() {
        Some(folder) if !folder.as_str().is_empty() => folder,
        _ => Path::new("."),
    }
}
