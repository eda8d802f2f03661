//! Checking the rows of a file.

ghost use Rattle.std.specs.Thread.{IsSync};

use crate::fault::RowFault;
use std::alloc::Global;
use std::fs;
use std::io::Print;
use std::process::ExitCode;
use std::rt::Files;
use std::sync::Wait;
use std::thread::Threads;

/// How the lines of a file are read as rows, each of which is checked at its end.
pub trait Rows {
    /// Reads a line: its first word, and what follows it; what the row needs runs on this runtime. Returns whether the row that it ends holds, and `None` where it ends no row. Returns `BadLine`
    /// where no line begins with the word, and `Memory` if memory runs out.
    fn take<R: Threads + Wait + Sync>(
        &mut self,
        rt: &R,
        alloc: Global,
        word: &str,
        rest: &str,
    ) -> Result<Option<bool>, RowFault>
        requires { IsSync R.row };
}

/// Checks the rows of a file, and prints how many hold; before that, the number of the last line of each that does not.
pub fn check_file<R: Files + AllocGlobal + Print + Threads + Wait + Sync, T: Rows>(
    rt: &R,
    file: &str,
    rows: &mut T,
) -> Result<(), RowFault> {
    let text = fs::read_to_string(rt, file)?;
    let mut count = 0u64;
    for (i, line) in text.lines().enumerate() {
        let (word, rest) = line.split_once(' ').unwrap_or((line, ""));
        if let Some(is_held) = rows.take(rt, rt.alloc(), word, rest)? {
            count = count.saturating_add(counted(rt, file, i, is_held)?);
        }
    }
    println!(rt; "{file}: {count} rows")?;
    Ok(())
}

/// Returns 1 for a row that holds, and prints the number of the last line of one that does not, of which the index is given.
fn counted<R: Print>(rt: &R, file: &str, i: usize, is_held: bool) -> Result<u64, RowFault> {
    if is_held {
        return Ok(1);
    }
    let line = i.saturating_add(1);
    println!(rt; "not so: {file}:{line}")?;
    Ok(0)
}

/// Returns the exit status of a program that checked its rows, and prints why where they could not be checked.
pub fn exit_of(rt: &HostRuntime, checked: Result<(), RowFault>) -> ExitCode {
    let word = match checked {
        Ok(()) => return ExitCode::SUCCESS,
        Err(RowFault::Memory) => "no memory",
        Err(RowFault::BadLine) => "a line is none of a row",
        Err(RowFault::Failed) => "a file can't be read",
    };
    let _ = println!(rt; "{word}");
    ExitCode::FAILURE
}
