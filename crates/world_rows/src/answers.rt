//! Results of calls of devices, in words.

use fixtures::{RowFault, number};
use outside::streams::Failed;
use std::alloc::{AllocError, Global};

/// Appends a result to others, with a comma between.
pub fn push_answer(answers: &mut String, answer: &str) -> Result<(), AllocError> {
    if !answers.is_empty() {
        answers.push_str(", ")?;
    }
    answers.push_str(answer)
}

/// Returns the first word, and what follows it.
pub fn first_word(words: &str) -> (&str, &str) {
    match words.split_once(' ') {
        Some(parts) => parts,
        None => (words, ""),
    }
}

/// Returns whether a call succeeded, in a word.
pub fn done_word(done: Result<(), Failed>) -> &'static str {
    match done {
        Ok(()) => "ok",
        Err(Failed) => "failed",
    }
}

/// Returns how many bytes a call read or wrote, in words.
pub fn count_words(alloc: Global, count: Result<u64, Failed>) -> Result<String, AllocError> {
    match count {
        Ok(count) => format!(in alloc; "{count}"),
        Err(Failed) => String::from_str(alloc, "failed"),
    }
}

/// Returns how many bytes a call read, and the whole buffer after it.
pub fn read_words(
    alloc: Global,
    count: Result<usize, Failed>,
    buffer: &[u8],
) -> Result<String, AllocError> {
    let Ok(count) = count else {
        return String::from_str(alloc, "failed");
    };
    let digits = hex::encode(alloc, buffer)?;
    format!(in alloc; "{count} {digits}")
}

/// Returns a buffer of this number of bytes, each of which is 07.
pub fn buffer_of(alloc: Global, room: &str) -> Result<Vec<u8>, RowFault> {
    let room: usize = number(room)?;
    Ok(vec![in alloc; 7; room]?)
}

/// Returns the number of the call that fails, in a list; or no number for `none`.
pub fn failing_calls(alloc: Global, words: &str) -> Result<Vec<u64>, RowFault> {
    match words {
        "none" => Ok(Vec::new(alloc)),
        _ => Ok(vec![in alloc; number(words)?]?),
    }
}
