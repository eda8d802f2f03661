//! Numbers and bytes in lines.

use crate::fault::RowFault;
use std::alloc::Global;

/// Returns the number that the digits encode.
pub fn number(digits: &str) -> Result<u64, RowFault> {
    digits.parse::<u64>().map_err(|_| RowFault::BadLine)
}

/// Returns the place in a list that the digits encode.
pub fn place(digits: &str) -> Result<usize, RowFault> {
    Ok(number(digits)? as usize)
}

/// Appends the number that the digits encode.
pub fn put_number(numbers: &mut Vec<u64>, digits: &str) -> Result<(), RowFault> {
    numbers.push(number(digits)?)?;
    Ok(())
}

/// Returns what precedes the first space, and what follows it.
pub fn split(line: &str) -> Result<(&str, &str), RowFault> {
    line.split_once(' ').ok_or(RowFault::BadLine)
}

/// Appends a line.
pub fn put_line(lines: &mut String, line: &str) -> Result<(), RowFault> {
    lines.push_str(line)?;
    lines.push('\n')?;
    Ok(())
}

/// Returns bytes in hexadecimal; `3*05` means `050505`.
pub fn bytes_of(alloc: Global, pieces: &str) -> Result<Vec<u8>, RowFault> {
    let mut bytes = Vec::new(alloc);
    put_bytes(alloc, &mut bytes, pieces)?;
    Ok(bytes)
}

/// Appends bytes in hexadecimal; `3*05` means `050505`.
pub fn put_bytes(alloc: Global, bytes: &mut Vec<u8>, pieces: &str) -> Result<(), RowFault> {
    for piece in pieces.split(' ') {
        put_piece(alloc, bytes, piece)?;
    }
    Ok(())
}

fn put_piece(alloc: Global, bytes: &mut Vec<u8>, piece: &str) -> Result<(), RowFault> {
    let (times, digits) = counted(piece)?;
    let piece = hex::decode(alloc, digits)?;
    put_times(bytes, times, &piece)
}

/// Returns how often the digits are repeated, and the digits.
fn counted(piece: &str) -> Result<(u64, &str), RowFault> {
    let Some((times, digits)) = piece.split_once('*') else {
        return Ok((1, piece));
    };
    Ok((number(times)?, digits))
}

fn put_times(bytes: &mut Vec<u8>, times: u64, piece: &[u8]) -> Result<(), RowFault> {
    for _ in 0..times {
        bytes.extend_from_slice(piece)?;
    }
    Ok(())
}
