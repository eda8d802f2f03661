//! Large and deep values are compared within the time and the stack that a program has.

use bson_values::{Aligned, Document, Memory, Name, Value};
use fixtures::push;
use std::alloc::Global;
use std::cmp::Ordering;
use std::io;
use value_compare::compare;

/// Compares two documents of 1,000,001 fields of 16 bytes each, which differ in the last.
pub fn compare_long(rt: &HostRuntime) -> io::Result<()> {
    let is_less = match compare_two(long(rt.alloc(), 1), long(rt.alloc(), 2)) {
        Ok(is_less) => is_less,
        Err(Memory) => false,
    };
    println!(rt; "16 megabytes: {is_less}")?;
    Ok(())
}

/// Compares two documents of depth 100, which differ in the innermost.
pub fn compare_deep(rt: &HostRuntime) -> io::Result<()> {
    let is_less = match compare_two(deep(rt.alloc(), 1), deep(rt.alloc(), 2)) {
        Ok(is_less) => is_less,
        Err(Memory) => false,
    };
    println!(rt; "depth 100: {is_less}")?;
    Ok(())
}

// Returns whether the first is less than the second and other data, and equal to itself and the same data.
fn compare_two(
    first: Result<Value, Memory>,
    second: Result<Value, Memory>,
) -> Result<bool, Memory> {
    let first = first?;
    let second = second?;
    let is_equal = compare(&first, &first) == Ordering::Equal;
    let is_less = compare(&first, &second) == Ordering::Less;
    let is_greater = compare(&second, &first) == Ordering::Greater;
    let is_other = first.same_data(&first) && !first.same_data(&second);
    Ok(is_equal && is_less && is_greater && is_other)
}

fn long(alloc: Global, last: i64) -> Result<Value, Memory> {
    let mut document = Document::new(alloc);
    for i in 0..1_000_000 {
        push(alloc, &mut document, "number", Value::Int64(i))?;
    }
    push(alloc, &mut document, "number", Value::Int64(last))?;
    Ok(Value::Doc(document))
}

// 100 documents, each nested in the one before, and the number in the innermost.
fn deep(alloc: Global, last: i32) -> Result<Value, Memory> {
    let mut value = Value::Int32(Aligned::of(last));
    for _ in 0..100 {
        value = holding(alloc, value)?;
    }
    Ok(value)
}

fn holding(alloc: Global, value: Value) -> Result<Value, Memory> {
    let mut document = Document::new(alloc);
    document.push(Name::of(alloc, "a")?, value)?;
    Ok(Value::Doc(document))
}
