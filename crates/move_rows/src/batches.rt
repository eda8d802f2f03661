//! Batches in few words.

use crate::words::{bound_of, short_key};
use fixtures::{RowFault, field, number};
use shard_records::{MoveBatch, MovedDocument};
use std::alloc::Global;
use value_compare::Bound;

/// A member of a batch that is wanted.
#[derive(Clone, Copy, Drop)]
struct Member {
    key: i32,
    has_document: bool,
}

/// A batch that is wanted.
#[derive(Drop)]
pub struct Wanted {
    number: u64,
    upto: Bound,
    members: Vec<Member>,
}

impl Wanted {
    /// Returns the batch of a row: `NUMBER | UPTO | MEMBERS`. `7` is a key with a document, `7!` one without, and `1..9` each key from 1 to
    /// 9 with a document. Returns `Form` where the row is none, and `Memory` if memory runs out.
    pub fn read(alloc: Global, row: &str) -> Result<Wanted, RowFault> {
        let (digits, rest) = field(row);
        let (upto, words) = field(rest);
        let number = number(digits)?;
        let members = members_of(alloc, words)?;
        Ok(Wanted {
            number,
            upto: bound_of(upto)?,
            members,
        })
    }

    /// Returns whether the batch is this.
    pub fn is(&self, batch: &MoveBatch) -> Result<bool, RowFault> {
        let is_upto = batch.upto.compare(&self.upto).is_eq();
        let are_members = are_members(batch.docs.as_slice(), &self.members)?;
        Ok(batch.number == self.number && is_upto && are_members)
    }
}

fn members_of(alloc: Global, words: &str) -> Result<Vec<Member>, RowFault> {
    let mut members = Vec::new(alloc);
    for word in words.split_whitespace() {
        push_members(&mut members, word)?;
    }
    Ok(members)
}

fn push_members(members: &mut Vec<Member>, word: &str) -> Result<(), RowFault> {
    if let Some((from, to)) = word.split_once("..") {
        return push_run(members, number(from)?, number(to)?);
    }
    let member = member_of(word)?;
    members.push(member)?;
    Ok(())
}

fn push_run(members: &mut Vec<Member>, from: i32, to: i32) -> Result<(), RowFault> {
    for key in from..=to {
        members.push(Member {
            key,
            has_document: true,
        })?;
    }
    Ok(())
}

fn member_of(word: &str) -> Result<Member, RowFault> {
    let (digits, has_document) = match word.strip_suffix("!") {
        Some(digits) => (digits, false),
        None => (word, true),
    };
    Ok(Member {
        key: number(digits)?,
        has_document,
    })
}

// Returns whether the documents are those of the members, in order.
fn are_members(docs: &[MovedDocument], members: &[Member]) -> Result<bool, RowFault> {
    let mut left = members.iter();
    for moved in docs {
        let Some(member) = left.next() else {
            return Ok(false);
        };
        if !is_member(moved, *member)? {
            return Ok(false);
        }
    }
    Ok(left.next().is_none())
}

fn is_member(moved: &MovedDocument, member: Member) -> Result<bool, RowFault> {
    let key = short_key(member.key)?;
    Ok(moved.key == key && moved.document.is_some() == member.has_document)
}
