//! Steps on a critical section.

use crate::words::{namespace_of, range_of, request_of, span_of};
use cluster_base::Time;
use critical_section::{Parked, Section, Want};
use fixtures::{RowFault, Rows, field, number};
use std::alloc::Global;
use value_compare::Span;

/// One step after another: `enter | NAMESPACE | MIN | MAX | TIME`; `covers | NAMESPACE | WANT | ANSWER | SPANS` with `write` or `read TIME`,
/// `yes` or `no`; `park | ROUTER LIFE COUNT | TURN | INDEX | COMMAND` parks a number as a command; `leave | COMMANDS` holds where these
/// waited, in order.
#[derive(Drop)]
pub struct Sections {
    /// The section that is entered.
    pub section: Option<Section<u64>>,
}

impl Rows for Sections {
    fn holds(&mut self, alloc: Global, row: &str) -> Result<bool, RowFault> {
        let (verb, rest) = field(row);
        match verb {
            "enter" => self.enter(alloc, rest),
            "covers" => self.covers(alloc, rest),
            "park" => self.park(rest),
            "leave" => self.leave(rest),
            _ => Err(RowFault::Form),
        }
    }
}

impl Sections {
    fn enter(&mut self, alloc: Global, row: &str) -> Result<bool, RowFault> {
        let (name, rest) = field(row);
        let (min, rest) = field(rest);
        let (max, time) = field(rest);
        let namespace = namespace_of(alloc, name)?;
        let range = range_of(min, max)?;
        let time = Time(number(time)?);
        self.section = Some(Section::enter(alloc, namespace, range, time));
        Ok(true)
    }

    fn covers(&self, alloc: Global, row: &str) -> Result<bool, RowFault> {
        let (name, rest) = field(row);
        let (want, rest) = field(rest);
        let (answer, words) = field(rest);
        let Some(section) = &self.section else {
            return Err(RowFault::Form);
        };
        let namespace = namespace_of(alloc, name)?;
        let want = want_of(want)?;
        let spans = spans_of(alloc, words)?;
        let covered = section.covers_any(&namespace, &spans, want);
        Ok(covered == (answer == "yes"))
    }

    fn park(&mut self, row: &str) -> Result<bool, RowFault> {
        let (id, rest) = field(row);
        let (turn, rest) = field(rest);
        let (index, command) = field(rest);
        let parked = Parked {
            id: request_of(id)?,
            turn: number(turn)?,
            index: number(index)?,
            command: number(command)?,
        };
        let Some(section) = &mut self.section else {
            return Err(RowFault::Form);
        };
        section.park(parked)?;
        Ok(true)
    }

    fn leave(&mut self, words: &str) -> Result<bool, RowFault> {
        let Some(section) = self.section.take() else {
            return Err(RowFault::Form);
        };
        are_parked(&section.leave(), words)
    }
}

// Returns whether the commands are those of the words, in order.
fn are_parked(list: &[Parked<u64>], words: &str) -> Result<bool, RowFault> {
    let mut wanted = words.split_whitespace();
    for parked in list {
        let Some(command) = wanted.next() else {
            return Ok(false);
        };
        if parked.command != number::<u64>(command)? {
            return Ok(false);
        }
    }
    Ok(wanted.next().is_none())
}

fn want_of(words: &str) -> Result<Want, RowFault> {
    match words.split_once(' ') {
        Some(("read", time)) => Ok(Want::Read(Time(number(time)?))),
        _ if words == "write" => Ok(Want::Write),
        _ => Err(RowFault::Form),
    }
}

fn spans_of(alloc: Global, words: &str) -> Result<Vec<Span>, RowFault> {
    let mut spans = Vec::new(alloc);
    for word in words.split_whitespace() {
        spans.push(span_of(word)?)?;
    }
    Ok(spans)
}
