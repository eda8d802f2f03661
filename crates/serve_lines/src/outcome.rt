//! What a row may result in.

use crate::pattern::Pattern;
use outside::exchange::LinkEnd;
use row_disks::{DiskPlan, RowFault, add_plans, number, place, plan_of, split};
use std::alloc::Global;

/// What is written to a link, and how it ends.
#[derive(Drop)]
pub struct LinkPlan {
    pub gets: Pattern,
    pub end: LinkEnd,
}

impl LinkPlan {
    /// Returns the plan of a link to which nothing is written, until its client closes it.
    fn new(alloc: Global) -> LinkPlan {
        LinkPlan {
            gets: Pattern::new(alloc),
            end: LinkEnd::AtEnd,
        }
    }
}

/// What is said of the links and of the disks.
#[derive(Drop)]
pub struct Outcome {
    pub links: Vec<LinkPlan>,
    pub disks: Vec<DiskPlan>,
}

impl Outcome {
    /// Returns an outcome in which nothing is written to any of so many links, and nothing is said of so many disks.
    pub fn new(alloc: Global, links: usize, disks: u64) -> Result<Outcome, RowFault> {
        let mut outcome = Outcome {
            links: Vec::new(alloc),
            disks: Vec::new(alloc),
        };
        outcome.add_links(alloc, links)?;
        add_plans(alloc, &mut outcome.disks, disks)?;
        Ok(outcome)
    }

    fn add_links(&mut self, alloc: Global, links: usize) -> Result<(), RowFault> {
        for _ in 0..links {
            self.links.push(LinkPlan::new(alloc))?;
        }
        Ok(())
    }

    /// Reads a line: its first word, and what follows it.
    pub fn take(&mut self, alloc: Global, word: &str, rest: &str) -> Result<(), RowFault> {
        if word == "loses" {
            return self.end(rest, LinkEnd::Lost);
        }
        let (at, rest) = split(rest)?;
        if word == "gets" {
            return self.link(at)?.gets.take(alloc, rest);
        }
        if word == "breaks" {
            let place = number(rest)?;
            return self.end(at, LinkEnd::NoFrame { place });
        }
        plan_of(&mut self.disks, at)?.take(alloc, word, rest)
    }

    /// Returns the plan of a link.
    fn link(&mut self, at: &str) -> Result<&mut LinkPlan, RowFault> {
        let link = place(at)?;
        self.links.get_mut(link).ok_or(RowFault::BadLine)
    }

    /// Sets how a link ends.
    fn end(&mut self, at: &str, end: LinkEnd) -> Result<(), RowFault> {
        self.link(at)?.end = end;
        Ok(())
    }
}
