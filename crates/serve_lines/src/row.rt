//! Rows of the data.

use crate::client::{Client, Part};
use crate::outcome::Outcome;
use bson_values::Text;
use row_disks::{DiskPlan, RowFault, add_plans, bytes_of, number, place, plan_of, split};
use std::alloc::Global;

/// What clients send, and what it may result in.
#[derive(Drop)]
pub struct Row {
    shards: u64,
    routers: u64,
    /// How many links the server accepts, if not as many as there are clients.
    sessions: Option<u64>,
    /// Whether the server may not listen on its port.
    pub is_refused: bool,
    pub clients: Vec<Client>,
    /// The disks of the nodes, at the start.
    pub disks: Vec<DiskPlan>,
    /// The outcomes, one of which must come about.
    pub outcomes: Vec<Outcome>,
    /// How many replies are wanted of what was sent in earlier turns, and of all that was sent.
    before: u64,
    wanted: u64,
}

impl Row {
    /// Returns a row without lines.
    pub fn new(alloc: Global) -> Row {
        Row {
            shards: 1,
            routers: 1,
            sessions: None,
            is_refused: false,
            clients: Vec::new(alloc),
            disks: Vec::new(alloc),
            outcomes: Vec::new(alloc),
            before: 0,
            wanted: 0,
        }
    }

    /// Returns how many nodes there are.
    fn nodes(&self) -> u64 {
        self.shards.saturating_add(self.routers).saturating_add(1)
    }

    /// Returns the arguments of the row's server.
    pub fn arguments(&self, alloc: Global) -> Result<Vec<Text>, RowFault> {
        let (shards, routers) = (self.shards, self.routers);
        let sessions = self.sessions.unwrap_or(self.clients.len() as u64);
        let line = format!(in alloc;
            "serve --port 27017 --sessions {sessions} --shards {shards} --routers {routers}"
        )?;
        words_of(alloc, line.as_str())
    }

    /// Appends the plans of the disks about which the row says nothing.
    pub fn fill(&mut self, alloc: Global) -> Result<(), RowFault> {
        let nodes = self.nodes();
        add_plans(alloc, &mut self.disks, nodes)
    }

    /// Reads a line: its first word, and what follows it. Returns `Memory` if memory runs out, and an error where no line begins with the word.
    pub fn take(&mut self, alloc: Global, word: &str, rest: &str) -> Result<(), RowFault> {
        if word == "shards" {
            self.shards = number(rest)?;
            Ok(())
        } else if word == "routers" {
            self.routers = number(rest)?;
            Ok(())
        } else if word == "sessions" {
            self.sessions = Some(number(rest)?);
            Ok(())
        } else if word == "refused" {
            self.is_refused = true;
            Ok(())
        } else if word == "turn" {
            self.before = self.wanted;
            Ok(())
        } else if word == "or" {
            self.add_outcome(alloc)
        } else {
            self.take_more(alloc, word, rest)
        }
    }

    /// Reads a remark, or a line on what is sent.
    fn take_more(&mut self, alloc: Global, word: &str, rest: &str) -> Result<(), RowFault> {
        if word == "#" || word == "note" {
            Ok(())
        } else if word == "ask" || word == "send" {
            self.take_part(alloc, rest, word == "ask")
        } else if word == "fail" || word == "holds" {
            self.take_disk(alloc, word, rest)
        } else {
            self.take_outcome(alloc, word, rest)
        }
    }

    /// Reads a line on a disk at the start: its bytes, or the number of a call that fails.
    fn take_disk(&mut self, alloc: Global, word: &str, rest: &str) -> Result<(), RowFault> {
        self.fill(alloc)?;
        let (disk, rest) = split(rest)?;
        let plan = plan_of(&mut self.disks, disk)?;
        if word == "fail" {
            return plan.fail(rest);
        }
        plan.take(alloc, "file", rest)
    }

    /// Reads a line on an outcome.
    fn take_outcome(&mut self, alloc: Global, word: &str, rest: &str) -> Result<(), RowFault> {
        if self.outcomes.is_empty() {
            self.add_outcome(alloc)?;
        }
        match self.outcomes.last_mut() {
            Some(outcome) => outcome.take(alloc, word, rest),
            None => Err(RowFault::BadLine),
        }
    }

    /// Begins an outcome.
    fn add_outcome(&mut self, alloc: Global) -> Result<(), RowFault> {
        let outcome = Outcome::new(alloc, self.clients.len(), self.nodes())?;
        self.outcomes.push(outcome)?;
        Ok(())
    }

    /// Reads what a client sends.
    fn take_part(&mut self, alloc: Global, rest: &str, is_asked: bool) -> Result<(), RowFault> {
        let (link, pieces) = split(rest)?;
        let bytes = bytes_of(alloc, pieces)?;
        self.wanted = self.wanted.saturating_add(u64::from(is_asked));
        self.add_part(alloc, link, bytes)
    }

    /// Appends what a client sends once all replies that were wanted in earlier turns are written.
    fn add_part(&mut self, alloc: Global, link: &str, bytes: Vec<u8>) -> Result<(), RowFault> {
        let after = self.before;
        let part = Part { after, bytes };
        self.client(alloc, link)?.parts.push(part)?;
        Ok(())
    }

    /// Returns the client of a link; it and those before it send nothing yet, where they are not there.
    fn client(&mut self, alloc: Global, link: &str) -> Result<&mut Client, RowFault> {
        let link = place(link)?;
        for _ in self.clients.len()..link.saturating_add(1) {
            self.clients.push(Client::new(alloc))?;
        }
        self.clients.get_mut(link).ok_or(RowFault::BadLine)
    }
}

/// Returns the words of a line.
fn words_of(alloc: Global, line: &str) -> Result<Vec<Text>, RowFault> {
    let mut words = Vec::new(alloc);
    for word in line.split(' ') {
        words.push(Text::of(alloc, word)?)?;
    }
    Ok(words)
}
