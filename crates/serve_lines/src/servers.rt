//! Whether rows hold.

ghost use Rattle.std.specs.Thread.{IsSync};

use crate::link::{TurnAcceptor, TurnLink};
use crate::outcome::{LinkPlan, Outcome};
use crate::row::Row;
use crate::turns::Turns;
use bson_values::{Blob, Text};
use outside::exchange::{Exchange, Spoken};
use outside_memory::MemDisk;
use row_disks::{RowFault, Rows, are_left, both, disks_of, number};
use std::alloc::Global;
use std::mem;
use std::sync::Wait;
use std::thread::Threads;

/// What a server left: its status, its links and its disks.
#[derive(Drop)]
pub struct Served<'a, R: Wait> {
    pub status: u8,
    pub links: Vec<Spoken<TurnLink<'a, R>>>,
    pub disks: Vec<MemDisk>,
}

/// A server of links.
pub trait Server {
    /// Serves links as these arguments say, by nodes on these disks, on this runtime. Returns `Failed` where the arguments start no nodes, or not as many as there are disks.
    fn serve<'a, R: Threads + Wait + Sync>(
        &self,
        rt: &R,
        alloc: Global,
        arguments: &[Text],
        acceptor: &mut TurnAcceptor<'a, R>,
        disks: Vec<MemDisk>,
    ) -> Result<Served<'a, R>, RowFault>
        requires { IsSync R.row };
}

/// Returns the links of the row.
fn links_of<'a, R: Wait>(
    rt: &'a R,
    alloc: Global,
    row: &Row,
    turns: &'a Turns,
) -> Result<Vec<TurnLink<'a, R>>, RowFault> {
    let mut links = Vec::new(alloc);
    for client in &row.clients {
        let parts = client.parts_again(alloc)?;
        links.push(TurnLink::new(rt, alloc, turns, parts))?;
    }
    Ok(links)
}

/// Serves the row's links.
fn serve_row<'a, R: Threads + Wait + Sync, S: Server>(
    server: &S,
    rt: &'a R,
    alloc: Global,
    row: &Row,
    turns: &'a Turns,
) -> Result<Served<'a, R>, RowFault> {
    let devices = both(row.arguments(alloc), disks_of(alloc, &row.disks));
    let (links, (arguments, disks)) = both(links_of(rt, alloc, row, turns), devices)?;
    let mut acceptor = TurnAcceptor::new(links, row.is_refused);
    server.serve(rt, alloc, &arguments, &mut acceptor, disks)
}

/// What was exchanged on a link: the bytes of the requests, and those of the replies.
#[derive(Drop)]
struct Said {
    asked: Vec<u8>,
    replied: Vec<u8>,
}

impl Said {
    /// Appends the bytes of the requests and of the replies. Returns whether each reply's step is not before that of its request.
    fn take_all(&mut self, said: &[Exchange]) -> Result<bool, RowFault> {
        let mut is_in_order = true;
        for exchange in said {
            self.asked.extend_from_slice(exchange.request.as_slice())?;
            self.take_reply(&exchange.reply)?;
            is_in_order = is_in_order && exchange.came <= exchange.step;
        }
        Ok(is_in_order)
    }

    /// Appends the bytes of a reply, where there is one.
    fn take_reply(&mut self, reply: &Option<Blob>) -> Result<(), RowFault> {
        if let Some(reply) = reply {
            self.replied.extend_from_slice(reply.as_slice())?;
        }
        Ok(())
    }
}

/// Returns whether the client of the link sent these bytes first.
fn is_sent(alloc: Global, row: &Row, link: usize, asked: &[u8]) -> Result<bool, RowFault> {
    match row.clients.get(link) {
        Some(client) => client.begins_with(alloc, asked),
        None => Ok(false),
    }
}

/// Returns whether a link got what the plan says, and what was exchanged on it is what its client sent first and what was written to it.
fn is_told<R: Wait>(
    alloc: Global,
    row: &Row,
    link: usize,
    plan: &LinkPlan,
    spoken: &Spoken<TurnLink<'_, R>>,
) -> Result<bool, RowFault> {
    let mut said = Said {
        asked: Vec::new(alloc),
        replied: Vec::new(alloc),
    };
    let is_in_order = said.take_all(&spoken.said)?;
    let is_sent = is_sent(alloc, row, link, &said.asked)?;
    let is_put = spoken.link.bytes() == said.replied.as_slice();
    let is_ended = spoken.end == plan.end;
    Ok(is_in_order && is_sent && is_put && is_ended && plan.gets.fits(&said.replied))
}

/// Returns whether the server ended with this outcome.
fn is_outcome<R: Wait>(
    alloc: Global,
    row: &Row,
    outcome: &Outcome,
    left: &Served<'_, R>,
) -> Result<bool, RowFault> {
    if left.links.len() != outcome.links.len() {
        return Ok(false);
    }
    for (link, (plan, spoken)) in outcome.links.iter().zip(&left.links).enumerate() {
        if !is_told(alloc, row, link, plan, spoken)? {
            return Ok(false);
        }
    }
    are_left(alloc, &outcome.disks, &left.disks)
}

/// Returns whether the server ended with one of the row's outcomes.
fn is_any_outcome<R: Wait>(
    alloc: Global,
    row: &Row,
    left: &Served<'_, R>,
) -> Result<bool, RowFault> {
    for outcome in &row.outcomes {
        if is_outcome(alloc, row, outcome, left)? {
            return Ok(true);
        }
    }
    Ok(false)
}

/// Returns whether the row's server ends with this status, and with one of the row's outcomes.
fn holds<R: Threads + Wait + Sync, S: Server>(
    server: &S,
    rt: &R,
    alloc: Global,
    row: &Row,
    status: u64,
) -> Result<bool, RowFault> {
    let turns = Turns::new();
    let left = serve_row(server, rt, alloc, row, &turns)?;
    Ok(u64::from(left.status) == status && is_any_outcome(alloc, row, &left)?)
}

/// Rows of servers, each of which this one is.
#[derive(Drop)]
pub struct Servers<'a, S> {
    server: &'a S,
    /// The row that was begun.
    row: Row,
}

impl<'a, S: Server> Servers<'a, S> {
    /// Returns the rows that this server serves.
    pub fn new(alloc: Global, server: &'a S) -> Servers<'a, S> {
        let row = Row::new(alloc);
        Servers { server, row }
    }
}

impl<S: Server> Rows for Servers<'_, S> {
    fn take<R: Threads + Wait + Sync>(
        &mut self,
        rt: &R,
        alloc: Global,
        word: &str,
        rest: &str,
    ) -> Result<Option<bool>, RowFault> {
        if word != "ends" {
            self.row.take(alloc, word, rest)?;
            return Ok(None);
        }
        let status = number(rest)?;
        self.row.fill(alloc)?;
        let row = mem::replace(&mut self.row, Row::new(alloc));
        Ok(Some(holds(self.server, rt, alloc, &row, status)?))
    }
}
