//! Steps of a router.

use crate::messages::{begun, counted, failed, reached, read_part, shown, told};
use crate::refusals::{no_table, refused};
use crate::router::{Hosted, first_router};
use crate::words::read_request;
use crate::writes::done;
use cluster_base::{NodeId, Time, moment_time};
use fixtures::{RowFault, Rows, field, number};
use journal_frames::Journal;
use outside_memory::MemDisk;
use protocol_model::Input;
use std::alloc::Global;

/// The router: of a cluster of a catalogue and two shards.
const ROUTER: NodeId = NodeId(3);

const SHARDS: u32 = 2;

/// One step of a router after another: `VERB WORDS | MORE | MESSAGES | REPLIES`; what is empty may be left out. `router` is a new one. Its inputs are
/// `moment MS`, `asks NUMBER | REQUEST` (whose reply has this number), `table KEY | MOVES` (that of `d.c`, of which the second shard has the keys from this one
/// on; where there are moves, they moved on so many times), `begun KEY | MOVES` (the same table, where a write asked for it), `part SHARD COUNT TURN |
/// DOCUMENTS`, `counted SHARD COUNT TURN | NUMBER`, `fault SHARD COUNT TURN | overflow`, or a number of bytes, `time SHARD COUNT`, `done SHARD COUNT | OUTCOMES`,
/// `refused NODE COUNT TURN FIRST | CAUSE` and `no_table KIND | CAUSE`, where the kind is `create`, `plain` or the time of a read. An outcome is the index of its
/// statement and `SECONDS.COUNTER N`, or `N MODIFIED`, `upserts KEY` or `error CODE`: it was applied at that time; or `old TRANSACTION`. A cause is `stale EPOCH
/// MAJOR`, `memory` or `steps COUNT`. Messages are `KIND NODE`, or `KIND NODE turn TURN`, with commas between, as documents, outcomes and replies are; a
/// `WriteAsk` may have its statements, and their transaction if they have one, as `WriteAsk 1: 0 2 txn 5`. Requests, documents and replies are in hexadecimal.
#[derive(Drop)]
pub struct Steps {
    hosted: Option<Hosted<Journal<MemDisk>>>,
    // The router's time.
    now: Time,
}

impl Rows for Steps {
    fn holds(&mut self, alloc: Global, row: &str) -> Result<bool, RowFault> {
        let (verb, rest) = field(row);
        let (more, rest) = field(rest);
        if verb == "router" {
            return self.begin(alloc);
        }
        let input = self.input(alloc, verb, more)?;
        self.step(alloc, input, rest)
    }
}

impl Steps {
    /// Returns the steps of no router.
    pub fn new() -> Steps {
        Steps {
            hosted: None,
            now: Time(0),
        }
    }

    // Begins with a new router.
    fn begin(&mut self, alloc: Global) -> Result<bool, RowFault> {
        self.hosted = first_router(alloc, ROUTER, SHARDS);
        self.now = Time(0);
        Ok(self.hosted.is_some())
    }

    // Returns the input of a row.
    fn input(&mut self, alloc: Global, verb: &str, more: &str) -> Result<Input, RowFault> {
        let Some((verb, words)) = verb.split_once(' ') else {
            return Err(RowFault::Form);
        };
        match verb {
            "moment" => self.moment(words),
            "asks" => asks(alloc, words, more),
            "table" => told(alloc, ROUTER, self.now, words, more),
            "begun" => begun(alloc, ROUTER, self.now, words, more),
            "time" => reached(ROUTER, self.now, words),
            "done" => done(alloc, ROUTER, self.now, words, more),
            "part" => shown(alloc, ROUTER, self.now, read_part(words)?, more),
            "counted" => counted(ROUTER, self.now, read_part(words)?, more),
            "fault" => failed(ROUTER, self.now, read_part(words)?, more),
            "refused" => refused(ROUTER, self.now, words, more),
            "no_table" => no_table(alloc, ROUTER, self.now, words, more),
            _ => Err(RowFault::Form),
        }
    }

    // Returns a moment, which is the router's time then.
    fn moment(&mut self, words: &str) -> Result<Input, RowFault> {
        let moment = number(words)?;
        self.now = moment_time(moment);
        Ok(Input::Moment(moment))
    }

    // Takes a step on the input, and returns whether it sent and returned what the row says.
    fn step(&mut self, alloc: Global, input: Input, row: &str) -> Result<bool, RowFault> {
        let (messages, replies) = field(row);
        let Some(hosted) = self.hosted.take() else {
            return Err(RowFault::Form);
        };
        let (hosted, sent) = hosted.step(alloc, input)?;
        self.hosted = Some(hosted);
        let sends = sent.sends(messages)?;
        let returns = sent.returns(alloc, replies)?;
        Ok(sends && returns)
    }
}

// Returns a request that arrives on the first link.
fn asks(alloc: Global, words: &str, digits: &str) -> Result<Input, RowFault> {
    let number = number(words)?;
    Ok(Input::Client {
        link: 0,
        number,
        request: read_request(alloc, digits)?,
    })
}
