//! Rows of the data.

use bson_values::Text;
use outside_memory::MemDisk;
use row_disks::{
    DiskPlan, RowFault, add_plans, number, plan_of, plans_on, put_bytes, put_line, put_number,
    split,
};
use std::alloc::Global;

/// How many nodes `pipe` starts without options: the catalogue, a shard and a router.
const FEWEST: u64 = 3;

/// How many shards `sim` has where it is not given.
const SHARDS: u64 = 2;

/// A call of a row: a connection or a script, and what it must result in.
#[derive(Drop)]
pub struct Row {
    /// The moments at which the first requests are served.
    pub moments: Vec<u64>,
    /// The bytes that arrive.
    pub asked: Vec<u8>,
    /// The numbers of the takes and of the writes that fail.
    pub failing_takes: Vec<u64>,
    pub failing_puts: Vec<u64>,
    /// The greatest number of bytes that one write takes.
    pub most_put: u64,
    /// The disks of the catalogue, the shards and the routers.
    pub disks: Vec<DiskPlan>,
    /// What the framer and the commands return for the bytes, a line for each request and for what follows them.
    pub told: String,
    /// The bytes of the replies.
    pub replies: Vec<u8>,
    /// How many bytes were not taken, if the row says so.
    pub untaken: Option<u64>,
    /// Whether no disk was changed or synced.
    pub is_untouched: bool,
    /// Whether it is checked in each cutting.
    pub is_cut: bool,
    /// Whether its bytes are a script.
    pub is_script: bool,
    /// The words after `pipe` or `sim`: none, or `--shards` and how many, or `--routers` and how many, or both in this order.
    pub options: String,
    /// Whether each call of the row before this one was as its lines say.
    pub is_held: bool,
}

impl Row {
    /// Returns a row without lines, or `Memory` if memory runs out.
    pub fn new(alloc: Global) -> Result<Row, RowFault> {
        let mut disks = Vec::new(alloc);
        add_plans(alloc, &mut disks, FEWEST)?;
        Ok(Row::on(alloc, disks, true))
    }

    /// Returns a row without lines on these disks.
    fn on(alloc: Global, disks: Vec<DiskPlan>, is_held: bool) -> Row {
        Row {
            moments: Vec::new(alloc),
            asked: Vec::new(alloc),
            failing_takes: Vec::new(alloc),
            failing_puts: Vec::new(alloc),
            most_put: u64::MAX,
            disks,
            told: String::new(alloc),
            replies: Vec::new(alloc),
            untaken: None,
            is_untouched: false,
            is_cut: false,
            is_script: false,
            options: String::new(alloc),
            is_held,
        }
    }

    /// Begins the next call of the row, on the disks that the one before it left, which was as its lines say or not. Returns `Memory` if memory runs out.
    pub fn go_on(
        &mut self,
        alloc: Global,
        disks: &[MemDisk],
        is_held: bool,
    ) -> Result<(), RowFault> {
        let plans = plans_on(alloc, disks)?;
        *self = Row::on(alloc, plans, is_held && self.is_held);
        Ok(())
    }

    /// Returns the arguments of the row's call.
    pub fn arguments(&self, alloc: Global) -> Result<Vec<Text>, RowFault> {
        let mut arguments = Vec::new(alloc);
        let word = if self.is_script { "sim" } else { "pipe" };
        put_argument(alloc, &mut arguments, word)?;
        for option in self.options.as_str().split_whitespace() {
            put_argument(alloc, &mut arguments, option)?;
        }
        Ok(arguments)
    }

    /// Reads a line: its first word, and what follows it. Returns `Memory` if memory runs out, and an error where no line begins with the word.
    pub fn take(&mut self, alloc: Global, word: &str, rest: &str) -> Result<(), RowFault> {
        if word == "#" || word == "note" {
            Ok(())
        } else if word == "ask" {
            put_bytes(alloc, &mut self.asked, rest)
        } else if word == "is" {
            put_line(&mut self.told, rest)
        } else if word == "gets" {
            put_bytes(alloc, &mut self.replies, rest)
        } else {
            self.take_plan(alloc, word, rest)
        }
    }

    /// Reads a line on how the row is checked.
    fn take_plan(&mut self, alloc: Global, word: &str, rest: &str) -> Result<(), RowFault> {
        if word == "clock" {
            put_moments(&mut self.moments, rest)
        } else if word == "fail" {
            self.take_failing(rest)
        } else if word == "narrow" {
            self.most_put = number(rest)?;
            Ok(())
        } else if word == "cut" {
            self.is_cut = true;
            Ok(())
        } else if word == "sim" || word == "pipe" {
            self.is_script = word == "sim";
            self.take_options(alloc, rest)
        } else {
            self.take_disk(alloc, word, rest)
        }
    }

    /// Reads the words after `pipe` or `sim`. Each node has a disk, an empty one where it has none yet.
    fn take_options(&mut self, alloc: Global, words: &str) -> Result<(), RowFault> {
        self.options.push_str(words)?;
        let fewest = if self.is_script { SHARDS } else { 1 };
        let (shards, rest) = option(words, "--shards ", fewest)?;
        let (routers, _) = option(rest, "--routers ", 1)?;
        let nodes = shards.saturating_add(routers).saturating_add(1);
        add_plans(alloc, &mut self.disks, nodes)
    }

    /// Reads the number of a call that fails: of a take, a write or a call of a disk.
    fn take_failing(&mut self, rest: &str) -> Result<(), RowFault> {
        let (device, call) = split(rest)?;
        if device == "take" {
            put_number(&mut self.failing_takes, call)
        } else if device == "put" {
            put_number(&mut self.failing_puts, call)
        } else {
            plan_of(&mut self.disks, device)?.fail(call)
        }
    }

    /// Reads a line on what is left at the end, or on a disk.
    fn take_disk(&mut self, alloc: Global, word: &str, rest: &str) -> Result<(), RowFault> {
        if word == "untaken" {
            self.untaken = Some(number(rest)?);
            Ok(())
        } else if word == "untouched" {
            self.is_untouched = true;
            Ok(())
        } else if word == "same" {
            plan_of(&mut self.disks, rest)?.is_same = true;
            Ok(())
        } else {
            let (disk, pieces) = split(rest)?;
            plan_of(&mut self.disks, disk)?.take(alloc, word, pieces)
        }
    }
}

/// Returns the number after the option that the words begin with, and the words after it; or the number that goes without it, and all words.
fn option<'a>(words: &'a str, name: &str, without: u64) -> Result<(u64, &'a str), RowFault> {
    let Some(rest) = words.strip_prefix(name) else {
        return Ok((without, words));
    };
    let (digits, rest) = rest.split_once(' ').unwrap_or((rest, ""));
    Ok((number(digits)?, rest))
}

fn put_argument(alloc: Global, arguments: &mut Vec<Text>, word: &str) -> Result<(), RowFault> {
    arguments.push(Text::of(alloc, word)?)?;
    Ok(())
}

fn put_moments(moments: &mut Vec<u64>, all: &str) -> Result<(), RowFault> {
    for digits in all.split(' ') {
        put_number(moments, digits)?;
    }
    Ok(())
}
