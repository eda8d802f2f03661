//! Messages that are delivered together.

ghost use Rattle.std.specs.Prelude.{◌≡◌, ◌≢◌, ◌+◌, ◌<◌, ◌≤◌, [], length, map, vec_capacity, vec_len, IfOk, IfSome, OnOk};
ghost use Rattle.std.specs.List.{AllByRecursion};
ghost use Rattle.std.specs.VecDeque.{deque_len};
ghost use Rattle.group_steps.specs.Parts.{AreLeft};
ghost use Rattle.node_cell.specs.Courses.{node_facts};
ghost use Rattle.node_cell.specs.Deliveries.{AreAdded, AreKnown, AreSeenFrom, AreStepsOn, Delivers};
ghost use Rattle.node_cell.specs.Standing.{AreAmong, IsKnown, IsPart, Sits};
ghost use Rattle.node_cell.specs.Views.{IsFree};

use crate::fault::CellFault;
use crate::groups::{stepped, take_group};
use crate::letter::{Letter, Note, Prepared, Stepped};
use crate::numbers::Book;
use crate::view::{Numbering, Pass, Placed};
use bson_values::Memory;
use group_steps::{Group, Part};
use node_traits::{Node, NotTaken};
use outside::log::Log;
use std::alloc::Global;
use std::collections::VecDeque;
use std::marker::Sync;
use std::sync::Wait;
use std::thread::Threads;

/// Steps that deliver messages, and the last fault, where one was met.
#[derive(Drop)]
pub struct Delivered<N: Node, L: Log, K: Numbering> {
    pub steps: Vec<Stepped<N, L, K>>,
    pub fault: Option<CellFault>,
}

impl<N: Node, L: Log, K: Numbering> Delivered<N, L, K> {
    /// Returns that no message was delivered, for want of memory.
    pub(crate) fn nothing(alloc: Global) -> Delivered<N, L, K>
        ensures { result.steps.items ≡ [] }
    {
        Delivered {
            steps: Vec::new(alloc),
            fault: Some(CellFault::NotTaken(NotTaken::Memory)),
        }
    }
}

/// Returns the inputs that deliver messages, in order, with the notes of these. Returns `Memory` if memory runs out.
pub(crate) fn prepare_all<N: Node, L: Log, K: Numbering, R: Threads + Sync>(
    rt: &R,
    alloc: Global,
    mut letters: VecDeque<Letter<N, L, K>>,
) -> Result<Vec<Prepared<N, L, K>>, Memory>
    ensures { IfOk result (λ all. AllByRecursion (λ i. Delivers N.meaning (map (λ m. N.Mail.letter m) letters.items) i) all.items) }
{
    let mut all = match Vec::with_capacity(alloc, letters.len()) {
        Ok(all) => all,
        Err(_) => return Err(Memory),
    };
    'letters: while let Some(letter) = letters.pop_front() {
        all.push_reserved(letter.prepare(rt, alloc));
    }
    letters.destroy_empty();
    Ok(all)
}

/// Joins the note of a message that goes to a node to its pass, and returns the input that delivers it. `None` if the message goes to another node.
fn learn_letter<N: Node, L: Log, K: Numbering>(
    book: &Book<N, L, K>,
    pass: &mut Pass<N, L>,
    at: u64,
    letter: Prepared<N, L, K>,
) -> Option<N::Input>
    requires table { pass.old.table_id ≡ K.table }
    requires free { IsFree pass.old.me }
    ensures table { pass.new.table_id ≡ K.table }
    ensures free { IsFree pass.new.me }
    ensures held { pass.new.me.0.held ≡ pass.old.me.0.held }
    ensures kept { IsPart pass.old.me.0 pass.new.me.0 }
    ensures known { IfSome result (λ i. IsKnown K.routers (map (λ m. N.Mail.letter m) pass.new.me.0.seen) at (N.meaning i)) }
    ensures same { IfSome result (λ i. i ≡ letter) }
{
    let Prepared { to, input, note } = letter;
    if to != at {
        return None;
    }
    let Note { pass: seen, of: _ } = note;
    book.join(pass, seen);
    Some(input)
}

/// Joins the notes of the messages that go to a node to its pass, and returns the inputs that deliver these, in order. Returns `Memory` if memory runs out.
fn learn_letters<N: Node, L: Log, K: Numbering>(
    alloc: Global,
    book: &Book<N, L, K>,
    pass: &mut Pass<N, L>,
    at: u64,
    letters: Vec<Prepared<N, L, K>>,
) -> Result<Vec<N::Input>, Memory>
    requires table { pass.old.table_id ≡ K.table }
    requires free { IsFree pass.old.me }
    ensures table { pass.new.table_id ≡ K.table }
    ensures free { IsFree pass.new.me }
    ensures held { pass.new.me.0.held ≡ pass.old.me.0.held }
    ensures kept { IsPart pass.old.me.0 pass.new.me.0 }
    ensures known { IfOk result (λ all. AreKnown N.meaning K.routers (map (λ m. N.Mail.letter m) pass.new.me.0.seen) at all.items) }
    ensures among { IfOk result (λ all. AreAmong all.items letters.items) }
{
    let mut all = match Vec::with_capacity(alloc, letters.len()) {
        Ok(all) => all,
        Err(_) => return Err(Memory),
    };
    let mut left = VecDeque::from_vec(letters);
    'letters: while let Some(letter) = left.pop_front() {
        match learn_letter(book, pass, at, letter) {
            Some(input) => all.push_reserved(input),
            None => {}
        }
    }
    left.destroy_empty();
    Ok(all)
}

/// Adds the steps of a group to others, where there is room for them, each with its number and a note that has seen it.
fn add_steps<N: Node, L: Log, K: Numbering>(
    book: &Book<N, L, K>,
    pass: &mut Pass<N, L>,
    at: u64,
    first: u64,
    parts: Vec<Part<N::Mail, N::Input>>,
    steps: &mut Vec<Stepped<N, L, K>>,
)
    requires table { pass.old.table_id ≡ K.table }
    requires room { vec_len steps.old + vec_len parts ≤ vec_capacity steps.old }
    requires seen { AreSeenFrom (λ m. N.Mail.letter m) pass.old.me.0 first at parts.items }
    ensures table { pass.new.table_id ≡ K.table }
    ensures pass { pass.new.me ≡ pass.old.me }
    ensures added { AreAdded (map (λ p. p.input.value) parts.items) steps.old.items steps.new.items }
    ensures len { vec_len steps.new ≡ vec_len steps.old + vec_len parts }
    ensures capacity { vec_capacity steps.new ≡ vec_capacity steps.old }
{
    let mut number = first;
    let mut left = VecDeque::from_vec(parts);
    'parts: while let Some(part) = left.pop_front() {
        let step = stepped(book, pass, number, at, part);
        steps.push_reserved(step);
        number = number.wrapping_add(1);
    }
    left.destroy_empty();
}

/// Takes a step on an input, unless the node takes no more steps. Its messages and replies come with a note that has seen the step.
///
/// # Errors
/// Why it was not taken.
pub(crate) fn take_one<N: Node, L: Log, K: Numbering, R: Wait>(
    rt: &R,
    alloc: Global,
    book: &Book<N, L, K>,
    pass: &mut Pass<N, L>,
    placed: &mut Placed<N, L>,
    input: N::Input,
) -> Result<Stepped<N, L, K>, CellFault>
    requires table { pass.old.table_id ≡ K.table }
    requires free { IsFree pass.old.me }
    requires sits { Sits (node_facts N.state N.steps (λ m. N.Mail.letter m) N.meaning L.facts) K.routers placed.old pass.old.me.0 }
    requires known { IsKnown K.routers (map (λ m. N.Mail.letter m) pass.old.me.0.seen) placed.old.at (N.meaning input) }
    ensures table { pass.new.table_id ≡ K.table }
    ensures free { IsFree pass.new.me }
    ensures sits { Sits (node_facts N.state N.steps (λ m. N.Mail.letter m) N.meaning L.facts) K.routers placed.new pass.new.me.0 }
    ensures place { placed.new.at ≡ placed.old.at }
    ensures taken { IfOk result (λ s. (s.taken.at ≡ placed.old.at) × (s.taken.input ≡ input)) }
{
    let mut inputs = match VecDeque::with_capacity(alloc, 1) {
        Ok(inputs) => inputs,
        Err(_) => return Err(CellFault::NotTaken(NotTaken::Memory)),
    };
    inputs.push_back_reserved(input);
    let at = placed.at;
    match take_group(rt, alloc, book, pass, placed, &mut inputs) {
        Ok((number, group)) => {
            let Group { parts, fault } = group;
            match VecDeque::from_vec(parts).pop_front() {
                Some(part) => Ok(stepped(book, pass, number, at, part)),
                None => Err(CellFault::NotTaken(fault.unwrap_or(NotTaken::Memory))),
            }
        }
        Err(halt) => Err(CellFault::Halted(halt)),
    }
}

/// Returns the fault for which an input was passed over, if one was.
///
/// # Errors
/// A fault that each step after it would meet too.
fn passed_over(fault: Option<NotTaken>) -> Result<Option<CellFault>, CellFault> {
    match fault {
        None => Ok(None),
        Some(NotTaken::Memory) => Ok(Some(CellFault::NotTaken(NotTaken::Memory))),
        Some(e) => Err(CellFault::NotTaken(e)),
    }
}

/// Takes the steps of one group, and adds them to others. The other inputs are left. Returns the fault for which an input was passed over, if one was.
///
/// # Errors
/// Why the node can take no more steps.
fn take_some<N: Node, L: Log, K: Numbering, R: Wait>(
    rt: &R,
    alloc: Global,
    book: &Book<N, L, K>,
    pass: &mut Pass<N, L>,
    placed: &mut Placed<N, L>,
    inputs: &mut VecDeque<N::Input>,
    steps: &mut Vec<Stepped<N, L, K>>,
) -> Result<Option<CellFault>, CellFault>
    requires table { pass.old.table_id ≡ K.table }
    requires free { IsFree pass.old.me }
    requires sits { Sits (node_facts N.state N.steps (λ m. N.Mail.letter m) N.meaning L.facts) K.routers placed.old pass.old.me.0 }
    requires known { AreKnown N.meaning K.routers (map (λ m. N.Mail.letter m) pass.old.me.0.seen) placed.old.at inputs.old.items }
    requires room { vec_len steps.old + deque_len inputs.old ≤ vec_capacity steps.old }
    ensures table { pass.new.table_id ≡ K.table }
    ensures free { IsFree pass.new.me }
    ensures sits { Sits (node_facts N.state N.steps (λ m. N.Mail.letter m) N.meaning L.facts) K.routers placed.new pass.new.me.0 }
    ensures place { placed.new.at ≡ placed.old.at }
    ensures known { OnOk result (AreKnown N.meaning K.routers (map (λ m. N.Mail.letter m) pass.new.me.0.seen) placed.old.at inputs.new.items) }
    ensures left { OnOk result (AreLeft inputs.old.items inputs.new.items) }
    ensures fewer { OnOk result (inputs.old.items ≢ [] → length inputs.new.items < length inputs.old.items) }
    ensures added { AreAdded inputs.old.items steps.old.items steps.new.items }
    ensures room { OnOk result (vec_len steps.new + deque_len inputs.new ≤ vec_capacity steps.new) }
{
    let at = placed.at;
    match take_group(rt, alloc, book, pass, placed, inputs) {
        Ok((number, group)) => {
            let Group { parts, fault } = group;
            add_steps(book, pass, at, number, parts, steps);
            passed_over(fault)
        }
        Err(halt) => Err(CellFault::Halted(halt)),
    }
}

/// Takes steps on inputs, in order, group by group, until none is left or the node can take no more; an input for which memory runs out is passed over. Returns
/// the steps and the last fault. Where there is no room for the steps none is taken.
fn take_all<N: Node, L: Log, K: Numbering, R: Wait>(
    rt: &R,
    alloc: Global,
    book: &Book<N, L, K>,
    pass: &mut Pass<N, L>,
    placed: &mut Placed<N, L>,
    inputs: Vec<N::Input>,
) -> Delivered<N, L, K>
    requires table { pass.old.table_id ≡ K.table }
    requires free { IsFree pass.old.me }
    requires sits { Sits (node_facts N.state N.steps (λ m. N.Mail.letter m) N.meaning L.facts) K.routers placed.old pass.old.me.0 }
    requires known { AreKnown N.meaning K.routers (map (λ m. N.Mail.letter m) pass.old.me.0.seen) placed.old.at inputs.items }
    ensures table { pass.new.table_id ≡ K.table }
    ensures free { IsFree pass.new.me }
    ensures sits { Sits (node_facts N.state N.steps (λ m. N.Mail.letter m) N.meaning L.facts) K.routers placed.new pass.new.me.0 }
    ensures place { placed.new.at ≡ placed.old.at }
    ensures steps { AreStepsOn inputs.items result.steps.items }
{
    let mut steps = match Vec::with_capacity(alloc, inputs.len()) {
        Ok(steps) => steps,
        Err(_) => return Delivered::nothing(alloc),
    };
    let mut left = VecDeque::from_vec(inputs);
    let mut fault = None;
    'groups: while !left.is_empty() {
        match take_some(rt, alloc, book, pass, placed, &mut left, &mut steps) {
            Ok(next) => fault = next.or(fault),
            Err(e) => {
                return Delivered {
                    steps,
                    fault: Some(e),
                };
            }
        }
    }
    Delivered { steps, fault }
}

/// Delivers those messages that go to a node, in order, until it can take no more steps.
pub(crate) fn deliver_all<N: Node, L: Log, K: Numbering, R: Wait>(
    rt: &R,
    alloc: Global,
    book: &Book<N, L, K>,
    pass: &mut Pass<N, L>,
    placed: &mut Placed<N, L>,
    letters: Vec<Prepared<N, L, K>>,
) -> Delivered<N, L, K>
    requires table { pass.old.table_id ≡ K.table }
    requires free { IsFree pass.old.me }
    requires sits { Sits (node_facts N.state N.steps (λ m. N.Mail.letter m) N.meaning L.facts) K.routers placed.old pass.old.me.0 }
    ensures table { pass.new.table_id ≡ K.table }
    ensures free { IsFree pass.new.me }
    ensures sits { Sits (node_facts N.state N.steps (λ m. N.Mail.letter m) N.meaning L.facts) K.routers placed.new pass.new.me.0 }
    ensures place { placed.new.at ≡ placed.old.at }
    ensures steps { AreStepsOn letters.items result.steps.items }
{
    match learn_letters(alloc, book, pass, placed.at, letters) {
        Ok(inputs) => take_all(rt, alloc, book, pass, placed, inputs),
        Err(_) => Delivered::nothing(alloc),
    }
}
