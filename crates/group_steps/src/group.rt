//! Steps that are taken in memory, one after another.

ghost use Rattle.std.specs.Prelude.{◌≡◌, ◌≢◌, ◌+◌, ◌<◌, ◌≤◌, ◌^◌, ℕ, List, [], ◌∷◌, ◌++◌, length, map, IfErr, IfOk, IsTrue, OnErr, OnOk};
ghost use Rattle.node_model.specs.States.{NodeState};
ghost use Rattle.node_model.specs.World.{World};
ghost use Rattle.driver_steps.specs.Crashes.{Since};
ghost use Rattle.driver_steps.specs.OneSeat.{NamesFault, StandsAt};
ghost use Rattle.driver_steps.specs.Seats.{seat_since};
ghost use Rattle.group_steps.specs.Collected.{Collects};
ghost use Rattle.group_steps.specs.Groups.{TakesAll};
ghost use Rattle.group_steps.specs.Parts.{Among, AreBroken, AreLeft, AreOn, AreTakenOut, ByGroupFault, parts_of};

use crate::collected::Collected;
use crate::fault::GroupFault;
use crate::records::Records;
use driver_steps::Seat;
use node_traits::{Node, NotTaken, Outputs, append_records};
use outside::disk::Disk;
use outside::log::Log;
use std::alloc::Global;
use std::collections::VecDeque;
use std::snapshot::Snapshot;

/// The most steps of a group.
const MOST_STEPS: usize = 1024;

/// The number of bytes of records from which on they are appended before another step is taken.
const MOST_BYTES: usize = 16 << 20;

/// A step that was taken: its input, and what it sends and returns.
#[derive(Drop)]
pub struct Part<M: Drop, I> {
    pub input: Snapshot<I>,
    pub outputs: Outputs<M>,
}

/// Steps that were taken, in order, and the fault of the one after them, where one was not taken.
#[derive(Drop)]
pub struct Group<M: Drop, I> {
    pub parts: Vec<Part<M, I>>,
    pub fault: Option<NotTaken>,
}

/// Takes one step on the input, in memory, and adds it to the others. What is returned of a step that is not taken is dropped.
///
/// # Errors
/// Why the step was not taken, `NotTaken::Memory` also where memory runs out for a place among the others: no step was taken.
fn step_on<N: Node, D: Disk>(
    node: &mut N,
    collected: &mut Collected<'_, D>,
    parts: &mut Vec<Part<N::Mail, N::Input>>,
    input: N::Input,
) -> Result<(), NotTaken>
    ensures led { (s : NodeState) (n : ℕ) →
        Collects s n (parts_of (λ m. N.Mail.letter m) N.meaning parts.old.items) collected.old.records (N.state node.old) (N.steps node.old) →
        Collects s n (parts_of (λ m. N.Mail.letter m) N.meaning parts.new.items) collected.new.records (N.state node.new) (N.steps node.new) }
    ensures on { (inputs : List N.Input) → Among input inputs → AreOn inputs parts.old.items → AreOn inputs parts.new.items }
    ensures taken { OnOk result (map (λ p. p.input.value) parts.new.items ≡ map (λ p. p.input.value) parts.old.items ++ input ∷ []) }
    ensures not_taken { OnErr result (parts.new.items ≡ parts.old.items) }
    ensures counted { N.steps node.old + length parts.new.items ≤ N.steps node.new + length parts.old.items }
    ensures below { N.steps node.old < 2 ^ 56 → N.steps node.new < 2 ^ 56 }
{
    match parts.reserve(1) {
        Ok(()) => {}
        Err(_) => return Err(NotTaken::Memory),
    }
    let taken = Snapshot::of(&input);
    match node.step(collected, input) {
        Ok(outputs) => {
            parts.push_reserved(Part {
                input: taken,
                outputs,
            });
            Ok(())
        }
        Err(e) => Err(e.cause()),
    }
}

/// A node takes steps on the first of these inputs, one after another, in memory: at most 1,024, until their records have 16 MB, or up to the first that is not
/// taken. Returns the steps, and their records.
fn collect<N: Node, D: Disk>(
    alloc: Global,
    node: &mut N,
    disk: &D,
    inputs: &mut VecDeque<N::Input>,
) -> (Group<N::Mail, N::Input>, Records)
    ensures led { Collects (N.state node.old) (N.steps node.old) (parts_of (λ m. N.Mail.letter m) N.meaning result.0.parts.items) result.1
        (N.state node.new) (N.steps node.new) }
    ensures on { AreOn inputs.old.items result.0.parts.items }
    ensures out { AreTakenOut inputs.old.items result.0.parts.items result.0.fault inputs.new.items }
    ensures left { AreLeft inputs.old.items inputs.new.items }
    ensures fewer { inputs.old.items ≢ [] → length inputs.new.items < length inputs.old.items }
    ensures counted { N.steps node.old + length result.0.parts.items ≤ N.steps node.new }
    ensures below { N.steps node.old < 2 ^ 56 → N.steps node.new < 2 ^ 56 }
{
    let mut collected = Collected::new(alloc, disk);
    let mut parts = Vec::new(alloc);
    'inputs: while let Some(input) = inputs.pop_front() {
        match step_on(node, &mut collected, &mut parts, input) {
            Ok(()) => {}
            Err(e) => {
                let fault = Some(e);
                return (Group { parts, fault }, collected.into_records());
            }
        }
        if parts.len() >= MOST_STEPS || collected.bytes() >= MOST_BYTES {
            return (Group { parts, fault: None }, collected.into_records());
        }
    }
    (Group { parts, fault: None }, collected.into_records())
}

/// A node with its log takes steps on the first of these inputs, one after another, at whatever place in a world it stands: at most 1,024, until their records
/// have 16 MB, or up to the first that is not taken, whose input is lost. Then their records are appended, all at once. What they send and return is the result,
/// and the other inputs are left.
///
/// # Errors
/// The records were not appended: `GroupFault::Disk` only if the disk of the log met a fault, `GroupFault::Memory` if memory ran out. The node must be opened
/// again.
pub fn step_group<N: Node, L: Log>(
    alloc: Global,
    seat: &mut Seat<N, L>,
    inputs: &mut VecDeque<N::Input>,
) -> Result<Group<N::Mail, N::Input>, GroupFault>
    requires open { IsTrue (L.facts.is_open seat.old.log) }
    ensures taken { (since : Since L) (w : World) (at : ℕ) → StandsAt (seat_since N.state N.steps L.facts since seat.old) w at →
        IfOk result (λ g. TakesAll (seat_since N.state N.steps L.facts since seat.new) w at (parts_of (λ m. N.Mail.letter m) N.meaning g.parts.items)) }
    ensures broken { OnErr result (AreBroken N.state N.steps L.facts N.meaning inputs.old.items seat.old seat.new) }

    // Of the inputs.
    ensures on { IfOk result (λ g. AreOn inputs.old.items g.parts.items) }
    ensures out { IfOk result (λ g. AreTakenOut inputs.old.items g.parts.items g.fault inputs.new.items) }
    ensures left { AreLeft inputs.old.items inputs.new.items }
    ensures fewer { inputs.old.items ≢ [] → length inputs.new.items < length inputs.old.items }

    // Each step is counted.
    ensures counted { IfOk result (λ g. N.steps seat.old.node + length g.parts.items ≤ N.steps seat.new.node) }
    ensures counted_err { OnErr result (N.steps seat.old.node ≤ N.steps seat.new.node) }
    ensures below { N.steps seat.old.node < 2 ^ 56 → N.steps seat.new.node < 2 ^ 56 }

    // Of the log and its disk.
    ensures open { OnOk result (IsTrue (L.facts.is_open seat.new.log)) }
    ensures calm { OnOk result (L.facts.fault_count seat.new.log ≡ L.facts.fault_count seat.old.log) }
    ensures faults { IfErr result (λ e. ByGroupFault e
        (λ faults. NamesFault faults (L.facts.fault_count seat.old.log) (L.facts.fault_count seat.new.log))
        (seat.new.log ≡ seat.old.log)) }
    ensures place { L.facts.place seat.new.log ≡ L.facts.place seat.old.log }
{
    let (group, records) = collect(alloc, &mut seat.node, seat.log.device(), inputs);
    match append_records(&mut seat.log, records.as_slice()) {
        Ok(()) => Ok(group),
        Err(e) => Err(GroupFault::of(e)),
    }
}
