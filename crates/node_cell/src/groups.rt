//! Groups of steps of a node, and their numbers.

ghost use Rattle.std.specs.Prelude.{◌≡◌, ◌≢◌, ◌+◌, ◌<◌, ◌≤◌, ◌++◌, [], length, map, None, Some, IfOk};
ghost use Rattle.group_steps.specs.Parts.{AreLeft, AreOn};
ghost use Rattle.node_cell.specs.Courses.{node_facts};
ghost use Rattle.node_cell.specs.Deliveries.{AreKnown, AreSeenFrom, IsSeen};
ghost use Rattle.node_cell.specs.Standing.{IsPart, MayTake, Sits, step_of};
ghost use Rattle.node_cell.specs.Views.{IsFree, after_steps, board_off, given_by, mail_of, taken_from, told_from};

use crate::fault::halt_of;
use crate::letter::{Note, Stepped};
use crate::numbers::Book;
use crate::view::{Halt, Numbering, Pass, Placed, Said};
use driver_steps::Seat;
use group_steps::{Group, Part, step_group};
use node_traits::Node;
use outside::log::Log;
use outside::witness::SeenDisk;
use std::alloc::Global;
use std::collections::VecDeque;
use std::marker::{Brand, PhantomData};
use std::sync::Wait;

/// Gives steps that were taken their numbers, one after another, and returns the first. Meanwhile the board is locked, which then shows the disk of their node.
fn place<N: Node, L: Log, K: Numbering, W: Said<N, L, N::Mail, N::Input>, R: Wait>(
    rt: &R,
    book: &Book<N, L, K>,
    pass: &mut Pass<N, L>,
    at: u64,
    seat: &Seat<N, L>,
    parts: &[Part<N::Mail, N::Input>],
    disk: SeenDisk<L::Of>,
) -> u64
    requires said { W.step ≡ Some (given_by L.facts at parts.now seat.now) }
    requires table { pass.old.table_id ≡ K.table }
    requires free { IsFree pass.old.me }
    requires disk { disk ≡ record { place = L.facts.place seat.now.log; moment = L.facts.moment seat.now.log } }
    requires may { MayTake (node_facts N.state N.steps (λ m. N.Mail.letter m) N.meaning L.facts) K.routers pass.old.me.0
        (given_by L.facts at parts.now seat.now) }
    ensures table { pass.new.table_id ≡ K.table }
    ensures pass { pass.new.me ≡ (board_off (after_steps (given_by L.facts at parts.now seat.now) result pass.old.me.0), []) }
{
    book.board
        .lock(rt)
        .place::<W>(book, pass, at, seat, parts, disk)
}

/// Takes steps of the node that a pass has alone, at least one if there is an input, and gives them numbers one after another once their records are in the
/// log. Returns the first number. The other inputs are left.
///
/// # Errors
/// Their records were not appended: the steps have no numbers, and the node takes no more steps.
fn take_steps<N: Node, L: Log, K: Numbering, R: Wait>(
    rt: &R,
    alloc: Global,
    book: &Book<N, L, K>,
    pass: &mut Pass<N, L>,
    placed: &mut Placed<N, L>,
    inputs: &mut VecDeque<N::Input>,
) -> Result<(u64, Group<N::Mail, N::Input>), Halt>
    requires table { pass.old.table_id ≡ K.table }
    requires free { IsFree pass.old.me }
    requires sits { Sits (node_facts N.state N.steps (λ m. N.Mail.letter m) N.meaning L.facts) K.routers placed.old pass.old.me.0 }
    requires works { placed.old.halt ≡ None }
    requires known { AreKnown N.meaning K.routers (map (λ m. N.Mail.letter m) pass.old.me.0.seen) placed.old.at inputs.old.items }
    ensures table { pass.new.table_id ≡ K.table }
    ensures free { IsFree pass.new.me }
    ensures sits { Sits (node_facts N.state N.steps (λ m. N.Mail.letter m) N.meaning L.facts) K.routers placed.new pass.new.me.0 }
    ensures place { placed.new.at ≡ placed.old.at }
    ensures seen { IfOk result (λ r. pass.new.me.0.seen ≡ pass.old.me.0.seen ++ mail_of r.1.parts.items) }
    ensures told { IfOk result (λ r. pass.new.me.0.told ≡ pass.old.me.0.told ++ told_from r.0 r.1.parts.items) }
    ensures taken { IfOk result (λ r. pass.new.me.0.taken ≡ pass.old.me.0.taken ++ taken_from r.0 placed.old.at r.1.parts.items) }
    ensures safe { IfOk result (λ r. pass.new.me.0.safe ≡ pass.old.me.0.safe) }
    ensures on { IfOk result (λ r. AreOn inputs.old.items r.1.parts.items) }
    ensures left { AreLeft inputs.old.items inputs.new.items }
    ensures count { IfOk result (λ r. length r.1.parts.items + length inputs.new.items ≤ length inputs.old.items) }
    ensures fewer { IfOk result (λ r. inputs.old.items ≢ [] → length inputs.new.items < length inputs.old.items) }
{
    let at = placed.at;
    match step_group(alloc, &mut placed.seat, inputs) {
        Ok(group) => {
            let disk = SeenDisk::of(placed.seat.log.device());
            let number = place::<N, L, K, Brand, R>(
                rt,
                book,
                pass,
                at,
                &placed.seat,
                &group.parts,
                disk,
            );
            Ok((number, group))
        }
        Err(fault) => {
            let halt = halt_of(fault);
            placed.halt = Some(halt);
            Err(halt)
        }
    }
}

/// Takes steps of a node, unless it takes no more steps, and gives them numbers one after another once their records are in the log. Returns the first number.
///
/// # Errors
/// Why the node takes no more steps.
pub(crate) fn take_group<N: Node, L: Log, K: Numbering, R: Wait>(
    rt: &R,
    alloc: Global,
    book: &Book<N, L, K>,
    pass: &mut Pass<N, L>,
    placed: &mut Placed<N, L>,
    inputs: &mut VecDeque<N::Input>,
) -> Result<(u64, Group<N::Mail, N::Input>), Halt>
    requires table { pass.old.table_id ≡ K.table }
    requires free { IsFree pass.old.me }
    requires sits { Sits (node_facts N.state N.steps (λ m. N.Mail.letter m) N.meaning L.facts) K.routers placed.old pass.old.me.0 }
    requires known { AreKnown N.meaning K.routers (map (λ m. N.Mail.letter m) pass.old.me.0.seen) placed.old.at inputs.old.items }
    ensures table { pass.new.table_id ≡ K.table }
    ensures free { IsFree pass.new.me }
    ensures sits { Sits (node_facts N.state N.steps (λ m. N.Mail.letter m) N.meaning L.facts) K.routers placed.new pass.new.me.0 }
    ensures place { placed.new.at ≡ placed.old.at }
    ensures grows { IfOk result (λ r. IsPart pass.old.me.0 pass.new.me.0) }
    ensures seen { IfOk result (λ r. AreSeenFrom (λ m. N.Mail.letter m) pass.new.me.0 r.0 placed.old.at r.1.parts.items) }
    ensures on { IfOk result (λ r. AreOn inputs.old.items r.1.parts.items) }
    ensures left { IfOk result (λ r. AreLeft inputs.old.items inputs.new.items) }
    ensures count { IfOk result (λ r. length r.1.parts.items + length inputs.new.items ≤ length inputs.old.items) }
    ensures fewer { IfOk result (λ r. inputs.old.items ≢ [] → length inputs.new.items < length inputs.old.items) }
{
    if let Some(halt) = placed.halt {
        return Err(halt);
    }
    match take_steps(rt, alloc, book, pass, placed, inputs) {
        Ok(taken) => Ok(taken),
        Err(e) => Err(e),
    }
}

/// Returns a step with a note that has seen it, since the pass has.
pub(crate) fn stepped<N: Node, L: Log, K: Numbering>(
    book: &Book<N, L, K>,
    pass: &mut Pass<N, L>,
    number: u64,
    at: u64,
    part: Part<N::Mail, N::Input>,
) -> Stepped<N, L, K>
    requires table { pass.old.table_id ≡ K.table }
    requires seen { IsSeen (λ m. N.Mail.letter m) pass.old.me.0 number at part }
    ensures table { pass.new.table_id ≡ K.table }
    ensures pass { pass.new.me ≡ pass.old.me }
    ensures step { result.taken ≡ step_of number at part.input.value }
{
    let Part { input, outputs } = part;
    let seen = book.note(pass);
    let note = Note {
        pass: seen,
        of: PhantomData,
    };
    Stepped::new(number, at, input, outputs, note)
}
