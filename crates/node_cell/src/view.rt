//! What is known of a run, and the rule that ties it to the numbers of the steps.

use atomic_table::{Join, Play, Seat as Token, Split, TableRule};
use driver_steps::Seat;
use node_traits::{Node, ToLink};
use outside::log::Log;
use std::collections::LinkedList;
use std::marker::{Brand, PhantomData};
use std::snapshot::Snapshot;

/// A step that was taken: its number, the place of its node, and its input.
pub struct Taken<I> {
    pub number: u64,
    pub at: u64,
    pub input: I,
}

/// A reply with the number of the step that returned it, and the disks of all nodes, in order: where each is, and a moment of its clock from which on the
/// reply is safe.
pub struct Safe {
    pub number: u64,
    pub reply: ToLink,
    pub disks: LinkedList<(LinkedList<u8>, u64)>,
}

/// What is known of a run: the nodes that a pass has, by their places; the board, if it has that, which shows the disks of all nodes; and what it saw: messages
/// that were sent, replies with the numbers of the steps that returned them, steps that were taken, and replies that are safe. No value of it is made.
pub struct View<N, L, M, I> {
    pub held: LinkedList<(u64, Seat<N, L>)>,
    pub board: LinkedList<LinkedList<(LinkedList<u8>, u64)>>,
    pub seen: LinkedList<M>,
    pub told: LinkedList<(u64, ToLink)>,
    pub taken: LinkedList<Taken<I>>,
    pub safe: LinkedList<Safe>,
}

/// Why a node takes no more steps.
#[derive(Clone, Copy, Debug, PartialEq, Eq)]
pub enum Halt {
    /// Its disk failed; the count of faults is shown.
    Disk { faults: u64 },
    /// Memory ran out as the records of its steps were to be appended: it is ahead of its log.
    Memory,
}

/// A node with its log, its place among the nodes, and why it takes no more steps, if it doesn't.
#[derive(Drop)]
pub struct Placed<N, L> {
    pub at: u64,
    pub halt: Option<Halt>,
    pub seat: Seat<N, L>,
}

/// The nodes with their logs as they were at the start, and the number from which on they are routers.
#[derive(Drop)]
pub struct Opening<N, L> {
    pub seats: Snapshot<Vec<Seat<N, L>>>,
    pub routers: u64,
}

/// The rule: the steps in the order of their numbers are one run.
pub struct Law<N, L> {
    of: PhantomData<(N, L)>,
}

impl<N: Node, L: Log> TableRule<(), View<N, L, N::Mail, N::Input>, Opening<N, L>> for Law<N, L> {
    ghost use Rattle.node_cell.specs.Courses.{Holds, node_facts};
    ghost use Rattle.node_cell.specs.Views.{all_at_start};

    ghost holds = { λ start s. Holds (node_facts N.state N.steps N.Mail.letter N.meaning L.facts) start.routers start.seats.value.items s };

    ghost first = { λ start. all_at_start L.facts start.seats.value.items };
}

/// Which table it is, and the number from which on its nodes are routers.
pub trait Numbering {
    ghost use Rattle.std.specs.Prelude.{ℕ};
    ghost use Rattle.atomic_table.specs.Seated.{TableId};

    ghost table: { TableId };

    ghost routers: { ℕ };
}

impl Numbering for Brand {
    ghost use Rattle.node_cell.specs.Standing.{no_table};

    ghost table = { no_table };

    ghost routers = { 0 };
}

/// The results of steps, for proofs alone: a call at `Brand` picks them.
pub(crate) trait Said<N, L, M, I> {
    ghost use Rattle.std.specs.Prelude.{Option};
    ghost use Rattle.node_cell.specs.Views.{Given};

    ghost step: { Option (Given N L M I) };
}

impl<N, L, M, I> Said<N, L, M, I> for Brand {
    ghost use Rattle.std.specs.Prelude.{None};

    ghost step = { None };
}

/// Steps of a node.
pub(crate) struct Takes<W> {
    of: PhantomData<W>,
}

impl<N, L, M, I, W: Said<N, L, M, I>> Play<(), View<N, L, M, I>> for Takes<W> {
    ghost use Rattle.node_cell.specs.Views.{takes};

    ghost then = { takes W.step };
}

/// The first node gets a pass of its own.
pub(crate) struct First;

impl<N, L, M, I> Split<View<N, L, M, I>> for First {
    ghost use Rattle.node_cell.specs.Views.{first_alone, first_off, nodes_held, view_of};

    ghost left = { λ v. view_of (first_off v.held) v.board v.seen v.told v.taken v.safe };

    ghost right = { λ v. nodes_held (first_alone v.held) };
}

/// The board gets a pass of its own.
pub(crate) struct OfBoard;

impl<N, L, M, I> Split<View<N, L, M, I>> for OfBoard {
    ghost use Rattle.node_cell.specs.Views.{board_held, board_off};

    ghost left = { board_off };

    ghost right = { λ v. board_held v.board };
}

/// A note that the replies that were seen are safe.
pub(crate) struct Shown;

impl<N, L, M, I> Split<View<N, L, M, I>> for Shown {
    ghost use Rattle.node_cell.specs.Views.{shown};

    ghost left = { λ v. v };

    ghost right = { shown };
}

/// A note of what was seen.
pub(crate) struct Off;

impl<N, L, M, I> Split<View<N, L, M, I>> for Off {
    ghost use Rattle.node_cell.specs.Views.{noted};

    ghost left = { λ v. v };

    ghost right = { noted };
}

/// All that two passes know.
pub(crate) struct Both;

impl<N, L, M, I> Join<View<N, L, M, I>> for Both {
    ghost use Rattle.node_cell.specs.Views.{both_views, nothing_seen};

    ghost both = { both_views };

    ghost spent = { nothing_seen };
}

/// What somebody knows of the run.
pub type Pass<N, L> = Token<(), View<N, L, <N as Node>::Mail, <N as Node>::Input>>;
