//! The lines of a script, one after another.

ghost use Rattle.std.specs.Prelude.{◌≡◌, ◌≢◌, ℕ, ◌+◌, ◌<◌, List, [], ◌∷◌, ◌++◌, vec_len, IfErr, IsTrue, OnOk, Err};
ghost use Rattle.node_model.specs.World.{World};
ghost use Rattle.driver_steps.specs.Crashes.{Since, with_notes};
ghost use Rattle.driver_steps.specs.Restarts.{HaveParts};
ghost use Rattle.driver_steps.specs.Seats.{AreOpen, faults_of, places_of, seat_since};
ghost use Rattle.driver_steps.specs.Together.{hosted};
ghost use Rattle.driver_steps.specs.Worlds.{network_view};
ghost use Rattle.pipe_driver.specs.Acknowledgements.{AreNoted, WithNotes};
ghost use Rattle.pipe_driver.specs.Counts.{HaveRisenWhere, RoseWhere};
ghost use Rattle.pipe_driver.specs.Progress.{AreAskedAsRead};
ghost use Rattle.pipe_driver.specs.declared.status.Status.TheVariants as statuses;
ghost use Rattle.script_lines.specs.Words.{HasNone};
ghost use Rattle.sim_driver.specs.Moves.{MayPlay};
ghost use Rattle.sim_driver.specs.Progress.{HasPlayedLines, HasStoppedIn, IsOfPlaying, Playing, Stopped};
ghost use Rattle.sim_driver.specs.Scripts.{script_view};
ghost use Rattle.sim_driver.specs.Simulations.{newline};

use crate::play::play_line;
use crate::report::{numbers_of, put_text, text_of};
use crate::script::Script;
use driver_steps::{Network, Opens, Seat};
use node_traits::Node;
use opmsg_frames::Request;
use outside::log::Log;
use outside::witness::Witness;
use pipe_driver::Status;
use script_lines::cut_at;
use std::alloc::Global;
use std::marker::Sync;
use std::thread::Threads;

/// The line that bytes encode is played, and what it prints is put.
///
/// # Errors
/// - `Status::BadInput` if the bytes say no line, or one that names what is not there; nothing happened.
/// - `Status::WriteFailed` if a write failed; the line was played.
/// - `Status::DiskFailed` if a disk failed: nothing of the line was put.
/// - `Status::OutOfMemory` if out of memory, or where a router is at its last step: nothing of the line was put.
pub fn answer_line<
    R: Threads + Sync,
    N: Node<Request = Request>,
    L: Log,
    K: Witness<L::Of>,
    O: Opens<N, L>,
>(
    rt: &R,
    opener: &O,
    alloc: Global,
    line: &[u8],
    seats: &mut Vec<Seat<N, L>>,
    network: &mut Network<N::Mail>,
    script: &mut Script,
    out: &mut K,
) -> Result<(), Status>
    requires at { script.old.first_router < vec_len seats.old }
    requires open { AreOpen L.facts.is_open seats.old.items }
    requires links { script.old.first_router + vec_len script.old.links ≡ vec_len seats.old }
    requires line { HasNone newline line.now }
    ensures answered { AreAskedAsRead N.asks → IsTrue L.facts.tells → (since : Since L) (first_router : ℕ) (first : World) →
        MayPlay first_router first → HaveParts (O.part opener.now) first.nodes →
        (held_before consumed : List ℕ) →
        Playing (seat_since N.state N.steps L.facts since) (hosted K.tells L.facts since (K.noted out.old) seats.old.items)
        (network_view (λ m. N.Mail.letter m) network.old)
        first_router first K.tells since.noted held_before (K.held out.old) (script_view script.old) consumed →
        AreNoted K.tells (K.noted out.old) (places_of L.facts.place seats.old.items) since.noted →
        OnOk result (WithNotes K.tells (K.noted out.new) (places_of L.facts.place seats.new.items)
        (λ noted. Playing (seat_since N.state N.steps L.facts (with_notes since noted)) (hosted K.tells L.facts since (K.noted out.new) seats.new.items)
        (network_view
        (λ m. N.Mail.letter m) network.new)
        first_router first K.tells noted held_before (K.held out.new) (script_view script.new) (consumed ++ (line.now ++ newline ∷ [])))) }
    ensures stopped { AreAskedAsRead N.asks → IsTrue L.facts.tells → (since : Since L) (first_router : ℕ) (first : World) →
        MayPlay first_router first → HaveParts (O.part opener.now) first.nodes →
        (held_before consumed others : List ℕ) →
        Playing (seat_since N.state N.steps L.facts since) (hosted K.tells L.facts since (K.noted out.old) seats.old.items)
        (network_view (λ m. N.Mail.letter m) network.old)
        first_router first K.tells since.noted held_before (K.held out.old) (script_view script.old) consumed →
        AreNoted K.tells (K.noted out.old) (places_of L.facts.place seats.old.items) since.noted →
        IfErr result (λ status. WithNotes K.tells (K.noted out.new) (places_of L.facts.place seats.new.items)
        (λ noted. Stopped (seat_since N.state N.steps L.facts (with_notes since noted)) (hosted K.tells L.facts since (K.noted out.new) seats.new.items)
        first_router first K.tells noted held_before
        (K.held out.new) consumed
        (line.now ++ newline ∷ others) status)) }
    ensures router { script.new.first_router ≡ script.old.first_router }
    ensures links { vec_len script.new.links ≡ vec_len script.old.links }
    ensures len { vec_len seats.new ≡ vec_len seats.old }
    ensures open { result ≢ Err statuses.DiskFailed → AreOpen L.facts.is_open seats.new.items }
    ensures other { IfErr result IsOfPlaying }

    // Of the devices.
    ensures write_fault { RoseWhere (result ≡ Err statuses.WriteFailed) (K.fault_count out.old) (K.fault_count out.new) }
    ensures disk_fault { HaveRisenWhere (result ≡ Err statuses.DiskFailed) (faults_of L.facts.fault_count seats.old.items)
        (faults_of L.facts.fault_count seats.new.items) }
    ensures places { places_of L.facts.place seats.new.items ≡ places_of L.facts.place seats.old.items }
{
    let numbers = match numbers_of(alloc, &script.links) {
        Ok(numbers) => numbers,
        Err(_) => return Err(Status::OutOfMemory),
    };
    let closed = match play_line(rt, opener, alloc, line, seats, out, network, script) {
        Ok(closed) => closed,
        Err(status) => return Err(status),
    };
    let replies = network.hand_on(alloc);
    let text = match text_of(alloc, &numbers, &replies, closed) {
        Ok(text) => text,
        Err(_) => return Err(Status::OutOfMemory),
    };
    match put_text(out, seats, text.as_slice()) {
        Ok(()) => Ok(()),
        Err(_) => Err(Status::WriteFailed),
    }
}

/// The lines that end in a piece are played, of which the first was begun before; the beginning of one more may come after them.
///
/// # Errors
/// As `answer_line` has them; `Status::OutOfMemory` also if memory runs out for a line.
pub fn play_piece<
    R: Threads + Sync,
    N: Node<Request = Request>,
    L: Log,
    K: Witness<L::Of>,
    O: Opens<N, L>,
>(
    rt: &R,
    opener: &O,
    alloc: Global,
    piece: &[u8],
    begun: &mut Vec<u8>,
    seats: &mut Vec<Seat<N, L>>,
    network: &mut Network<N::Mail>,
    script: &mut Script,
    out: &mut K,
) -> Result<(), Status>
    requires at { script.old.first_router < vec_len seats.old }
    requires open { AreOpen L.facts.is_open seats.old.items }
    requires links { script.old.first_router + vec_len script.old.links ≡ vec_len seats.old }
    requires begun { HasNone newline begun.old.items }
    ensures played { AreAskedAsRead N.asks → IsTrue L.facts.tells → (since : Since L) (first_router : ℕ) (first : World) →
        MayPlay first_router first → HaveParts (O.part opener.now) first.nodes →
        (held_before consumed : List ℕ) →
        Playing (seat_since N.state N.steps L.facts since) (hosted K.tells L.facts since (K.noted out.old) seats.old.items)
        (network_view (λ m. N.Mail.letter m) network.old)
        first_router first K.tells since.noted held_before (K.held out.old) (script_view script.old) consumed →
        AreNoted K.tells (K.noted out.old) (places_of L.facts.place seats.old.items) since.noted →
        OnOk result (WithNotes K.tells (K.noted out.new) (places_of L.facts.place seats.new.items)
        (λ noted. HasPlayedLines (seat_since N.state N.steps L.facts (with_notes since noted)) (hosted K.tells L.facts since
        (K.noted out.new) seats.new.items) (network_view
        (λ m. N.Mail.letter m) network.new)
        first_router first K.tells noted held_before (K.held out.new) (script_view script.new) (consumed ++ (begun.old.items ++ piece.now)) begun.new.items)) }
    ensures stopped { AreAskedAsRead N.asks → IsTrue L.facts.tells → (since : Since L) (first_router : ℕ) (first : World) →
        MayPlay first_router first → HaveParts (O.part opener.now) first.nodes →
        (held_before consumed : List ℕ) →
        Playing (seat_since N.state N.steps L.facts since) (hosted K.tells L.facts since (K.noted out.old) seats.old.items)
        (network_view (λ m. N.Mail.letter m) network.old)
        first_router first K.tells since.noted held_before (K.held out.old) (script_view script.old) consumed →
        AreNoted K.tells (K.noted out.old) (places_of L.facts.place seats.old.items) since.noted →
        IfErr result (λ status. WithNotes K.tells (K.noted out.new) (places_of L.facts.place seats.new.items)
        (λ noted. HasStoppedIn (seat_since N.state N.steps L.facts (with_notes since noted)) (hosted K.tells L.facts since (K.noted out.new) seats.new.items)
        first_router first K.tells noted
        held_before (K.held out.new)
        (consumed ++ (begun.old.items ++ piece.now)) status)) }
    ensures begun { OnOk result (HasNone newline begun.new.items) }
    ensures router { script.new.first_router ≡ script.old.first_router }
    ensures links { vec_len script.new.links ≡ vec_len script.old.links }
    ensures len { vec_len seats.new ≡ vec_len seats.old }
    ensures open { result ≢ Err statuses.DiskFailed → AreOpen L.facts.is_open seats.new.items }
    ensures other { IfErr result IsOfPlaying }

    // Of the devices.
    ensures write_fault { RoseWhere (result ≡ Err statuses.WriteFailed) (K.fault_count out.old) (K.fault_count out.new) }
    ensures disk_fault { HaveRisenWhere (result ≡ Err statuses.DiskFailed) (faults_of L.facts.fault_count seats.old.items)
        (faults_of L.facts.fault_count seats.new.items) }
    ensures places { places_of L.facts.place seats.new.items ≡ places_of L.facts.place seats.old.items }
{
    let mut rest = piece;
    'lines: while let Some((first, behind)) = cut_at(b'\n', rest) {
        match begun.extend_from_slice(first) {
            Ok(()) => {}
            Err(_) => return Err(Status::OutOfMemory),
        }
        match answer_line(
            rt,
            opener,
            alloc,
            begun.as_slice(),
            seats,
            network,
            script,
            out,
        ) {
            Ok(()) => {}
            Err(status) => return Err(status),
        }
        begun.clear();
        rest = behind;
    }
    match begun.extend_from_slice(rest) {
        Ok(()) => Ok(()),
        Err(_) => Err(Status::OutOfMemory),
    }
}
