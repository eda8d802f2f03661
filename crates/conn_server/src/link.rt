//! One link: its requests are asked one after another, and the reply to each is written before the next is asked.

ghost use Rattle.std.specs.Prelude.{◌≡◌, ◌≢◌, ◌⊎◌, ℕ, ◌<◌, ◌≤◌, ◌++◌, [], List, length, take, None, IfErr, IfOk, IfSome, IsTrue, OnErr, OnOk, vec_len};
ghost use Rattle.opmsg_model.specs.Outline.{outline, partial_outline};
ghost use Rattle.opmsg_frames.specs.Framers.{IsNext};
ghost use Rattle.outside.specs.Streams.{Took};
ghost use Rattle.outside.specs.declared.exchange.LinkEnd.TheVariants as end_kinds;
ghost use Rattle.group_steps.specs.Parts.{Among};
ghost use Rattle.conn_server.specs.Conversations.{WasTalked, link_facts};
ghost use Rattle.conn_server.specs.Talks.{AreShown, HasShown, IsAsked, IsRead, PutWhole, Spoke, SpokeSome, SpokeToEnd, reply_on};
ghost use Rattle.node_cell.specs.Standing.{AreAmong};

use crate::opened::Opened;
use crate::shared::{Origin, Shared};
use crate::talk::Talk;
use bson_values::Blob;
use crossbeam_channel::Receiver;
use node_cell::{Numbering, Reply};
use node_traits::Node;
use opmsg_frames::{FrameFault, Framer, Request};
use outside::exchange::LinkEnd;
use outside::log::Log;
use outside::streams::Link;
use outside::witness::DiskLink;
use pipe_driver::{PIECE, new_piece, put_all};
use std::alloc::Global;
use std::marker::Model;
use std::sync::Wait;
use wire_nodes::WireRequests;

/// A request that was read from a link, by its bytes.
#[derive(Drop)]
struct ReadRequest {
    request: Request,
}

impl Model for ReadRequest {
    ghost use Rattle.std.specs.Prelude.{List, ℕ};
    ghost use Rattle.conn_server.specs.Talks.{IsRead};

    ghost Value = { List ℕ };

    ghost view = { λ r. r.request.bytes };

    ghost invariant = { λ r. IsRead r.request };
}

/// Returns a request as one that was read.
fn as_read(request: Request) -> ReadRequest
    requires { IsRead request }
    ensures { result ≡ request.bytes }
{
    ReadRequest { request }
}

/// Returns what the framer returns next.
fn next_request(framer: &mut Framer) -> Result<Option<Request>, FrameFault>
    ensures { IsNext framer.old framer.new result }
{
    framer.next()
}

/// The most bytes that are taken of one link.
const MOST_TAKEN: u64 = 1 << 40;

/// Returns the number of the next reply of a link; the first one has 1.
fn number_after(number: i32) -> i32 {
    if number == i32::MAX {
        0
    } else {
        number.wrapping_add(1)
    }
}

/// Asks the link's router, and returns the number of the step that took the request; `None` if none took it.
fn ask<N: Node, L: Log, K: Numbering, Q: WireRequests<N>, R: Wait>(
    rt: &R,
    alloc: Global,
    shared: &Shared<N, L, K>,
    talk: &mut Talk<N, L, K>,
    request: Request,
    number: i32,
) -> Option<u64>
    requires { IsRead request }
    ensures link { talk.new.link ≡ talk.old.link }
    ensures said { talk.new.said ≡ talk.old.said }
    ensures next { talk.new.next ≡ talk.old.next }
    ensures room { talk.new.room ≡ talk.old.room }
    ensures safe { AreAmong talk.old.note.safe talk.new.note.safe }
    ensures asked { IfSome result (λ came. IsAsked N.meaning talk.new.note.taken talk.old.link came request.bytes) }
{
    let link = talk.link();
    let at = shared.router_of(link);
    let Some(cell) = shared.cells.get(at) else {
        return None;
    };
    match cell.ask(rt, alloc, &shared.book, link, number, Q::request(request)) {
        Ok(Some(mut stepped)) => {
            let came = stepped.number();
            shared.send_out(rt, at, &mut stepped, Origin::Link);
            talk.see(&shared.book, stepped.into_note());
            Some(came)
        }
        Ok(None) => None,
        Err(e) => {
            shared.met(rt, e);
            None
        }
    }
}

/// Waits for the next reply of the link, and returns it with the number of its step; `None` if none comes, since the nodes have stopped.
fn next_reply<N: Node, L: Log, K: Numbering, R: Wait>(
    rt: &R,
    shared: &Shared<N, L, K>,
    talk: &mut Talk<N, L, K>,
    replies: &Receiver<Reply<N, L, K>>,
) -> Option<(u64, Blob)>
    ensures link { talk.new.link ≡ talk.old.link }
    ensures said { talk.new.said ≡ talk.old.said }
    ensures next { talk.new.next ≡ talk.old.next }
    ensures room { talk.new.room ≡ talk.old.room }
    ensures taken { (more : List _) × (talk.new.note.taken ≡ talk.old.note.taken ++ more) }
    ensures safe { AreAmong talk.old.note.safe talk.new.note.safe }
    ensures told { IfSome result (λ r. Among (r.0, reply_on talk.old.link r.1) talk.new.note.told) }
{
    let Ok(reply) = replies.recv(rt) else {
        return None;
    };
    if reply.link() != talk.link() {
        return None;
    }
    let (step, reply, note) = reply.into_parts();
    talk.see(&shared.book, note);
    Some((step, reply.bytes))
}

/// Asks the link's router, waits for the reply, and writes it once the disks of all nodes were noted on the link; returns the number of the last reply.
///
/// # Errors
/// - `LinkEnd::WriteFault` if the reply could not be written.
/// - `LinkEnd::Lost` if memory ran out, or the nodes have stopped.
fn exchange<N: Node, L: Log, K: Numbering, Q: WireRequests<N>, S: DiskLink<L::Of>, R: Wait>(
    rt: &R,
    alloc: Global,
    shared: &Shared<N, L, K>,
    link: &mut S,
    talk: &mut Talk<N, L, K>,
    replies: &Receiver<Reply<N, L, K>>,
    read: ReadRequest,
    number: i32,
) -> Result<i32, LinkEnd>
    ensures link { talk.new.link ≡ talk.old.link }
    ensures left { S.Source.left link.new ≡ S.Source.left link.old }
    ensures spoke { OnOk result (Spoke ⊥ (PutWhole S.Sink.tells (S.Sink.held link.old) (S.Sink.held link.new)) talk.old.said talk.new.said read) }
    ensures ended { IfErr result (λ end. (offset : ℕ) (behind : List ℕ) →
        SpokeToEnd end S.Sink.tells (S.Sink.held link.old) (S.Sink.held link.new) talk.old.said talk.new.said offset (read ++ behind)) }
    ensures shown { OnOk result ((before : ℕ) →
        HasShown S.Sink.tells (S.Sink.held link.old) (S.Sink.noted link.old) before talk.old.note.safe talk.old.link talk.old.said →
        HasShown S.Sink.tells (S.Sink.held link.new) (S.Sink.noted link.new) before talk.new.note.safe talk.old.link talk.new.said) }
    ensures shown_end { OnErr result ((before : ℕ) →
        HasShown S.Sink.tells (S.Sink.held link.old) (S.Sink.noted link.old) before talk.old.note.safe talk.old.link talk.old.said →
        AreShown S.Sink.tells (S.Sink.noted link.new) before talk.new.note.safe talk.old.link talk.new.said) }
    ensures other { IfErr result (λ end. end ≢ end_kinds.AtEnd) }
{
    let ReadRequest { request } = read;
    let more = request.more;
    let next = number_after(number);
    let Ok(bytes) = Blob::of(alloc, request.bytes()) else {
        return Err(LinkEnd::Lost);
    };
    let Ok(()) = talk.reserve() else {
        return Err(LinkEnd::Lost);
    };
    let Some(came) = ask::<N, L, K, Q, R>(rt, alloc, shared, talk, request, next) else {
        return Err(LinkEnd::Lost);
    };
    // The steps of a link's requests come one after another, since each is asked once the one before it was.
    if !talk.is_next(came) {
        return Err(LinkEnd::Lost);
    }
    if more {
        talk.add(came, bytes, came, None);
        return Ok(number);
    }
    let Some((step, reply)) = next_reply(rt, shared, talk, replies) else {
        talk.add(came, bytes, came, None);
        return Err(LinkEnd::Lost);
    };
    talk.show(rt, &shared.book, link);
    let put = put_all(link, reply.as_slice());
    talk.add(came, bytes, step, Some(reply));
    match put {
        Ok(()) => Ok(next),
        Err(_) => Err(LinkEnd::WriteFault),
    }
}

/// Asks the requests that the framer returns, one after another, up to the last that is whole; returns the number of the last reply.
///
/// # Errors
/// As `exchange` has them, and `LinkEnd::NoFrame` if what is left begins with no request.
fn exchange_all<N: Node, L: Log, K: Numbering, Q: WireRequests<N>, S: DiskLink<L::Of>, R: Wait>(
    rt: &R,
    alloc: Global,
    shared: &Shared<N, L, K>,
    link: &mut S,
    talk: &mut Talk<N, L, K>,
    replies: &Receiver<Reply<N, L, K>>,
    framer: &mut Framer,
    number: i32,
) -> Result<i32, LinkEnd>
    ensures link { talk.new.link ≡ talk.old.link }
    ensures left { S.Source.left link.new ≡ S.Source.left link.old }
    ensures partial { OnOk result (framer.old.fault ≡ None → (outline framer.new.bytes ≡ partial_outline) × (framer.new.fault ≡ None)) }
    ensures spoke { OnOk result (SpokeSome S.Sink.tells (S.Sink.held link.old) (S.Sink.held link.new) talk.old.said talk.new.said
        framer.old.offset framer.old.bytes framer.new.offset framer.new.bytes) }
    ensures ended { IfErr result (λ end. framer.old.fault ≡ None →
        SpokeToEnd end S.Sink.tells (S.Sink.held link.old) (S.Sink.held link.new) talk.old.said talk.new.said framer.old.offset framer.old.bytes) }
    ensures shown { OnOk result ((before : ℕ) →
        HasShown S.Sink.tells (S.Sink.held link.old) (S.Sink.noted link.old) before talk.old.note.safe talk.old.link talk.old.said →
        HasShown S.Sink.tells (S.Sink.held link.new) (S.Sink.noted link.new) before talk.new.note.safe talk.old.link talk.new.said) }
    ensures shown_end { OnErr result ((before : ℕ) →
        HasShown S.Sink.tells (S.Sink.held link.old) (S.Sink.noted link.old) before talk.old.note.safe talk.old.link talk.old.said →
        AreShown S.Sink.tells (S.Sink.noted link.new) before talk.new.note.safe talk.old.link talk.new.said) }
    ensures other { IfErr result (λ end. end ≢ end_kinds.AtEnd) }
{
    let mut number = number;
    'requests: for _ in rt.forever() {
        let request = match next_request(framer) {
            Ok(Some(request)) => request,
            Ok(None) => return Ok(number),
            Err(FrameFault::Malformed { place, .. }) => return Err(LinkEnd::NoFrame { place }),
            Err(FrameFault::Memory) => return Err(LinkEnd::Lost),
        };
        match exchange::<N, L, K, Q, S, R>(
            rt,
            alloc,
            shared,
            link,
            talk,
            replies,
            as_read(request),
            number,
        ) {
            Ok(after) => number = after,
            Err(end) => return Err(end),
        }
    }
    Err(LinkEnd::Lost)
}

/// Takes at most `room` bytes of a link into the front of the piece, and returns their number.
///
/// # Errors
/// `LinkEnd::AtEnd` if the client closed the link, `LinkEnd::ReadFault` if the link met a fault.
fn take_some<S: Link>(link: &mut S, piece: &mut Vec<u8>, room: usize) -> Result<usize, LinkEnd>
    requires some { 0 < room }
    requires fits { room ≤ vec_len piece.old }
    ensures took { IfOk result (λ count. Took S.Source.tells (S.Source.left link.old) (take count piece.new.items) (S.Source.left link.new)) }
    ensures nothing { OnErr result (Took S.Source.tells (S.Source.left link.old) [] (S.Source.left link.new)) }
    ensures at_end { IfErr result (λ end. end ≡ end_kinds.AtEnd → IsTrue S.Source.tells → S.Source.left link.new ≡ []) }
    ensures most { IfOk result (λ count. count ≤ room) }
    ensures len { vec_len piece.new ≡ vec_len piece.old }
    ensures held { S.Sink.held link.new ≡ S.Sink.held link.old }
    ensures noted { S.Sink.noted link.new ≡ S.Sink.noted link.old }
    ensures ends { IfErr result (λ end. (end ≡ end_kinds.AtEnd) ⊎ (end ≡ end_kinds.ReadFault)) }
{
    let (front, _) = piece.split_at_mut(room);
    match link.take(front) {
        Ok(0) => Err(LinkEnd::AtEnd),
        Ok(count) => Ok(count),
        Err(_) => Err(LinkEnd::ReadFault),
    }
}

/// Serves a link to its end, on which nothing was said yet, and returns why it ended.
fn serve_requests<N: Node, L: Log, K: Numbering, Q: WireRequests<N>, S: DiskLink<L::Of>, R: Wait>(
    rt: &R,
    alloc: Global,
    shared: &Shared<N, L, K>,
    link: &mut S,
    talk: &mut Talk<N, L, K>,
    replies: &Receiver<Reply<N, L, K>>,
) -> LinkEnd
    requires { talk.old.said ≡ [] }
    ensures link { talk.new.link ≡ talk.old.link }
    ensures shown { AreShown S.Sink.tells (S.Sink.noted link.new) (length (S.Sink.held link.old)) talk.new.note.safe talk.old.link talk.new.said }
    ensures talked { WasTalked (link_facts S.Source.tells S.Source.left S.Sink.tells S.Sink.held S.Sink.noted S.is_closed) result link.old link.new talk.new.said }
{
    let mut framer = Framer::new(alloc);
    let Ok(mut piece) = new_piece(alloc) else {
        return LinkEnd::Lost;
    };
    let mut taken = 0;
    let mut number = 0;
    'pieces: for _ in rt.forever() {
        if taken >= MOST_TAKEN {
            return LinkEnd::Long;
        }
        let room = (MOST_TAKEN - taken).min(PIECE as u64) as usize;
        let count = match take_some(link, &mut piece, room) {
            Ok(count) => count,
            Err(end) => return end,
        };
        taken += count as u64;
        let Ok(()) = framer.feed(&piece[..count]) else {
            return LinkEnd::Lost;
        };
        match exchange_all::<N, L, K, Q, S, R>(
            rt,
            alloc,
            shared,
            link,
            talk,
            replies,
            &mut framer,
            number,
        ) {
            Ok(after) => number = after,
            Err(end) => return end,
        }
    }
    LinkEnd::Lost
}

/// A link that ended, with what was said on it.
#[derive(Drop)]
pub(crate) struct Heard<N: Node, L: Log, K: Numbering, S: Link + Drop, O: Opened<S>> {
    pub(crate) opened: O,
    pub(crate) link: S,
    pub(crate) end: LinkEnd,
    pub(crate) talk: Talk<N, L, K>,
}

impl<N: Node, L: Log, K: Numbering, S: Link + Drop, O: Opened<S>> Model for Heard<N, L, K, S, O> {
    ghost use Rattle.std.specs.Prelude.{length, IsTrue};
    ghost use Rattle.conn_server.specs.Conversations.{WasTalked, link_facts};
    ghost use Rattle.conn_server.specs.Talks.{AreShown, HeardView};

    ghost Value = { HeardView N L N.Mail N.Input S };

    ghost view = { λ h. record { opened = O.shown h.opened; link = h.link; end = h.end; talk = h.talk } };

    ghost invariant = { λ h.
        WasTalked (link_facts S.Source.tells S.Source.left S.Sink.tells S.Sink.held S.Sink.noted S.is_closed) h.end (O.shown h.opened) h.link h.talk.said
        × IsTrue (S.is_closed h.link)
        × AreShown S.Sink.tells (S.Sink.noted h.link) (length (S.Sink.held (O.shown h.opened))) h.talk.note.safe h.talk.link h.talk.said };
}

/// Serves a link to its end, on which nothing was said yet, and closes it.
pub(crate) fn serve_link<
    N: Node,
    L: Log,
    K: Numbering,
    Q: WireRequests<N>,
    S: DiskLink<L::Of> + Drop,
    O: Opened<S>,
    R: Wait,
>(
    rt: &R,
    alloc: Global,
    shared: &Shared<N, L, K>,
    link: S,
    talk: Talk<N, L, K>,
    replies: Receiver<Reply<N, L, K>>,
) -> Heard<N, L, K, S, O>
    requires { talk.said ≡ [] }
{
    let opened = O::of(&link);
    let mut link = link;
    let mut talk = talk;
    let end = serve_requests::<N, L, K, Q, S, R>(rt, alloc, shared, &mut link, &mut talk, &replies);
    link.close();
    Heard {
        opened,
        link,
        end,
        talk,
    }
}
