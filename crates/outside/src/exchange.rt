//! What was exchanged on a link.
use bson_values::Blob;
use std::snapshot::Snapshot;

/// A link that ended, and what was exchanged on it.
#[derive(Drop)]
pub struct Spoken<L> {
    /// The link, as it was opened. It is there for proofs alone.
    pub opened: Snapshot<L>,
    /// The link, as it was at its end.
    pub link: L,
    /// Why it ended.
    pub end: LinkEnd,
    /// The requests with their replies, in the order in which the requests came.
    pub said: Vec<Exchange>,
}

/// One request, with its reply if there was one.
#[derive(Debug, Drop)]
pub struct Exchange {
    /// The number of the step that took the request.
    pub came: u64,
    /// The number of the step that returned the reply, or `came` where there is none.
    pub step: u64,
    /// The bytes of the request's whole message.
    pub request: Blob,
    /// The bytes of the reply's whole message.
    pub reply: Option<Blob>,
}

/// Why a link ended.
#[derive(Clone, Copy, Debug, PartialEq, Eq)]
pub enum LinkEnd {
    /// The client closed the link.
    AtEnd,
    /// The next bytes are not the beginning of a message (MongoDB manual, "Wire Protocol").
    NoFrame {
        /// The offset of the fault, in bytes from the link's first.
        place: u64,
    },
    /// A fault occurred while bytes were taken from the link.
    ReadFault,
    /// A fault occurred while bytes were written to the link.
    WriteFault,
    /// 2^40 bytes were taken from the link.
    Long,
    /// Memory ran out for a message or a reply.
    Lost,
}
