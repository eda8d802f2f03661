//! Requests.

ghost use Rattle.std.specs.Prelude.{◌≡◌};
ghost use Rattle.opmsg_model.specs.Requests as wire;
ghost use Rattle.opmsg_frames.specs.RequestMeanings.{IsContent, IsMeant};

use crate::lists::SequenceList;
use bson_values::{BsonFault, Document};
use bytes::Bytes;

/// The kind of message that a request came in.
#[derive(Clone, Copy, Debug, PartialEq, Eq)]
pub enum Form {
    /// OP_MSG.
    Msg,
    /// OP_QUERY, which is used only for greetings.
    Query,
}

/// The documents of a request.
#[derive(Drop)]
pub enum Body {
    /// All are documents: that of the section of kind 0, and those of the sections of kind 1.
    Read {
        doc: Document,
        sequences: SequenceList,
    },
    /// The first fault of the first document that has one. Its offset counts from that document's first byte.
    Faulty(BsonFault),
}

/// A request (MongoDB Wire Protocol, "OP_MSG", "OP_QUERY").
#[derive(Drop)]
pub struct Request {
    /// The id that the reply names.
    pub id: i32,
    /// Whether no reply is requested.
    pub more: bool,
    pub form: Form,
    pub body: Body,
    pub(crate) bytes: Bytes,
}

impl Request {
    /// Returns the whole message that it came in, including its header.
    pub fn bytes(&self) -> &[u8]
        ensures { result.now ≡ self.now.bytes }
    {
        self.bytes.as_slice()
    }
}

/// The content of a message: the request without its bytes.
#[derive(Drop)]
pub(crate) struct Content {
    pub id: i32,
    pub more: bool,
    pub form: Form,
    pub body: Body,
}

impl Content {
    /// Returns the request that came in these bytes.
    pub(crate) fn with_bytes(self, bytes: Bytes) -> Request
        ensures { (meant : wire.Request) → IsContent self meant → meant.bytes ≡ bytes → IsMeant result meant }
    {
        Request {
            id: self.id,
            more: self.more,
            form: self.form,
            body: self.body,
            bytes,
        }
    }
}
