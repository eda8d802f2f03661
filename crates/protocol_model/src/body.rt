//! The contents of messages.

ghost use Rattle.std.specs.Prelude.{◌≡◌, IfOk};
ghost use Rattle.node_traits.specs.Kinds.{kind_of};
ghost use Rattle.protocol_model.specs.Bodies.{body_view};

use crate::reads::{HalfAsk, ReadAsk, ReadRows, TimeAsk, TimeTold};
use crate::refused::Refused;
use crate::splits::{SplitAsk, SplitDone};
use crate::tables::{TableAsk, TableTold};
use crate::writes::{WriteAsk, WriteDone};
use bson_values::Memory;
use std::alloc::Global;

/// The content of a message. A turn counts the tries of a request that was sent with a stale table.
#[derive(Drop)]
pub enum Body {
    TableAsk(TableAsk),
    TableTold(TableTold),
    SplitAsk(SplitAsk),
    SplitDone(SplitDone),
    WriteAsk(WriteAsk),
    WriteDone(WriteDone),
    ReadAsk(ReadAsk),
    HalfAsk(HalfAsk),
    ReadRows(ReadRows),
    Refused(Refused),
    TimeAsk(TimeAsk),
    TimeTold(TimeTold),
}

impl Body {
    /// Returns the name of the message's kind.
    pub fn kind(&self) -> &'static str
        ensures { result.now ≡ kind_of (body_view self.now) }
    {
        match self {
            Body::TableAsk(_) => "TableAsk",
            Body::TableTold(_) => "TableTold",
            Body::SplitAsk(_) => "SplitAsk",
            Body::SplitDone(_) => "SplitDone",
            Body::WriteAsk(_) => "WriteAsk",
            Body::WriteDone(_) => "WriteDone",
            Body::ReadAsk(_) => "ReadAsk",
            Body::HalfAsk(_) => "HalfAsk",
            Body::ReadRows(_) => "ReadRows",
            Body::Refused(_) => "Refused",
            Body::TimeAsk(_) => "TimeAsk",
            Body::TimeTold(_) => "TimeTold",
        }
    }

    /// Returns a copy, which shares the documents, keys and tables, or `Memory` if memory runs out.
    pub fn copy(&self, alloc: Global) -> Result<Body, Memory>
        ensures { IfOk result (λ body. body_view body ≡ body_view self.now) }
    {
        match self {
            Body::TableAsk(ask) => Ok(Body::TableAsk(ask.copy()?)),
            Body::TableTold(told) => Ok(Body::TableTold(told.copy()?)),
            Body::SplitAsk(ask) => Ok(Body::SplitAsk(ask.copy()?)),
            Body::SplitDone(done) => Ok(Body::SplitDone(*done)),
            Body::WriteAsk(ask) => Ok(Body::WriteAsk(ask.copy(alloc)?)),
            Body::WriteDone(done) => Ok(Body::WriteDone(done.copy(alloc)?)),
            Body::ReadAsk(ask) => Ok(Body::ReadAsk(ask.copy()?)),
            Body::HalfAsk(ask) => Ok(Body::HalfAsk(ask.copy(alloc)?)),
            Body::ReadRows(told) => Ok(Body::ReadRows(told.copy(alloc)?)),
            Body::Refused(refused) => Ok(Body::Refused(refused.copy()?)),
            Body::TimeAsk(ask) => Ok(Body::TimeAsk(*ask)),
            Body::TimeTold(told) => Ok(Body::TimeTold(*told)),
        }
    }
}
