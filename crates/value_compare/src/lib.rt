//! The order of values as code (MongoDB manual, "Comparison/Sort Order"), and what rests on it: keys, ranges of keys, and the
//! operands of a write.
#![tactic(auto)]

mod key;
mod order;
mod span;
mod span_list;
mod words;

pub use key::{Key, KeyFault, key_of};
pub use order::{class, compare};
pub use span::{Bound, KeyRange, Span, inside};
pub use span_list::SpanList;
pub use words::{OpWords, Reply};
