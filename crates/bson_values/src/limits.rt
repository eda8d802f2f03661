//! The limits of documents. Depth counts how documents and arrays are nested, the outermost being 1.

/// The greatest depth of a document that is read.
pub const MOST_DEPTH_KEPT: u32 = 100;

/// The greatest length of the encoding of a document that is stored.
pub const MOST_BYTES_KEPT: usize = 16_777_216;

/// A stated length is less than this: it is a non-negative int32 (BSON 1.1, "Basic Types").
pub const LENGTH_LIMIT: usize = 0x8000_0000;
