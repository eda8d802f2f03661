//! Why bytes are not messages.

/// Why bytes are not a message.
#[derive(Clone, Copy, Debug, PartialEq, Eq)]
pub enum Malformed {
    /// It states a length below that of a header.
    BadLength,
    /// It states more than 48,000,000 bytes.
    TooLong,
    /// Its opcode is neither that of OP_MSG nor that of OP_QUERY.
    BadOpcode,
    /// A flag bit that must be understood is set, or there are no flags.
    BadFlags,
    /// A section is neither of kind 0 nor of kind 1.
    BadKind,
    /// A length in a section is below 5 or exceeds what contains it, or an identifier has no 00 or is not UTF-8.
    BadSection,
    /// There are two or more sections of kind 0.
    TwoBodies,
    /// There is no section of kind 0.
    NoBody,
    /// A message of OP_QUERY is not a greeting.
    BadQuery,
}

/// Why no more requests can be read.
#[derive(Clone, Copy, Debug, PartialEq, Eq)]
pub enum FrameFault {
    /// The bytes at the offset `place`, among all bytes taken, are not a message.
    Malformed { fault: Malformed, place: u64 },
    /// Out of memory. Nothing is changed.
    Memory,
}
