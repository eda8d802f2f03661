//! The kinds of messages.

ghost use Rattle.std.specs.Prelude.{◌≡◌, drop};
ghost use Rattle.script_lines.specs.Kinds.{is_among, kinds};

use std::str;

/// Returns whether a word names a kind, in its own case.
pub(crate) fn is_kind(word: &[u8]) -> bool
    ensures { result ≡ is_among kinds word.now }
{
    match str::from_utf8(word) {
        Ok(text) => is_first_kind(text),
        Err(_) => false,
    }
}

// Returns the same of a text.
fn is_first_kind(word: &str) -> bool
    ensures { result ≡ is_among kinds word.now }
{
    "TableAsk" == word
        || "TableTold" == word
        || "SplitAsk" == word
        || "SplitDone" == word
        || "WriteAsk" == word
        || "ReadAsk" == word
        || "MoveAsk" == word
        || "TimeAsk" == word
        || "HalfAsk" == word
        || is_second_kind(word)
}

// Returns the same of the kinds from `WriteDone` on.
fn is_second_kind(word: &str) -> bool
    ensures { result ≡ is_among (drop 9 kinds) word.now }
{
    "WriteDone" == word
        || "ReadRows" == word
        || "MoveDone" == word
        || "TimeTold" == word
        || "Refused" == word
        || "ReceiveAsk" == word
        || "Batch" == word
        || "Floors" == word
        || "Release" == word
        || is_third_kind(word)
}

// Returns the same of the kinds from `ReceiveReady` on.
fn is_third_kind(word: &str) -> bool
    ensures { result ≡ is_among (drop 18 kinds) word.now }
{
    "ReceiveReady" == word
        || "ReceiveBusy" == word
        || "ReceiveLost" == word
        || "BatchDone" == word
        || "FloorsDone" == word
        || "Released" == word
        || "CommitAsk" == word
        || "ResolveAsk" == word
        || "Settled" == word
}
