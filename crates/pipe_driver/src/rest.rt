//! The rest after the last whole request.

ghost use Rattle.pipe_driver.specs.Rest.{Unframed};

use opmsg_frames::{Outline, outline_of};

/// Returns how many bytes come after the last whole request of these bytes.
pub fn unframed(bytes: &[u8]) -> usize
    ensures { Unframed bytes.now result }
{
    let mut rest = bytes;
    while let Outline::Message(whole) = outline_of(rest) {
        rest = &rest[whole..];
    }
    rest.len()
}
