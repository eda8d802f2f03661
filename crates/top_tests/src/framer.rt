//! The bytes that a framer holds.

use opmsg_frames::{FrameFault, Framer};
use std::test::Fail;

/// `{}` with id 1.
const LEAST: &[u8] = b"\x1a\0\0\0\x01\0\0\0\0\0\0\0\xdd\x07\0\0\0\0\0\0\0\x05\0\0\0\0";

/// Returns whether these bytes are left after the next request was requested.
fn leaves(framer: &mut Framer, rest: &[u8]) -> Result<bool, FrameFault> {
    let _request = framer.next()?;
    Ok(framer.rest() == rest)
}

#[test]
fn a_part_is_held_back(rt: HostRuntime) -> Result<(), Fail> {
    let (prefix, back) = LEAST.split_at(20);
    let mut framer = Framer::new(rt.alloc());
    assert!(rt; framer.rest().is_empty());
    framer.feed(LEAST)?;
    framer.feed(prefix)?;
    assert!(rt; matches!(leaves(&mut framer, prefix), Ok(true)));
    assert!(rt; matches!(leaves(&mut framer, prefix), Ok(true)));
    framer.feed(back)?;
    assert!(rt; framer.rest() == LEAST);
    assert!(rt; matches!(leaves(&mut framer, b""), Ok(true)));
    Ok(())
}
