//! Lines of scripts: with ample memory each is read as what it says.
use script_lines::{Line, LineFault, put_closed, put_reply, read_line};
use std::alloc::Global;
use std::test::Fail;

#[test]
fn bytes_come_to_a_link(rt: HostRuntime) -> Result<(), Fail> {
    let Line::Client { router, bytes } = read_line(rt.alloc(), b"client 3 00fFa0")? else {
        return Err(Fail::new("another line"));
    };
    assert!(rt; router == 3);
    assert!(rt; bytes.as_slice() == b"\x00\xff\xa0".as_slice());
    Ok(())
}

#[test]
fn messages_are_delivered(rt: HostRuntime) -> Result<(), Fail> {
    let Line::Deliver { node, k } = read_line(rt.alloc(), b"deliver 1 18446744073709551615")? else {
        return Err(Fail::new("another line"));
    };
    assert!(rt; node == 1);
    assert!(rt; k == u64::MAX);
    assert!(rt; matches!(read_line(rt.alloc(), b"settle")?, Line::Settle));
    Ok(())
}

#[test]
fn moments_are_given(rt: HostRuntime) -> Result<(), Fail> {
    let Line::Moment { node, moment } = read_line(rt.alloc(), b"moment 2 18446744073709551615")?
    else {
        return Err(Fail::new("another line"));
    };
    assert!(rt; node == 2);
    assert!(rt; moment == u64::MAX);
    Ok(())
}

#[test]
fn kinds_are_named(rt: HostRuntime) -> Result<(), Fail> {
    let Line::SettleExcept { kind } = read_line(rt.alloc(), b"settle except WriteDone")? else {
        return Err(Fail::new("another line"));
    };
    assert!(rt; kind.as_slice() == b"WriteDone".as_slice());
    let Line::Next { kind } = read_line(rt.alloc(), b"next Settled")? else {
        return Err(Fail::new("another line"));
    };
    assert!(rt; kind.as_slice() == b"Settled".as_slice());
    Ok(())
}

#[test]
fn nodes_are_started_again(rt: HostRuntime) -> Result<(), Fail> {
    let Line::Restart { node } = read_line(rt.alloc(), b"restart 18446744073709551615")? else {
        return Err(Fail::new("another line"));
    };
    assert!(rt; node == u64::MAX);
    let Line::RestartKept { node, k } = read_line(rt.alloc(), b"restart 1 kept 3")? else {
        return Err(Fail::new("another line"));
    };
    assert!(rt; node == 1);
    assert!(rt; k == 3);
    let Line::RestartLost { node, k } = read_line(rt.alloc(), b"restart 2 lost 0")? else {
        return Err(Fail::new("another line"));
    };
    assert!(rt; node == 2);
    assert!(rt; k == 0);
    Ok(())
}

fn is_refused(alloc: Global, line: &[u8]) -> bool {
    matches!(read_line(alloc, line), Err(LineFault::Refused))
}

#[test]
fn other_lines_are_refused(rt: HostRuntime) -> Result<(), Fail> {
    assert!(rt; is_refused(rt.alloc(), b""));
    assert!(rt; is_refused(rt.alloc(), b"settle "));
    assert!(rt; is_refused(rt.alloc(), b"restart"));
    assert!(rt; is_refused(rt.alloc(), b"restart 01"));
    assert!(rt; is_refused(rt.alloc(), b"restart 1 "));
    assert!(rt; is_refused(rt.alloc(), b"restart 1 kept"));
    assert!(rt; is_refused(rt.alloc(), b"restart 1 kept 03"));
    assert!(rt; is_refused(rt.alloc(), b"restart 1 lost 3 "));
    assert!(rt; is_refused(rt.alloc(), b"restart 1 keep 3"));
    assert!(rt; is_refused(rt.alloc(), b"deliver 01 7"));
    assert!(rt; is_refused(rt.alloc(), b"deliver 1 18446744073709551616"));
    assert!(rt; is_refused(rt.alloc(), b"client 0 "));
    assert!(rt; is_refused(rt.alloc(), b"client 0 0"));
    assert!(rt; is_refused(rt.alloc(), b"client 0  00"));
    assert!(rt; is_refused(rt.alloc(), b"moment 2 007"));
    assert!(rt; is_refused(rt.alloc(), b"settle except"));
    assert!(rt; is_refused(rt.alloc(), b"settle  except WriteDone"));
    assert!(rt; is_refused(rt.alloc(), b"settle except writeDone"));
    assert!(rt; is_refused(rt.alloc(), b"settle except WriteDone "));
    assert!(rt; is_refused(rt.alloc(), b"next WriteDones"));
    assert!(rt; is_refused(rt.alloc(), b"next"));
    Ok(())
}

#[test]
fn replies_are_printed(rt: HostRuntime) -> Result<(), Fail> {
    let mut text = Vec::new(rt.alloc());
    put_reply(rt.alloc(), 12, b"\x0a\xbc", &mut text)?;
    put_closed(0, &mut text)?;
    assert!(rt; text.as_slice() == b"reply 12 0abc\nclosed 0\n".as_slice());
    Ok(())
}
