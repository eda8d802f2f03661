//! The arguments of the command line, and how many nodes they start.

use bson_values::{Memory, Text};
use cluster_top::node_count;
use std::alloc::Global;
use std::test::Fail;

/// Returns how many nodes the words of this line start, if they start any.
fn started(alloc: Global, line: &str) -> Result<Option<usize>, Memory> {
    let mut arguments = Vec::new(alloc);
    for word in line.split_whitespace() {
        arguments.push(Text::of(alloc, word)?)?;
    }
    Ok(node_count(&arguments))
}

#[test]
fn commands_start_nodes(rt: HostRuntime) -> Result<(), Fail> {
    assert!(rt; started(rt.alloc(), "pipe")? == Some(3));
    assert!(rt; started(rt.alloc(), "pipe --shards 2")? == Some(4));
    assert!(rt; started(rt.alloc(), "pipe --shards=16")? == Some(18));
    assert!(rt; started(rt.alloc(), "sim")? == Some(4));
    assert!(rt; started(rt.alloc(), "sim --shards 1")? == Some(3));
    assert!(rt; started(rt.alloc(), "sim --routers 2")? == Some(5));
    assert!(rt; started(rt.alloc(), "sim --routers=8 --shards=+3")? == Some(12));
    assert!(rt; started(rt.alloc(), "sim --shards 16 --routers 8")? == Some(25));
    assert!(rt; started(rt.alloc(), "sim --routers +2")? == Some(5));
    assert!(rt; started(rt.alloc(), "sim --routers=007")? == Some(10));
    assert!(rt; started(rt.alloc(), "serve --port 27017 --sessions 8")? == Some(4));
    assert!(rt; started(rt.alloc(), "serve --sessions=8 --port=65535")? == Some(4));
    assert!(rt; started(rt.alloc(), "serve --shards=1 --sessions=8 --port=65535")? == Some(3));
    assert!(rt;
        started(
            rt.alloc(),
            "serve --routers 8 --port=1 --shards 16 --sessions 4294967295"
        )? == Some(25)
    );
    Ok(())
}

#[test]
fn other_words_start_none(rt: HostRuntime) -> Result<(), Fail> {
    for line in [
        "",
        "pope",
        "pipe pipe",
        "pipe --routers 1",
        "pipe --routers=1",
        "pipe --shards",
        "pipe --shards=",
        "pipe --shards 0",
        "pipe --shards 17",
        "pipe --shards=1=1",
        "pipe --shards 1 --shards 1",
        "pipe --shards 1 --port 1",
        "pipe --shards 1 --sessions 1",
        "sim --shards two",
        "sim --shards --routers 1",
        "sim --shards 1 --port 1",
        "sim --shards 1 --sessions 1",
        "sim --Shards 1",
        "sim --shards 18446744073709551617",
        "sim --routers",
        "sim --routers=",
        "sim --routers 0",
        "sim --routers 9",
        "sim --routers -1",
        "sim --routers two",
        "sim --routers=2 --routers=2",
        "sim --routers 2 --routers 2",
        "sim -- --routers 2",
        "sim --",
        "sim --router 2",
        "--routers 2 sim",
        "serve",
        "serve --port 27017",
        "serve --sessions 8",
        "serve --port 0 --sessions 8",
        "serve --port 65536 --sessions 8",
        "serve --port 27017 --sessions 0",
        "serve --port 27017 --sessions 4294967296",
        "serve --port 27017 --sessions 8 --routers 9",
        "serve --port 27017 --port=27017 --sessions 8",
        "serve --port --sessions 8",
        "serve --port 27017 --sessions",
        "serve --port 27017 --sessions 8 --shards 0",
        "serve --port 27017 --sessions 8 --shards=17",
        "serve --port 27017 --sessions 8 --shard 2",
        "serve --port 27017 --sessions 8 8",
        "--port 27017 serve --sessions 8",
    ] {
        assert!(rt; started(rt.alloc(), line)?.is_none());
    }
    Ok(())
}
