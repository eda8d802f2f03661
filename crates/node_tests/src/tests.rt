//! A step of the node.
use crate::idle::IdleInput;
use crate::state::Idle;
use cluster_base::NodeId;
use journal_frames::Journal;
use node_traits::{Node, StepFault};
use outside_memory::MemDisk;
use std::test::Fail;

#[test]
fn steps(rt: HostRuntime) -> Result<(), Fail> {
    let alloc = rt.alloc();
    let mut node = Idle::new(alloc, NodeId(0));
    let Ok((journal, _)) = Journal::open(alloc, MemDisk::new(Vec::new(alloc), Vec::new(alloc)))
    else {
        return Ok(());
    };
    let mut journal = journal;
    let opened = node.step(&mut journal, Idle::opened());
    assert!(rt; opened.is_ok());
    assert!(rt;
        matches!(
            node.step(&mut journal, IdleInput::Moment(1)),
            Err(StepFault::Memory { .. })
        )
    );
    Ok(())
}
