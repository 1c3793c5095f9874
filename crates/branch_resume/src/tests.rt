use super::*;
use net_values::{FlatNet, NoMemory, Text};
use std::alloc::Global;
use std::process::Abort;
use std::test::Fail;

/// A net of two places and no transition, each of which is a minimal siphon.
fn isles(rt: &impl Abort, alloc: Global) -> Result<FlatNet, NoMemory> {
    let mut net = FlatNet::new(alloc);
    for id in ["a", "b"] {
        assert!(rt; net.places() < 8);
        let mut text = Text::new(alloc);
        text.push(id)?;
        net.add_place(text, 1)?;
    }
    Ok(net)
}

/// Bytes with the number of classes for which they stand, or with the fault of the net of two places.
const TOKENS: [(&str, Result<usize, PendingFault>); 20] = [
    ("", Ok(1)),
    ("pending\nend\n", Ok(0)),
    ("pending\nclass\nend\n", Ok(1)),
    ("pending\nclass +0 -1\nend\nb\nsiphons 1\n", Ok(1)),
    (
        "pending\nclass +0\nclass -0 +1\nend\n",
        Err(PendingFault::BadLine(3)),
    ),
    ("pending\nclass +0\nclass +1 -0\nend\n", Ok(2)),
    ("pending\nclass -0\nclass +0\nend\n", Ok(2)),
    (
        "pending\nclass +0\nclass -1\nend\n",
        Err(PendingFault::Rejected(3)),
    ),
    ("pending\nclass -1 +0\nend\n", Err(PendingFault::BadLine(2))),
    ("pending\nclass +2\nend\n", Err(PendingFault::Rejected(2))),
    (
        "pending\nclass +2\nclass x\nend\n",
        Err(PendingFault::BadLine(3)),
    ),
    ("pending\nclass +2048\nend\n", Err(PendingFault::BadLine(2))),
    ("pending\nclass +0 -0\nend\n", Err(PendingFault::BadLine(2))),
    ("pending\nclass +1 +0\nend\n", Err(PendingFault::BadLine(2))),
    ("pending\nclass +01\nend\n", Err(PendingFault::BadLine(2))),
    ("pending\nclass \nend\n", Err(PendingFault::BadLine(2))),
    ("pending\n", Err(PendingFault::BadLine(2))),
    ("pending\nend", Err(PendingFault::BadLine(2))),
    ("pending", Err(PendingFault::BadLine(1))),
    ("\n", Err(PendingFault::BadLine(1))),
];

#[test]
fn tokens_stand_for_classes(rt: HostRuntime) -> Result<(), Fail> {
    let alloc = rt.alloc();
    let net = isles(&rt, alloc)?;
    for (bytes, wanted) in &TOKENS {
        match (read_pending(alloc, &net, bytes.as_bytes()), wanted) {
            (Ok(classes), Ok(count)) => assert_eq!(rt; classes.len(), *count),
            (Err(fault), Err(other)) => assert_eq!(rt; fault, *other),
            _ => assert!(rt; false, "at {bytes}"),
        }
    }
    Ok(())
}

#[test]
fn a_run_of_one_leaf_leaves_a_class(rt: HostRuntime) -> Result<(), Fail> {
    let alloc = rt.alloc();
    let net = isles(&rt, alloc)?;
    assert!(rt; net.places() <= 2048);
    let Ok(classes) = read_pending(alloc, &net, b"") else {
        panic!(rt; "no class");
    };
    let resumed = resume(alloc, &net, classes, 1)?;
    assert_eq!(rt; resumed.met.len(), 1);
    assert_eq!(rt; resumed.found.len(), 1);
    assert_eq!(rt; resumed.pending.len(), 1);
    Ok(())
}
