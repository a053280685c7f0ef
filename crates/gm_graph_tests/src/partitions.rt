//! Owners at small and at the largest numbers.
use crate::compare::same;
use gm_partition::{Owner, owner_of};
use std::process::Abort;

// Compares the worker that owns a node.
fn check(
    rt: &impl Abort,
    row: usize,
    owner: Owner,
    workers: u32,
    nodes: u32,
    node: u32,
    worker: u32,
) {
    assert!(rt; 1 <= workers && workers <= 64 && node < nodes);
    same(rt, row, owner_of(owner, workers, nodes, node), worker);
}

#[test]
fn owners(rt: HostRuntime) {
    // The row, the owner, the workers, the nodes, the node, and the worker.
    check(&rt, 0, Owner::Mod, 1, 1, 0, 0);
    check(&rt, 1, Owner::Mod, 3, 10, 7, 1);
    check(&rt, 2, Owner::Mod, 64, 4000000, 3999999, 63);
    check(&rt, 3, Owner::Mod, 64, 4294967295, 4294967294, 62);
    check(&rt, 4, Owner::Block, 1, 1, 0, 0);
    check(&rt, 5, Owner::Block, 3, 10, 3, 0);
    check(&rt, 6, Owner::Block, 3, 10, 4, 1);
    check(&rt, 7, Owner::Block, 3, 10, 9, 2);
    check(&rt, 8, Owner::Block, 64, 1, 0, 0);
    check(&rt, 9, Owner::Block, 64, 65, 64, 32);
    check(&rt, 10, Owner::Block, 64, 4294967295, 4294967294, 63);
    check(&rt, 11, Owner::Spread(0), 2, 10, 0, 0);
    check(&rt, 12, Owner::Spread(0), 64, 10, 1, 55);
    check(&rt, 13, Owner::Spread(65536), 2, 10, 0, 1);
    check(&rt, 14, Owner::Spread(4294967295), 64, 10, 0, 63);
    check(
        &rt,
        15,
        Owner::Spread(4294967295),
        64,
        4294967295,
        4294967294,
        17,
    );
}
