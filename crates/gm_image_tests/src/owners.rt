//! Which worker owns each node.

ghost use Rattle.std.specs.Prelude.{◌≤◌};

use gm_base::NoMemory;
use gm_core::{owner_in, owners_of};
use gm_partition::Owner;
use std::alloc::Global;
use std::process::Abort;
use std::test::Fail;

// The owners of so many nodes by the remainder.
fn owners_by_remainder(alloc: Global, workers: u32, nodes: u32) -> Result<Vec<u32>, NoMemory>
    requires some_worker { 1 ≤ workers }
    requires few_workers { workers ≤ 64 }
{
    owners_of(alloc, Owner::Mod, workers, nodes)
}

// Compares the owner of a node.
fn compare_owner(rt: &impl Abort, owners: &[u32], node: u32, want: u32) {
    assert_eq!(rt; owner_in(owners, node), want, "{node}");
}

#[test]
fn owners(rt: HostRuntime) -> Result<(), Fail> {
    let owners = owners_by_remainder(rt.alloc(), 3, 7)?;
    assert_eq!(rt; owners.as_slice(), [0, 1, 2, 0, 1, 2, 0].as_slice());
    compare_owner(&rt, &owners, 5, 2);
    // what is no node
    compare_owner(&rt, &owners, 7, 0);
    Ok(())
}

#[test]
fn no_nodes_have_no_owners(rt: HostRuntime) -> Result<(), Fail> {
    let none = owners_by_remainder(rt.alloc(), 64, 0)?;
    assert!(rt; none.is_empty());
    Ok(())
}
