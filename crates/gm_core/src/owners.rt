//! The owner of each node.

ghost use Rattle.std.specs.Prelude.{◌≡◌, ◌<◌, ◌≤◌, ℕ, IfOk, length, slice_index};
ghost use Rattle.gm_core.specs.Laws.{AreOwners};
ghost use Rattle.gm_core.specs.Owners.{owners_by};

use gm_base::NoMemory;
use gm_partition::{Owner, owner_of};
use std::alloc::Global;

/// The worker that owns each node, by node, where so many workers share a graph of so many nodes.
pub fn owners_of(
    alloc: Global,
    owner: Owner,
    workers: u32,
    nodes: u32,
) -> Result<Vec<u32>, NoMemory>
    requires some_worker { 1 ≤ workers }
    requires few_workers { workers ≤ 64 }
    ensures each { IfOk result (λ owners. owners.items ≡ owners_by owner workers nodes) }
    ensures dealt { IfOk result (λ owners. AreOwners owners.items nodes workers) }
{
    let mut owners = Vec::new(alloc);
    for node in 0..nodes {
        let worker = owner_of(owner, workers, nodes, node);
        owners.push(worker)?;
    }
    Ok(owners)
}

/// The worker that owns a node. What is no node is the first worker's.
pub fn owner_in(owners: &[u32], node: u32) -> u32
    ensures { result ≡ slice_index owners.now node }
{
    match owners.get(node as usize) {
        Some(worker) => *worker,
        None => 0,
    }
}
