//! Which worker owns which node.
#![tactic(auto)]

ghost use Rattle.std.specs.Prelude.{◌≡◌, ◌*◌, ◌≤◌, ◌<◌, ℕ};
ghost use Rattle.gm_partition.specs.Owners.{block_len, owner_is};

/// How the nodes of a graph are dealt out among the workers.
#[derive(Clone, Copy, Debug, PartialEq, Eq, Hash)]
pub enum Owner {
    /// Node after node, round and round.
    Mod,
    /// In blocks of neighbouring nodes, one block for each worker, as small as blocks can be.
    Block,
    /// Scattered by a multiplication; the number shifts the scattering.
    Spread(u32),
}

/// The worker, from 0, that owns the node, from 0, where so many workers share a graph of so many nodes.
pub fn owner_of(owner: Owner, workers: u32, nodes: u32, node: u32) -> u32
    requires some_worker { 1 ≤ workers }
    requires few_workers { workers ≤ 64 }
    requires in_range { node < nodes }
    ensures formula { result ≡ owner_is owner workers nodes node }
    ensures below { result < workers }
{
    match owner {
        Owner::Mod => node % workers,
        Owner::Block => node / block_size(workers, nodes),
        Owner::Spread(shift) => {
            let mixed = (node as u64 * 2654435761 + shift as u64) / 65536;
            (mixed % workers as u64) as u32
        }
    }
}

// How many nodes a block has: the least number of which the workers together have enough.
fn block_size(workers: u32, nodes: u32) -> u32
    requires some_worker { 1 ≤ workers }
    ensures value { result ≡ block_len workers nodes }
    ensures enough { nodes ≤ result * workers }
    ensures least { (c : ℕ) → nodes ≤ c * workers → result ≤ c }
{
    nodes.div_ceil(workers)
}
