//! Who owns which node, and where it stands among its owner's nodes.

ghost use Rattle.std.specs.Prelude.{◌≡◌, ◌<◌, ◌≤◌, ℕ, ◌+◌, IfOk, OnOk, length, map, slice_index, slice_set};
ghost use Rattle.gm_core.specs.Cores.{below};
ghost use Rattle.gm_core.specs.Laws.{AreOwners};
ghost use Rattle.gm_core.specs.Owners.{owners_by};
ghost use Rattle.gm_workers.specs.Dealings.{place_in, place_for, IsDealt};

use gm_base::NoMemory;
use gm_core::{owner_in, owners_of};
use gm_partition::Owner;
use std::alloc::Global;

/// Who owns each node, and how many nodes below it the owner has. All workers share it.
#[derive(Drop)]
pub struct Dealing {
    pub owners: Vec<u32>,
    pub places: Vec<u32>,
}

// The next node stands behind those that its owner has so far.
fn place_next(counts: &mut [u32], owner: u32) -> Result<u32, NoMemory>
    requires { owner < length counts.old }
    ensures place { IfOk result (λ place. place ≡ slice_index counts.old owner) }
    ensures counts { OnOk result (counts.new ≡ slice_set counts.old owner (slice_index counts.old owner + 1)) }
{
    let place = counts[owner as usize];
    match place.checked_add(1) {
        Some(next) => counts[owner as usize] = next,
        None => return Err(NoMemory),
    }
    Ok(place)
}

// The place of each node among its owner's nodes.
fn places_of(alloc: Global, owners: &[u32], workers: u32) -> Result<Vec<u32>, NoMemory>
    requires { (n : ℕ) → slice_index owners.now n < workers }
    ensures { IfOk result (λ places. places.items ≡ map (place_in owners.now) (below (length owners.now))) }
{
    let mut counts = vec![in alloc; 0u32; workers as usize]?;
    let mut places = Vec::new(alloc);
    for owner in owners {
        let place = place_next(counts.as_mut_slice(), *owner)?;
        places.push(place)?;
    }
    Ok(places)
}

/// Deals so many nodes out among so many workers.
pub fn deal(alloc: Global, owner: Owner, workers: u32, nodes: u32) -> Result<Dealing, NoMemory>
    requires some_worker { 1 ≤ workers }
    requires few_workers { workers ≤ 64 }
    ensures owners { IfOk result (λ d. d.owners.items ≡ owners_by owner workers nodes) }
    ensures dealt { IfOk result (λ d. IsDealt nodes workers d) }
{
    let owners = owners_of(alloc, owner, workers, nodes)?;
    let places = places_of(alloc, owners.as_slice(), workers)?;
    Ok(Dealing { owners, places })
}

/// The place of a node among a worker's nodes. A number that no place has where it is not the worker's.
pub fn place_at(dealing: &Dealing, worker: u32, node: u32) -> u32
    ensures { result ≡ place_for dealing.now worker node }
{
    if owner_in(&dealing.owners, node) != worker {
        return u32::MAX;
    }
    match dealing.places.get(node as usize) {
        Some(place) => *place,
        None => u32::MAX,
    }
}
