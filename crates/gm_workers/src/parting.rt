//! The messages of a mail, parted by the workers to whose nodes they go.

ghost use Rattle.std.specs.Prelude.{◌≡◌, ◌<◌, ℕ, [], IfOk, OnOk, length, slice_index_or};
ghost use Rattle.gm_machine.specs.Vertex.{Message};
ghost use Rattle.gm_core.specs.Cores.{owner};
ghost use Rattle.gm_workers.specs.Partings.{AreParts, places_for};

use crate::mail::Mail;
use gm_base::NoMemory;
use gm_core::owner_in;
use std::alloc::Global;

/// No place, for each of so many workers.
pub(crate) fn no_places(alloc: Global, workers: u32) -> Result<Vec<Vec<u32>>, NoMemory>
    ensures { IfOk result (λ parts. length parts.items ≡ workers) }
{
    let mut parts = Vec::with_capacity(alloc, workers as usize)?;
    for _worker in 0..workers {
        parts.push(Vec::new(alloc))?;
    }
    Ok(parts)
}

// Empties the lists, which keep their room.
fn clear_all(parts: &mut [Vec<u32>])
    ensures { (w : ℕ) → places_for parts.new w ≡ [] }
{
    for w in 0..parts.len() {
        parts[w].clear();
    }
}

// The worker to whose node a message goes. Where there is one worker it is that one, and no owner is looked up.
#[inline(always)]
fn receiver_of(owners: &[u32], workers: usize, mail: &Mail, row: usize) -> u32
    requires row { row < length mail.now.messages }
    requires owners { (n : ℕ) → owner owners.now n < workers }
    ensures { (d : Message) → result ≡ owner owners.now (slice_index_or mail.now.messages row d).to }
{
    if workers == 1 {
        return 0;
    }
    owner_in(owners, mail.messages.to(row))
}

// Adds the place of each message to those for the worker to whose node it goes.
fn add_places(
    owners: &[u32],
    mail: &Mail,
    count: u32,
    parts: &mut [Vec<u32>],
) -> Result<(), NoMemory>
    requires count { count ≡ length mail.now.messages }
    requires owners { (n : ℕ) → owner owners.now n < length parts.old }
    requires none { (w : ℕ) → places_for parts.old w ≡ [] }
    ensures { OnOk result (AreParts owners.now mail.now.messages parts.new) }
{
    let workers = parts.len();
    for row in 0..count {
        let to = receiver_of(owners, workers, mail, row as usize);
        parts[to as usize].push(row)?;
    }
    Ok(())
}

/// Lists for each worker the places of the messages that go to its nodes, in order. What stood in the lists is gone.
pub(crate) fn part_mail(owners: &[u32], mail: &Mail, parts: &mut [Vec<u32>]) -> Result<(), NoMemory>
    requires { (n : ℕ) → owner owners.now n < length parts.old }
    ensures { OnOk result (AreParts owners.now mail.now.messages parts.new) }
{
    clear_all(parts);
    match u32::try_from(mail.messages.len()) {
        Ok(count) => add_places(owners, mail, count, parts),
        Err(_) => Err(NoMemory),
    }
}
