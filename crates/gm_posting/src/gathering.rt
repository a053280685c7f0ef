// What a worker has to send, gathered for each receiver into batches.

ghost use Rattle.std.specs.Prelude.{◌≡◌, ◌<◌, ◌≤◌, ◌+◌, ℕ, List, [], ◌++◌, All, IfOk, OnOk, length};
ghost use Rattle.gm_posting.specs.Gathering.{GoesTo, Gathers, AreFew, NothingGathered, at_places, held, only_for, nothing};

use crate::posts::{Mailboxes, Posts};
use gm_base::NoMemory;
use std::alloc::Global;
use std::mem;
use std::sync::Wait;

// As many items as a batch may have.
const FULL: usize = 1024;

/// A list of items that goes to a receiver as one batch.
pub trait Bundle: Drop + Sized {
    ghost Item: { Type 0 };

    ghost items: { Self → List Item };

    /// A batch with no item. It takes no memory.
    fn empty(alloc: Global) -> Self
        ensures { items result ≡ [] };

    /// How many items it has.
    fn len(&self) -> usize
        ensures { result ≡ length (items self.now) };

    /// Adds the items of another batch at some places, in the order of the places, behind the others.
    fn add_rows(&mut self, from: &Self, rows: &[u32]) -> Result<(), NoMemory>
        requires { All (λ row. row < length (items from.now)) rows.now }
        ensures { OnOk result ((d : Item) → items self.new ≡ items self.old ++ at_places (items from.now) rows.now d) };
}

// Sends what has gathered for a receiver, if there is something.
fn send_off<B: Bundle, R: Wait>(
    rt: &R,
    alloc: Global,
    mailboxes: &Mailboxes<B>,
    posts: &mut Posts<B>,
    to: u32,
    gathered: &mut B,
) -> Result<(), NoMemory>
    requires mailboxes { posts.old.mailboxes ≡ mailboxes.now }
    requires receiver { to < length mailboxes.now }
    requires few { length (B.items gathered.old) ≤ 1024 }
    ensures { OnOk result (GoesTo B.items to [] posts.old posts.new gathered.old gathered.new × (B.items gathered.new ≡ [])) }
{
    if gathered.len() == 0 {
        return Ok(());
    }
    let batch = mem::replace(gathered, B::empty(alloc));
    match posts.send(rt, mailboxes, to, batch) {
        Ok(()) => Ok(()),
        Err(_) => Err(NoMemory),
    }
}

// Sends what has gathered for a receiver where so many more items do not fit behind it.
fn make_room<B: Bundle, R: Wait>(
    rt: &R,
    alloc: Global,
    mailboxes: &Mailboxes<B>,
    posts: &mut Posts<B>,
    to: u32,
    gathered: &mut B,
    more: usize,
) -> Result<(), NoMemory>
    requires mailboxes { posts.old.mailboxes ≡ mailboxes.now }
    requires receiver { to < length mailboxes.now }
    requires few { length (B.items gathered.old) < 1024 }
    requires few_more { more ≤ 1024 }
    ensures gone { OnOk result (GoesTo B.items to [] posts.old posts.new gathered.old gathered.new) }
    ensures room { OnOk result (length (B.items gathered.new) + more ≤ 1024) }
{
    if gathered.len() + more <= FULL {
        return Ok(());
    }
    send_off(rt, alloc, mailboxes, posts, to, gathered)
}

// Puts at most a batch's items to what has gathered for a receiver, which is sent first where they do not fit behind it, and
// with them where there are enough.
fn put_some<B: Bundle, R: Wait>(
    rt: &R,
    alloc: Global,
    mailboxes: &Mailboxes<B>,
    posts: &mut Posts<B>,
    to: u32,
    gathered: &mut B,
    from: &B,
    rows: &[u32],
) -> Result<(), NoMemory>
    requires mailboxes { posts.old.mailboxes ≡ mailboxes.now }
    requires receiver { to < length mailboxes.now }
    requires few { length (B.items gathered.old) < 1024 }
    requires rows { All (λ row. row < length (B.items from.now)) rows.now }
    requires few_rows { length rows.now ≤ 1024 }
    ensures { OnOk result ((d : B.Item) → GoesTo B.items to (at_places (B.items from.now) rows.now d) posts.old posts.new gathered.old gathered.new) }
{
    make_room(rt, alloc, mailboxes, posts, to, gathered, rows.len())?;
    gathered.add_rows(from, rows)?;
    if gathered.len() < FULL {
        return Ok(());
    }
    send_off(rt, alloc, mailboxes, posts, to, gathered)
}

// Puts items to what has gathered for a receiver, a batch's at a time.
fn put_to<B: Bundle, R: Wait>(
    rt: &R,
    alloc: Global,
    mailboxes: &Mailboxes<B>,
    posts: &mut Posts<B>,
    to: u32,
    gathered: &mut B,
    from: &B,
    rows: &[u32],
) -> Result<(), NoMemory>
    requires mailboxes { posts.old.mailboxes ≡ mailboxes.now }
    requires receiver { to < length mailboxes.now }
    requires few { length (B.items gathered.old) < 1024 }
    requires rows { All (λ row. row < length (B.items from.now)) rows.now }
    ensures { OnOk result ((d : B.Item) → GoesTo B.items to (at_places (B.items from.now) rows.now d) posts.old posts.new gathered.old gathered.new) }
{
    let mut next = 0;
    while next < rows.len() {
        let end = next + FULL.min(rows.len() - next);
        put_some(
            rt,
            alloc,
            mailboxes,
            posts,
            to,
            gathered,
            from,
            &rows[next..end],
        )?;
        next = end;
    }
    Ok(())
}

/// What has gathered for so many workers before anything does: an empty batch for each.
pub fn gather_nothing<B: Bundle>(alloc: Global, workers: u32) -> Result<Vec<B>, NoMemory>
    ensures { IfOk result (λ gathered. NothingGathered B.items workers gathered.items) }
{
    let mut gathered = Vec::new(alloc);
    for _made in 0..workers {
        gathered.push(B::empty(alloc))?;
    }
    Ok(gathered)
}

/// Puts the items at some places of another batch, in the order of the places, to what has gathered for a receiver, and
/// sends what has gathered before it is more than 1,024, and once it is so many. Where there is not enough memory, some of
/// the items or a batch are lost, and the run is given up.
pub fn put_rows<B: Bundle, R: Wait>(
    rt: &R,
    alloc: Global,
    mailboxes: &Mailboxes<B>,
    posts: &mut Posts<B>,
    gathered: &mut [B],
    to: u32,
    from: &B,
    rows: &[u32],
) -> Result<(), NoMemory>
    requires mailboxes { posts.old.mailboxes ≡ mailboxes.now }
    requires wide { length gathered.old ≡ length mailboxes.now }
    requires few { AreFew B.items gathered.old }
    requires receiver { to < length mailboxes.now }
    requires rows { All (λ row. row < length (B.items from.now)) rows.now }
    ensures { OnOk result ((d : B.Item) → Gathers B.items (only_for to (at_places (B.items from.now) rows.now d)) posts.old posts.new gathered.old gathered.new) }
{
    put_to(
        rt,
        alloc,
        mailboxes,
        posts,
        to,
        &mut gathered[to as usize],
        from,
        rows,
    )
}

/// Sends to each receiver what has gathered for it, if there is something. Where there is not enough memory, a batch is
/// lost, and the run is given up.
pub fn flush<B: Bundle, R: Wait>(
    rt: &R,
    alloc: Global,
    mailboxes: &Mailboxes<B>,
    posts: &mut Posts<B>,
    gathered: &mut [B],
) -> Result<(), NoMemory>
    requires mailboxes { posts.old.mailboxes ≡ mailboxes.now }
    requires wide { length gathered.old ≡ length mailboxes.now }
    requires few { AreFew B.items gathered.old }
    ensures sent { OnOk result (Gathers B.items nothing posts.old posts.new gathered.old gathered.new) }
    ensures emptied { OnOk result ((to : ℕ) → held B.items gathered.new to ≡ []) }
{
    for to in 0..posts.workers() {
        send_off(rt, alloc, mailboxes, posts, to, &mut gathered[to as usize])?;
    }
    Ok(())
}
