// Mailboxes are made, and each worker gets a pass of each.

ghost use Rattle.std.specs.Prelude.{◌≡◌, ◌<◌, ◌≤◌, ℕ, [], IfOk, length, vec_len, slice_index_or};
ghost use Rattle.gm_posting.specs.Rows.{Opens, OpensAll, AreEmpty, ArePlaced, traffics, Row};
ghost use Rattle.gm_posting.specs.Traffic.{AreOpen};

use crate::passes::split_range;
use crate::posts::{Mailboxes, Posts};
use gm_base::NoMemory;
use gm_mailbox::{Mailbox, Post, make};
use std::alloc::Global;
use std::sync::Wait;

// So many empty lists.
pub(crate) fn empty_lists<X: Drop>(alloc: Global, count: usize) -> Result<Vec<Vec<X>>, NoMemory>
    ensures { IfOk result (λ lists. AreEmpty count lists.items) }
{
    let mut lists = Vec::new(alloc);
    for _made in 0..count {
        lists.push(Vec::new(alloc))?;
    }
    Ok(lists)
}

// A new mailbox of a worker, of which each worker gets a pass.
fn open_one<T: Drop, R: Wait>(
    rt: &R,
    alloc: Global,
    own: usize,
    rows: &mut [Vec<Post<T>>],
) -> Result<Mailbox<T>, NoMemory>
    requires own { own < length rows.old }
    requires few { length rows.old ≤ 64 }
    ensures { IfOk result (λ mailbox. Opens own mailbox rows.old rows.new) }
{
    let (mailbox, mut zero) = make(alloc)?;
    let workers = rows.len();
    split_range(rt, &mailbox, &mut zero, 0, own, rows)?;
    split_range(rt, &mailbox, &mut zero, own + 1, workers, rows)?;
    rows[own].push(zero)?;
    Ok(mailbox)
}

// A mailbox for each worker, of which each worker gets a pass.
fn open_each<T: Drop, R: Wait>(
    rt: &R,
    alloc: Global,
    rows: &mut [Vec<Post<T>>],
) -> Result<Vec<Mailbox<T>>, NoMemory>
    requires few { length rows.old ≤ 64 }
    requires empty { AreEmpty (length rows.old) rows.old }
    ensures count { IfOk result (λ mailboxes. length mailboxes.items ≡ length rows.old) }
    ensures each { IfOk result (λ mailboxes. OpensAll (length rows.old) mailboxes.items rows.new) }
{
    let workers = rows.len();
    let mut mailboxes = Vec::new(alloc);
    for own in 0..workers {
        let mailbox = open_one(rt, alloc, own, rows)?;
        mailboxes.push(mailbox)?;
    }
    Ok(mailboxes)
}

// The workers' passes, from their rows.
fn posts_of_rows<T: Drop>(alloc: Global, rows: Vec<Vec<Post<T>>>) -> Result<Vec<Posts<T>>, NoMemory>
    requires few { vec_len rows ≤ 64 }
    requires placed { ArePlaced rows.items }
    ensures { IfOk result (λ posts. posts.items ≡ traffics 0 rows.items) }
{
    let mut posts = Vec::new(alloc);
    let mut worker = 0;
    for row in rows {
        posts.push(Posts::of_row(worker, row))?;
        worker += 1;
    }
    Ok(posts)
}

/// Opens a mailbox for each of so many workers, and gives every worker its passes. Where there is not enough memory,
/// nothing is left of them.
pub fn open<T: Drop, R: Wait>(
    rt: &R,
    alloc: Global,
    workers: u32,
) -> Result<(Mailboxes<T>, Vec<Posts<T>>), NoMemory>
    requires few { workers ≤ 64 }
    ensures { IfOk result (λ r. AreOpen workers r.0 r.1.items) }
{
    let mut rows = empty_lists(alloc, workers as usize)?;
    let boxes = open_each(rt, alloc, rows.as_mut_slice())?;
    let posts = posts_of_rows(alloc, rows)?;
    Ok((Mailboxes { boxes }, posts))
}
