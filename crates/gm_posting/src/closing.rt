// The passes are joined back, and what was not yet taken is collected.

ghost use Rattle.std.specs.Prelude.{◌≡◌, ◌<◌, ◌≤◌, ℕ, IfOk, OnOk, length, slice_index_or};
ghost use Rattle.gm_mailbox.specs.Sender.{IsAlone};
ghost use Rattle.gm_posting.specs.Rows.{AreEmpty, ArePlaced, AreFull, HasLast, Empties, Closes, traffics, Row};
ghost use Rattle.gm_posting.specs.Traffic.{Traffic, AreWorkers, ArriveAll};

use crate::opening::empty_lists;
use crate::passes::join_range;
use crate::posts::{Mailboxes, Posts, take_one};
use gm_base::NoMemory;
use gm_mailbox::{Mailbox, Post};
use std::alloc::Global;
use std::sync::Wait;

// Takes all that is left in a mailbox once its passes are joined back.
fn drain<T: Drop, R: Wait>(
    rt: &R,
    mailbox: &Mailbox<T>,
    own: u32,
    zero: &mut Post<T>,
    late: &mut Vec<(u32, T)>,
) -> Result<(), NoMemory>
    requires zero { (zero.old.mailbox ≡ mailbox.now) × (zero.old.number ≡ 0) }
    requires alone { IsAlone zero.old }
    ensures { OnOk result (Empties own zero.old zero.new late.old.items late.new.items) }
{
    for _ in rt.forever() {
        match take_one(rt, mailbox, own, zero) {
            Some(batch) => late.push(batch)?,
            None => return Ok(()),
        }
    }
    unreachable!()
}

// The last pass of each row is joined back, and the mailbox to which they all belong is emptied.
fn close_one<T: Drop, R: Wait>(
    rt: &R,
    mailbox: &Mailbox<T>,
    own: usize,
    rows: &mut [Vec<Post<T>>],
    late: &mut Vec<(u32, T)>,
) -> Result<(), NoMemory>
    requires own { own < length rows.old }
    requires few { length rows.old ≤ 64 }
    requires lasts { (w : ℕ) (d : Row T) → w < length rows.old → HasLast (length rows.old) own w mailbox.now (slice_index_or rows.old w d).items }
    ensures { OnOk result (Closes own rows.old rows.new late.old.items late.new.items) }
{
    let workers = rows.len();
    match rows[own].pop() {
        Some(mut zero) => {
            join_range(rt, mailbox, &mut zero, 0, own, rows);
            join_range(rt, mailbox, &mut zero, own + 1, workers, rows);
            drain(rt, mailbox, own as u32, &mut zero, late)
        }
        None => unreachable!(),
    }
}

// The passes of each mailbox are joined back, and it is emptied, the last mailbox first.
fn close_each<T: Drop, R: Wait>(
    rt: &R,
    mailboxes: &[Mailbox<T>],
    rows: &mut [Vec<Post<T>>],
    late: &mut [Vec<(u32, T)>],
) -> Result<(), NoMemory>
    requires few { length rows.old ≤ 64 }
    requires count { length mailboxes.now ≡ length rows.old }
    requires placed { ArePlaced rows.old }
    requires full { AreFull mailboxes.now rows.old }
    requires empty { AreEmpty (length rows.old) late.old }
    ensures { OnOk result (ArriveAll (traffics 0 rows.old) late.new) }
{
    let workers = rows.len();
    for done in 0..workers {
        let own = workers - 1 - done;
        close_one(rt, &mailboxes[own], own, rows, &mut late[own])?;
    }
    Ok(())
}

// The rows of the workers' passes.
fn rows_of_posts<T: Drop>(
    alloc: Global,
    posts: Vec<Posts<T>>,
) -> Result<Vec<Vec<Post<T>>>, NoMemory>
    requires { (w : ℕ) (d : Traffic T) → w < length posts.items → (slice_index_or posts.items w d).worker ≡ w }
    ensures placed { IfOk result (λ rows. ArePlaced rows.items) }
    ensures shown { IfOk result (λ rows. traffics 0 rows.items ≡ posts.items) }
{
    let mut rows = Vec::new(alloc);
    for worker in posts {
        rows.push(worker.into_row())?;
    }
    Ok(rows)
}

/// Closes the mailboxes once all workers are done: joins the passes back, and answers for each worker, by its number,
/// the batches that were sent to it and that it has not yet taken, each with the worker that sent it.
///
/// Where there is not enough memory, no batch is answered, and what was left in the mailboxes is dropped with them.
pub fn close<T: Drop, R: Wait>(
    rt: &R,
    alloc: Global,
    mailboxes: Mailboxes<T>,
    posts: Vec<Posts<T>>,
) -> Result<Vec<Vec<(u32, T)>>, NoMemory>
    requires { AreWorkers mailboxes posts.items }
    ensures { IfOk result (λ late. ArriveAll posts.items late.items) }
{
    let mut rows = rows_of_posts(alloc, posts)?;
    let mut late = empty_lists(alloc, rows.len())?;
    close_each(
        rt,
        mailboxes.boxes.as_slice(),
        rows.as_mut_slice(),
        late.as_mut_slice(),
    )?;
    Ok(late)
}
