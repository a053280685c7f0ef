// The passes of one mailbox: split off for the workers, and joined back. Each worker has a row of passes.

ghost use Rattle.std.specs.Prelude.{◌≡◌, ◌+◌, ◌-◌, ◌^◌, ◌<◌, ◌≤◌, ℕ, [], ◌∷◌, ◌++◌, IfOk, OnOk, length, slice_index_or};
ghost use Rattle.gm_posting.specs.Rows.{SplitsOne, Splits, IsOthers, JoinsOne, Joins, Row};

use gm_base::NoMemory;
use gm_mailbox::{Mailbox, Post};
use std::sync::Wait;

// The next pass goes to a worker.
fn split_one<T: Drop, R: Wait>(
    rt: &R,
    mailbox: &Mailbox<T>,
    zero: &mut Post<T>,
    row: &mut Vec<Post<T>>,
) -> Result<(), NoMemory>
    requires zero { (zero.old.mailbox ≡ mailbox.now) × (zero.old.number ≡ 0) }
    requires room { zero.old.splits < 2 ^ 32 - 1 }
    ensures { OnOk result (SplitsOne mailbox.now zero.old zero.new row.old.items row.new.items) }
{
    let post = mailbox.split(rt, zero)?;
    row.push(post)?;
    Ok(())
}

// A pass of a mailbox goes to each of some workers, in ascending order.
pub(crate) fn split_range<T: Drop, R: Wait>(
    rt: &R,
    mailbox: &Mailbox<T>,
    zero: &mut Post<T>,
    from: usize,
    to: usize,
    rows: &mut [Vec<Post<T>>],
) -> Result<(), NoMemory>
    requires zero { (zero.old.mailbox ≡ mailbox.now) × (zero.old.number ≡ 0) }
    requires room { zero.old.splits + length rows.old < 2 ^ 31 }
    requires range { (from ≤ to) × (to ≤ length rows.old) }
    ensures { OnOk result (Splits mailbox.now from to zero.old zero.new rows.old rows.new) }
{
    for worker in from..to {
        split_one(rt, mailbox, zero, &mut rows[worker])?;
    }
    Ok(())
}

// The last pass of a row is joined back.
fn join_one<T: Drop, R: Wait>(
    rt: &R,
    mailbox: &Mailbox<T>,
    zero: &mut Post<T>,
    row: &mut Vec<Post<T>>,
)
    requires zero { (zero.old.mailbox ≡ mailbox.now) × (zero.old.number ≡ 0) }
    requires last { IsOthers mailbox.now row.old.items }
    ensures { JoinsOne zero.old zero.new row.old.items row.new.items }
{
    match row.pop() {
        Some(post) => mailbox.join_back(rt, zero, post),
        None => unreachable!(),
    }
}

// The last passes of the rows of some workers are joined back, in ascending order.
pub(crate) fn join_range<T: Drop, R: Wait>(
    rt: &R,
    mailbox: &Mailbox<T>,
    zero: &mut Post<T>,
    from: usize,
    to: usize,
    rows: &mut [Vec<Post<T>>],
)
    requires zero { (zero.old.mailbox ≡ mailbox.now) × (zero.old.number ≡ 0) }
    requires range { (from ≤ to) × (to ≤ length rows.old) }
    requires lasts { (w : ℕ) (d : Row T) → from ≤ w → w < to → IsOthers mailbox.now (slice_index_or rows.old w d).items }
    ensures { Joins from to zero.old zero.new rows.old rows.new }
{
    for worker in from..to {
        join_one(rt, mailbox, zero, &mut rows[worker]);
    }
}
