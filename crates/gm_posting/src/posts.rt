// A worker's passes, and the mailboxes that all workers share.

ghost use Rattle.std.specs.Prelude.{◌≡◌, ◌<◌, ◌≤◌, [], ◌∷◌, ◌++◌, OnOk, IfErr, IfSome, IfNone, length, slice_index_or};
ghost use Rattle.gm_base.specs.Merge.{of, IsMerge};
ghost use Rattle.gm_mailbox.specs.Sender.{sent_by, IsAlone};
ghost use Rattle.gm_posting.specs.Numbers.{pass_worker};
ghost use Rattle.gm_posting.specs.Rows.{TakesOne};
ghost use Rattle.gm_posting.specs.Traffic.{sends, AreInPlace, traffic_by};

use gm_mailbox::{Mailbox, Post};
use std::marker::Model;
use std::sync::Wait;

/// The mailboxes of all workers, by the worker that owns each. Threads share them by reference. A batch that is left in
/// one is dropped with it.
#[derive(Drop)]
pub struct Mailboxes<T> {
    pub(crate) boxes: Vec<Mailbox<T>>,
}

impl<T> Model for Mailboxes<T> {
    ghost use Rattle.std.specs.Prelude.{List};
    ghost use Rattle.gm_mailbox.specs.Sender.{MailboxId};

    ghost Value = { List MailboxId };

    ghost view = { λ m. m.boxes.items };
}

/// A worker's passes: pass 0 of its own mailbox, and one pass of each other. They may go to the worker's thread.
///
/// Clauses see the mailboxes, the worker's number, what it has sent to each worker, and what it has taken, each batch
/// with the worker that sent it. All of it counts from [`open`](crate::open), and a running program keeps no such lists.
#[derive(Drop)]
pub struct Posts<T> {
    worker: u32,
    posts: Vec<Post<T>>,
}

impl<T> Model for Posts<T> {
    ghost use Rattle.gm_posting.specs.Traffic.{Traffic};

    ghost Value = { Traffic T };

    ghost use Rattle.gm_posting.specs.Posts.{traffic_of, IsInPlace};

    ghost view = { traffic_of };

    ghost invariant = { IsInPlace };
}

// The worker whose pass of a worker's mailbox has a number.
pub(crate) fn worker_of(own: u32, number: u32) -> u32
    ensures { result ≡ pass_worker own number }
{
    if number == 0 {
        own
    } else if number <= own {
        number - 1
    } else {
        number
    }
}

// Takes the batch at the front of a worker's mailbox, with the worker that sent it.
pub(crate) fn take_one<T: Drop, R: Wait>(
    rt: &R,
    mailbox: &Mailbox<T>,
    own: u32,
    zero: &mut Post<T>,
) -> Option<(u32, T)>
    requires { (zero.old.mailbox ≡ mailbox.now) × (zero.old.number ≡ 0) }
    ensures some { IfSome result (λ x. TakesOne own zero.old zero.new x) }
    ensures none { IfNone result (zero.new ≡ zero.old) }
    ensures own { IfNone result (of zero.old.taken 0 ≡ zero.old.sent) }
    ensures all { IfNone result (IsAlone zero.old → IsMerge zero.old.taken (sent_by zero.old)) }
{
    match mailbox.early(rt, zero) {
        Some((number, batch)) => Some((worker_of(own, number), batch)),
        None => None,
    }
}

impl<T: Drop> Posts<T> {
    // The passes of a worker, one of each mailbox, by the worker that owns it.
    pub(crate) fn of_row(worker: u32, posts: Vec<Post<T>>) -> Posts<T>
        requires { AreInPlace worker posts.items }
        ensures { result ≡ traffic_by worker posts.items }
    {
        Posts { worker, posts }
    }

    // The passes, one of each mailbox.
    pub(crate) fn into_row(self) -> Vec<Post<T>>
        ensures place { AreInPlace self.worker result.items }
        ensures shown { traffic_by self.worker result.items ≡ self }
    {
        self.posts
    }

    /// The worker's number, counted from 0.
    pub fn worker(&self) -> u32
        ensures { result ≡ self.now.worker }
    {
        self.worker
    }

    /// How many workers there are, and so how many mailboxes.
    pub fn workers(&self) -> u32
        ensures count { result ≡ length self.now.mailboxes }
        ensures place { self.now.worker < result }
        ensures few { result ≤ 64 }
    {
        self.posts.len() as u32
    }

    /// Sends a batch to a worker, who may be the sender itself. Where there is not enough memory, or after nearly 2^62
    /// sends to that worker, the batch comes back, and nothing was sent.
    ///
    /// The call may wait for another send to the same worker. It then yields the processor.
    pub fn send<R: Wait>(
        &mut self,
        rt: &R,
        mailboxes: &Mailboxes<T>,
        to: u32,
        batch: T,
    ) -> Result<(), T>
        requires mailboxes { self.old.mailboxes ≡ mailboxes.now }
        requires receiver { to < length mailboxes.now }
        ensures wide { length self.old.sent ≡ length mailboxes.now }
        ensures ok { OnOk result (self.new ≡ sends to batch self.old) }
        ensures err { IfErr result (λ b. (b ≡ batch) × (self.new ≡ self.old)) }
    {
        let receiver = to as usize;
        mailboxes.boxes[receiver].send(rt, &mut self.posts[receiver], batch)
    }

    /// Takes the batch that waits at the front of the worker's own mailbox, with the worker that sent it. `None` comes
    /// only where the mailbox was empty at one moment of the call. Then all that the worker had sent to itself is taken.
    ///
    /// It takes no memory. The call may wait for another send to this worker. It then yields the processor.
    pub fn take<R: Wait>(&mut self, rt: &R, mailboxes: &Mailboxes<T>) -> Option<(u32, T)>
        requires { self.old.mailboxes ≡ mailboxes.now }
        ensures some { IfSome result (λ x. self.new ≡ record self.old { taken = self.old.taken ++ x ∷ [] }) }
        ensures sender { IfSome result (λ x. x.0 < length mailboxes.now) }
        ensures none { IfNone result (self.new ≡ self.old) }
        ensures own { IfNone result (of self.old.taken self.old.worker ≡ slice_index_or self.old.sent self.old.worker []) }
    {
        let own = self.worker as usize;
        take_one(rt, &mailboxes.boxes[own], self.worker, &mut self.posts[own])
    }
}
