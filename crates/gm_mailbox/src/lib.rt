//! A mailbox: a queue without a lock, through which threads hand batches to its owner. What arrives of each sender
//! is what it sent, in its order, whole and once. Between two senders there is no order. It is the only thing that
//! workers will share between two barriers.
//!
//! A thread sends by a pass of its own, a [`Post`]. [`make`] gives a mailbox and its pass 0, which the owner keeps.
//! From it [`Mailbox::split`] makes the passes of the other senders, with the numbers 1, 2 and so on. The mailbox
//! is shared by reference while the threads send. In the end [`Mailbox::join_back`] takes each pass back into pass
//! 0, and [`Mailbox::collect`] answers what was sent. [`Mailbox::early`] takes a batch before that. When the
//! program runs, a pass is a number and nothing more: the lists of what it has sent and taken exist in the proofs
//! alone.
//!
//! # The rule
//!
//! It is a statement about the queue and all passes, and it holds between any two steps of any threads:
//!
//! - What was taken, followed by what the queue holds, is all that was ever sent. The part of it with the number p
//!   is what pass p has sent, in order. A number that was not given out does not occur.
//! - Each pass that lives has the number of its place in the order in which they were made, so no two have one
//!   number.
//! - Pass 0 knows what was taken and how many passes were split off. Each number from 1 up to that count is the
//!   number of one pass, which is still out or has come back. Of each that came back pass 0 has what it sent.
//!
//! Five kinds of step change something: making the mailbox, splitting off a pass, a push at the back, a pop at the
//! front, and taking a pass back. Each keeps the rule from any state that meets it. Nothing is assumed about which
//! thread steps next, so what follows holds under every schedule.
//!
//! When the owner finds the queue empty, the rule tells it that all that it has sent itself is taken; and where it
//! has as many passes back as it split off, that what was taken is a merge: a list in which the batches of each
//! number are what that pass sent, in order, and no other number occurs. This is what `collect` promises. It need
//! not check which passes came back: counting them is enough, since no number comes back twice.
//!
//! # What the rule does not say
//!
//! Who sends first; any order between two senders; that a call returns; how long a batch stays in the queue; that
//! two threads ever run at once, or that the sends happen while the workers compute; that there is memory. A send
//! may hand its batch back. `collect` may run out of memory; the batches that it had taken are then lost, and the
//! run is given up. After a pass was dropped and not joined back, `collect` may not be called any more.
//!
//! A call does not wait on an empty queue: it answers. A send that another one overtakes tries again after a short
//! pause. Where a call has to wait for another thread's step it backs off, and then gives up its turn in every
//! further round, so no core spins while others want it.
#![tactic(auto)]

ghost use Rattle.std.specs.Prelude.{◌≡◌, ◌+◌, ◌-◌, ◌^◌, ◌<◌, ◌≤◌, [], ◌∷◌, ◌++◌, length, All, IfSome, IfNone, IfOk, IfErr, OnOk, OnErr, IsOkAnd};
ghost use Rattle.gm_base.specs.Merge.{of, IsMerge};
ghost use Rattle.gm_mailbox.specs.Sender.{fresh, sent_by, IsAlone};

mod rule;

use crate::rule::{Joins, Known, Merging, Sends, Splits, Takes};
use crossbeam_queue::{RuledSegQueue, SegPass};
use gm_base::NoMemory;
use std::alloc::Global;
use std::marker::Model;
use std::sync::Wait;

/// A queue of batches, each with the number of the pass that sent it. Threads share it by reference. A batch
/// that is left in it is dropped with it.
pub struct Mailbox<T> {
    queue: RuledSegQueue<(u32, T), Known<T>, Merging>,
}

impl<T> Model for Mailbox<T> {
    ghost use Rattle.gm_mailbox.specs.Sender.{MailboxId};

    ghost Value = { MailboxId };

    ghost view = { λ m. m.queue };
}

impl<T: Drop> Drop for Mailbox<T> {
    fn drop(self) {
        let Self { queue } = self;
        queue.destroy();
    }
}

/// The right to send into one mailbox, under a number. Pass 0 has besides the rights of the owner: to split
/// off other passes, to take them back, and to take batches out.
///
/// Clauses see a pass as its mailbox, its number and the list of what it has sent. With pass 0 they see how
/// many passes were split off, the number and the list of each that was joined back, and what was taken. All
/// of it counts from [`make`], and a running program keeps no such lists.
#[derive(Drop)]
pub struct Post<T> {
    seat: SegPass<(u32, T), Known<T>>,
    number: u32,
    splits: u32,
}

impl<T> Model for Post<T> {
    ghost use Rattle.std.specs.Prelude.{◌≡◌, true, None};
    ghost use Rattle.gm_mailbox.specs.Sender.{Sender};

    ghost Value = { Sender T };

    ghost use Rattle.gm_mailbox.specs.Post.{sender_of, IsIdle};

    ghost view = { sender_of };

    ghost invariant = { IsIdle };
}

/// A new mailbox, which is empty, and its pass 0.
pub fn make<T: Drop>(alloc: Global) -> Result<(Mailbox<T>, Post<T>), NoMemory>
    ensures { IfOk result (λ r. r.1 ≡ fresh r.0 0) }
{
    let (queue, seat) = RuledSegQueue::with_rule(alloc)?;
    let post = Post {
        seat,
        number: 0,
        splits: 0,
    };
    Ok((Mailbox { queue }, post))
}

impl<T: Drop> Mailbox<T> {
    /// A new pass of this mailbox, with the next number: the first has the number 1. It may go to another
    /// thread. The call takes no memory, and never answers `Err`.
    pub fn split<R: Wait>(&self, rt: &R, post: &mut Post<T>) -> Result<Post<T>, NoMemory>
        requires post { (post.old.mailbox ≡ self.now) × (post.old.number ≡ 0) }
        requires room { post.old.splits < 2 ^ 32 - 1 }
        ensures old { post.new ≡ record post.old { splits = post.old.splits + 1 } }
        ensures new { IsOkAnd result (λ p. p ≡ fresh self.now (post.old.splits + 1)) }
    {
        let seat = self.queue.another::<Splits>(&mut post.seat);
        post.splits += 1;
        Ok(Post {
            seat,
            number: post.splits,
            splits: 0,
        })
    }

    // Puts a batch at the back, beside the number of the pass.
    fn push<R: Wait>(&self, rt: &R, post: &mut Post<T>, numbered: (u32, T)) -> Result<(), (u32, T)>
        requires post { post.old.mailbox ≡ self.now }
        requires number { numbered.0 ≡ post.old.number }
        ensures ok { OnOk result (post.new ≡ record post.old { sent = post.old.sent ++ numbered.1 ∷ [] }) }
        ensures err { IfErr result (λ x. (x ≡ numbered) × (post.new ≡ post.old)) }
    {
        self.queue.push_as::<Sends, R>(rt, &mut post.seat, numbered)
    }

    /// Sends a batch: puts it at the back of the queue, under the number of the pass. Where there is not
    /// enough memory, or after nearly 2^62 sends, the batch comes back, and nothing was sent.
    ///
    /// The call may wait for another send. It then yields the processor.
    pub fn send<R: Wait>(&self, rt: &R, post: &mut Post<T>, batch: T) -> Result<(), T>
        requires { post.old.mailbox ≡ self.now }
        ensures ok { OnOk result (post.new ≡ record post.old { sent = post.old.sent ++ batch ∷ [] }) }
        ensures err { IfErr result (λ b. (b ≡ batch) × (post.new ≡ post.old)) }
    {
        let number = post.number;
        match self.push(rt, post, (number, batch)) {
            Ok(()) => Ok(()),
            Err((_, batch)) => Err(batch),
        }
    }

    /// Ends the pass `other`. Pass 0 keeps its number, and the list of what it has sent.
    pub fn join_back<R: Wait>(&self, rt: &R, post: &mut Post<T>, other: Post<T>)
        requires post { (post.old.mailbox ≡ self.now) × (post.old.number ≡ 0) }
        requires other { (other.mailbox ≡ self.now) × (0 < other.number) }
        ensures { post.new ≡ record post.old { ended = (other.number, other.sent) ∷ post.old.ended } }
    {
        self.queue.absorb::<Joins>(&mut post.seat, other.seat);
    }

    /// Takes the batch at the front, with the number of the pass that sent it. `None` comes only where the
    /// queue was empty at one moment of the call. Then all that pass 0 itself had sent is taken, and where
    /// the other passes are joined back, all that they had sent.
    ///
    /// It takes no memory. The call may wait for another send. It then yields the processor.
    pub fn early<R: Wait>(&self, rt: &R, post: &mut Post<T>) -> Option<(u32, T)>
        requires { (post.old.mailbox ≡ self.now) × (post.old.number ≡ 0) }
        ensures some { IfSome result (λ x. post.new ≡ record post.old { taken = post.old.taken ++ x ∷ [] }) }
        ensures number { IfSome result (λ x. x.0 ≤ post.old.splits) }
        ensures none { IfNone result (post.new ≡ post.old) }
        ensures own { IfNone result (of post.old.taken 0 ≡ post.old.sent) }
        ensures all { IfNone result (IsAlone post.old → IsMerge post.old.taken (sent_by post.old)) }
    {
        self.queue.pop_as::<Takes, R>(rt, &mut post.seat)
    }

    /// Takes all that was sent and not yet taken, once each pass that was split off is joined back. Of each
    /// number that is what it sent, in its order, and the mailbox is then empty. Where there is not enough
    /// memory, some batches are taken and lost.
    pub fn collect<R: Wait>(
        &mut self,
        rt: &R,
        alloc: Global,
        post: &mut Post<T>,
    ) -> Result<Vec<(u32, T)>, NoMemory>
        requires post { post.old.mailbox ≡ self.old }
        requires alone { IsAlone post.old }
        ensures same { self.new ≡ self.old }
        ensures grown { IfOk result (λ v. post.new ≡ record post.old { taken = post.old.taken ++ v.items }) }
        ensures numbers { IfOk result (λ v. All (λ x. x.0 ≤ post.old.splits) v.items) }
        ensures merged { OnOk result (IsMerge post.new.taken (sent_by post.new)) }
        // what was taken was all: a second call answers nothing
        ensures emptied { IsMerge post.old.taken (sent_by post.old) → IfOk result (λ v. v.items ≡ []) }
        // the batches that were lost are the end of the taken list
        ensures lost { OnErr result (record post.new { taken = post.old.taken } ≡ post.old) }
    {
        let mut batches = Vec::new(alloc);
        for _ in rt.forever() {
            match self.early(rt, post) {
                Some(batch) => batches.push(batch)?,
                None => return Ok(batches),
            }
        }
        unreachable!()
    }
}
