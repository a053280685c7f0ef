//! Posting: workers that send batches to one another while they compute, each through passes of its own.
//!
//! [`open`] gives so many workers a mailbox each. Every worker gets its [`Posts`]: pass 0 of its own mailbox and one pass
//! of each other. The [`Mailboxes`] are shared by reference, so the workers may be threads. While they run, a worker
//! sends batches by [`Posts::send`] and takes what has come to it by [`Posts::take`]. These may wait for a send that is
//! under way, and then yield the processor; there is no lock, and no waiting for a batch. Once all are done, [`close`]
//! joins the passes back and collects what was not yet taken.
//!
//! # What is promised
//!
//! For each receiver, the batches that it has taken, followed by those that `close` answers for it, are a merge of the
//! lists that the workers have sent to it: of each worker exactly what it sent, in its order, and no other worker
//! occurs. So nothing is lost, nothing comes twice, and nothing comes to another worker. Between two senders there is
//! no order. Nothing is said of when a batch comes, nor which batches are taken early.
//!
//! A worker may also gather items for each receiver by [`put_rows`], which sends batches of at most 1,024, and send the
//! rest by [`flush`]. Then what comes to a receiver from a sender are the items that were put for it there, in
//! order: this is the law [`what_is_put_arrives`].
//!
//! Where a worker runs out of memory the run is given up: mailboxes and passes may be dropped at any time, with the
//! batches that are left in them.
//!
//! # Cost
//!
//! So many workers, w of them, have w mailboxes and w times w passes. A pass is a few numbers, and splitting it off and
//! joining it back takes no memory. A batch costs one entry of a queue, and one of a list where it is collected late.
#![tactic(auto)]

mod closing;
mod gathering;
mod laws;
mod opening;
mod passes;
mod posts;

pub use closing::close;
pub use gathering::{Bundle, flush, gather_nothing, put_rows};
pub use laws::what_is_put_arrives;
pub use opening::open;
pub use posts::{Mailboxes, Posts};
