//! Workers: runs of an image whose nodes are dealt out among threads, which send each other messages while they compute.
//!
//! [`slots`] deals the nodes out: each worker gets a [`Slot`] with its own nodes, their fields, and the messages that
//! wait for them. [`superstep`] runs one superstep, each worker in a thread of its own behind a gate. A worker does its
//! [`Part`]: its nodes compute in ascending order, batches go to the workers that own the nodes to which the messages
//! go, and what has come to it is taken meanwhile. [`run`] is a whole run.
//!
//! # What is promised
//!
//! A superstep leaves the workers as the events of the core leave a core that they show: all nodes compute, then one
//! delivery for each batch that came, with 1 to 1,024 messages, all workers arrive, and the barrier is released. Each of
//! these events is legal. Where the workers stand for the nodes of the run on one thread, they stand for what its
//! superstep leaves afterwards, with the same globals, fault and count of messages, whenever their batches come.
//!
//! So a run ends exactly as the run on one thread does, whoever owns which node, however many workers there are, and
//! whenever their batches come, and observers are told the same.
//!
//! # Cost
//!
//! The image and the graph are shared. A worker keeps 4 bytes for each of its nodes, and all of them together 8 bytes
//! for each node of the graph. A superstep opens one mailbox for each worker, and a worker gathers fewer than 1,024
//! messages for each other worker. What its nodes send is parted by receivers once, and goes column by column. A batch is
//! kept as it came until its messages are read in the next superstep.
#![tactic(auto)]

mod crews;
mod dealing;
mod mail;
mod parting;
mod parts;
mod runs;
mod supersteps;
mod threads;

pub use crews::{Crew, Slot, slots};
pub use dealing::{Dealing, deal, place_at};
pub use mail::Mail;
pub use parts::Part;
pub use runs::run;
pub use supersteps::{StepEnd, superstep};
pub use threads::work_all;
