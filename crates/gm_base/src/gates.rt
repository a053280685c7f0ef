//! What workers pass before they compute.

/// A gate that each worker passes before it computes a superstep, while it holds nothing that others wait for.
///
/// With it a caller counts, orders or holds back the workers of a run, as a test does that wants to see two of them at
/// work at once. What the run answers does not depend on it.
pub trait Gate: Sync {
    /// Called by worker `worker`, counted from 0, before it computes superstep `step`, counted from 1. It may wait, so
    /// a type whose `enter` waits holds the handle that waiting needs.
    fn enter(&self, worker: u32, step: u64);
}

/// A gate that lets everyone in at once.
#[derive(Clone, Copy, Drop)]
pub struct OpenGate;

impl Gate for OpenGate {
    fn enter(&self, _worker: u32, _step: u64) {}
}
