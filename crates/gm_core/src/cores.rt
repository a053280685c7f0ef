//! The state of a run by workers.

use crate::messages::Outbox;
use gm_graph::{Graph, InRows};
use gm_image::Sound;
use gm_machine::{Batch, Contributions, Fault, Master, MasterStop};
use gm_value::Value;

/// What a run by workers does not change: the image, the graph, the rows for which the image asks, the owner of each node, and
/// how many workers there are.
#[derive(Clone, Copy)]
pub(crate) struct Setting<'a> {
    pub(crate) image: &'a Sound,
    pub(crate) graph: &'a Graph,
    pub(crate) in_rows: &'a Option<InRows<'a>>,
    pub(crate) owners: &'a [u32],
    pub(crate) workers: u32,
}

/// What has happened since the last release: the nodes that have computed, in order and as a mark for each node, what
/// they put, their least fault, how many messages they sent, what each worker has not delivered, what each got, and who
/// has arrived.
#[derive(Drop)]
pub(crate) struct Round {
    pub(crate) computed: Vec<u32>,
    pub(crate) marks: Vec<bool>,
    pub(crate) puts: Contributions,
    pub(crate) fault: Option<Fault>,
    pub(crate) sent: u64,
    pub(crate) unsent: Vec<Outbox>,
    pub(crate) incoming: Vec<Batch>,
    pub(crate) arrived: Vec<bool>,
}

/// A run by workers: the master list's state and how it stopped, the fields by node, for each worker the messages that
/// wait for its nodes, the counts of supersteps and messages, and what has happened since the last release.
#[derive(Drop)]
pub(crate) struct CoreRun {
    pub(crate) master: Master,
    pub(crate) next: MasterStop,
    pub(crate) fields: Vec<Vec<Value>>,
    pub(crate) waiting: Vec<Batch>,
    pub(crate) supersteps: u64,
    pub(crate) messages: u64,
    pub(crate) round: Round,
}
