//! Which events are legal.

ghost use Rattle.std.specs.Prelude.{◌≡◌, ◌<◌, ◌≤◌, ℕ, nat_eq, nat_lt, nat_le, true, false, not, ◌&&◌, if◌then◌else◌, [], length, slice_index_or};
ghost use Rattle.std.specs.List.{list_all};
ghost use Rattle.gm_model.specs.Graphs.{node_count};
ghost use Rattle.gm_image.specs.Views.{program};
ghost use Rattle.gm_core.specs.Cores.{owner, below, is_in, is_legal};
ghost use Rattle.gm_core.specs.CoreViews.{row_at, core_of, IsRound, IsWide};

use crate::cores::{CoreRun, Round, Setting};
use crate::events::Event;
use crate::messages::Outbox;
use crate::owners::owner_in;
use gm_machine::MasterStop;

// Whether a node has a mark or is not a worker's.
fn is_done(owners: &[u32], marks: &[bool], worker: u32, node: u32) -> bool
    requires { node < length marks.now }
    ensures { result ≡ (if nat_eq (owner owners.now node) worker then slice_index_or marks.now node false else true) }
{
    if owner_in(owners, node) == worker {
        marks[node as usize]
    } else {
        true
    }
}

// Whether each of so many nodes has a mark or is not a worker's.
fn has_computed(owners: &[u32], marks: &[bool], worker: u32, nodes: u32) -> bool
    requires { nodes ≤ length marks.now }
    ensures { result ≡ list_all (λ n. if nat_eq (owner owners.now n) worker then slice_index_or marks.now n false else true) (below nodes) }
{
    for node in 0..nodes {
        let done = is_done(owners, marks, worker, node);
        if !done {
            return false;
        }
    }
    true
}

// Whether nothing waits for its delivery.
fn has_delivered(outbox: &Outbox) -> bool
    ensures { result ≡ list_all (λ to. nat_eq (length (row_at outbox.now to)) 0) (below (length outbox.now)) }
{
    for to in 0..outbox.workers() {
        let more = outbox.waiting_for(to);
        if more != 0 {
            return false;
        }
    }
    true
}

// Whether each worker has arrived.
fn have_arrived(arrived: &[bool]) -> bool
    ensures { result ≡ list_all (λ w. slice_index_or arrived.now w false) (below (length arrived.now)) }
{
    for worker in 0..arrived.len() {
        let has_arrived = arrived[worker];
        if !has_arrived {
            return false;
        }
    }
    true
}

// Whether a worker may compute a node.
fn may_compute(setting: &Setting, round: &Round, worker: u32, node: u32) -> bool
    requires { IsRound (node_count setting.now.graph.now) setting.now.workers round.now }
    ensures { result ≡ (nat_lt worker setting.now.workers && nat_lt node (node_count setting.now.graph.now)
        && nat_eq (owner setting.now.owners.now node) worker && not (is_in node round.now.computed.items)) }
{
    worker < setting.workers
        && node < setting.graph.node_count()
        && owner_in(setting.owners, node) == worker
        && !round.marks[node as usize]
}

// How many messages a worker has for another and has not delivered.
fn undelivered(unsent: &[Outbox], from: u32, to: u32) -> usize
    requires from { from < length unsent.now }
    requires to { to < length (row_at unsent.now from) }
    ensures { result ≡ length (row_at (row_at unsent.now from) to) }
{
    let outbox = &unsent[from as usize];
    outbox.waiting_for(to as usize)
}

// Whether so many messages of a worker may go to another.
fn may_deliver(setting: &Setting, round: &Round, from: u32, to: u32, count: u64) -> bool
    requires { IsRound (node_count setting.now.graph.now) setting.now.workers round.now }
    ensures { result ≡ (nat_lt from setting.now.workers && nat_lt to setting.now.workers && nat_le 1 count
        && nat_le count (length (row_at (row_at round.now.unsent.items from) to))) }
{
    from < setting.workers
        && to < setting.workers
        && 1 <= count
        && count <= undelivered(&round.unsent, from, to) as u64
}

// Whether both hold.
fn both(a: bool, b: bool) -> bool
    ensures { result ≡ (a && b) }
{
    a && b
}

// Whether a worker has not arrived.
fn is_away(round: &Round, worker: u32) -> bool
    requires { worker < length round.now.arrived.items }
    ensures { result ≡ not (slice_index_or round.now.arrived.items worker false) }
{
    !round.arrived[worker as usize]
}

// Whether a worker may arrive.
fn may_arrive(setting: &Setting, round: &Round, worker: u32) -> bool
    requires { IsRound (node_count setting.now.graph.now) setting.now.workers round.now }
    ensures { result ≡ (nat_lt worker setting.now.workers && not (slice_index_or round.now.arrived.items worker false)
        && list_all (λ n. if nat_eq (owner setting.now.owners.now n) worker then is_in n round.now.computed.items else true) (below (node_count setting.now.graph.now))
        && list_all (λ to. nat_eq (length (row_at (row_at round.now.unsent.items worker) to)) 0) (below setting.now.workers)) }
{
    if worker >= setting.workers {
        return false;
    }
    let away = is_away(round, worker);
    let nodes = setting.graph.node_count();
    let marks = round.marks.as_slice();
    let computed = has_computed(setting.owners, marks, worker, nodes);
    let outbox = &round.unsent[worker as usize];
    let delivered = has_delivered(outbox);
    let done = both(away, computed);
    both(done, delivered)
}

/// Whether an event is legal.
pub(crate) fn is_legal(setting: &Setting, core: &CoreRun, event: Event) -> bool
    requires { IsWide (node_count setting.now.graph.now) setting.now.workers core.now }
    ensures { result ≡ is_legal (program setting.now.image.now) setting.now.graph.now setting.now.owners.now setting.now.workers (core_of core.now) event }
{
    match core.next {
        MasterStop::Step(_) => match event {
            Event::Compute { worker, node } => may_compute(setting, &core.round, worker, node),
            Event::Deliver { from, to, count } => {
                may_deliver(setting, &core.round, from, to, count)
            }
            Event::Arrive { worker } => may_arrive(setting, &core.round, worker),
            Event::Release => have_arrived(&core.round.arrived),
        },
        _ => false,
    }
}
