//! Supersteps of all workers.

ghost use Rattle.std.specs.Prelude.{◌≡◌, ◌+◌, ℕ, [], ◌++◌, IfOk, OnOk, length, map};
ghost use Rattle.std.specs.List.{flat_map};
ghost use Rattle.gm_model.specs.Graphs.{node_count};
ghost use Rattle.gm_image.specs.Views.{program};
ghost use Rattle.gm_machine.specs.Faults.{least_fault};
ghost use Rattle.gm_machine.specs.Machine.{Nodes, superstep as superstep_of};
ghost use Rattle.gm_machine.specs.Asking.{IsServed};
ghost use Rattle.gm_machine.specs.Masters.{FitsGraph};
ghost use Rattle.gm_workers.specs.Parts.{messages_in};
ghost use Rattle.gm_workers.specs.Crews.{IsCrew, StandFor, StandForStep, GoBySuperstep, AreSmall, deliveries_to, deliveries_from};

use crate::crews::{Crew, Slot};
use crate::threads::work_all;
use gm_base::{Gate, NoMemory};
use gm_core::Event;
use gm_graph::{Graph, InRows};
use gm_image::Sound;
use gm_machine::{Contributions, Duty, Fault, lesser, settle_puts};
use gm_node_batches::Sent;
use gm_value::Value;
use std::alloc::Global;
use std::mem;
use std::sync::Wait;
use std::thread::Threads;

/// What a superstep answers: how many messages were sent, the least fault, and one delivery for each batch, receiver by
/// receiver, in the order in which the batches came.
#[derive(Drop)]
pub struct StepEnd {
    pub messages: u64,
    pub fault: Option<Fault>,
    pub delivered: Vec<Event>,
}

// What all workers' nodes put, and their least fault.
fn gather(alloc: Global, sent: &[Sent]) -> Result<(Contributions, Option<Fault>), NoMemory>
    ensures puts { IfOk result (λ r. r.0 ≡ flat_map (λ s. s.puts) sent.now) }
    ensures fault { IfOk result (λ r. r.1 ≡ least_fault (map (λ s. s.fault) sent.now)) }
{
    let mut puts = Contributions::empty(alloc);
    let mut fault = None;
    for one in sent {
        puts.add_parts(one.puts.parts())?;
        fault = lesser(fault, one.fault);
    }
    Ok((puts, fault))
}

// One delivery for each batch that a worker got.
fn add_deliveries(to: u32, slot: &Slot, delivered: &mut Vec<Event>) -> Result<(), NoMemory>
    ensures { OnOk result (delivered.new.items ≡ delivered.old.items ++ deliveries_to to slot.now) }
{
    for batch in &slot.waiting {
        delivered.push(Event::Deliver {
            from: batch.0,
            to,
            count: batch.1.messages.len() as u64,
        })?;
    }
    Ok(())
}

// One delivery for each batch that the workers got.
fn deliveries(alloc: Global, slots: &[Slot]) -> Result<Vec<Event>, NoMemory>
    ensures { IfOk result (λ delivered. delivered.items ≡ deliveries_from 0 slots.now) }
{
    let mut delivered = Vec::new(alloc);
    let mut to = 0;
    for slot in slots {
        add_deliveries(to, slot, &mut delivered)?;
        to = next(to)?;
    }
    Ok(delivered)
}

// The number behind a number, where there is one.
fn next(n: u32) -> Result<u32, NoMemory>
    ensures { IfOk result (λ next. next ≡ n + 1) }
{
    match n.checked_add(1) {
        Some(next) => Ok(next),
        None => Err(NoMemory),
    }
}

// A sum, where it is a number.
pub(crate) fn sum(a: u64, b: u64) -> Result<u64, NoMemory>
    ensures { IfOk result (λ sum. sum ≡ a + b) }
{
    match a.checked_add(b) {
        Some(sum) => Ok(sum),
        None => Err(NoMemory),
    }
}

// How many messages came to a worker, added to a count.
fn count_one(slot: &Slot, before: u64) -> Result<u64, NoMemory>
    ensures { IfOk result (λ count. count ≡ before + length (messages_in slot.now.waiting.items)) }
{
    let mut count = before;
    for batch in &slot.waiting {
        count = sum(count, batch.1.messages.len() as u64)?;
    }
    Ok(count)
}

// How many messages came to all workers.
fn count(slots: &[Slot]) -> Result<u64, NoMemory>
    ensures { IfOk result (λ count. count ≡ length (flat_map (λ x. messages_in x.waiting.items) slots.now)) }
{
    let mut count = 0;
    for slot in slots {
        count = count_one(slot, count)?;
    }
    Ok(count)
}

/// One superstep of the workers with a block, which has this number in the run, counted from 1. Where there is not
/// enough memory the run is given up.
pub fn superstep<G: Gate, R: Threads + Wait + Sync>(
    rt: &R,
    alloc: Global,
    image: &Sound,
    graph: &Graph,
    in_rows: &Option<InRows>,
    crew: &mut Crew,
    globals: &mut Vec<Value>,
    block: u32,
    step: u64,
    gate: &G,
) -> Result<StepEnd, NoMemory>
    requires columns { FitsGraph image.now graph.now }
    requires served { IsServed (program image.now) graph.now in_rows.now }
    requires crew { IsCrew (node_count graph.now) (length crew.old.slots.items) crew.old.dealing crew.old.slots.items }
    ensures dealing { OnOk result (crew.new.dealing ≡ crew.old.dealing) }
    ensures crew { OnOk result (IsCrew (node_count graph.now) (length crew.old.slots.items) crew.new.dealing crew.new.slots.items) }
    ensures delivered { IfOk result (λ end. end.delivered.items ≡ deliveries_from 0 crew.new.slots.items) }
    ensures small { IfOk result (λ end. AreSmall end.delivered.items) }
    ensures events { IfOk result (λ end. GoBySuperstep (program image.now) graph.now block globals.old.items crew.old.dealing.owners.items end.delivered.items crew.old.slots.items crew.new.slots.items) }
    ensures stands { IfOk result (λ end. (d : Nodes) → StandFor (node_count graph.now) crew.old.dealing.owners.items crew.old.slots.items d →
        StandForStep (node_count graph.now) crew.old.dealing.owners.items crew.new.slots.items globals.new.items end.messages end.fault (superstep_of (program image.now) graph.now block globals.old.items d)) }
{
    let duty = Duty::of(image, block, graph, in_rows, globals.as_slice());
    let before = mem::replace(&mut crew.slots, Vec::new(alloc));
    let (after, sent) = work_all(rt, alloc, duty, &crew.dealing, before, step, gate)?;
    let (puts, least) = gather(alloc, sent.as_slice())?;
    let put = settle_puts(alloc, image.image(), &puts, globals)?;
    let messages = count(after.as_slice())?;
    let delivered = deliveries(alloc, after.as_slice())?;
    crew.slots = after;
    Ok(StepEnd {
        messages,
        fault: lesser(least, put),
        delivered,
    })
}
