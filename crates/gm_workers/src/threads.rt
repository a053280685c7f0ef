//! The workers of a superstep, each in a thread of its own.

ghost use Rattle.std.specs.Prelude.{◌≡◌, ◌<◌, ◌≤◌, ◌^◌, ◌++◌, ℕ, [], None, IfOk, OnOk, All, length, map, slice_index_or};
ghost use Rattle.gm_core.specs.Cores.{owner};
ghost use Rattle.gm_machine.specs.Duties.{IsDuty};
ghost use Rattle.gm_workers.specs.Parts.{IsReady, Did};
ghost use Rattle.gm_workers.specs.Threads.{Shares, CanWork, Worked, AddsLate, WaitsMore};

use crate::crews::Slot;
use crate::dealing::Dealing;
use crate::mail::Mail;
use crate::parts::Part;
use gm_base::{Gate, NoMemory};
use gm_machine::Duty;
use gm_node_batches::Sent;
use gm_posting::{Mailboxes, Posts, close, open};
use gm_shifts::{Turn, run_all};
use std::alloc::Global;
use std::sync::Wait;
use std::thread::Threads;

// The workers' parts, before they begin.
fn turns_of<'a, R: Wait>(
    rt: &'a R,
    alloc: Global,
    duty: Duty<'a>,
    dealing: &'a Dealing,
    mailboxes: &'a Mailboxes<Mail>,
    slots: Vec<Slot>,
    posts: Vec<Posts<Mail>>,
) -> Result<Vec<Turn<Part<'a, R>>>, NoMemory>
    requires { length posts.items ≡ length slots.items }
    ensures slots { IfOk result (λ turns. map (λ t. t.task.slot) turns.items ≡ slots.items) }
    ensures posts { IfOk result (λ turns. map (λ t. t.task.posts) turns.items ≡ posts.items) }
    ensures shared { IfOk result (λ turns. All (λ t. Shares duty.entry dealing.now mailboxes.now t.task.duty t.task.dealing.now t.task.mailboxes.now t.task.sent) turns.items) }
{
    let mut turns = Vec::new(alloc);
    let mut waiting = slots.into_iter();
    for own in posts {
        match waiting.next() {
            Some(slot) => turns.push(Turn {
                task: Part {
                    rt,
                    alloc,
                    duty,
                    dealing,
                    mailboxes,
                    slot,
                    posts: own,
                    sent: Sent::empty(alloc),
                },
                outcome: Ok(()),
            })?,
            None => unreachable!(),
        }
    }
    Ok(turns)
}

// What the workers have after their parts.
#[derive(Drop)]
struct Leavings {
    slots: Vec<Slot>,
    posts: Vec<Posts<Mail>>,
    sent: Vec<Sent>,
}

fn leavings_of<'a, R: Wait>(
    alloc: Global,
    turns: Vec<Turn<Part<'a, R>>>,
) -> Result<Leavings, NoMemory>
    ensures slots { IfOk result (λ r. r.slots.items ≡ map (λ t. t.task.slot) turns.entry.items) }
    ensures posts { IfOk result (λ r. r.posts.items ≡ map (λ t. t.task.posts) turns.entry.items) }
    ensures sent { IfOk result (λ r. r.sent.items ≡ map (λ t. t.task.sent) turns.entry.items) }
{
    let mut slots = Vec::new(alloc);
    let mut posts = Vec::new(alloc);
    let mut sent = Vec::new(alloc);
    for turn in turns {
        let part = turn.task;
        slots.push(part.slot)?;
        posts.push(part.posts)?;
        sent.push(part.sent)?;
    }
    Ok(Leavings { slots, posts, sent })
}

// Batches that came late stand behind those that came early.
fn add_batches(slot: &mut Slot, late: Vec<(u32, Mail)>) -> Result<(), NoMemory>
    ensures { OnOk result (WaitsMore slot.old slot.new late.items) }
{
    for batch in late {
        slot.waiting.push(batch)?;
    }
    Ok(())
}

fn add_late(slots: &mut [Slot], late: Vec<Vec<(u32, Mail)>>) -> Result<(), NoMemory>
    requires { length late.items ≡ length slots.old }
    ensures { OnOk result (AddsLate (length slots.old) late.items slots.old slots.new) }
{
    let mut batches = late.into_iter();
    for worker in 0..slots.len() {
        match batches.next() {
            Some(more) => add_batches(&mut slots[worker], more)?,
            None => unreachable!(),
        }
    }
    Ok(())
}

// The workers do their parts.
fn run_turns<'a, G: Gate, R: Threads + Wait + Sync>(
    rt: &R,
    gate: &G,
    step: u64,
    turns: &mut [Turn<Part<'a, R>>],
) -> Result<(), NoMemory>
    requires few { length turns.old < 2 ^ 32 }
    requires ready { All (λ t. IsReady t.task.duty t.task.dealing.now t.task.mailboxes.now t.task.slot t.task.posts t.task.sent) turns.old }
    ensures { OnOk result ((i : ℕ) (d : _) → i < length turns.old → Did (slice_index_or turns.old i d).task.duty (slice_index_or turns.old i d).task.dealing.now
        (slice_index_or turns.old i d).task.slot (slice_index_or turns.new i d).task.slot (slice_index_or turns.old i d).task.posts (slice_index_or turns.new i d).task.posts (slice_index_or turns.new i d).task.sent) }
{
    run_all(rt, gate, step, turns)
}

/// All workers do their parts in a superstep, each in a thread of its own behind the gate, and what they sent each other
/// stands in their slots.
pub fn work_all<G: Gate, R: Threads + Wait + Sync>(
    rt: &R,
    alloc: Global,
    duty: Duty<'_>,
    dealing: &Dealing,
    slots: Vec<Slot>,
    step: u64,
    gate: &G,
) -> Result<(Vec<Slot>, Vec<Sent>), NoMemory>
    requires few { length slots.items ≤ 64 }
    requires duty { IsDuty duty }
    requires ready { CanWork duty dealing.now slots.items }
    ensures { IfOk result (λ r. Worked duty.entry dealing.now slots.items r.0.items r.1.items) }
{
    let workers = slots.len() as u32;
    let (mailboxes, posts) = open(rt, alloc, workers)?;
    let mut turns = turns_of(rt, alloc, duty, dealing, &mailboxes, slots, posts)?;
    run_turns(rt, gate, step, turns.as_mut_slice())?;
    let Leavings {
        mut slots,
        posts,
        sent,
    } = leavings_of(alloc, turns)?;
    let late = close(rt, alloc, mailboxes, posts)?;
    add_late(slots.as_mut_slice(), late)?;
    Ok((slots, sent))
}
