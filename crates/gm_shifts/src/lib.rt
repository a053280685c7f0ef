//! Shifts: tasks that run side by side in threads of their own, each once, behind a gate.
//!
//! [`run_all`] runs each task of a slice once. Before a task runs, it enters the gate with its place in the slice, which
//! is its worker's number, and with the number of the shift. The call returns once all tasks have run.
//!
//! A thread that cannot be had is no error: its task then runs in another thread, before or after that one's. So a gate
//! at which one worker waits for another needs as many threads as tasks.
//!
//! # Cost
//!
//! One thread for each task, less the one that calls. The tasks stay where they are.
#![tactic(auto)]

ghost use Rattle.std.specs.Prelude.{◌≡◌, ◌^◌, ◌<◌, ℕ, Ok, All, IsErr, OnOk, OnErr, length, slice_index_or};
ghost use Rattle.gm_shifts.specs.Turns.{Ran, SomeGaveUp};

use gm_base::{Gate, NoMemory};
use std::thread;
use std::thread::Threads;

/// What one worker has to do in a shift.
pub trait Task {
    // when it may run
    ghost is_ready: { Self → Type 0 };

    // what a run that does not give up leaves of it
    ghost does: { Self → Self → Type 0 };

    /// Does the work once. It gives up where there is not enough memory.
    fn run(&mut self) -> Result<(), NoMemory>
        requires { is_ready self.old }
        ensures { OnOk result (does self.old self.new) };
}

/// A task, and how its last run ended.
#[derive(Drop)]
pub struct Turn<T> {
    pub task: T,
    pub outcome: Result<(), NoMemory>,
}

// Enters the gate, and runs a task.
fn take_turn<T: Task, G: Gate>(gate: &G, worker: u32, shift: u64, turn: &mut Turn<T>)
    requires { T.is_ready turn.old.task }
    ensures { Ran T.does turn.old turn.new }
{
    gate.enter(worker, shift);
    turn.outcome = turn.task.run();
}

// Whether no task gave up.
fn have_done<T>(turns: &[Turn<T>]) -> Result<(), NoMemory>
    ensures ok { OnOk result (All (λ t. t.outcome ≡ Ok tt) turns.now) }
    ensures err { OnErr result (SomeGaveUp turns.now) }
{
    for turn in turns {
        if turn.outcome.is_err() {
            return Err(NoMemory);
        }
    }
    Ok(())
}

/// Runs each task once, in a thread of its own where one can be had, and notes how each ended. `Err` says that a task gave
/// up; the others have run nevertheless.
pub fn run_all<T: Task + Send, G: Gate, R: Threads + Sync>(
    rt: &R,
    gate: &G,
    shift: u64,
    turns: &mut [Turn<T>],
) -> Result<(), NoMemory>
    requires few { length turns.old < 2 ^ 32 }
    requires ready { All (λ t. T.is_ready t.task) turns.old }
    ensures ran { (i : ℕ) (d : _) → i < length turns.old → Ran T.does (slice_index_or turns.old i d) (slice_index_or turns.new i d) }
    ensures ok { OnOk result (All (λ t. t.outcome ≡ Ok tt) turns.new) }
    ensures err { OnErr result (SomeGaveUp turns.new) }
{
    let threads = turns.len().max(1);
    let one = |place: usize, turn: &mut Turn<T>|
        requires { (place < 2 ^ 32) × T.is_ready turn.now.task }
        ensures { Ran T.does turn.entry.now turn.exit.now }
    { take_turn(gate, place as u32, shift, turn) };
    thread::for_each_mut(rt, turns, threads, &one);
    have_done(turns)
}
