//! A gate that two workers of the whole program enter: worker 0 waits in the first superstep until worker 1 has entered, and all
//! entries are counted.

use crate::calls::{gated_call, joined, no_files};
use crate::image_rows::TOTAL;
use gm_base::{Gate, Status};
use gm_files::{MemSink, MemSource};
use gm_observe::Observer;
use gm_rows::gates::BEST_OVER;
use std::alloc::Global;
use std::process::Abort;
use std::sync::Wait;
use std::sync::atomic::{AtomicU64, Ordering};
use std::test::Fail;
use std::thread;
use std::thread::Threads;

// A graph for the image of the totals.
const TOTAL_OVER: &str = "%%\n0 1\n0 1\n1 1\nv 0 5\nv 1 7\n";

// The gate.
#[derive(Drop)]
struct Meeting<'a, R: Wait> {
    rt: &'a R,
    come: AtomicU64,
    entered: AtomicU64,
}

impl<'a, R: Wait + Sync> Gate for Meeting<'a, R> {
    fn enter(&self, worker: u32, step: u64) {
        self.entered.fetch_add(1, Ordering::SeqCst);
        if worker == 1 {
            self.come.store(step, Ordering::SeqCst);
        }
        if worker != 0 || step != 1 {
            return;
        }
        for _ in self.rt.forever() {
            if self.come.load(Ordering::SeqCst) != 0 {
                return;
            }
            thread::yield_now();
        }
        unreachable!()
    }
}

// How often two workers enter in a call, and what it writes.
fn behind_the_gate(
    rt: &(impl Abort + Threads + Wait + Sync),
    alloc: Global,
    words: &str,
    input: Vec<u8>,
) -> Result<(u64, String), Fail> {
    let gate = Meeting {
        rt,
        come: AtomicU64::new(0),
        entered: AtomicU64::new(0),
    };
    let mut source = MemSource::new(input, 1000, Vec::new(alloc));
    let mut files = no_files(alloc);
    let mut sink = MemSink::new(alloc, 1000, Vec::new(alloc), 65536)?;
    let mut nobody: Vec<Box<dyn Observer>> = Vec::new(alloc);
    let status = gated_call(
        rt,
        alloc,
        words,
        &mut source,
        &mut files,
        &mut sink,
        &gate,
        &mut nobody,
    )?;
    assert_eq!(rt; status, Status::Done, "{words}");
    let written = String::from_utf8_lossy(alloc, sink.taken())?;
    Ok((gate.entered.load(Ordering::SeqCst), written))
}

// Whether what is written tells half as many supersteps as there were entries.
fn tells_half_of(rt: &impl Abort, alloc: Global, entries: u64, written: &str) -> Result<(), Fail> {
    let half = entries / 2;
    let told = format!(in alloc; "supersteps {half} messages ")?;
    assert!(rt; written.contains(told.as_str()), "{written}");
    Ok(())
}

// A program is run by the same supersteps, whether its image is shown or not.
#[test]
fn workers_of_a_program_meet(rt: HostRuntime) -> Result<(), Fail> {
    let alloc = rt.alloc();
    let over = joined(alloc, BEST_OVER, "")?;
    let (plain, _) = behind_the_gate(&rt, alloc, "run - - --workers 2", over)?;
    let over = joined(alloc, BEST_OVER, "")?;
    let (shown, written) = behind_the_gate(&rt, alloc, "run - - --image --workers 2", over)?;
    assert_eq!(rt; plain, shown);
    tells_half_of(&rt, alloc, shown, written.as_str())
}

#[test]
fn workers_of_an_image_meet(rt: HostRuntime) -> Result<(), Fail> {
    let alloc = rt.alloc();
    let over = joined(alloc, TOTAL, TOTAL_OVER)?;
    let (entries, written) = behind_the_gate(&rt, alloc, "exec - - --workers 2", over)?;
    tells_half_of(&rt, alloc, entries, written.as_str())
}

// A demonstration of ten nodes takes three turns, and so more supersteps than these.
#[test]
fn workers_of_a_demonstration_meet(rt: HostRuntime) -> Result<(), Fail> {
    let alloc = rt.alloc();
    let (entries, _) = behind_the_gate(&rt, alloc, "demo 10 --workers 2", Vec::new(alloc))?;
    assert!(rt; entries > 6, "{entries}");
    Ok(())
}
