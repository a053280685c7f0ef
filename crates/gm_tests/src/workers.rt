//! Images run by several workers: the same bytes whoever owns which node, and the gate that each of them enters.

use crate::calls::{PLAIN, gated_call, joined, no_files, run};
use crate::compare::same;
use crate::image_rows::{BEST, MOST, TOTAL};
use gm_base::{Gate, Status};
use gm_files::{MemSink, MemSource};
use gm_observe::Observer;
use gm_rows::workers::{PATHS_OF_NODES, TEAMS};
use std::alloc::{AllocError, Global};
use std::process::Abort;
use std::sync::Wait;
use std::sync::atomic::{AtomicU64, Ordering};
use std::test::Fail;
use std::thread::Threads;

// The image of shortest paths: each node keeps the least sum of lengths from the root, for as many turns as there is a change.
const PATHS: &str =
    "gm-image 1\nname sssp\ninputs 2\nscalar N root 0\nedge I len 0\noutputs 1\nnode I dist 0\nresult -\nglobals 3\nN\nB\nB\nfields 3\nI\nI\nB\nregisters 0\ncolumns 1\nI\nkinds 1\n- I\nplaces 1\n12 14\nblocks 3\nblock 0\nbody 3\nset 0 ? == id g 0 c I 0 c I 2147483647\nset 1 f 0\nset 2 == id g 0\nblock 0\nbody 3\nskip 2 f 2\neach out 1\nsend 0 nb + 0 f 0 w 0\nblock 1\non 0 1\nfold min 0 1 m 0\nbody 3\nset 2 < f 1 f 0\nset 0 f 1\nput or 0 2 f 2\nmaster 9\nstep 0\nset 1 c B True\nloop 8 g 1\nset 2 c B False\nstep 1\nstep 2\nset 1 g 2\nback 2\nend\n";

// The first of them.
const FIRST_TEAM: &str = "--workers 1 --partition mod";

// The next number of a row that looks like chance, and its upper half.
fn draw(state: &mut u32) -> u32 {
    *state = state.wrapping_mul(1664525).wrapping_add(1013904223);
    *state / 65536
}

// The line of an edge, with a weight or without.
fn edge_line(
    alloc: Global,
    from: u32,
    to: u32,
    weight: u32,
    weighted: bool,
) -> Result<String, AllocError> {
    if weighted {
        format!(in alloc; "{from} {to} {weight}\n")
    } else {
        format!(in alloc; "{from} {to}\n")
    }
}

// The lines of 600 edges among 90 nodes, each with what stands behind its nodes.
fn edges_by_chance(alloc: Global, weighted: bool) -> Result<String, Fail> {
    let mut state = 1u32;
    let mut text = String::from_str(alloc, "%%\n")?;
    for _ in 0..600 {
        let from = draw(&mut state) % 90;
        let to = draw(&mut state) % 90;
        let weight = draw(&mut state) % 50;
        let line = edge_line(alloc, from, to, weight, weighted)?;
        text.push_str(line.as_str())?;
    }
    Ok(text)
}

// The lines of the values of 90 nodes.
fn values_by_chance(alloc: Global) -> Result<String, Fail> {
    let mut state = 5u32;
    let mut text = String::new(alloc);
    for node in 0..90 {
        let value = draw(&mut state) % 1000;
        let line = format!(in alloc; "v {node} {value}\n")?;
        text.push_str(line.as_str())?;
    }
    Ok(text)
}

// An image, and a graph by chance with a value for each node.
fn valued(alloc: Global, image: &str) -> Result<Vec<u8>, Fail> {
    let edges = edges_by_chance(alloc, false)?;
    let mut text = joined(alloc, image, edges.as_str())?;
    text.extend_from_slice(values_by_chance(alloc)?.as_bytes())?;
    Ok(text)
}

// What is written for this text by a team.
fn written_by(
    rt: &(impl Abort + Threads + Wait + Sync),
    alloc: Global,
    words: &str,
    team: &str,
    text: &[u8],
) -> Result<String, Fail> {
    let words = format!(in alloc; "{words} {team}")?;
    let input = Vec::from_slice(alloc, text)?;
    let (status, written) = run(rt, alloc, words.as_str(), input, PLAIN)?;
    assert_eq!(rt; status, Status::Done, "{words}");
    Ok(written)
}

// Whether every team writes the same bytes for this text.
fn all_write_the_same(
    rt: &(impl Abort + Threads + Wait + Sync),
    alloc: Global,
    words: &str,
    text: &[u8],
) -> Result<(), Fail> {
    let first = written_by(rt, alloc, words, FIRST_TEAM, text)?;
    for team in TEAMS.lines() {
        let written = written_by(rt, alloc, words, team, text)?;
        same(rt, written.as_str(), first.as_str(), team);
    }
    Ok(())
}

#[test]
fn images_are_run_by_teams(rt: HostRuntime) -> Result<(), Fail> {
    for image in [BEST, MOST, TOTAL] {
        let text = valued(rt.alloc(), image)?;
        all_write_the_same(&rt, rt.alloc(), "exec - - --observe", &text)?;
    }
    Ok(())
}

#[test]
fn paths_are_run_by_teams(rt: HostRuntime) -> Result<(), Fail> {
    let edges = edges_by_chance(rt.alloc(), true)?;
    let text = joined(rt.alloc(), PATHS, edges.as_str())?;
    all_write_the_same(&rt, rt.alloc(), "exec - - root=0", &text)
}

#[test]
fn programs_are_run_by_teams(rt: HostRuntime) -> Result<(), Fail> {
    let edges = edges_by_chance(rt.alloc(), true)?;
    let text = joined(rt.alloc(), PATHS_OF_NODES, edges.as_str())?;
    all_write_the_same(&rt, rt.alloc(), "run - - root=0", &text)?;
    all_write_the_same(&rt, rt.alloc(), "run - - root=0 --image --observe", &text)
}

// What a demonstration writes whose workers send each other many batches, worked out by another program with another way to
// find the distances.
const LARGE: &str = "demo 20000 edges 80000 reached 19617 far 512 turns 24\n";

// Whether a team writes it.
fn large_is_told(
    rt: &(impl Abort + Threads + Wait + Sync),
    alloc: Global,
    team: &str,
) -> Result<(), Fail> {
    let written = written_by(rt, alloc, "demo 20000", team, b"")?;
    same(rt, written.as_str(), LARGE, team);
    Ok(())
}

#[test]
fn a_large_demonstration_by_one_worker(rt: HostRuntime) -> Result<(), Fail> {
    large_is_told(&rt, rt.alloc(), "--workers 1")
}

#[test]
fn a_large_demonstration_by_four_workers(rt: HostRuntime) -> Result<(), Fail> {
    large_is_told(&rt, rt.alloc(), "--workers 4")
}

#[test]
fn a_large_demonstration_by_as_many_as_may_be(rt: HostRuntime) -> Result<(), Fail> {
    large_is_told(&rt, rt.alloc(), "--workers 64 --partition spread:9")
}

#[test]
fn demonstrations_are_run_by_teams(rt: HostRuntime) -> Result<(), Fail> {
    all_write_the_same(&rt, rt.alloc(), "demo 300", b"")
}

// A gate that counts who enters.
#[derive(Drop)]
struct Counting {
    entered: AtomicU64,
}

impl Gate for Counting {
    fn enter(&self, _worker: u32, _step: u64) {
        self.entered.fetch_add(1, Ordering::SeqCst);
    }
}

// How often the gate is entered by two workers in the run of the totals.
fn entries(
    rt: &(impl Abort + Threads + Wait + Sync),
    alloc: Global,
    words: &str,
) -> Result<u64, Fail> {
    let gate = Counting {
        entered: AtomicU64::new(0),
    };
    let mut source = MemSource::new(valued(alloc, TOTAL)?, 1000, Vec::new(alloc));
    let mut files = no_files(alloc);
    let mut sink = MemSink::new(alloc, 1000, Vec::new(alloc), 65536)?;
    let mut nobody: Vec<Box<dyn Observer>> = Vec::new(alloc);
    let status = gated_call(
        rt,
        alloc,
        words,
        &mut source,
        &mut files,
        &mut sink,
        &gate,
        &mut nobody,
    )?;
    assert_eq!(rt; status, Status::Done, "{words}");
    Ok(gate.entered.load(Ordering::SeqCst))
}

// Whether it is entered so often.
fn entries_are(
    rt: &(impl Abort + Threads + Wait + Sync),
    alloc: Global,
    words: &str,
    count: u64,
) -> Result<(), Fail> {
    assert_eq!(rt; entries(rt, alloc, words)?, count, "{words}");
    Ok(())
}

// Two supersteps of two workers, watched or not.
#[test]
fn each_worker_enters_the_gate_in_each_superstep(rt: HostRuntime) -> Result<(), Fail> {
    entries_are(&rt, rt.alloc(), "exec - - --workers 2", 4)?;
    entries_are(&rt, rt.alloc(), "exec - - --workers 2 --observe", 4)?;
    entries_are(
        &rt,
        rt.alloc(),
        "exec - - --workers 7 --partition block",
        14,
    )
}
