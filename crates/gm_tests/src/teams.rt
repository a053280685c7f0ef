//! A hundred programs of the tables, by teams of three and of seven workers, however the nodes are dealt out among them.

use crate::calls::{PLAIN, ends_with, joined, run, words_of};
use crate::compare::all_read;
use gm_rows::loops::{MORE_LOOPS, NEIGHBOURS, OWN};
use gm_rows::reductions::{MORE_REDUCTIONS, REDUCTIONS};
use gm_rows::searches::{MORE_SEARCHES, SEARCHES};
use gm_tables::{is_row, parts_of};
use std::alloc::Global;
use std::process::Abort;
use std::sync::Wait;
use std::test::Fail;
use std::thread::Threads;

// The words for so many workers, and for how the nodes are dealt out among them.
const TEAMS: &str = "--workers 3 --partition mod
--workers 3 --partition block
--workers 3 --partition spread:9
--workers 7 --partition mod
--workers 7 --partition block
--workers 7 --partition spread:9
";

// Whether the program of a row gives its answer by a team.
fn holds_by(
    rt: &(impl Abort + Threads + Wait + Sync),
    alloc: Global,
    row: &str,
    team: &str,
) -> Result<(), Fail> {
    let (line, given, wanted) = parts_of(row)?;
    let words = words_of(line);
    let words = format!(in alloc; "{words} {team}")?;
    let input = joined(alloc, given, "")?;
    let ended = run(rt, alloc, words.as_str(), input, PLAIN)?;
    ends_with(rt, alloc, &ended, wanted, row)
}

// Whether it does so by each team.
fn holds_by_all(
    rt: &(impl Abort + Threads + Wait + Sync),
    alloc: Global,
    row: &str,
) -> Result<(), Fail> {
    for team in TEAMS.lines() {
        holds_by(rt, alloc, row, team)?;
    }
    Ok(())
}

// Whether each program of a table, which has so many rows, does so.
fn all_hold(
    rt: &(impl Abort + Threads + Wait + Sync),
    alloc: Global,
    table: &str,
    count: usize,
) -> Result<(), Fail> {
    let mut read = 0usize;
    for row in table.split('~') {
        if is_row(row) {
            holds_by_all(rt, alloc, row)?;
            read = read.saturating_add(1);
        }
    }
    all_read(rt, read, count);
    Ok(())
}

#[test]
fn reductions_by_teams(rt: HostRuntime) -> Result<(), Fail> {
    all_hold(&rt, rt.alloc(), REDUCTIONS, 9)?;
    all_hold(&rt, rt.alloc(), MORE_REDUCTIONS, 21)
}

#[test]
fn searches_by_teams(rt: HostRuntime) -> Result<(), Fail> {
    all_hold(&rt, rt.alloc(), SEARCHES, 7)?;
    all_hold(&rt, rt.alloc(), MORE_SEARCHES, 14)
}

#[test]
fn loops_by_teams(rt: HostRuntime) -> Result<(), Fail> {
    all_hold(&rt, rt.alloc(), OWN, 11)?;
    all_hold(&rt, rt.alloc(), NEIGHBOURS, 19)
}

#[test]
fn more_loops_by_teams(rt: HostRuntime) -> Result<(), Fail> {
    all_hold(&rt, rt.alloc(), MORE_LOOPS, 19)
}
