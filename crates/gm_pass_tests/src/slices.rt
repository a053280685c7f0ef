//! Inner loops in slices.

use crate::compare::{all_read, holds, same};
use crate::passes::{Pass, SLICES, SLICES_FLIPPED};
use crate::runs::{Frame, all_run_same, source_after};
use gm_tables::{is_line, sides};
use std::alloc::Global;
use std::process::Abort;
use std::test::Fail;

/// Bodies whose inner loop goes several ways.
pub const SEVERAL: &str = "
Foreach (n: G.Nodes) { Foreach (t: n.Nbrs) { t.x += n.a; n.y min= t.b; } }
Foreach (n: G.Nodes) { Foreach (t: n.Nbrs) { t.x += n.a; t.x += 1; n.y max= t.b; } }
Foreach (n: G.Nodes) { Foreach (t: n.Nbrs) { Int d = t.b; t.x += n.a; n.y max= d; } }
Foreach (n: G.Nodes) { Foreach (t: n.Nbrs) { Int d = n.a + 1; t.x += d; n.y max= t.b; } }
Foreach (n: G.Nodes) { Foreach (t: n.Nbrs) { Int d = n.a / t.b; t.x += d; n.y max= t.b; } }
Foreach (n: G.Nodes) { Foreach (t: n.Nbrs) { Int d = t.b; If (n.f) { d = d + 1; } Else { d = n.a; } t.x += 1; n.y max= d; } }
Foreach (n: G.Nodes) { Foreach (t: n.Nbrs) { If (n.f) { t.x += 1; } If (t.g) { n.y max= t.b; } } }
Foreach (n: G.Nodes) { Foreach (t: n.InNbrs)(t.f) { n.y += t.b; t.x max= n.a; } }
Foreach (n: G.Nodes) { Foreach (t: n.Nbrs) { Edge e = t.ToEdge(); t.x += e.w; n.y max= t.b; } }
Foreach (n: G.Nodes)(n.g) { Foreach (t: n.Nbrs) { t.x max= n.b; n.y max= t.b; s += t.a; } }
";

// Bodies whose inner loops go one way each.
const ONE: &str = "
Foreach (n: G.Nodes) { Foreach (t: n.Nbrs) { t.x += n.a; t.x += t.b; } }
Foreach (n: G.Nodes) { n.x = 1; Foreach (t: n.InNbrs) { Int d = t.b; n.y max= d; } }
Foreach (n: G.Nodes) { Foreach (t: n.Nbrs) { s += n.a; } }
";

#[test]
fn inner_loops_in_slices_run_the_same(rt: HostRuntime) -> Result<(), Fail> {
    all_run_same(&rt, rt.alloc(), Frame::Filled, SEVERAL, 10, &SLICES)?;
    all_run_same(&rt, rt.alloc(), Frame::Filled, SEVERAL, 10, &SLICES_FLIPPED)
}

// Bodies in slices twice.
const TWICE: [Pass; 3] = [
    Pass::CutBodies,
    Pass::SliceInnerLoops,
    Pass::SliceInnerLoops,
];

// A body not in slices, as source text.
fn whole(rt: &impl Abort, alloc: Global, body: &str) -> Result<String, Fail> {
    source_after(rt, alloc, Frame::Filled, body, &[Pass::CutBodies])
}

// A body in slices, as source text.
fn sliced(rt: &impl Abort, alloc: Global, body: &str) -> Result<String, Fail> {
    source_after(rt, alloc, Frame::Filled, body, &SLICES)
}

// Whether a body is changed by slices.
fn is_changed(rt: &impl Abort, alloc: Global, body: &str) -> Result<(), Fail> {
    let before = whole(rt, alloc, body)?;
    let after = sliced(rt, alloc, body)?;
    assert_ne!(rt; after.as_str(), before.as_str(), "{body}");
    Ok(())
}

// Whether it is changed once only.
fn is_changed_once(rt: &impl Abort, alloc: Global, body: &str) -> Result<(), Fail> {
    is_changed(rt, alloc, body)?;
    let once = sliced(rt, alloc, body)?;
    let again = source_after(rt, alloc, Frame::Filled, body, &TWICE)?;
    same(rt, again.as_str(), once.as_str(), body);
    Ok(())
}

#[test]
fn slices_go_one_way_each(rt: HostRuntime) -> Result<(), Fail> {
    let mut read = 0usize;
    for row in SEVERAL.lines() {
        if is_line(row) {
            is_changed_once(&rt, rt.alloc(), row)?;
            read = read.saturating_add(1);
        }
    }
    all_read(&rt, read, 10);
    Ok(())
}

// Whether slices leave a body as it is.
fn stands(rt: &impl Abort, alloc: Global, body: &str) -> Result<(), Fail> {
    let before = whole(rt, alloc, body)?;
    let after = sliced(rt, alloc, body)?;
    same(rt, after.as_str(), before.as_str(), body);
    Ok(())
}

#[test]
fn inner_loops_that_go_one_way_stand(rt: HostRuntime) -> Result<(), Fail> {
    let mut read = 0usize;
    for row in ONE.lines() {
        if is_line(row) {
            stands(&rt, rt.alloc(), row)?;
            read = read.saturating_add(1);
        }
    }
    all_read(&rt, read, 3);
    Ok(())
}

// A body, and what it becomes.
const ROWS: &str = "
Foreach (n: G.Nodes) { Foreach (t: n.Nbrs) { Int d = t.b; t.x += n.a; n.y max= d; } } => { Foreach (n: G.Nodes) Foreach (t: n.Nbrs) { t.x += n.a; } Foreach (n: G.Nodes) Foreach (t: n.Nbrs) { Int d = t.b; n.y max= d; } }
Foreach (n: G.Nodes) { Foreach (t: n.Nbrs) { Int d = n.a / t.b; t.x += d; n.y max= t.b; } } => { Foreach (n: G.Nodes) Foreach (t: n.Nbrs) { Int d = (n.a / t.b); t.x += d; } Foreach (n: G.Nodes) Foreach (t: n.Nbrs) { n.y max= t.b; } }
Foreach (n: G.Nodes) { Foreach (t: n.Nbrs) { Int d = t.b; If (n.f) { d = 1; } t.x += 1; n.y max= d; } } => { Foreach (n: G.Nodes) Foreach (t: n.Nbrs) { t.x += 1; } Foreach (n: G.Nodes) Foreach (t: n.Nbrs) { Int d = t.b; If (n.f) { d = 1; } n.y max= d; } }
";

// Whether the body of a row becomes what is wanted, among other statements.
fn has_slices(rt: &impl Abort, alloc: Global, row: &str) -> Result<(), Fail> {
    let (body, wanted) = sides(row, " => ")?;
    let found = sliced(rt, alloc, body)?;
    holds(rt, found.contains(wanted), found.as_str());
    Ok(())
}

#[test]
fn slices_have_what_they_need(rt: HostRuntime) -> Result<(), Fail> {
    let mut read = 0usize;
    for row in ROWS.lines() {
        if is_line(row) {
            has_slices(&rt, rt.alloc(), row)?;
            read = read.saturating_add(1);
        }
    }
    all_read(&rt, read, 3);
    Ok(())
}
