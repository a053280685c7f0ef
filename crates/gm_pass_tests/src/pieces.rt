//! Bodies of loops in pieces.

use crate::compare::all_read;
use crate::passes::PIECES;
use crate::runs::{Frame, LOOPED, all_run_same, listing_after};
use gm_tables::is_line;
use std::alloc::Global;
use std::process::Abort;
use std::test::Fail;

const NO_INPUT: &str = "run - - nil=NIL";

/// Bodies that may be cut.
pub const CUT: &str = "
Foreach (n: G.Nodes) { n.a = 1; n.b = n.a; Foreach (t: n.Nbrs) { t.c += n.b; } n.a = 2; }
Foreach (n: G.Nodes) { n.f = n.OutDegree() > 1; } Foreach (n: G.Nodes) { If (n.f) { Foreach (t: n.Nbrs) { t.b += 1; } } Else { n.c = 2; } }
Foreach (n: G.Nodes)(n.a < 2) { Foreach (t: n.Nbrs) { t.b += 1; } Foreach (t: n.InNbrs) { t.c max= 4; } }
Foreach (n: G.Nodes) { n.a = n.OutDegree(); } Foreach (n: G.Nodes)(n.a > 0) { If (n.a == 1) { If (n.f) { n.c = 5; } Else { Foreach (t: n.Nbrs) { t.b += n.a; } n.c = 3; } } Else { Foreach (t: n.InNbrs) { t.b += 2; } } }
Foreach (n: G.Nodes) { Foreach (t: n.InNbrs) { n.b += t.a + 1; } n.c = n.b; }
Foreach (n: G.Nodes) { n.a = 1 / n.c; Foreach (t: n.Nbrs) { t.b += 1; } }
Foreach (n: G.Nodes) { Foreach (t: n.Nbrs) { t.b += 1 / n.a; } n.c = 1 / n.a; }
Foreach (n: G.Nodes) { n.r = n; } Foreach (n: G.Nodes) { Node u = n.r; u.b += 1; n.c = 6 / n.OutDegree(); Foreach (t: n.Nbrs) { t.a += 1; } }
Foreach (n: G.Nodes) { n.r = n; n.b = n.OutDegree(); } Foreach (n: G.Nodes) { Node u = n.r; u.b += 2147483647; n.c = 1 / n.a; }
Foreach (n: G.Nodes) { n.r = n; } Foreach (n: G.Nodes) { Node u = n.r; u.b += 1; n.c = 1 / n.a; n.a = 3; }
While (x < 3) { Foreach (n: G.Nodes) { n.a = x; Foreach (t: n.Nbrs) { t.b += x; } } x = x + 1; }
Foreach (n: G.Nodes) { n.a <= n.b + 1 @ n; Foreach (t: n.Nbrs) { t.c += n.a; } }
Foreach (n: G.Nodes) { x += 1; Foreach (t: n.Nbrs)(t.a < 3) { x += 2; } }
Foreach (n: G.Nodes) { Foreach (t: n.Nbrs) { <t.b; t.c> max= <n.a; n.a + 2>; } n.f = True; }
If (x == 0) { Foreach (n: G.Nodes) { n.a = 1; Foreach (t: n.Nbrs) { t.b += 1; } } } Else { x = 2; }
For (n: G.Nodes) { Foreach (t: G.Nodes) { t.a = x; Foreach (u: t.Nbrs) { u.b += t.a; } } x = x + 1; }
Do { Foreach (n: G.Nodes) { Foreach (t: n.Nbrs) { Edge e = t.ToEdge(); t.b += e.w; } n.c = x; } x = x + 1; } While (x < 3);
";

#[test]
fn bodies_in_pieces_run_the_same(rt: HostRuntime) -> Result<(), Fail> {
    all_run_same(&rt, rt.alloc(), Frame::Cut, CUT, 17, &PIECES)
}

/// Bodies of which a piece changes the condition or the filter, which the next piece asks again: they may not be cut so.
pub const CHANGED: &str = "
Foreach (n: G.Nodes) { If (n.a == 0) { n.a = 1; Foreach (t: n.Nbrs) { t.b += 1; } } }
Foreach (n: G.Nodes)(n.a == 0) { n.a = 1; Foreach (t: n.Nbrs) { t.b += 1; } }
Foreach (n: G.Nodes) { If (n.a == 0) { Foreach (t: n.Nbrs) { t.b += 1; } n.a = 1; } Else { n.c = 2; } }
";

// Whether a body in pieces lists something else than it does whole.
fn is_changed(rt: &impl Abort, alloc: Global, body: &str) -> Result<(), Fail> {
    let before = listing_after(rt, alloc, Frame::Cut, body, &[], NO_INPUT, LOOPED)?;
    let after = listing_after(rt, alloc, Frame::Cut, body, &PIECES, NO_INPUT, LOOPED)?;
    assert_ne!(rt; after.as_str(), before.as_str(), "{body}");
    Ok(())
}

#[test]
fn a_condition_that_its_branch_changes_is_asked_again(rt: HostRuntime) -> Result<(), Fail> {
    let mut read = 0usize;
    for body in CHANGED.lines() {
        if is_line(body) {
            is_changed(&rt, rt.alloc(), body)?;
            read = read.saturating_add(1);
        }
    }
    all_read(&rt, read, 3);
    Ok(())
}
