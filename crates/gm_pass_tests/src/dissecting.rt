//! Bodies of loops cut into loops with one way each, by all passes one after another and in one call.

use crate::passes::{DISSECTED, DISSECTING};
use crate::runs::{Frame, all_run_same};
use crate::{branches, deferred, locals, pieces, slices};
use std::alloc::Global;
use std::process::Abort;
use std::test::Fail;

// Bodies that need several of the passes: what pushes and what pulls under conditions that they change, faults in the order
// of the text, writes that are deferred, writes at other nodes, values of edges, and tuples.
const MIXED: &str = "
Foreach (n: G.Nodes)(n.a < 2) { n.a = n.a + 1; Foreach (t: n.Nbrs) { t.b += n.a; n.c max= t.OutDegree(); } }
Foreach (n: G.Nodes) { If (n.a == 0) { n.a = 1; Foreach (t: n.Nbrs) { t.b += 1; n.c += t.OutDegree(); } } Else { n.f = True; } }
Foreach (n: G.Nodes) { If (n.a == 0) { If (n.OutDegree() > 1) { n.a = 3; Foreach (t: n.Nbrs) { t.b max= n.a; } } Else { Foreach (t: n.InNbrs) { n.c += t.OutDegree(); } } } }
Foreach (n: G.Nodes) { n.c = 4 / (n.OutDegree() - 1); Foreach (t: n.Nbrs) { t.b += 1; } }
Foreach (n: G.Nodes) { Foreach (t: n.Nbrs) { t.b += 6 / t.a; } n.c = 1 / n.a; }
Foreach (n: G.Nodes) { n.a = 2 - n.OutDegree(); } Foreach (n: G.Nodes) { Foreach (t: n.Nbrs) { n.c += 3 / t.a; t.b += 3 / n.a; } }
Foreach (n: G.Nodes)(1 / n.OutDegree() > 0) { n.a = 1; Foreach (t: n.Nbrs) { t.b += 1; } }
Foreach (n: G.Nodes) { If (n.a < 1) { n.a <= n.a + 1 @ n; Foreach (t: n.InNbrs)(t.a == 0) { n.b += 1; } } }
Foreach (n: G.Nodes) { n.r = n; } Foreach (n: G.Nodes) { Node u = n.r; u.b += n.OutDegree(); Foreach (t: n.Nbrs) { t.c += 1; n.a += t.OutDegree(); } }
Foreach (n: G.Nodes) { n.r = n; } Foreach (n: G.Nodes) { Node u = n.r; If (n.OutDegree() > 1) { u.b += 3; } Else { u = NIL; } u.c += 1; n.a = 5; }
Foreach (n: G.Nodes) { Foreach (t: n.Nbrs) { Edge e = t.ToEdge(); t.b += e.w; n.c += e.w * 2; } }
Foreach (n: G.Nodes) { Int m = n.OutDegree(); Foreach (t: n.Nbrs) { Edge e = t.ToEdge(); If (e.w > 2) { t.b += 1; } Else { n.c += e.w; m += 1; } } n.a = m; }
Foreach (n: G.Nodes) { n.b = n.OutDegree(); } Foreach (n: G.Nodes) { Foreach (t: n.Nbrs)(t.b > 0) { If (n.b > t.b) { t.a += 1; } Else { If (t.b > 1) { n.c += t.b; } } } }
Foreach (n: G.Nodes) { Foreach (t: n.Nbrs) { <t.a; t.r> max= <n.OutDegree(); n>; <n.b; n.c> min= <t.OutDegree(); 7>; } }
Foreach (n: G.Nodes) { Foreach (t: n.Nbrs) { x += 1; t.b += 1; n.c += 1; } n.a = 1; }
Foreach (n: G.Nodes) { Bool o = n.OutDegree() > 1; If (o) { Foreach (t: n.Nbrs) { t.b += 1; } o = False; } If (!o) { Foreach (t: n.InNbrs) { n.c += t.OutDegree(); } n.a = 1; } }
While (x < 3) { Foreach (n: G.Nodes)(n.a <= x) { n.a = n.a + 1; Foreach (t: n.Nbrs) { t.b += n.a; n.c += t.OutDegree(); } } x = x + 1; }
Do { Foreach (n: G.Nodes) { Int m = x; Foreach (t: n.Nbrs) { m += t.OutDegree(); t.b max= x; } n.a = m; } x = x + 1; } While (x < 3);
For (n: G.Nodes) { Foreach (t: G.Nodes)(t != n) { Int m = x; Foreach (u: t.Nbrs) { u.b += m; t.c += u.OutDegree(); } t.a = m; } x = x + 1; }
";

#[test]
fn mixed_bodies_run_the_same_after_each_pass(rt: HostRuntime) -> Result<(), Fail> {
    all_run_same(&rt, rt.alloc(), Frame::Cut, MIXED, 19, &DISSECTING)
}

#[test]
fn bodies_with_locals_run_the_same_after_each_pass(rt: HostRuntime) -> Result<(), Fail> {
    all_run_same(&rt, rt.alloc(), Frame::Cut, locals::BODIES, 18, &DISSECTING)
}

#[test]
fn bodies_in_pieces_run_the_same_after_each_pass(rt: HostRuntime) -> Result<(), Fail> {
    all_run_same(&rt, rt.alloc(), Frame::Cut, pieces::CUT, 17, &DISSECTING)?;
    all_run_same(&rt, rt.alloc(), Frame::Cut, pieces::CHANGED, 3, &DISSECTING)
}

#[test]
fn saved_conditions_run_the_same_after_each_pass(rt: HostRuntime) -> Result<(), Fail> {
    all_run_same(
        &rt,
        rt.alloc(),
        Frame::Cut,
        branches::BODIES,
        16,
        &DISSECTING,
    )
}

#[test]
fn deferred_writes_run_the_same_after_each_pass(rt: HostRuntime) -> Result<(), Fail> {
    all_run_same(
        &rt,
        rt.alloc(),
        Frame::Cut,
        deferred::BODIES,
        10,
        &DISSECTING,
    )
}

#[test]
fn inner_loops_run_the_same_after_each_pass(rt: HostRuntime) -> Result<(), Fail> {
    all_run_same(
        &rt,
        rt.alloc(),
        Frame::Filled,
        slices::SEVERAL,
        10,
        &DISSECTING,
    )
}

// Whether so many bodies of loops over a cycle run the same where they are dissected in one call.
fn all_dissect_same(
    rt: &impl Abort,
    alloc: Global,
    bodies: &str,
    count: usize,
) -> Result<(), Fail> {
    all_run_same(rt, alloc, Frame::Cut, bodies, count, &DISSECTED)
}

#[test]
fn bodies_are_dissected_in_one_call(rt: HostRuntime) -> Result<(), Fail> {
    all_dissect_same(&rt, rt.alloc(), MIXED, 19)?;
    all_dissect_same(&rt, rt.alloc(), locals::BODIES, 18)?;
    all_dissect_same(&rt, rt.alloc(), pieces::CUT, 17)?;
    all_dissect_same(&rt, rt.alloc(), pieces::CHANGED, 3)
}

#[test]
fn other_bodies_are_dissected_in_one_call(rt: HostRuntime) -> Result<(), Fail> {
    all_dissect_same(&rt, rt.alloc(), branches::BODIES, 16)?;
    all_dissect_same(&rt, rt.alloc(), deferred::BODIES, 10)?;
    all_run_same(
        &rt,
        rt.alloc(),
        Frame::Filled,
        slices::SEVERAL,
        10,
        &DISSECTED,
    )
}
