//! Bodies of procedures: what is written of their programs is written of their images.

use crate::compare::all_read;
use crate::listings::program_listing;
use crate::runs::images_do;
use gm_tables::is_row;
use std::alloc::{AllocError, Global};
use std::process::Abort;
use std::sync::Wait;
use std::test::Fail;
use std::thread::Threads;

// What stands before a body, and the graph that its procedure is run over.
struct Frame {
    head: &'static str,
    graph: &'static str,
}

// Properties have values. There are two edges from 0 to 1, one from 1 to 2, one from 2 to itself, and one each from 2 to 0 and
// to 3.
const FILLED: Frame = Frame {
    head: "Procedure p(G: Graph, w: E_P<Int>; a, b, x, y: N_P<Int>, f, g: N_P<Bool>, r: N_P<Node>, s: Int, q: Bool) {\nForeach (n: G.Nodes) { n.a = n.OutDegree() * 3 - 2; n.b = n.InDegree() - 1; n.f = n.OutDegree() > 1; n.g = n.InDegree() > 0; }",
    graph: "0 1 0\n0 1 1\n1 2 2\n2 2 3\n2 0 4\n2 3 5\n",
};

// They have none yet. The graph is a cycle 0, 1, 2 with two edges from 2 to 3, and one from 3 to itself.
const EMPTY: Frame = Frame {
    head: "Procedure p(G: Graph, w: E_P<Int>; a, b, c: N_P<Int>, f: N_P<Bool>, r: N_P<Node>, x: Int, q: Bool) {",
    graph: "0 1 0\n1 2 1\n2 0 2\n2 3 3\n2 3 4\n3 3 5\n",
};

// Inner loops that give to the outer node and to scalars, under filters of both nodes.
const GIVING: &str = "
Foreach (n: G.Nodes) { Foreach (t: n.InNbrs) { n.x += t.a; } }
Foreach (n: G.Nodes) { Foreach (t: n.Nbrs) { n.x += t.a; } }
Foreach (n: G.Nodes)(n.f) { Foreach (t: n.InNbrs) { n.x += t.a; } }
Foreach (n: G.Nodes)(n.g) { Foreach (t: n.Nbrs)(t.f || n.f) { n.x max= t.a - n.b; } }
Foreach (n: G.Nodes) { Foreach (t: n.InNbrs) { n.x += t.a; n.y max= t.b; s += t.a; q ||= t.f && n.g; } }
Foreach (n: G.Nodes) { Foreach (t: n.InNbrs) { n.g &&= t.f; } }
Foreach (n: G.Nodes) { Foreach (t: n.Nbrs) { n.g ||= t.f; n.x min= t.InDegree() - 9; } }
Foreach (n: G.Nodes) { Foreach (t: n.InNbrs) { <n.x; n.r> min= <t.a - 9; t>; } }
Foreach (n: G.Nodes)(n.f) { Foreach (t: n.InNbrs)(t.g) { <n.x; n.r> max= <t.a; t>; s += t.b; } }
Foreach (n: G.Nodes)(n.a > 1) { Foreach (t: n.InNbrs) { n.x += t.a; } }
Foreach (n: G.Nodes)(n.f && n.InDegree() < 2 || n.r != n) { Foreach (t: n.Nbrs)(t.g) { n.x += t.a; s += t.b; } }
s = 2; Foreach (n: G.Nodes)(n.a > s) { Foreach (t: n.InNbrs) { n.x += 6 / (t.b + 1); } }
Node m = NIL; Foreach (n: G.Nodes)(n != m && !n.g) { Foreach (t: n.InNbrs) { n.y max= t.b - n.a; } }
";

// Values of edges, locals and conditions in inner loops.
const INNER: &str = "
Foreach (n: G.Nodes) { Foreach (t: n.InNbrs) { Edge e = t.ToEdge(); n.x += e.w * t.a; } }
Foreach (n: G.Nodes) { Foreach (t: n.InNbrs) { Edge e = t.ToEdge(); <n.y; n.r> min= <e.w - 9; t>; } }
Foreach (n: G.Nodes)(n.f) { Foreach (t: n.InNbrs) { Edge e = t.ToEdge(); s += e.w; } }
Foreach (n: G.Nodes) { Foreach (t: n.InNbrs) { Int i = t.a * 2; If (i > 3) { n.x += i; } Else { n.y += n.a; } } }
Foreach (n: G.Nodes) { Foreach (t: n.Nbrs) { Int i; Int j = t.a; If (t.f) { i = j; j = j - 1; } n.x += i * j; } }
Foreach (n: G.Nodes) { Foreach (t: n.InNbrs) { If (t.f) { If (n.g) { n.x += 1; } } Else { n.x += t.b; s max= t.a; } } }
";

// Faults in filters, values and totals, and such as conditions leave out.
const FAULTS: &str = "
Foreach (n: G.Nodes) { Foreach (t: n.InNbrs) { n.x += 6 / t.b; } }
Foreach (n: G.Nodes) { Foreach (t: n.InNbrs)(t.b != 0) { n.x += 6 / t.b; } }
Foreach (n: G.Nodes)(n.f) { Foreach (t: n.InNbrs) { n.x += 6 / (t.a - n.a); } }
Foreach (n: G.Nodes)(n.f) { Foreach (t: n.Nbrs)(6 / (t.a + 2) > 0) { n.x += 1; } }
Foreach (n: G.Nodes)(n.g) { Foreach (t: n.Nbrs)(6 / t.b > 0) { n.x += 1; } }
Foreach (n: G.Nodes) { Foreach (t: n.InNbrs) { n.x += t.a * 2147483647; } }
Foreach (n: G.Nodes) { Foreach (t: n.InNbrs) { n.x += 6 / t.b; n.y += t.a * 2147483647; } }
Foreach (n: G.Nodes) { Foreach (t: n.InNbrs) { n.y += t.a * 2147483647; n.x += 6 / t.b; } }
Foreach (n: G.Nodes) { Foreach (t: n.InNbrs) { n.x += 1073741823 + t.a; s += 1000000000; } }
Foreach (n: G.Nodes) { n.x = 2147483646; } Foreach (n: G.Nodes)(n.g) { Foreach (t: n.InNbrs) { n.x += t.a; } }
Foreach (n: G.Nodes) { Foreach (t: n.InNbrs) { If (t.b == 0) { n.x += 6 / t.b; } } }
";

// Loops in sequential phases.
const PHASES: &str = "
While (s < 3) { Foreach (n: G.Nodes) { Foreach (t: n.InNbrs) { n.x += t.a; } } Foreach (n: G.Nodes) { n.a = n.x; } s = s + 1; }
Do { Foreach (n: G.Nodes)(n.f) { Foreach (t: n.Nbrs) { n.x += t.b; } } s = s + 1; } While (s < 4);
If (s == 0) { Foreach (n: G.Nodes) { Foreach (t: n.InNbrs) { n.x += t.a; } } } Else { Foreach (n: G.Nodes) { Foreach (t: n.InNbrs) { n.x += t.b; } } }
For (m: G.Nodes) { Foreach (n: G.Nodes) { Foreach (t: n.InNbrs) { n.x += t.a; } } }
Foreach (n: G.Nodes) { Foreach (t: n.InNbrs) { n.x += t.a; } } Foreach (n: G.Nodes) { Foreach (t: n.Nbrs) { n.y += t.x; } } s = 1 / s;
";

// Bodies that push and pull under conditions that they change, leaves that fault in the order of the text, and values of edges
// along the message and against it.
const MIXED: &str = "
Foreach (n: G.Nodes)(n.a < 2) { n.a = n.a + 1; Foreach (t: n.Nbrs) { t.b += n.a; n.c max= t.OutDegree(); } }
Foreach (n: G.Nodes) { If (n.a == 0) { n.a = 1; Foreach (t: n.Nbrs) { t.b += 1; n.c += t.OutDegree(); } } Else { n.f = True; } }
Foreach (n: G.Nodes) { If (n.a == 0) { If (n.OutDegree() > 1) { n.a = 3; Foreach (t: n.Nbrs) { t.b max= n.a; } } Else { Foreach (t: n.InNbrs) { n.c += t.OutDegree(); } } } }
Foreach (n: G.Nodes) { n.c = 4 / (n.OutDegree() - 1); Foreach (t: n.Nbrs) { t.b += 1; } }
Foreach (n: G.Nodes) { Foreach (t: n.Nbrs) { t.b += 6 / t.a; } n.c = 1 / n.a; }
Foreach (n: G.Nodes) { n.a = 2 - n.OutDegree(); } Foreach (n: G.Nodes) { Foreach (t: n.Nbrs) { n.c += 3 / t.a; t.b += 3 / n.a; } }
Foreach (n: G.Nodes)(2 / n.OutDegree() > 1) { n.a = 1; Foreach (t: n.Nbrs) { t.b += 1; } }
Foreach (n: G.Nodes) { Foreach (t: n.Nbrs) { Edge e = t.ToEdge(); t.b += e.w; n.c += e.w * 2; } }
Foreach (n: G.Nodes) { Int m = n.OutDegree(); Foreach (t: n.Nbrs) { Edge e = t.ToEdge(); If (e.w > 2) { t.b += 1; } Else { n.c += e.w; m += 1; } } n.a = m; }
Foreach (n: G.Nodes) { n.b = n.OutDegree(); } Foreach (n: G.Nodes) { Foreach (t: n.Nbrs)(t.b > 0) { If (n.b > t.b) { t.a += 1; } Else { If (t.b > 1) { n.c += t.b; } } } }
Foreach (n: G.Nodes) { Bool o = n.OutDegree() > 1; If (o) { Foreach (t: n.Nbrs) { t.b += 1; } o = False; } If (!o) { Foreach (t: n.InNbrs) { n.c += t.OutDegree(); } n.a = 1; } }
While (x < 3) { Foreach (n: G.Nodes)(n.a <= x) { n.a = n.a + 1; Foreach (t: n.Nbrs) { t.b += n.a; n.c += t.OutDegree(); } } x = x + 1; }
For (n: G.Nodes) { Foreach (t: G.Nodes)(t != n) { Int m = x; Foreach (u: t.Nbrs) { u.b += m; t.c += u.OutDegree(); } t.a = m; } x = x + 1; }
";

// Writes that are deferred, and are read later or not.
const DEFERRED: &str = "
Foreach (n: G.Nodes) { If (n.a < 1) { n.a <= n.a + 1 @ n; Foreach (t: n.InNbrs)(t.a == 0) { n.b += 1; } } }
While (x < 3) { Foreach (n: G.Nodes) { n.a <= n.b + 1 @ n; n.b <= n.a + 1 @ n; } x = x + 1; }
Foreach (n: G.Nodes) { n.a = n.OutDegree(); } Foreach (n: G.Nodes) { Int m = 0; Foreach (t: n.Nbrs) { m += t.a; } n.a <= m @ n; n.b = n.a; }
Foreach (n: G.Nodes) { n.a <= 3 @ n; n.a <= n.a + 4 @ n; }
Foreach (n: G.Nodes) { n.a <= 1 / n.b @ n; n.b = 2; }
";

// Writes at nodes that are neither the loop's nor their neighbours, some of which fault.
const RANDOM: &str = "
Foreach (n: G.Nodes) { n.r = n; } Foreach (n: G.Nodes) { Node u = n.r; u.b += n.OutDegree(); Foreach (t: n.Nbrs) { t.c += 1; n.a += t.OutDegree(); } }
Foreach (n: G.Nodes) { n.r = n; } Foreach (n: G.Nodes) { Node u = n.r; If (n.OutDegree() > 1) { u.b += 3; } Else { u = NIL; } u.c += 1; n.a = 5; }
Foreach (n: G.Nodes) { n.r = n; n.b = n.OutDegree(); } Foreach (n: G.Nodes) { Node u = n.r; u.b += 2147483647; n.c = 1 / n.a; }
Foreach (n: G.Nodes) { n.r = n; } Foreach (n: G.Nodes) { Node u = n.r; u.b += 1; n.c = 6 / n.OutDegree(); Foreach (t: n.Nbrs) { t.a += 1; } }
Foreach (n: G.Nodes) { n.r = n; } Foreach (n: G.Nodes) { Node u = n.r; n.a <= n.b + 1 @ n; u.c += n.a; }
";

// Tuples of which the lesser or the greater one is kept, at both ends of edges, at a node itself and at scalars.
const TUPLES: &str = "
Foreach (n: G.Nodes) { Foreach (t: n.Nbrs) { <t.a; t.r> max= <n.OutDegree(); n>; <n.b; n.c> min= <t.OutDegree(); 7>; } }
Foreach (n: G.Nodes) { If (n.a == 0) { Foreach (t: n.Nbrs) { <t.b; t.c> max= <n.OutDegree(); n.a + 2>; } } }
Foreach (n: G.Nodes) { Int m = 9; Node u = NIL; Foreach (t: n.Nbrs) { <m; u> min= <t.OutDegree(); t>; } n.a = m; n.r = u; }
Foreach (n: G.Nodes) { Int m = 9; Int i = 0; Node u = NIL; Foreach (t: n.Nbrs) { <m; u> min= <t.OutDegree(); t>; i += 1; } n.a = m + i; u.b += 1; }
Foreach (n: G.Nodes) { Int m = 9; Node u = NIL; Foreach (t: n.InNbrs) { <m; u> min= <t.OutDegree(); t>; } <n.b; n.r> max= <m; u>; n.c = m; }
Node m = NIL; x = 9; Foreach (n: G.Nodes) { <x; m> min= <n.OutDegree(); n>; } m.c = x;
";

// The text of a procedure with a body.
fn text_of(alloc: Global, frame: &Frame, body: &str) -> Result<String, AllocError> {
    let head = frame.head;
    format!(in alloc; "{head}\n{body}\n}}")
}

// Whether the images of a program do what the program does.
fn images_agree(
    rt: &(impl Abort + Threads + Wait + Sync),
    alloc: Global,
    text: &str,
    graph: &str,
) -> Result<(), Fail> {
    let wanted = program_listing(alloc, "", text, graph)?;
    images_do(rt, alloc, "", text, graph, wanted.as_str())
}

// The same of a body.
fn body_holds(
    rt: &(impl Abort + Threads + Wait + Sync),
    alloc: Global,
    frame: &Frame,
    body: &str,
) -> Result<(), Fail> {
    let text = text_of(alloc, frame, body)?;
    images_agree(rt, alloc, text.as_str(), frame.graph)
}

// The same of so many bodies.
fn bodies_hold(
    rt: &(impl Abort + Threads + Wait + Sync),
    alloc: Global,
    frame: &Frame,
    bodies: &str,
    count: usize,
) -> Result<(), Fail> {
    let mut read = 0usize;
    for body in bodies.lines() {
        if is_row(body) {
            body_holds(rt, alloc, frame, body)?;
            read = read.saturating_add(1);
        }
    }
    all_read(rt, read, count);
    Ok(())
}

#[test]
fn loops_that_give_run_as_images(rt: HostRuntime) -> Result<(), Fail> {
    bodies_hold(&rt, rt.alloc(), &FILLED, GIVING, 13)
}

#[test]
fn inner_bodies_run_as_images(rt: HostRuntime) -> Result<(), Fail> {
    bodies_hold(&rt, rt.alloc(), &FILLED, INNER, 6)
}

#[test]
fn faults_are_those_of_images(rt: HostRuntime) -> Result<(), Fail> {
    bodies_hold(&rt, rt.alloc(), &FILLED, FAULTS, 11)
}

#[test]
fn phases_run_as_images(rt: HostRuntime) -> Result<(), Fail> {
    bodies_hold(&rt, rt.alloc(), &FILLED, PHASES, 5)
}

#[test]
fn mixed_bodies_run_as_images(rt: HostRuntime) -> Result<(), Fail> {
    bodies_hold(&rt, rt.alloc(), &EMPTY, MIXED, 13)
}

#[test]
fn deferred_writes_run_as_images(rt: HostRuntime) -> Result<(), Fail> {
    bodies_hold(&rt, rt.alloc(), &EMPTY, DEFERRED, 5)
}

#[test]
fn writes_at_other_nodes_run_as_images(rt: HostRuntime) -> Result<(), Fail> {
    bodies_hold(&rt, rt.alloc(), &EMPTY, RANDOM, 5)
}

#[test]
fn tuples_run_as_images(rt: HostRuntime) -> Result<(), Fail> {
    bodies_hold(&rt, rt.alloc(), &EMPTY, TUPLES, 6)
}
