//! What each pass takes out: it is there before the pass, and not after.

use crate::compare::all_read;
use crate::passes::{Pass, after, pass_named};
use crate::runs::{Frame, has_form_of, program_in};
use crate::trees::road_to;
use gm_tables::{is_line, sides};
use std::alloc::Global;
use std::process::Abort;
use std::test::Fail;

// A pass, and a body that has what it takes out.
const BODIES: &str = "
GroupsOut: If (x == 0) { G.a = 2; }
LiteralsOut: x = -1;
LiteralsOut: Foreach (n: G.Nodes)(n.a > -1) { n.a = 1; }
ConditionsOut: If (nil.a > 0) { x = 1; }
ConditionsOut: While (x < 3) { Do { x += 1; } While (nil.f); }
ConditionsOut: For (n: G.Nodes)(n.f) { x += 1; }
ReadsOut: x = 1 + nil.a;
ReadsOut: For (n: G.Nodes) { n.a = n.b; }
PicksOut: nil.a min= 3;
PicksOut: x max= nil.a;
PicksOut: <x; y> min= <nil.OutDegree(); Sum(n: G.Nodes){n.a}>;
PicksOut: For (n: G.Nodes) { If (n.a > 1) { <n.a; n.r> max= <n.b; n>; } }
PicksOut: While (x < 3) { Do { x max= nil.b; } While (y > 0); }
AccessesOut: x = nil.a;
AccessesOut: nil.a = x;
AccessesOut: For (n: G.Nodes) { n.a = n.b; }
AccessesOut: While (x < 3) { x = nil.OutDegree(); }
AccessesOut: If (nil.f) { nil.r = s; } Else { Do { s = s.r; } While (x > 0); }
FoldsOut: x = Sum(n: G.Nodes){n.a};
Desugar: x = Sum(n: G.Nodes){Sum(t: n.Nbrs){t.OutDegree()} + 1};
Desugar: While (Exist(n: G.Nodes)(Count(t: n.Nbrs) > x)) { x += 1; Foreach (n: G.Nodes)(Exist(t: n.Nbrs)) { n.a = Max(t: n.Nbrs){t.OutDegree()}; } }
Desugar: s = nil; InBFS (v: G.Nodes From s)(Count(t: v.Nbrs) > 0) { v.a = Sum(t: v.UpNbrs){1}; } InReverse (All(t: v.Nbrs){t.f}) { v.b = 1 + Count(t: v.DownNbrs); }
BfsOut: InBFS (v: G.Nodes From s) { Foreach (t: v.UpNbrs) { x += 1; } }
DeferredOut: Foreach (n: G.Nodes) { n.a <= 1; }
";

// Whether a body has, after some passes, the form of the results of a pass.
fn has_form_after(
    rt: &impl Abort,
    alloc: Global,
    frame: Frame,
    body: &str,
    passes: &[Pass],
    pass: Pass,
) -> Result<bool, Fail> {
    let program = after(alloc, passes, program_in(rt, alloc, frame, body)?)?;
    Ok(has_form_of(alloc, pass, &program)?)
}

// Sees that a body has this form after some passes, or that it has it not.
fn compare_form(
    rt: &impl Abort,
    alloc: Global,
    frame: Frame,
    body: &str,
    passes: &[Pass],
    pass: Pass,
    want: bool,
) -> Result<(), Fail> {
    let found = has_form_after(rt, alloc, frame, body, passes, pass)?;
    assert!(rt;
        found == want,
        "{want} of {pass:?} after {passes:?}: {body}"
    );
    Ok(())
}

// Whether a pass takes out what a body has.
fn is_taken_out(rt: &impl Abort, alloc: Global, pass: Pass, body: &str) -> Result<(), Fail> {
    let (frame, passes) = road_to(pass);
    let earlier = passes
        .get(..passes.len().saturating_sub(1))
        .unwrap_or(passes);
    compare_form(rt, alloc, frame, body, earlier, pass, false)?;
    compare_form(rt, alloc, frame, body, passes, pass, true)
}

// The same of a row.
fn row_is_taken_out(rt: &impl Abort, alloc: Global, row: &str) -> Result<(), Fail> {
    let (name, body) = sides(row, ": ")?;
    is_taken_out(rt, alloc, pass_named(alloc, name)?, body)
}

#[test]
fn passes_take_out_what_they_write_in_simpler_terms(rt: HostRuntime) -> Result<(), Fail> {
    let mut read = 0usize;
    for row in BODIES.lines() {
        if is_line(row) {
            row_is_taken_out(&rt, rt.alloc(), row)?;
            read = read.saturating_add(1);
        }
    }
    all_read(&rt, read, 24);
    Ok(())
}
