//! Levels: which nodes a search visits, in which turns, and where it stands.

use crate::compare::{all_read, same};
use crate::passes::Pass;
use crate::runs::{DIAMOND, Frame, all_search_same, listing_after};
use gm_tables::parts_of;
use std::alloc::Global;
use std::process::Abort;
use std::test::Fail;

const BODIES: &str = "
# Parts, their filters and their bodies.
InBFS (v: G.Nodes From s) { v.a = 1; }
InBFS (v: G.Nodes From s) (v != s) { v.a = v.OutDegree(); x += 1; }
InBFS (v: G.Nodes From s) { v.a = 1; } InReverse { v.b = v.a + 1; x += 1; }
InBFS (v: G.Nodes From s) (v.OutDegree() > 1) { v.a = 1; } InReverse (v.a == 0) { v.b = 2; q ||= v == s; }
InBFS (v: G.Nodes From s) { ; } InReverse { v.a = 1; }
InBFS (v: G.Nodes From s) (False) { ; } InReverse (v != s) { v.a = 1; }
InBFS (v: G.Nodes From s) { ; }
InBFS (v: G.Nodes From s) { v.a = 7; } InReverse { ; }
InBFS (v: G.Nodes From s) { If (v == s) { v.a = 1; } Else { v.b = 1; } }
# Searches among other statements, and none.
While (x < 5) { InBFS (v: G.Nodes From s) { x += 1; } }
Do { InBFS (v: G.Nodes From s) { x += 1; } InReverse { y += 1; } } While (x < 3);
For (n: G.Nodes) { InBFS (v: G.Nodes From n) { v.c += 1; } }
If (x == 0) { InBFS (v: G.Nodes From s) { v.a = 1; } } Else { InBFS (v: G.Nodes From s) { v.b = 1; } }
InBFS (v: G.Nodes From s) { v.a = 1; } InBFS (v: G.Nodes From s) (v.a == 1) { v.b = 2; } InReverse { v.c = v.b; }
Node n = s; InBFS (v: G.Nodes From n) { x += 1; } Return x;
Node n; InBFS (v: G.Nodes From n) { x += 1; }
x = 3; InBFS (v: G.Nodes From s) { y += 1; } If (y > 2) { Return y; } x = 4;
x = 1; G.a = 2;
";

#[test]
fn levels_run_the_same(rt: HostRuntime) -> Result<(), Fail> {
    all_search_same(&rt, rt.alloc(), BODIES, 18)
}

// The words, a body and what is written of its run over the diamond, in which four levels are reached from node 0.
const ENDINGS: &str = "
~ run - - s=0 --turns 8
InBFS (v: G.Nodes From s) { x += 1; } InReverse { y += 1; }=>
x = 5
y = 5
q = False
m = NIL
return = 0
node a b c f r
0 0 0 0 False NIL
1 0 0 0 False NIL
2 0 0 0 False NIL
3 0 0 0 False NIL
4 0 0 0 False NIL
turns 8
~ run - - s=0 --turns 7
InBFS (v: G.Nodes From s) { x += 1; } InReverse { y += 1; }=>
cut after 7 turns
~ run - - s=0 --turns 3
InBFS (v: G.Nodes From s) { x += 1; }=>
cut after 3 turns
~ run - - s=0
Node n; InBFS (v: G.Nodes From n) { v.a = 1; }=>
fault NilNode at 2:32
";

// Whether the run of a body without its searches is written so.
fn ends_so(rt: &impl Abort, alloc: Global, row: &str) -> Result<(), Fail> {
    let (line, body, wanted) = parts_of(row)?;
    let passes = [Pass::BfsOut];
    let written = listing_after(rt, alloc, Frame::Rooted, body, &passes, line, DIAMOND)?;
    same(rt, written.as_str(), wanted, row);
    Ok(())
}

#[test]
fn searches_end_so(rt: HostRuntime) -> Result<(), Fail> {
    let mut read = 0usize;
    for row in ENDINGS.split('~') {
        if row.len() > 1 {
            ends_so(&rt, rt.alloc(), row)?;
            read = read.saturating_add(1);
        }
    }
    all_read(&rt, read, 4);
    Ok(())
}
