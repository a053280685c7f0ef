//! Argument reductions in loops, whose targets are reduced to together: whether they race, and their accesses. The rows
//! were worked out by hand from the rules in `docs/LANGUAGE.md`.

use crate::accesses::listings_hold;
use crate::races::HEAD;
use crate::verdicts::statements_hold;
use std::test::Fail;

// Whether they race.
const VERDICTS: &str = "
Foreach (n: G.Nodes) { Foreach (t: n.Nbrs) { <t.p; t.q> min= <n.v; 1>; <t.p; t.q> min= <n.v; 2>; } } => accepted
Foreach (n: G.Nodes) { Foreach (t: n.Nbrs) { <t.p; t.r> min= <n.v; c>; t.q min= 1; } } => accepted
Foreach (n: G.Nodes) { Foreach (t: n.Nbrs) { <t.p; t.q> min= <n.v; 1>; } Foreach (u: n.InNbrs) { <n.p; n.q> min= <u.v; 2>; } } => accepted
Foreach (n: G.Nodes) { Foreach (t: n.Nbrs) { <n.p; n.q> max= <t.v; 1>; } Foreach (u: n.Nbrs) { n.p min= u.v; } } => accepted
Foreach (n: G.Nodes) { <n.p; n.q> min= <n.v; n.q>; n.p += n.q; } => accepted
Foreach (n: G.Nodes) { <a; s> max= <n.v; n>; } => accepted
Foreach (n: G.Nodes) { <a; s> max= <n.v; n>; } Foreach (n: G.Nodes) { a min= n.v; } => accepted
<a; b> min= <3; b>; <a; b> max= <a; 4>; a += 1; => accepted
# R3: another list of targets, another word, or one target alone
Foreach (n: G.Nodes) { Foreach (t: n.Nbrs) { <t.p; t.q> min= <n.v; 1>; <t.q; t.p> min= <n.v; 2>; } } => R3 at 2:73
Foreach (n: G.Nodes) { Foreach (t: n.Nbrs) { <t.p; t.q> min= <n.v; 1>; <t.p; t.q> max= <n.v; 1>; } } => R3 at 2:73
Foreach (n: G.Nodes) { Foreach (t: n.Nbrs) { <t.p; t.q> min= <n.v; 1>; <t.p; t.r> min= <n.v; c>; } } => R3 at 2:73
Foreach (n: G.Nodes) { Foreach (t: n.Nbrs) { <t.p; t.q> min= <n.v; 1>; <t.p; t.q, t.r> min= <n.v; 1, c>; } } => R3 at 2:73
Foreach (n: G.Nodes) { Foreach (t: n.Nbrs) { <t.p; t.q> min= <n.v; 1>; t.p min= 1; } } => R3 at 2:72
Foreach (n: G.Nodes) { Foreach (t: n.Nbrs) { t.q max= 1; <t.p; t.q> max= <n.v; 1>; } } => R3 at 2:64
Foreach (n: G.Nodes) { Foreach (t: n.Nbrs) { <t.p; t.q> min= <n.v; 1>; } Foreach (u: n.InNbrs) { n.q min= u.v; } } => R3 at 2:98
Foreach (n: G.Nodes) { Foreach (t: n.Nbrs) { <n.p; n.q> max= <t.v; 1>; n.p max= t.v; } } => R3 at 2:72
Foreach (n: G.Nodes) { <a; b> min= <n.v; 1>; b min= 3; } => R3 at 2:46
# R2: a target is read, or written at its own node
Foreach (n: G.Nodes) { Foreach (t: n.Nbrs) { <t.p; t.q> min= <n.q; 1>; } } => R2 at 2:63
Foreach (n: G.Nodes) { Foreach (t: n.Nbrs) { <t.p; t.q> min= <1; t.p>; } } => R2 at 2:66
Foreach (n: G.Nodes) { Foreach (t: n.Nbrs) { <n.p; n.q> max= <t.v; n.q>; } } => R2 at 2:68
Foreach (n: G.Nodes) { Foreach (t: n.Nbrs) { <t.p; t.q> min= <n.v; 1>; } n.q = 1; } => R2 at 2:74
Foreach (n: G.Nodes) { <a; b> min= <n.v; a>; } => R2 at 2:42
# R1, R5 and R6
Foreach (n: G.Nodes) { <n.p; n.q> min= <n.v; Sum(t: n.Nbrs) {t.q}>; } => R1 at 2:62
Foreach (n: G.Nodes) { <a; b> min= <n.v; 1>; b = 3; } => R5 at 2:46
Foreach (n: G.Nodes) { n.q <= 1; Foreach (t: n.Nbrs) { <t.p; t.q> min= <n.v; 1>; } } => R6 at 2:62
";

// Their accesses: place, loop and inner loop, variable, kind.
const ACCESSES: &str = "
Foreach (n: G.Nodes) { Foreach (t: n.Nbrs) { <t.p; t.q> min= <n.v; t.v>; } } => 2:47 1.2 p PushReduce(Min p q); 2:52 1.2 q PushReduce(Min p q); 2:63 1.2 v OwnRead; 2:68 1.2 v OtherRead
Foreach (n: G.Nodes) { <n.p; n.q> max= <n.v; (c ? 1 : 2)>; } => 2:25 1.0 p OwnRead; 2:25 1.0 p OwnWrite; 2:30 1.0 q OwnRead; 2:30 1.0 q OwnWrite; 2:41 1.0 v OwnRead; 2:47 1.0 c OwnRead
";

#[test]
fn verdicts(rt: HostRuntime) -> Result<(), Fail> {
    statements_hold(&rt, HEAD, VERDICTS, 25)
}

#[test]
fn listings(rt: HostRuntime) -> Result<(), Fail> {
    listings_hold(&rt, ACCESSES, 2)
}
