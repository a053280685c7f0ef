//! Picks of the sequential phase, reductions by Min and Max that are done at once, onto scalars.

use crate::runs::all_desugar_same;
use std::test::Fail;

const BODIES: &str = "
# Of one value.
x min= -3; y max= 4; x min= y - 8;
x = 5; x max= 2 + Sum(n: G.Nodes){n.OutDegree()}; y min= x * 2 - Count(n: G.Nodes)(n.OutDegree() > 0);
For (n: G.Nodes) { s = n; s.a max= s.OutDegree(); n.b min= n.a - 2; s = n.r; }
For (n: G.Nodes) { s = n; n.a min= -1; s.a min= n.a - 1; x = n.a; }
For (n: G.Nodes) { n.l max= 4611686018427387904; n.l *= 1; z min= n.l - 1; }
y = 1; y min= y; y max= y; x min= INF; x max= -INF;
# Of tuples.
<x; y> min= <-1; y + 7>; <x; y> max= <3; x>;
<x; y> min= <y; x - 1>; <y; x> min= <x; y>;
For (n: G.Nodes) { <x; s> min= <n.InDegree() - 2; n>; }
For (n: G.Nodes) { <x; s> max= <n.OutDegree(); n>; }
For (n: G.Nodes) { s = n; <s.a; s.r> max= <s.OutDegree(); n>; <n.b; n.c> min= <n.a - 2; n.b + 1>; }
For (n: G.Nodes) { s = n; <s.b; s.a> min= <s.a - 1; s.b + 2>; <n.a; n.b> max= <s.b + 2; s.a>; }
For (n: G.Nodes) { <n.a; n.f, n.r> max= <1; (n.OutDegree() > 1), n>; <n.c; n.f> max= <0; (n.a > 5)>; }
# Tuples that tie.
For (n: G.Nodes) { <x; s> min= <0; n>; }
For (n: G.Nodes) { <x; s> max= <0; n>; }
For (n: G.Nodes) { <x; s> max= <1; n>; <y; s> min= <-1; n>; }
For (n: G.Nodes) { s = n; <n.a; n.r> min= <0; s>; <n.b; n.r> max= <0; nil>; }
<x; q> min= <0; True>; <x; q> max= <0; True>; <y; q> min= <0; False>;
For (n: G.Nodes) { n.r = n; <n.a; n.r, n.f> max= <0; nil, True>; }
# In turns.
While (x > -4) { x min= x - 1; For (n: G.Nodes) { <n.a; n.b> min= <x; n.a>; } }
Do { <x; y> max= <x + 1; y - x>; If (y < -3) { y max= -1; } Else { <y; x> min= <y; x - 1>; } } While (x < 5);
For (n: G.Nodes)(n.OutDegree() > 0) { s = n; s.a max= Sum(t: G.Nodes){t.a} + 1; If (s.a > 2) { Return; } }
Foreach (n: G.Nodes) { n.a = n.OutDegree(); } For (n: G.Nodes) { x max= n.a; Foreach (t: G.Nodes) { t.b max= x; } }
# With faults.
nil.a min= 3;
nil.a min= 1 / x;
<nil.a; nil.b> max= <1 / x; 2>;
<x; y> min= <1 / y; nil.a>;
<x; y> min= <nil.a; 1 / y>;
<x; y> max= <nil.a; Sum(n: G.Nodes){1 / n.a}>;
<x; y> max= <Sum(n: G.Nodes){1 / n.a}; nil.a>;
x min= 2147483647 + Sum(n: G.Nodes){n.OutDegree()};
For (n: G.Nodes) { s = n.r; <s.a; s.b> min= <1 / n.a; 2>; }
For (n: G.Nodes) { n.r = n; s = n.r; <s.a; s.b> min= <-1; s.b / s.c>; }
For (n: G.Nodes) { n.a min= -2147483647; n.a min= n.a - 2; }
y = 1; x min= y; nil.a max= y; y = 1 / x;
";

#[test]
fn picks_run_the_same(rt: HostRuntime) -> Result<(), Fail> {
    all_desugar_same(&rt, rt.alloc(), BODIES, 35)
}
