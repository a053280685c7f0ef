//! Neighbours on other levels, and what is read there while it is changed.

use crate::runs::all_search_same;
use std::test::Fail;

const BODIES: &str = "
# Neighbours above and below.
InBFS (v: G.Nodes From s) { Int u = 0; Int d = 0; Foreach (w: v.UpNbrs) { u += 1; } Foreach (w: v.DownNbrs) { d += 1; } v.a = u; v.b = d; }
InBFS (v: G.Nodes From s) { ; } InReverse { Int u = 0; Int d = 0; Foreach (w: v.UpNbrs) { u += 1; } Foreach (w: v.DownNbrs) { d += 1; } v.a = u; v.b = d; }
InBFS (v: G.Nodes From s) { Foreach (w: v.UpNbrs) { x += 1; } }
InBFS (v: G.Nodes From s) { Foreach (w: v.DownNbrs) { w.c += v.OutDegree(); } }
InBFS (v: G.Nodes From s) { ; } InReverse { Foreach (w: v.UpNbrs) { w.c += 1 + v.OutDegree(); } }
InBFS (v: G.Nodes From s) { Int k = 0; Foreach (t: v.Nbrs) { k += t.OutDegree(); } Foreach (t: v.InNbrs) { k += 1; } v.a = k; }
InBFS (v: G.Nodes From s) { If (v != s) { Foreach (w: v.UpNbrs) (w != s) { If (w.OutDegree() == 2) { v.c max= 3; } Else { v.c max= 2; } } } }
# Properties that are changed and read at other levels.
Foreach (n: G.Nodes) { n.a = n == s ? 1 : 0; } InBFS (v: G.Nodes From s) (v != s) { Int k = 0; Foreach (w: v.UpNbrs) { k += w.a; } v.a = k; }
InBFS (v: G.Nodes From s) { ; } InReverse { Int k = 0; Foreach (w: v.DownNbrs) { k += w.b + 1; } v.b = k; }
InBFS (v: G.Nodes From s) (v != s) { Int k = 0; Foreach (w: v.UpNbrs) { k max= w.a; } v.a = k + 1; } InReverse { Int k = 0; Foreach (w: v.DownNbrs) (w.b >= 0) { Int j = w.b * 2; k += w.a > 1 ? j : w.c - w.b; } v.b = k + 1; v.c = v.a; }
InBFS (v: G.Nodes From s) { Foreach (w: v.DownNbrs) { Int j; j = w.a + w.b; v.c += j; } v.a = 5; v.b = v.OutDegree(); }
InBFS (v: G.Nodes From s) { v.a = 1; Foreach (w: v.UpNbrs) { v.b += w.b + w.c + 1; } }
InBFS (v: G.Nodes From s) { v.a <= v.b + 1; Foreach (w: v.UpNbrs) { v.c max= w.a; } }
InBFS (v: G.Nodes From s) { Foreach (w: v.UpNbrs) { If (w.f && w.a == 0 || !w.f) { v.b max= 1 + w.b; } } v.f = v.b > 0; v.a = 3; }
InBFS (v: G.Nodes From s) { Foreach (w: v.UpNbrs) { <v.a; v.r> max= <w.b + 1; w>; } v.b = v.a; }
InBFS (v: G.Nodes From s) { <x; m> max= <v.OutDegree(); v>; }
InBFS (v: G.Nodes From s) { If (v != s) { v.a = 2; v.c = 1; } Else { v.b = 3; } Foreach (w: v.UpNbrs) { x += w.a + w.b; } }
";

#[test]
fn neighbours_run_the_same(rt: HostRuntime) -> Result<(), Fail> {
    all_search_same(&rt, rt.alloc(), BODIES, 17)
}
