//! Locals of bodies from which a part is cut, kept in properties.

use crate::passes::KEEPING;
use crate::runs::{Frame, all_run_same};
use std::test::Fail;

/// Bodies with locals that are set before a part that is cut, and some that are read or reduced behind it.
pub const BODIES: &str = "
Foreach (n: G.Nodes) { Int m = n.OutDegree(); Foreach (t: n.Nbrs) { t.b += m; } n.a = m + 1; }
Foreach (n: G.Nodes) { Int m; Foreach (t: n.Nbrs) { m += 1; } n.a = m; Foreach (t: n.InNbrs) { t.b += m; } }
Do { Foreach (n: G.Nodes) { Int m; Bool o; m = m + n.a + 1; Foreach (t: n.Nbrs)(!o) { t.b += m; } o = True; n.a = m; n.f = o; } x = x + 1; } While (x < 3);
Foreach (n: G.Nodes) { If (n.OutDegree() > 1) { Int m = 7; Foreach (t: n.Nbrs) { t.b max= n.a; m min= t.OutDegree(); } n.c = m; } Else { Int i = 5; n.a = i; } }
Foreach (n: G.Nodes) { n.r = n; } Foreach (n: G.Nodes) { Node u = n.r; Int m = n.a + 4; u.b += m; n.c = m; }
Foreach (n: G.Nodes) { Node u = n; Foreach (t: n.Nbrs)(t != u) { t.b += 1; } n.r = u; }
Foreach (n: G.Nodes) { Int m = 9; Node u = NIL; Foreach (t: n.Nbrs) { <m; u> min= <t.OutDegree(); t>; } n.a = m; n.r = u; }
Foreach (n: G.Nodes) { Int m = 2147483647; Foreach (t: n.Nbrs) { t.b += n.OutDegree(); } n.a = m + n.OutDegree(); }
Foreach (n: G.Nodes) { Int m = 1 / n.a; Foreach (t: n.Nbrs) { t.b += m; } }
Foreach (n: G.Nodes) { Int m = 3; Int i = m + 1; Foreach (t: n.Nbrs) { m += i; } n.a = m; n.b = i; }
For (n: G.Nodes) { Int m = x; Foreach (t: G.Nodes) { Int o = m + t.a; Foreach (u: t.InNbrs) { u.c max= o; } t.b = o; } x = x + 1; }
Foreach (n: G.Nodes) { Foreach (t: n.Nbrs) { Int m = t.a + 2; n.b += m; } Int o = n.OutDegree(); Foreach (t: n.InNbrs) { Int m = o + 1; t.c += m; } }
If (x == 0) { Foreach (n: G.Nodes) { Int m = n.OutDegree(); Foreach (t: n.Nbrs) { t.b += m; } n.a = m; } } Else { Foreach (n: G.Nodes) { Int m = 4; Foreach (t: n.InNbrs) { t.c += m; } } }
While (x < 3) { Foreach (n: G.Nodes) { Int m = x; Foreach (t: n.Nbrs) { t.a max= m; } n.b += m; } Foreach (n: G.Nodes) { Int i; Foreach (t: n.Nbrs) { i += t.b; } n.c = i; } x = x + 1; }
Foreach (n: G.Nodes) { Int m = 9; Int i = 8; Node u = NIL; Node v = NIL; Foreach (t: n.Nbrs) { <m; u> min= <t.OutDegree(); t>; <i; v> min= <t.InDegree(); t>; } n.a = m + i; n.r = v; n.f = u == v; }
Foreach (n: G.Nodes) { Int m = 9; Int i = 0; Node u = NIL; Foreach (t: n.Nbrs) { <m; u> min= <t.OutDegree(); t>; i += 1; } n.a = m + i; u.b += 1; }
Foreach (n: G.Nodes) { Int m = 9; Node u = NIL; Foreach (t: n.InNbrs) { <m; u> min= <t.OutDegree(); t>; } <n.b; n.r> max= <m; u>; n.c = m; }
Foreach (n: G.Nodes) { Int m = 9; Int i = 8; Foreach (t: n.Nbrs) { <n.b; n.c> min= <t.OutDegree(); i>; m += i; } n.a = m + i; }
";

#[test]
fn kept_locals_run_the_same(rt: HostRuntime) -> Result<(), Fail> {
    all_run_same(&rt, rt.alloc(), Frame::Cut, BODIES, 18, &KEEPING)
}
