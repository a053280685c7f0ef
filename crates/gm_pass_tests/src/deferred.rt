//! Deferred writes as writes at once to copies.

use crate::passes::CUTTING;
use crate::runs::{Frame, all_run_same};
use std::test::Fail;

/// Deferred writes.
pub const BODIES: &str = "
Foreach (n: G.Nodes) { n.a <= n.a + 1 @ n; n.b = n.a; }
Foreach (n: G.Nodes) { n.a = n.OutDegree(); } Foreach (n: G.Nodes) { Int m = 0; Foreach (t: n.Nbrs) { m += t.a; } n.a <= m @ n; n.b = n.a; }
Foreach (n: G.Nodes)(n.a < 1) { If (n.OutDegree() > 1) { n.a <= 7 @ n; } Else { n.a <= 6 / n.OutDegree() @ n; } }
While (x < 3) { Foreach (n: G.Nodes) { n.a <= n.b + 1 @ n; n.b <= n.a + 1 @ n; } x = x + 1; }
Foreach (n: G.Nodes) { Foreach (t: n.Nbrs) { t.b += n.a; } n.a <= n.a + n.OutDegree() @ n; }
Foreach (n: G.Nodes) { n.r <= n @ n; n.c = n.r == NIL ? 1 : 2; } Foreach (n: G.Nodes) { n.f <= n.r == n @ n; n.c = n.f ? 3 : n.c; }
Foreach (n: G.Nodes) { n.a <= 3 @ n; n.a <= n.a + 4 @ n; }
Foreach (n: G.Nodes) { n.a <= 1 / n.b @ n; n.b = 2; }
Foreach (n: G.Nodes) { Int m = 0; Foreach (t: n.InNbrs) { m max= t.a + t.OutDegree(); } n.a <= m @ n; }
Foreach (n: G.Nodes) { n.r = n; } Foreach (n: G.Nodes) { Node u = n.r; n.a <= n.b + 1 @ n; u.c += n.a; }
";

#[test]
fn deferred_writes_run_the_same(rt: HostRuntime) -> Result<(), Fail> {
    all_run_same(&rt, rt.alloc(), Frame::Cut, BODIES, 10, &CUTTING)
}
