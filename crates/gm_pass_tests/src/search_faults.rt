//! Faults in searches: which comes first, and in which turn.

use crate::runs::all_search_same;
use std::test::Fail;

const BODIES: &str = "
# Faults in filters, bodies and totals.
InBFS (v: G.Nodes From s) { v.a = 6 / (v.OutDegree() - 1); }
InBFS (v: G.Nodes From s) (6 / (v.OutDegree() - 2) < 1) { v.a = 1; }
InBFS (v: G.Nodes From s) (6 / (v.OutDegree() - 3) < 1) { ; }
InBFS (v: G.Nodes From s) { v.a = 1; } InReverse { v.b = 6 / (v.OutDegree() - 3); }
InBFS (v: G.Nodes From s) (1 / (v.OutDegree() - 1) < 2) { v.a = 1 / (v.InDegree() - 2); x += v.a; }
InBFS (v: G.Nodes From s) { Foreach (w: v.UpNbrs) (6 / (w.OutDegree() - 2) < 1) { v.c max= 1; } }
InBFS (v: G.Nodes From s) { Foreach (w: v.DownNbrs) { v.c max= 6 / (w.OutDegree() - 1); } }
x = INF; InBFS (v: G.Nodes From s) (v != s) { x += 1; }
InBFS (v: G.Nodes From s) { Node t = v.r; t.c += 1; }
InBFS (v: G.Nodes From s) { Foreach (w: v.UpNbrs) { v.c += INF; } }
y = 1 / x; InBFS (v: G.Nodes From s) { v.a = 1; }
";

#[test]
fn faults_in_searches_run_the_same(rt: HostRuntime) -> Result<(), Fail> {
    all_search_same(&rt, rt.alloc(), BODIES, 11)
}
