//! Reductions of parallel bodies as inner loops.

use crate::runs::all_desugar_same;
use std::test::Fail;

const BODIES: &str = "
# In loops and searches.
Foreach (n: G.Nodes) { n.a = 1 + Sum(t: n.Nbrs){t.OutDegree()} * Count(t: n.InNbrs)(t.OutDegree() > 1); }
Foreach (n: G.Nodes) { Int i = Max(t: n.Nbrs)(t.OutDegree() > 0){t.InDegree()}; n.b = i; }
Foreach (n: G.Nodes)(Exist(t: n.Nbrs){t.OutDegree() == 0}) { n.a = Product(t: n.InNbrs){t.OutDegree() + 1}; x += 1; }
Foreach (n: G.Nodes) { If (All(t: n.Nbrs)(t.f){t.OutDegree() > 0}) { n.a = 3; } Else { n.b = Count(t: n.Nbrs)(t.OutDegree() > 0){t.InDegree() > 0}; } }
Foreach (n: G.Nodes) { x += Sum(t: n.Nbrs){1}; y max= Min(t: n.InNbrs){t.OutDegree()}; }
Foreach (n: G.Nodes)(n.f && Count(t: n.InNbrs)(t.OutDegree() > 0) < 2) { n.f = Exist(t: n.Nbrs)(t.OutDegree() > 1); }
For (n: G.Nodes) { s = n; } InBFS (v: G.Nodes From s)(Count(t: v.Nbrs)(t.f) == 0) { v.a = Sum(t: v.UpNbrs){t.OutDegree()}; } InReverse (Exist(t: v.Nbrs){t.OutDegree() < 9}) { v.b = Sum(t: v.DownNbrs){t.InDegree()}; }
For (n: G.Nodes)(n.OutDegree() > 1) { InBFS (v: G.Nodes From n)(Exist(t: v.Nbrs){t.OutDegree() > 1}) { v.a = 1; x += 1; } InReverse { v.b = Sum(t: v.DownNbrs){t.a}; } }
# With faults.
Foreach (n: G.Nodes) { n.a = 1 / n.b + Sum(t: n.Nbrs){6 / t.b}; }
Foreach (n: G.Nodes) { n.a = Sum(t: n.Nbrs){2147483647}; x += 1 / n.b; }
Foreach (n: G.Nodes)(Sum(t: n.Nbrs){2147483647} > 1 / n.b) { n.a = 1; }
Foreach (n: G.Nodes) { n.a = Count(t: n.Nbrs)(6 / t.b > 0){7 / t.c > 0} / n.b; }
Foreach (n: G.Nodes) { If (n.OutDegree() > 1 || Exist(t: n.Nbrs){1 / t.b > 0}) { n.a = 1; } }
InBFS (v: G.Nodes From s)(Sum(t: v.Nbrs){1 / t.b} > 0) { v.a = 1; }
For (n: G.Nodes) { s = n; } InBFS (v: G.Nodes From s)(Sum(t: v.Nbrs){1} < 1 / v.b) { v.a = 1; }
For (n: G.Nodes) { InBFS (v: G.Nodes From n)(Sum(t: v.Nbrs){1} < 6 / v.OutDegree()) { v.a = 1; } }
For (n: G.Nodes)(n.OutDegree() == 0) { InBFS (v: G.Nodes From n)(Count(t: v.Nbrs) < 9) { v.a = 1; } s = n.r; InBFS (v: G.Nodes From s)(Exist(t: v.Nbrs){t.f}) { x += 1; } }
";

#[test]
fn inner_folds_run_the_same(rt: HostRuntime) -> Result<(), Fail> {
    all_desugar_same(&rt, rt.alloc(), BODIES, 17)
}
