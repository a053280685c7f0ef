//! Programs with several kinds of what desugaring writes in simpler terms.

use crate::runs::all_desugar_same;
use std::test::Fail;

const BODIES: &str = "
# Without faults.
Foreach (n: G.Nodes) { n.a = Count(t: n.Nbrs) + Count(t: n.InNbrs)*2; n.f = Exist(t: n.Nbrs)(-1 < t.b) && Exist(t: n.InNbrs); }
x = Sum(n: G.Nodes)(Exist(t: n.Nbrs)){Count(t: n.InNbrs)(t.OutDegree() > -1)}; Foreach (n: G.Nodes)(n.OutDegree() < x) { n.a = x + Sum(t: n.Nbrs){t.OutDegree()}; }
G.b = -3; G.a = G.b * 2; x = Sum(n: G.Nodes){n.a - n.b}; If (Count(n: G.Nodes)(Exist(t: n.InNbrs)) > 1) { y = x; }
For (n: G.Nodes)(n.OutDegree() > 1) { s = n; n.a = 5; } InBFS (v: G.Nodes From s)(Exist(t: v.InNbrs)) { v.b = Sum(t: v.UpNbrs){t.OutDegree()}; }
For (n: G.Nodes)(n.OutDegree() > 1) { s = n; } While (x < 100) { x += 1; InBFS (v: G.Nodes From s)(Exist(t: v.Nbrs)) { v.b = x; } }
# With faults.
x = 1 / x + Sum(n: G.Nodes){6 / n.b};
Foreach (n: G.Nodes) { n.a = 1 / n.b + Sum(t: n.Nbrs){6 / t.b}; }
Foreach (n: G.Nodes) { n.a = Count(t: n.Nbrs)(-1 / t.b < 0) / n.b + Count(t: n.InNbrs); }
x = nil.a + Sum(n: G.Nodes){1};
q = False; q &&= Sum(n: G.Nodes){1} > 1 / x; y = 1;
Do { x += 1; } While (Sum(n: G.Nodes){1 / (x - 2)} < 9);
s = nil; InBFS (v: G.Nodes From s)(Count(t: v.Nbrs) > 1 / x) { v.a = 1; }
";

#[test]
fn programs_run_the_same(rt: HostRuntime) -> Result<(), Fail> {
    all_desugar_same(&rt, rt.alloc(), BODIES, 12)
}
