//! Reductions of the sequential phase as loops.

use crate::runs::all_desugar_same;
use std::test::Fail;

const BODIES: &str = "
# Of each word.
x = Sum(n: G.Nodes){n.OutDegree()};
Int i = Product(n: G.Nodes)(n.OutDegree() > 0){n.OutDegree() + 1}; x = i;
x = Min(n: G.Nodes){n.OutDegree()}; y = Max(n: G.Nodes)(n.OutDegree() > 1){n.OutDegree()};
x = Count(n: G.Nodes)(n.OutDegree() > 0){n.InDegree() > 1}; y = Count(n: G.Nodes)(n.f);
q = Exist(n: G.Nodes)(n.OutDegree() > 0){n.f}; x = All(n: G.Nodes){n.OutDegree() > 0} ? 1 : 2;
x = 3; x = Sum(n: G.Nodes){x}; x = Sum(n: G.Nodes)(x > 1){x} + x;
x = Sum(n: G.Nodes){Sum(t: n.Nbrs){t.OutDegree()} + Count(t: n.InNbrs)(t.OutDegree() > 1)};
x = Count(n: G.Nodes)(Exist(t: n.Nbrs){t.OutDegree() == 0}){All(t: n.InNbrs){t.OutDegree() > 0}};
# With faults.
x = Sum(n: G.Nodes)(1 / n.a > 0){6 / n.b};
x = Sum(n: G.Nodes)(n.OutDegree() > 1 || 1 / n.a > 0){2147483647};
x = Sum(n: G.Nodes){n.OutDegree() > 1 ? 1 / n.a : 2147483647};
x = Sum(n: G.Nodes){2147483647}; y = 1 / x;
x = Product(n: G.Nodes){65536} + 1 / x;
x = 6 / x + Sum(n: G.Nodes){1 / n.a};
x = Sum(n: G.Nodes){1 / n.a} / x;
x = Sum(n: G.Nodes){Sum(t: n.Nbrs){2147483647}};
x = Sum(n: G.Nodes)(Sum(t: n.Nbrs){2147483647} > 0){1 / n.a};
q = q && Exist(n: G.Nodes){1 / n.a > 0};
q = Count(n: G.Nodes)(n.OutDegree() > 0){1 / n.b > 0} > 0;
# In turns.
While (Count(n: G.Nodes)(n.a < 3) > 0) { Foreach (n: G.Nodes) { n.a += 1; } x = Sum(n: G.Nodes){n.a}; }
Do { x = Sum(n: G.Nodes){x + 1}; } While (x < 100 && Sum(n: G.Nodes){1 / n.a} > 0);
For (n: G.Nodes) { If (Sum(t: G.Nodes){t.a} < 2) { n.a = Max(t: G.Nodes){t.a} + 1; } Else { Return; } }
";

#[test]
fn folds_run_the_same(rt: HostRuntime) -> Result<(), Fail> {
    all_desugar_same(&rt, rt.alloc(), BODIES, 22)
}
