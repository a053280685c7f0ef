//! The worked programs of the language, with their graphs and words: what is written and the status.

use crate::calls::both_ways_hold;
use gm_rows::language::{BAD_INPUTS, PROGRAMS, WORKERS};
use std::test::Fail;

const SSSP: &str =
    "Procedure sssp(G: Graph, root: Node, len: E_P<Int>; dist: N_P<Int>) {\n  N_P<Int> next;\n  N_P<Bool> on;\n  Bool fin = False;\n  G.dist = (G == root) ? 0 : INF;\n  G.next = G.dist;\n  G.on = (G == root);\n  While (!fin) {\n    Foreach (n: G.Nodes) (n.on) {\n      Foreach (s: n.Nbrs) {\n        Edge e = s.ToEdge();\n        s.next min= n.dist + e.len;\n      }\n    }\n    G.on = G.next < G.dist;\n    G.dist = G.next;\n    fin = !Exist(n: G.Nodes) {n.on};\n  }\n}\n%%\n";

#[test]
fn workers(rt: HostRuntime) -> Result<(), Fail> {
    both_ways_hold(&rt, rt.alloc(), SSSP, WORKERS, 10)
}

#[test]
fn bad_inputs(rt: HostRuntime) -> Result<(), Fail> {
    both_ways_hold(&rt, rt.alloc(), SSSP, BAD_INPUTS, 15)
}

#[test]
fn programs(rt: HostRuntime) -> Result<(), Fail> {
    both_ways_hold(&rt, rt.alloc(), "", PROGRAMS, 33)
}
