//! Graphs in the Matrix Market format, by the whole call.

/// What is written for programs and images over such graphs.
pub const PATHS_OVER: &str = "
~ run - - root=1 --format mtx
%%MatrixMarket matrix coordinate integer general
% demo
3 3 3
1 2 4
1 3 1
3 2 2
=>
node dist
1 0
2 3
3 1
turns 3
~ run - - root=1 --format mtx
%%MatrixMarket matrix coordinate integer general
% demo
3 3 4
1 2 4
1 3 1
3 2 2
=>
graph CountDiffers at line 7
~ run - - root=1 --format mtx
%%MatrixMarket matrix coordinate integer symmetric
% demo
3 3 3
1 2 4
1 3 1
3 2 2
=>
graph Unsupported at line 1
~ run - - --format=mtx root=3
%%matrixmarket MATRIX Coordinate Integer GENERAL\r
\r
2 4 1 surplus\r
2 3 -4 surplus\r
=>
node dist
1 2147483647
2 2147483647
3 0
4 2147483647
turns 1
~ run - - root=1 --format mtx
0 1 4
=>
graph BadHeader at line 1
~ run - - root=1 --format edges
%%MatrixMarket matrix coordinate integer general
1 1 0
=>
graph BadLine at line 1
~ run - - root=1 --format mtx
%%MatrixMarket matrix coordinate pattern general
3 3 1
1 2 4
=>
graph MissingColumn at line 3
~ run - - root=1 --format mtx
%%MatrixMarket matrix coordinate integer general
3 3 1
0 2 4
=>
graph OutOfRange at line 3
~ run - - root=1 --format mtx
%%MatrixMarket matrix coordinate integer general
3 3 1
1 2 4.5
=>
graph BadLine at line 3
~ run - - root=1 --format mtx
%%MatrixMarket matrix coordinate integer general
4000001 1 16000001
=>
graph TooManyNodes at line 2
~ run - - root=1 --format mtx
%%MatrixMarket matrix coordinate integer general
1 4000000 16000001
=>
graph TooManyEdges at line 2
~ run - - root=4 --format mtx
%%MatrixMarket matrix coordinate integer general
3 3 0
=>
argument NoSuchNode root
";

/// The same graphs twice: as an edge list with nodes from 0, and as a matrix, whose rows and columns count from 1.
pub const PAIRS: &str = "
~
0 1 4
0 2 1
2 1 2
=>
%%MatrixMarket matrix coordinate integer general
3 3 3
1 2 4
1 3 1
3 2 2
~
# a graph
3 0 7
3 0 -7
0 0 1
0 1 2
v 2
=>
%%MatrixMarket matrix coordinate integer general
% a graph
4 2 4
4 1 7
4 1 -7
1 1 1
1 2 2
~
v 0
=>
%%MatrixMarket matrix coordinate integer general
1 0 0
~
0 11 1
0 2 2
2 3 3
3 4 4
4 5 5
5 6 6
6 7 7
7 8 8
8 9 9
9 10 10
v 1
=>
%%MatrixMarket matrix coordinate integer general
11 12 10
1 12 1
1 3 2
3 4 3
4 5 4
5 6 5
6 7 6
7 8 7
8 9 8
9 10 9
10 11 10
";

/// The shortest paths from a root.
pub const PATHS: &str = "Procedure sssp(G: Graph, root: Node, len: E_P<Int>; dist: N_P<Int>) {
  N_P<Int> next;
  N_P<Bool> on;
  Bool fin = False;
  G.dist = (G == root) ? 0 : INF;
  G.next = G.dist;
  G.on = (G == root);
  While (!fin) {
    Foreach (n: G.Nodes) (n.on) {
      Foreach (s: n.Nbrs) {
        Edge e = s.ToEdge();
        s.next min= n.dist + e.len;
      }
    }
    G.on = G.next < G.dist;
    G.dist = G.next;
    fin = !Exist(n: G.Nodes) {n.on};
  }
}
%%
";

pub const DEGREES_OVER: &str = "
~ exec - - --format mtx
%%MatrixMarket matrix coordinate pattern general
2 3 4
1 2
2 2
1 3
1 2
=>
node s
1 0
2 3
3 1
supersteps 2 messages 4 turns 0
~ exec - - --format mtx
%%MatrixMarket matrix coordinate real general
2 3 1
1 2 0.5
=>
graph Unsupported at line 1
";
