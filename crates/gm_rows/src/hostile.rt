//! Streams and files that fail in each of their calls in turn, and graphs that are cut anywhere.

/// Calls that end in each way: the words, standard input, and what is written.
pub const ENDINGS: &str = "
~ run - -
Procedure add(G: Graph; p: N_P<Int>) { Foreach (n: G.Nodes) { n.p = n.p + 7; } }
%%
0 1
1 2
=>
node p
0 7
1 7
2 7
turns 0
~ run - -
Procedure add(G: Graph; p: N_P<Int>) { Foreach (n: G.Nodes) { n.p = n.p + 7; } }
%%
0 1
1 x
=>
graph BadLine at line 2
~ run - - k=1
Procedure add(G: Graph; p: N_P<Int>) { Foreach (n: G.Nodes) { n.p = n.p + 7; } }
%%
=>
argument Unknown k
~ run - nofile
Procedure add(G: Graph; p: N_P<Int>) { Foreach (n: G.Nodes) { n.p = n.p + 7; } }
=>
absent nofile
~ run - nofile
Procedure f(G: Graph) { Double d; }
=>
refused U1 at 1:25
~ run - - --turns 3
Procedure f(G: Graph) { While (True) { ; } }=>
cut after 3 turns
~ run - -
Procedure f(G: Graph; a: Int) { a = 1 / a; }=>
fault DivideByZero at 1:39
~ check -
Procedure add(G: Graph; p: N_P<Int>) { Foreach (n: G.Nodes) { n.p = n.p + 7; } }
=>
accepted
~ check -
Procedure f(G: Graph) { Double d; }
=>
refused U1 at 1:25
~ demo 1
=>
demo 1 edges 4 reached 1 far 0 turns 1
";

/// Calls that read standard input to its end: the words, standard input, and what is written.
pub const READINGS: &str = "
~ run - -
Procedure add(G: Graph; p: N_P<Int>) { Foreach (n: G.Nodes) { n.p = n.p + 7; } }
%%
0 1
1 2
=>
node p
0 7
1 7
2 7
turns 0
~ run - -
Procedure add(G: Graph; p: N_P<Int>) { Foreach (n: G.Nodes) { n.p = n.p + 7; } }
=>
node p
turns 0
~ run - a.graph
Procedure add(G: Graph; p: N_P<Int>) { Foreach (n: G.Nodes) { n.p = n.p + 7; } }
=>
node p
0 7
1 7
2 7
turns 0
~ run a.gm -
0 1
1 2
=>
node p
0 7
1 7
2 7
turns 0
~ run - nofile
Procedure f(G: Graph) { Double d; }
=>
refused U1 at 1:25
~ check -
Procedure add(G: Graph; p: N_P<Int>) { Foreach (n: G.Nodes) { n.p = n.p + 7; } }
=>
accepted
";

/// The read of a file that fails, the words, and what is written. A small file takes one read, and one that finds its
/// end; a program is read before its graph.
pub const FILES: &str = "
~ 1: run a.gm a.graph
=>
read fault a.gm
~ 2: run a.gm a.graph
=>
read fault a.gm
~ 3: run a.gm a.graph
=>
read fault a.graph
~ 4: run a.gm a.graph
=>
read fault a.graph
~ 5: run a.gm a.graph
=>
node p
0 7
1 7
2 7
turns 0
~ 0: run a.gm a.graph
=>
node p
0 7
1 7
2 7
turns 0
~ 3: run a.gm a.gm
=>
read fault a.gm
~ 0: run a.gm a.gm
=>
graph BadLine at line 1
~ 0: run a.gm -- nofile
=>
absent nofile
~ 2: run a.gm nofile
=>
read fault a.gm
~ 3: run a.gm nofile
=>
read fault nofile
~ 0: run nofile a.graph
=>
absent nofile
~ 1: run nofile no.graph
=>
read fault nofile
~ 2: run refused.gm a.graph
=>
read fault refused.gm
~ 3: run refused.gm a.graph
=>
refused U1 at 1:25
~ 0: run refused.gm nofile
=>
refused U1 at 1:25
~ 0: run refused.gm refused.gm k=1
=>
refused U1 at 1:25
";

/// The first of them.
pub const FIRST: &str = "run - -
Procedure add(G: Graph; p: N_P<Int>) { Foreach (n: G.Nodes) { n.p = n.p + 7; } }
%%
0 1
1 2
=>
node p
0 7
1 7
2 7
turns 0
";

/// What is written of the shortest paths over the first bytes of a graph, one byte more in each row.
pub const CUT_ANYWHERE: &str = "
~ argument NoSuchNode root
~ graph BadLine at line 1
~ graph BadLine at line 1
~ graph MissingColumn at line 1
~ graph MissingColumn at line 1
~ node dist
0 0
1 4
turns 2
~ node dist
0 0
1 40
turns 2
~ node dist
0 0
1 40
turns 2
~ graph BadLine at line 2
~ graph BadLine at line 2
~ graph MissingColumn at line 2
~ graph MissingColumn at line 2
~ graph BadLine at line 2
~ node dist
0 0
1 40
2 2147483647
turns 2
~ node dist
0 0
1 40
2 2147483647
turns 2
";
