//! One short program over graph texts of every kind, and the texts of a program and a graph on one input.

/// Graphs behind it.
pub const GRAPHS: &str = "
~ run - -
0 1
1 2
=>
node p
0 7
1 7
2 7
turns 0
~ run - -
=>
node p
turns 0
~ run - -
9 3
3 9

 \t\x20
12 3
3 3
3 9=>
node p
3 7
9 7
12 7
turns 0
~ run - -
\t5   9223372036854775807\x20
=>
node p
5 7
9223372036854775807 7
turns 0
~ run - -
007 7
=>
node p
7 7
turns 0
~ run - -
1 2 3 x
=>
node p
1 7
2 7
turns 0
~ run - -
# a comment
  #1 x
=>
node p
turns 0
~ run - -
v 3
v\t4 9
1 3
=>
node p
1 7
3 7
4 7
turns 0
~ run - -
0 1
1 x
=>
graph BadLine at line 2
~ run - -
0 1

1
2 x
=>
graph BadLine at line 3
~ run - -
-1 2
=>
graph BadLine at line 1
~ run - -
+1 2
=>
graph BadLine at line 1
~ run - -
1.0 2
=>
graph BadLine at line 1
~ run - -
0 1\r=>
graph BadLine at line 1
~ run - -
0\r1
=>
graph BadLine at line 1
~ run - -
1 2
%%
=>
graph BadLine at line 2
~ run - -
v
=>
graph BadLine at line 1
~ run - -
v x
=>
graph BadLine at line 1
~ run - -
V 1
=>
graph BadLine at line 1
~ run - -
1 v
=>
graph BadLine at line 1
~ run - -
v 1

v 01
=>
graph NodeTwice at line 3
~ run - -
0 9223372036854775808
=>
graph OutOfRange at line 1
~ run - -
0 1
99999999999999999999999 x
=>
graph OutOfRange at line 2
~ run - -
x 99999999999999999999999
=>
graph BadLine at line 1
~ run - -
v 9223372036854775808
=>
graph OutOfRange at line 1
";

/// The line that parts the two texts is `%%` alone, and its CR where it has one.
pub const PARTED: &str = "
~ run - -
Procedure add(G: Graph; p: N_P<Int>) {
  Foreach (n: G.Nodes) { n.p = n.p + 7; }
}
=>
node p
turns 0
~ run - -
Procedure f(G: Graph; p: N_P<Int>) { Foreach (n: G.Nodes) { n.p = 2147483647 + 1; } }
=>
node p
turns 0
~ run - -
Procedure add(G: Graph; p: N_P<Int>) {
  Foreach (n: G.Nodes) { n.p = n.p + 7; }
}
%%=>
node p
turns 0
~ run - -
Procedure add(G: Graph; p: N_P<Int>) {
  Foreach (n: G.Nodes) { n.p = n.p + 7; }
}
%%\r=>
node p
turns 0
~ run - -
Procedure add(G: Graph; p: N_P<Int>) {
  Foreach (n: G.Nodes) { n.p = n.p + 7; }
}
%%\r
1 2\r
=>
node p
1 7
2 7
turns 0
~ run - -
Procedure add(G: Graph; p: N_P<Int>) {
  Foreach (n: G.Nodes) { n.p = n.p + 7; }
}
%%
%%
1 2
=>
graph BadLine at line 1
~ run - -
Procedure add(G: Graph; p: N_P<Int>) {
  Foreach (n: G.Nodes) { n.p = n.p + 7; }
}
 %%
1 2
=>
refused Syntax at 4:2
~ run - -
Procedure add(G: Graph; p: N_P<Int>) {
  Foreach (n: G.Nodes) { n.p = n.p + 7; }
}
%%\x20
1 2
=>
refused Syntax at 4:1
~ run - -
Procedure add(G: Graph; p: N_P<Int>) {
  Foreach (n: G.Nodes) { n.p = n.p + 7; }
}
%%%
1 2
=>
refused Syntax at 4:1
~ run - -
%%
Procedure add(G: Graph; p: N_P<Int>) {
  Foreach (n: G.Nodes) { n.p = n.p + 7; }
}
=>
refused Syntax at 1:1
~ run - -
=>
refused Syntax at 1:1
~ check -
Procedure add(G: Graph; p: N_P<Int>) {
  Foreach (n: G.Nodes) { n.p = n.p + 7; }
}
%%
1 2
=>
refused Syntax at 4:1
";

/// Line ends as of another system, and a fault.
pub const TEXTS: &str = "
~ run - -
Procedure add(G: Graph; p: N_P<Int>) {\r
  Foreach (n: G.Nodes) { n.p = n.p + 7; }\r
}\r
%%\r
0 1\r
1 2\r
=>
node p
0 7
1 7
2 7
turns 0
~ run - -
Procedure f(G: Graph; p: N_P<Int>) { Foreach (n: G.Nodes) { n.p = 2147483647 + 1; } }
%%
4 4
=>
fault Overflow at 1:78
";
