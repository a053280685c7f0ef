//! Programs and the texts of their images: such as were written by hand, and those of the examples.

/// Each row has a program, the line that parts it from its image, and the image. Where the row's first line says so, the
/// program goes through all passes, which add variables: then its globals are not looked at. The receivers of a message loop
/// evaluate its filter, its local and its reduction; a sequential phase leads on, back and to its end, where it returns in a way
/// of an If; a Do and a For have a flag and a counter; and a sender's loop sends tuples, of which each node keeps one.
pub const IMAGES: &str = "
~ passes
Procedure p(G: Graph, v: N_P<Int>, w: E_P<Int>; a: N_P<Int>) {
  Foreach (n: G.Nodes) {
    Foreach (t: n.Nbrs) (t.v < n.v) { Edge e = t.ToEdge(); Int x = n.v - t.v; t.a += x * e.w; }
  }
}
%%
gm-image 2
name p
inputs 2
node I v 0
edge I w 0
outputs 1
node I a 1
result -
globals 1
N
fields 2
I
I
registers 1
I
columns 1
I
kinds 1
- I I
places 3
3 72
3 88
3 83
blocks 2
block 0
body 2
each out 1
send 0 nb f 0 w 0
block 1
on 0 3
skip 2 < f 0 m 0
reg 0 - 0 m 0 f 0
fold sum 2 1 * 1 r 0 m 1
body 0
master 3
step 0
step 1
end
~
Procedure q(G: Graph, k: Int) : Int {
  Int s = 0;
  While (s < k) { s = s + 1; }
  If (s > 3) { Return s; } Else { s = s - 1; }
  Return s;
}
%%
gm-image 2
name q
inputs 1
scalar I k 0
outputs 0
result I 2
globals 3
I
I
I
fields 0
registers 0
columns 0
kinds 0
places 2
3 25
4 41
blocks 0
master 12
set 1 c I 0
loop 4 < g 1 g 0
set 1 + 0 g 1 c I 1
back 1
test 8 > g 1 c I 3
set 2 g 1
jump 11
jump 9
set 1 - 1 g 1 c I 1
set 2 g 1
jump 11
end
~
Procedure r(G: Graph; c: Long) {
  Do { c = c + 1; } While (c < 3);
  For (n: G.Nodes) (c < 5) { c = c + 2; }
}
%%
gm-image 2
name r
inputs 0
outputs 1
scalar L c 0
result -
globals 4
L
N
L
B
fields 0
registers 0
columns 0
kinds 0
places 3
2 14
3 3
3 36
blocks 0
master 13
set 3 c B True
loop 5 || g 3 < g 0 c L 3
set 3 c B False
set 0 + 0 g 0 c L 1
back 1
set 2 c L 0
loop 12 < g 2 long nn
set 1 node g 2
set 2 + 1 g 2 c L 1
test 11 < g 0 c L 5
set 0 + 2 g 0 c L 2
back 6
end
~ passes
Procedure b(G: Graph, v: N_P<Int>; m: N_P<Int>, w: N_P<Node>, s: Int) {
  Foreach (n: G.Nodes) (n.v > 0) {
    Foreach (t: n.Nbrs) { <t.m; t.w> min= <n.v; n>; }
  }
  Foreach (n: G.Nodes) {
    If (n.m < n.v) { n.m = n.v; }
    s max= n.m;
  }
}
%%
gm-image 2
name b
inputs 1
node I v 0
outputs 3
node I m 1
node N w 2
scalar I s 0
result -
globals 3
I
N
N
fields 3
I
I
N
registers 0
columns 0
kinds 1
- I N
places 2
3 38
7 7
blocks 3
block 0
body 3
skip 2 > f 0 c I 0
each out 1
send 0 nb f 0 id
block 1
on 0 1
pick min 0 2 1 m 0 2 m 1
body 0
block 0
body 3
skip 1 < f 1 f 0
set 1 f 0
put max 1 0 f 1
master 4
step 0
step 1
step 2
end
";
