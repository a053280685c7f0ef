//! Programs that are compiled: their images are run as they are, and shown before what they write.

/// The greatest value below a node's own among its out-neighbours, with the image that is made of it: `compile` prints
/// that, and `run --image` prints it before the listing, which counts this image's run.
pub const SHOWN: &str = "~compile -
Procedure best(G: Graph, v: N_P<Int>; best: N_P<Int>) {
  Foreach (n: G.Nodes) (n.v > 0) { n.best = Max(t: n.Nbrs) (t.v < n.v) {t.v}; }
}
=>
gm-image 2
name best
inputs 1
node I v 0
outputs 1
node I best 1
result -
globals 8
N
B
N
N
I
L
B
N
fields 3
I
I
I
registers 1
I
columns 0
kinds 1
- I
places 1
2 45
blocks 2
block 0
body 5
set 2 r 0
skip 1 > f 0 c I 0
set 2 c I -2147483648
each in 1
send 0 nb f 0
block 1
on 0 2
skip 1 && > f 0 c I 0 < m 0 f 0
fold max 0 2 m 0
body 2
skip 1 > f 0 c I 0
set 1 f 2
master 6
jump 1
jump 2
step 0
jump 4
step 1
end
~run - - --image
Procedure best(G: Graph, v: N_P<Int>; best: N_P<Int>) {
  Foreach (n: G.Nodes) (n.v > 0) { n.best = Max(t: n.Nbrs) (t.v < n.v) {t.v}; }
}
%%
0 1
0 2
1 2
2 0
v 0 7
v 1 5
v 2 6
=>
gm-image 2
name best
inputs 1
node I v 0
outputs 1
node I best 1
result -
globals 8
N
B
N
N
I
L
B
N
fields 3
I
I
I
registers 1
I
columns 0
kinds 1
- I
places 1
2 45
blocks 2
block 0
body 5
set 2 r 0
skip 1 > f 0 c I 0
set 2 c I -2147483648
each in 1
send 0 nb f 0
block 1
on 0 2
skip 1 && > f 0 c I 0 < m 0 f 0
fold max 0 2 m 0
body 2
skip 1 > f 0 c I 0
set 1 f 2
master 6
jump 1
jump 2
step 0
jump 4
step 1
end
node best
0 6
1 -2147483648
2 -2147483648
supersteps 2 messages 4 turns 0
~compile -
Procedure uneven(G: Graph, v: N_P<Int>; a: Int) {
  Foreach (n: G.Nodes) { Int x = n.v; <a; x> max= <3; 4>; }
}
=>
program NoImage
~run - -
Procedure uneven(G: Graph, v: N_P<Int>; a: Int) {
  Foreach (n: G.Nodes) { Int x = n.v; <a; x> max= <3; 4>; }
}
%%
0 1
=>
a = 3
turns 0
~run - - --image
Procedure uneven(G: Graph, v: N_P<Int>; a: Int) {
  Foreach (n: G.Nodes) { Int x = n.v; <a; x> max= <3; 4>; }
}
%%
0 1
=>
program NoImage
";
