//! The images of the programs of the folder `examples`, behind all passes. Each was checked by hand once: its blocks, lines
//! and places by what its program says, in the order of `gm_lowering`. A pass that writes other loops, or adds other
//! variables, changes them.

// The first line of a row has an example's name, and behind it stands its image.
const IMAGES: &str = "
~ bipartite
gm-image 2
name bipartite
inputs 1
scalar N root 0
outputs 2
node I side 0
scalar I clashes 1
result B 18
globals 19
N
I
N
N
B
N
N
I
L
B
N
N
I
I
I
B
B
N
B
fields 6
I
I
B
I
I
I
registers 2
I
I
columns 0
kinds 3
- I
- I
- I
places 9
8 26
8 26
8 26
9 18
9 16
8 26
8 26
11 44
11 13
blocks 17
block 0
body 1
set 0 ? == id g 0 c I 0 c I -1
block 0
body 1
set 1 ? == id g 11 c I 0 c I 2147483647
block 0
body 1
set 2 == f 1 g 12
block 0
body 1
set 3 f 0
block 0
body 1
set 4 r 0
block 0
body 2
skip 1 && f 2 != id g 0
set 4 c I 2147483647
block 0
body 3
skip 2 == f 1 g 13
each out 1
send 0 nb f 3
block 1
on 0 2
skip 1 && f 2 != id g 0
fold min 3 4 m 0
body 0
block 0
body 2
skip 1 && f 2 != id g 0
set 0 - 4 c I 1 f 4
block 0
body 3
skip 2 f 2
each out 1
send 1 nb g 14
block 1
on 1 1
fold min 5 1 m 0
body 0
block 0
body 1
put or 6 16 == f 1 g 14
block 0
body 1
set 5 r 1
block 0
body 2
skip 1 >= f 0 c I 0
set 5 c I 0
block 0
body 2
each in 1
send 2 nb f 0
block 1
on 2 2
skip 1 && >= f 0 c I 0 == m 0 f 0
fold sum 7 5 c I 1
body 0
block 0
body 2
skip 1 >= f 0 c I 0
put sum 8 1 f 5
master 31
step 0
set 11 live 0 g 0
step 1
set 12 c I 0
set 15 c B True
loop 22 g 15
set 14 + 1 g 12 c I 1
set 13 - 2 g 12 c I 1
set 16 c B False
step 2
step 3
step 4
step 5
step 6
step 7
step 8
step 9
step 10
step 11
set 15 g 16
set 12 g 14
back 5
set 1 c I 0
step 12
step 13
step 14
step 15
step 16
set 18 == g 1 c I 0
jump 30
end
~ components
gm-image 2
name components
inputs 0
outputs 2
node I component 0
scalar I count 0
result -
globals 16
I
B
I
N
N
N
N
B
N
N
I
L
B
N
L
B
fields 3
I
I
I
registers 0
columns 0
kinds 2
- I
- I
places 6
10 3
12 9
19 17
22 17
25 12
28 11
blocks 12
block 0
body 1
set 1 c I 0
block 0
body 1
set 2 c I 0
block 0
body 2
skip 1 == id g 3
set 1 g 10
block 0
body 1
set 0 f 1
block 0
body 1
set 2 f 0
block 0
body 2
each out 1
send 0 nb f 0
block 1
on 0 1
fold min 2 2 m 0
body 0
block 0
body 2
each in 1
send 1 nb f 0
block 1
on 1 1
fold min 3 2 m 0
body 0
block 0
body 1
put or 4 1 < f 2 f 0
block 0
body 1
set 0 f 2
block 0
body 2
skip 1 == f 0 f 1
put sum 5 0 c I 1
master 26
step 0
step 1
set 1 c B True
set 2 c I 0
set 14 c L 0
loop 12 < g 14 long nn
set 3 node g 14
set 14 + 0 g 14 c L 1
set 10 g 2
step 2
set 2 + 1 g 2 c I 1
back 5
step 3
loop 23 g 1
step 4
step 5
step 6
step 7
step 8
set 1 c B False
step 9
step 10
back 13
set 0 c I 0
step 11
end
~ conductance
gm-image 2
name conductance
inputs 1
node B member 0
outputs 4
scalar I inner 0
scalar I outer 1
scalar I cut 2
scalar I thousandths 3
result -
globals 15
I
I
I
I
N
N
N
I
B
N
N
I
L
B
N
fields 2
B
I
registers 1
I
columns 0
kinds 1
-
places 6
6 11
7 11
8 37
8 9
10 39
10 45
blocks 7
block 0
body 2
skip 1 f 0
put sum 0 0 out
block 0
body 2
skip 1 not f 0
put sum 1 1 out
block 0
body 1
set 1 r 0
block 0
body 2
skip 1 f 0
set 1 c I 0
block 0
body 3
skip 2 not f 0
each in 1
send 0 nb
block 1
on 0 2
skip 1 f 0
fold sum 2 1 c I 1
body 0
block 0
body 2
skip 1 f 0
put sum 3 2 f 1
master 13
set 0 c I 0
step 0
set 1 c I 0
step 1
set 2 c I 0
step 2
step 3
step 4
step 5
step 6
set 7 ? < g 0 g 1 g 0 g 1
set 3 ? == g 7 c I 0 c I 0 / 5 * 4 c I 1000 g 2 g 7
end
~ degrees
gm-image 2
name degrees
inputs 0
outputs 12
scalar I in_0 0
scalar I in_1 1
scalar I in_2 2
scalar I in_more 3
scalar I out_0 4
scalar I out_1 5
scalar I out_2 6
scalar I out_more 7
scalar I most_in 8
scalar I most_out 9
scalar L in_squares 10
scalar L out_squares 11
result -
globals 31
I
I
I
I
I
I
I
I
I
I
L
L
N
N
N
N
N
N
N
N
N
N
N
N
B
N
N
I
L
B
N
fields 0
registers 0
columns 0
kinds 0
places 14
7 10
8 10
9 10
10 13
11 11
12 11
13 11
14 14
15 13
16 14
17 53
17 16
18 55
18 17
blocks 12
block 0
body 2
skip 1 == inn c I 0
put sum 0 0 c I 1
block 0
body 2
skip 1 == inn c I 1
put sum 1 1 c I 1
block 0
body 2
skip 1 == inn c I 2
put sum 2 2 c I 1
block 0
body 2
skip 1 > inn c I 2
put sum 3 3 c I 1
block 0
body 2
skip 1 == out c I 0
put sum 4 4 c I 1
block 0
body 2
skip 1 == out c I 1
put sum 5 5 c I 1
block 0
body 2
skip 1 == out c I 2
put sum 6 6 c I 1
block 0
body 2
skip 1 > out c I 2
put sum 7 7 c I 1
block 0
body 1
put max 8 8 inn
block 0
body 1
put max 9 9 out
block 0
body 1
put sum 11 10 * 10 long inn long inn
block 0
body 1
put sum 13 11 * 12 long out long out
master 25
set 0 c I 0
step 0
set 1 c I 0
step 1
set 2 c I 0
step 2
set 3 c I 0
step 3
set 4 c I 0
step 4
set 5 c I 0
step 5
set 6 c I 0
step 6
set 7 c I 0
step 7
set 8 c I -2147483648
step 8
set 9 c I -2147483648
step 9
set 10 c L 0
step 10
set 11 c L 0
step 11
end
~ dependents
gm-image 2
name dependents
inputs 1
scalar N root 0
outputs 2
node L walks 0
node L below 1
result -
globals 16
N
N
B
N
N
I
L
B
N
N
I
I
I
B
B
N
fields 8
L
L
I
B
L
L
L
L
registers 2
L
L
columns 0
kinds 3
- L
- I
- L
places 11
9 26
9 26
9 26
10 15
9 26
9 26
9 26
9 26
12 43
12 15
9 26
blocks 20
block 0
body 1
set 0 ? == id g 0 c L 1 c L 0
block 0
body 1
set 1 c L 0
block 0
body 1
set 2 ? == id g 9 c I 0 c I 2147483647
block 0
body 1
set 3 == f 2 g 10
block 0
body 1
set 4 f 0
block 0
body 1
set 6 r 0
block 0
body 2
skip 1 && f 3 != id g 0
set 6 c L 0
block 0
body 3
skip 2 == f 2 g 11
each out 1
send 0 nb f 4
block 1
on 0 2
skip 1 && f 3 != id g 0
fold sum 3 6 m 0
body 0
block 0
body 2
skip 1 && f 3 != id g 0
set 0 f 6
block 0
body 3
skip 2 f 3
each out 1
send 1 nb g 12
block 1
on 1 1
fold min 4 2 m 0
body 0
block 0
body 1
put or 5 14 == f 2 g 12
block 0
body 1
set 3 == f 2 g 10
block 0
body 1
set 5 f 1
block 0
body 1
set 7 r 1
block 0
body 2
skip 1 f 3
set 7 c L 0
block 0
body 3
skip 2 == f 2 g 12
each in 1
send 2 nb f 5
block 1
on 2 2
skip 1 f 3
fold sum 9 7 + 8 m 0 c L 1
body 0
block 0
body 2
skip 1 f 3
set 1 f 7
master 36
step 0
step 1
set 9 live 0 g 0
step 2
set 10 c I 0
set 13 c B True
loop 23 g 13
set 12 + 1 g 10 c I 1
set 11 - 2 g 10 c I 1
set 14 c B False
step 3
step 4
step 5
step 6
step 7
step 8
step 9
step 10
step 11
step 12
set 13 g 14
set 10 g 12
back 6
set 10 - 6 g 10 c I 1
loop 35 >= g 10 c I 0
set 12 + 7 g 10 c I 1
step 13
step 14
step 15
step 16
step 17
step 18
step 19
set 10 - 10 g 10 c I 1
back 24
end
~ hops
gm-image 2
name hops
inputs 1
scalar N root 0
outputs 3
node I hops 0
scalar I reached 1
scalar I farthest 2
result -
globals 20
N
I
I
N
N
N
B
N
N
I
L
B
N
N
I
I
I
B
B
N
fields 5
I
I
B
I
I
registers 1
I
columns 0
kinds 2
- I
- I
places 9
7 26
7 26
7 26
8 14
8 40
7 26
7 26
10 13
11 14
blocks 14
block 0
body 1
set 0 ? == id g 0 c I 0 c I -1
block 0
body 1
set 1 ? == id g 13 c I 0 c I 2147483647
block 0
body 1
set 2 == f 1 g 14
block 0
body 1
set 3 f 0
block 0
body 1
set 4 r 0
block 0
body 2
skip 1 && f 2 != id g 0
set 4 c I 2147483647
block 0
body 3
skip 2 == f 1 g 15
each out 1
send 0 nb f 3
block 1
on 0 2
skip 1 && f 2 != id g 0
fold min 3 4 m 0
body 0
block 0
body 2
skip 1 && f 2 != id g 0
set 0 + 4 f 4 c I 1
block 0
body 3
skip 2 f 2
each out 1
send 1 nb g 16
block 1
on 1 1
fold min 5 1 m 0
body 0
block 0
body 1
put or 6 18 == f 1 g 16
block 0
body 2
skip 1 >= f 0 c I 0
put sum 7 1 c I 1
block 0
body 1
put max 8 2 f 0
master 27
step 0
set 13 live 0 g 0
step 1
set 14 c I 0
set 17 c B True
loop 22 g 17
set 16 + 1 g 14 c I 1
set 15 - 2 g 14 c I 1
set 18 c B False
step 2
step 3
step 4
step 5
step 6
step 7
step 8
step 9
step 10
step 11
set 17 g 18
set 14 g 16
back 5
set 1 c I 0
step 12
set 2 c I -2147483648
step 13
end
~ k_core
gm-image 2
name k_core
inputs 1
scalar I k 0
outputs 2
node B inside 0
scalar I size 1
result -
globals 14
I
I
B
N
N
N
N
B
N
N
I
L
B
N
fields 4
B
I
I
I
registers 2
I
I
columns 0
kinds 2
- I
- I
places 5
11 17
11 47
11 45
13 12
18 10
blocks 14
block 0
body 1
set 1 c I 0
block 0
body 1
set 0 c B True
block 0
body 1
set 2 r 0
block 0
body 1
set 3 r 1
block 0
body 1
set 2 c I 0
block 0
body 3
skip 2 f 0
each in 1
send 0 nb c I 1
block 1
on 0 1
fold sum 0 2 m 0
body 0
block 0
body 1
set 3 c I 0
block 0
body 3
skip 2 f 0
each out 1
send 1 nb c I 1
block 1
on 1 1
fold sum 1 3 m 0
body 0
block 0
body 1
set 1 + 2 f 2 f 3
block 0
body 1
put or 3 2 && f 0 < f 1 g 0
block 0
body 2
skip 1 < f 1 g 0
set 0 c B False
block 0
body 2
skip 1 f 0
put sum 4 1 c I 1
master 20
step 0
set 2 c B True
step 1
loop 17 g 2
step 2
step 3
step 4
step 5
step 6
step 7
step 8
step 9
step 10
set 2 c B False
step 11
step 12
back 3
set 1 c I 0
step 13
end
~ ranking
gm-image 2
name ranking
inputs 1
scalar I rounds 0
outputs 2
node L points 0
scalar L total 1
result -
globals 13
I
L
I
N
N
N
B
N
N
I
L
B
N
fields 3
L
L
L
registers 1
L
columns 0
kinds 1
- L
places 7
12 48
15 32
15 25
15 30
15 59
17 10
19 11
blocks 9
block 0
body 1
set 1 c L 0
block 0
body 1
set 0 c L 1000000
block 0
body 1
set 1 ? == out c I 0 c L 0 / 0 f 0 long out
block 0
body 1
set 2 r 0
block 0
body 1
set 2 c L 0
block 0
body 2
each out 1
send 0 nb f 1
block 1
on 0 1
fold sum 1 2 m 0
body 0
block 0
body 1
set 0 + 2 c L 150000 / 4 * 3 c L 85 f 2 c L 100
block 0
body 1
put sum 6 1 f 0
master 15
step 0
set 2 c I 0
step 1
loop 12 < g 2 g 0
step 2
step 3
step 4
step 5
step 6
step 7
set 2 + 5 g 2 c I 1
back 3
set 1 c L 0
step 8
end
~ routes
gm-image 2
name routes
inputs 2
scalar N root 0
edge I length 0
outputs 2
node I distance 0
node N via 1
result -
globals 11
N
B
N
N
B
N
N
I
L
B
N
fields 5
I
N
B
I
N
registers 0
columns 1
I
kinds 1
- I N
places 4
21 46
21 29
27 27
28 12
blocks 9
block 0
body 1
set 2 c B False
block 0
body 1
set 3 c I 0
block 0
body 1
set 4 c N NIL
block 0
body 1
set 0 ? == id g 0 c I 0 c I 2147483647
block 0
body 1
set 3 f 0
block 0
body 1
set 2 == id g 0
block 0
body 3
skip 2 f 2
each out 1
send 0 nb + 0 f 0 w 0 id
block 1
on 0 1
pick min 1 2 3 m 0 4 m 1
body 0
block 0
body 3
set 2 < f 3 f 0
pick min 2 2 0 f 3 1 f 4
put or 3 1 f 2
master 14
step 0
step 1
step 2
set 1 c B True
step 3
step 4
step 5
loop 13 g 1
step 6
step 7
set 1 c B False
step 8
back 7
end
~ shortest_paths
gm-image 2
name shortest_paths
inputs 2
scalar N root 0
edge I length 0
outputs 1
node I distance 0
result -
globals 11
N
B
N
N
B
N
N
I
L
B
N
fields 3
I
B
I
registers 0
columns 1
I
kinds 1
- I
places 4
16 33
16 17
22 18
23 12
blocks 8
block 0
body 1
set 1 c B False
block 0
body 1
set 2 c I 0
block 0
body 1
set 0 ? == id g 0 c I 0 c I 2147483647
block 0
body 1
set 2 f 0
block 0
body 1
set 1 == id g 0
block 0
body 3
skip 2 f 1
each out 1
send 0 nb + 0 f 0 w 0
block 1
on 0 1
fold min 1 2 m 0
body 0
block 0
body 3
set 1 < f 2 f 0
fold min 2 0 f 2
put or 3 1 f 1
master 13
step 0
step 1
set 1 c B True
step 2
step 3
step 4
loop 12 g 1
step 5
step 6
set 1 c B False
step 7
back 6
end
~ spread_labels
gm-image 2
name spread_labels
inputs 2
node I start 0
scalar I rounds 0
outputs 2
node I label 1
scalar I changed 1
result -
globals 11
I
I
I
N
B
N
N
I
L
B
N
fields 5
I
I
I
I
I
registers 2
I
I
columns 0
kinds 1
- I
places 3
12 18
15 17
18 10
blocks 9
block 0
body 1
set 1 f 0
block 0
body 1
set 2 f 1
block 0
body 1
set 3 r 1
block 0
body 1
set 4 r 0
block 0
body 1
set 3 c I -2147483648
block 0
body 2
each out 1
send 0 nb f 1
block 1
on 0 1
fold max 0 3 m 0
body 0
block 0
body 4
set 4 f 3
skip 2 > f 4 f 1
set 2 f 4
put sum 1 1 c I 1
block 0
body 1
set 1 f 2
master 15
set 2 c I 0
step 0
loop 14 < g 2 g 0
set 1 c I 0
step 1
step 2
step 3
step 4
step 5
step 6
step 7
step 8
set 2 + 2 g 2 c I 1
back 2
end
~ triangles
gm-image 2
name triangles
inputs 0
outputs 2
node I at 0
scalar I all 0
result -
globals 15
I
N
N
N
N
B
I
N
N
I
L
B
N
L
B
fields 4
I
B
B
I
registers 2
B
I
columns 0
kinds 1
- N
places 5
7 3
9 16
11 38
11 12
13 9
blocks 12
block 0
body 1
set 1 c B False
block 0
body 1
set 2 r 0
block 0
body 1
set 2 c B False
block 0
body 2
each in 1
fold or 1 2 == nb g 1
block 0
body 1
set 1 f 2
block 0
body 1
set 3 r 1
block 0
body 2
skip 1 f 1
set 3 c I 0
block 0
body 3
skip 2 f 1
each in 1
send 0 nb id
block 1
on 0 2
skip 1 && f 1 != m 0 id
fold sum 2 3 c I 1
body 0
block 0
body 2
skip 1 f 1
put sum 3 6 f 3
block 0
body 2
skip 1 == id g 1
set 0 g 9
block 0
body 1
put sum 4 0 f 0
master 21
step 0
set 13 c L 0
loop 18 < g 13 long nn
set 1 node g 13
set 13 + 0 g 13 c L 1
step 1
step 2
step 3
step 4
set 6 c I 0
step 5
step 6
step 7
step 8
step 9
set 9 g 6
step 10
back 2
set 0 c I 0
step 11
end
~ two_hops
gm-image 2
name two_hops
inputs 1
scalar N root 0
outputs 2
node B near 0
scalar I count 1
result -
globals 12
N
I
I
N
N
B
N
N
I
L
B
N
fields 2
B
B
registers 0
columns 0
kinds 1
- B
places 3
12 16
15 8
17 11
blocks 6
block 0
body 1
set 1 c B False
block 0
body 1
set 0 == id g 0
block 0
body 1
set 1 f 0
block 0
body 3
skip 2 f 1
each out 1
send 0 nb c B True
block 1
on 0 1
fold or 0 0 m 0
body 0
block 0
body 2
skip 1 f 0
put sum 2 1 c I 1
master 12
step 0
set 2 c I 0
step 1
loop 9 < g 2 c I 2
step 2
step 3
step 4
set 2 + 1 g 2 c I 1
back 3
set 1 c I 0
step 5
end
";

/// The table of the images.
pub fn example_images() -> &'static str {
    IMAGES
}
