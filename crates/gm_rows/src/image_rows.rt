//! Images that are run: the worked images with what is written of them, and an image that is cut anywhere.

/// Images that run, and images that break a rule at a line.
pub const IMAGES: &str = "
~ exec - -
gm-image 2
name best
inputs 1
node I v 0
outputs 2
node I m 1
node N w 2
result -
globals 0
fields 3
I
I
N
registers 0
columns 0
kinds 1
- I N
places 1
4 34
blocks 2
block 0
body 3
set 1 c I 9
each out 1
send 0 nb f 0 id
block 1
on 0 1
pick min 0 2 1 m 0 2 m 1
body 0
master 3
step 0
step 1
end
%%
0 3
1 3
2 3
v 0 4
v 1 2
v 2 2
=>
node m w
0 9 NIL
1 9 NIL
2 9 NIL
3 2 1
supersteps 2 messages 3 turns 0
~ exec - -
gm-image 2
name best
inputs 1
node I v 0
outputs 2
node I m 1
node N w 2
result -
globals 0
fields 3
I
I
N
registers 0
columns 0
kinds 1
- I N
places 1
4 34
blocks 2
block 0
body 3
set 1 c I 9
each out 1
send 0 nb f 0 id
block 1
on 0 1
pick min 0 2 1 m 0 2 m 1
body 0
master 3
step 0
step 1
end
%%
0 1
0 1
1 1
v 0 12
v 1 9
=>
node m w
0 9 NIL
1 9 NIL
supersteps 2 messages 3 turns 0
~ exec - -
gm-image 2
name most
inputs 1
node I v 0
outputs 3
scalar I best 0
scalar N who 1
node I w 1
result -
globals 2
I
N
fields 3
I
I
B
registers 0
columns 0
kinds 0
places 2
3 5
4 5
blocks 1
block 0
body 2
pick max 0 2 1 f 0 2 c B True
pickput max 1 2 0 f 0 1 id
master 2
step 0
end
%%
0 1
1 2
v 0 3
v 1 8
v 2 8
=>
best = 8
who = 1
node w
0 3
1 8
2 8
supersteps 1 messages 0 turns 0
~ exec - -
gm-image 1
name best
inputs 1
node I v 0
outputs 2
node I m 1
node N w 2
result -
globals 0
fields 3
I
I
N
registers 0
columns 0
kinds 1
- I N
places 1
4 34
blocks 2
block 0
body 3
set 1 c I 9
each out 1
send 0 nb f 0 id
block 1
on 0 1
pick min 0 2 1 m 0 2 m 1
body 0
master 3
step 0
step 1
end
%%
0 1
0 1
1 1
v 0 5
v 1 7
=>
image BadText at line 28
~ exec - - --observe
gm-image 1
name total
inputs 1
node I v 0
outputs 1
node I s 1
result -
globals 0
fields 2
I
I
registers 0
columns 0
kinds 1
- I
places 1
2 32
blocks 2
block 0
body 2
each out 1
send 0 nb f 0
block 1
on 0 1
fold sum 0 1 m 0
body 0
master 3
step 0
step 1
end
%%
0 1
0 1
1 1
v 0 5
v 1 7
=>
node s
0 0
1 17
supersteps 2 messages 3 turns 0
observed 2 supersteps 3 messages
step 1 block 0 vertices 2 messages 3
step 2 block 1 vertices 2 messages 0
~ exec - -
gm-image 1
name spin
inputs 0
outputs 0
result I 0
globals 1
I
fields 0
registers 0
columns 0
kinds 0
places 1
3 21
blocks 0
master 4
loop 3 < g 0 c I 6
set 0 + 0 g 0 c I 1
back 0
end
%%
=>
return = 6
supersteps 0 messages 0 turns 6
~ exec - -
gm-image 1
name spin
inputs 0
outputs 0
result I 0
globals 1
I
fields 0
registers 0
columns 0
kinds 0
places 1
3 21
blocks 0
master 4
loop 2 < g 0 c I 6
set 0 + 0 g 0 c I 1
back 0
end
%%
=>
image I4 at line 18
~ exec - -
gm-image 1
name spin
inputs x
outputs 0
result I 0
globals 1
I
fields 0
registers 0
columns 0
kinds 0
places 1
3 21
blocks 0
master 4
loop 3 < g 0 c I 6
set 0 + 0 g 0 c I 1
back 0
end
%%
=>
image BadText at line 3
~ exec - - --turns 5 --observe
gm-image 1
name spin
inputs 0
outputs 0
result I 0
globals 1
I
fields 0
registers 0
columns 0
kinds 0
places 1
3 21
blocks 0
master 4
loop 3 < g 0 c I 6
set 0 + 0 g 0 c I 1
back 0
end
%%
=>
cut after 5 turns
observed 0 supersteps 0 messages
~ exec - -
gm-image 1
name pair
inputs 0
outputs 2
node I a 0
node I b 1
result -
globals 0
fields 2
I
I
registers 0
columns 0
kinds 0
places 0
blocks 2
block 0
body 1
set 0 c I 3
block 0
body 1
set 1 f 0
master 3
step 0
step 1
end
%%
0 1
=>
node a b
0 3 3
1 3 3
supersteps 2 messages 0 turns 0
~ exec - -
gm-image 1
name total
inputs 1
node I v 0
outputs 1
node I s 1
result -
globals 0
fields 2
I
I
registers 0
columns 0
kinds 1
- I
places 1
2 32
blocks 2
block 0
body 2
each out 2
send 0 nb f 0
block 1
on 0 1
fold sum 0 1 m 0
body 0
master 3
step 0
step 1
end
%%
0 1
0 1
1 1
v 0 5
v 1 7
=>
image I6 at line 21
~ exec - -
gm-image 1
name total
inputs 1
node I v 0
outputs 1
node I s 1
result -
globals 0
fields 2
I
I
registers 0
columns 0
kinds 1
- I
places 1
2 32
blocks 2
block 0
body 2
skip 1 c B True
send 0 nb f 0
block 1
on 0 1
fold sum 0 1 m 0
body 0
master 3
step 0
step 1
end
%%
0 1
0 1
1 1
v 0 5
v 1 7
=>
image I7 at line 22
~ exec - -
gm-image 1
name total
inputs 1
node I v 0
outputs 1
node I s 1
result -
globals 0
fields 2
I
I
registers 0
columns 0
kinds 1
- I
places 1
2 32
blocks 2
block 0
body 2
each out 1
send 0 nb nb
block 1
on 0 1
fold sum 0 1 m 0
body 0
master 3
step 0
step 1
end
%%
0 1
0 1
1 1
v 0 5
v 1 7
=>
image I2 at line 22
~ exec - -
gm-image 1
name total
inputs 1
node I v 0
outputs 1
node I s 1
result -
globals 0
fields 2
I
I
registers 0
columns 0
kinds 1
- I
places 1
2 32
blocks 2
block 0
body 2
each out 1
send 0 nb f 0
block 1
on 0 1
set 1 m 0
body 0
master 3
step 0
step 1
end
%%
0 1
0 1
1 1
v 0 5
v 1 7
=>
image I8 at line 25
~ exec - -
gm-image 1
name total
inputs 1
node I v 0
outputs 1
node I s 1
result -
globals 0
fields 2
I
I
registers 0
columns 0
kinds 1
- I
places 1
2 32
blocks 2
block 0
body 2
each out 1
send 0 nb f 0
block 1
on 0 1
fold sum 0 1 m 0
body 0
master 3
step 0
step 2
end
%%
0 1
0 1
1 1
v 0 5
v 1 7
=>
image I1 at line 29
~ exec - -
gm-image 1
name total
inputs 1
node I v 0
outputs 1
node I s 1
result -
globals 0
fields 2
I
I
registers 0
columns 0
kinds 1
- I
places 1
2 32
blocks 2
block 0
body 2
each out 1
send 0 nb f 0
block 1
on 0 1
fold sum 0 1 m 0
body 0
master 3
step 0
jump 0
end
%%
0 1
0 1
1 1
v 0 5
v 1 7
=>
image I3 at line 29
~ exec - -
gm-image 1
name total
inputs 1
node I v 0
outputs 1
node I s 1
result -
globals 0
fields 2
I
I
registers 0
columns 0
kinds 1
- I
places 1
2 32
blocks 2
block 0
body 2
each out 1
send 0 nb f 0
block 1
on 0 1
fold sum 0 1 m 0
body 0
master 3
step 0
end
end
%%
0 1
0 1
1 1
v 0 5
v 1 7
=>
image I5 at line 29
";
