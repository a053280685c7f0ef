//! Images that are run with observers: some have no memory, and each is dropped once.

/// The same of other images and of programs.
pub const WATCHED: &str = "
~ 9 0 BadInput: exec - - --observe
gm-image 3
=>
image BadText at line 1
~ 9 0 Fault: exec - - --observe
gm-image 1
name d
inputs 1
node I v 0
outputs 0
result -
globals 0
fields 1
I
registers 0
columns 0
kinds 0
places 2
2 4
3 4
blocks 1
block 0
body 1
set 0 / 1 c I 1 - 0 f 0 c I 5
master 2
step 0
end
=>
fault DivideByZero at 3:4
~ 9 0 Cut: exec - - --observe --turns=2
gm-image 1
name s
inputs 0
outputs 0
result -
globals 0
fields 0
registers 0
columns 0
kinds 0
places 0
blocks 0
master 3
loop 2 c B True
back 0
end
=>
cut after 2 turns
~ 9 0 Done: run - -
Procedure p(G: Graph; a: Int) { a = Count(n: G.Nodes); }
=>
a = 2
turns 0
~ 9 0 Fault: run - -
Procedure p(G: Graph; a: Int) { a = 1 / a; }
=>
fault DivideByZero at 1:39
~ 9 0 Cut: run - - --turns=1
Procedure p(G: Graph; a: Int) { While (True) { a += 1; } }
=>
cut after 1 turns
~ 9 0 Refused: run - -
Procedure=>
refused Syntax at 1:10
~ 9 0 Usage: run -
Procedure p(G: Graph; a: Int) { a = Count(n: G.Nodes); }
=>
usage: gm run PROG GRAPH | check PROG | compile PROG | exec IMAGE GRAPH | demo N
";

/// For how many notes the first observer has memory, the write that fails, the status and the words; the image, and what is
/// written. The image takes two supersteps, so two notes.
pub const WATCHED_TOTAL: &str = "
~ 1 0 NoMemory: exec - - --observe
=>
~ 0 0 NoMemory: exec - - --observe
=>
~ 2 0 Done: exec - - --observe
=>
node s
0 0
1 17
supersteps 2 messages 3 turns 0
~ 0 0 Done: exec - -
=>
node s
0 0
1 17
supersteps 2 messages 3 turns 0
~ 9 3 WriteFault: exec - - --observe
=>
node s
0 0\
~ 9 0 BadInput: exec - - --observe k=1
=>
argument Unknown k
~ 9 0 ReadFault: exec nofile - --observe
=>
absent nofile
~ 9 0 Usage: exec - - --observe --observe
=>
usage: gm run PROG GRAPH | check PROG | compile PROG | exec IMAGE GRAPH | demo N
";
