//! A program with inputs of several types over faulty graphs and with faulty arguments.

/// Graphs of which a line is faulty. The graph is judged before the arguments.
pub const GRAPHS: &str = "
~ run - - k=1 r=NIL
0 1=>
graph MissingColumn at line 1
~ run - - x=1
0 1 1
0 1 2=>
graph BadLine at line 2
~ run - - k=1 r=0
v 0=>
graph MissingColumn at line 1
~ run - - k=1 r=0
v 0 True=>
graph BadLine at line 1
~ run - - k=1 r=0
v 0 2147483648=>
graph OutOfRange at line 1
~ run - - k=1 r=0
v 0 1

v 0 1=>
graph NodeTwice at line 3
~ run - - k=1 r=0
0 1 TRUE=>
graph BadLine at line 1
~ run - - k=1 r=0
0 1 true
0 1 False
0 1 01=>
graph BadLine at line 3
~ run - - k=1 r=0
x 1=>
graph BadLine at line 1
~ run - - k=1 r=0
0 99999999999999999999=>
graph OutOfRange at line 1
~ run - - k=1 r=0
99999999999999999999 x True=>
graph OutOfRange at line 1
~ run - - k=1 r=0
v x 2147483648=>
graph BadLine at line 1
~ run - - k=1 r=0
v 99999999999999999999 x=>
graph OutOfRange at line 1
~ run - - k=1 r=0
v 0 -2147483649=>
graph OutOfRange at line 1
~ run - - k=1 r=0
v 0 +1=>
graph BadLine at line 1
~ run - - k=1 r=0
v 0 1.5=>
graph BadLine at line 1
~ run - - k=1 r=0
v 0 2147483647
0 1 0
v 00 1=>
graph NodeTwice at line 3
~ run - - x=1
0 x=>
graph BadLine at line 1
";

/// Arguments of which one is faulty. They are judged from the left, and what is missing last.
pub const ARGUMENTS: &str = "
~ run - - r=0
0 1 1=>
argument Missing k
~ run - - k=1 s=1
0 1 1=>
argument Unknown s
~ run - - k=1 p=1
0 1 1=>
argument Unknown p
~ run - - k=1 k=1
0 1 1=>
argument Twice k
~ run - - k=NIL
0 1 1=>
argument BadValue k
~ run - - k=1 r=2
0 1 1=>
argument NoSuchNode r
~ run - -
0 1 1=>
argument Missing k
~ run - - k=1
0 1 1=>
argument Missing r
~ run - - x=1 k=NIL
0 1 1=>
argument Unknown x
~ run - - k=NIL x=1
0 1 1=>
argument BadValue k
~ run - - k=1 k=NIL
0 1 1=>
argument Twice k
~ run - - r=2 k=x
0 1 1=>
argument NoSuchNode r
~ run - - r=9223372036854775807 k=1
0 1 1=>
argument NoSuchNode r
~ run - - r=9223372036854775808 k=1
0 1 1=>
argument BadValue r
~ run - - r=-0 k=1
0 1 1=>
argument BadValue r
~ run - - r=nil k=1
0 1 1=>
argument BadValue r
~ run - - r= k=1
0 1 1=>
argument BadValue r
~ run - - k=+1
0 1 1=>
argument BadValue k
~ run - - k=1.5
0 1 1=>
argument BadValue k
~ run - - k=-
0 1 1=>
argument BadValue k
~ run - - k=
0 1 1=>
argument BadValue k
~ run - - k=2147483648
0 1 1=>
argument BadValue k
~ run - - k=-2147483649
0 1 1=>
argument BadValue k
~ run - - k=1=1
0 1 1=>
argument BadValue k
~ run - - =k=1
0 1 1=>
argument Unknown =k
~ run - - G=1
0 1 1=>
argument Unknown G
~ run - - w=1
0 1 1=>
argument Unknown w
~ run - - q=1
0 1 1=>
argument Unknown q
~ run - - f=1
0 1 1=>
argument Unknown f
~ run - - K=1
0 1 1=>
argument Unknown K
~ run - - k=1 r=0
=>
argument NoSuchNode r
";

/// Graphs and arguments that are in order.
pub const DONE: &str = "
~ run - - r=NIL k=-7
7 3 True
v 5 1
=>
s = 0
node q
3 False
5 False
7 False
turns 0
~ run - - k=-2147483648 r=00
0 1 1
=>
s = 0
node q
0 False
1 False
turns 0
~ run - - -- r=7 k=007
v 7 -0 x
=>
s = 0
node q
7 False
turns 0
~ run - - k=1 r=NIL
=>
s = 0
node q
turns 0
";
