//! Words that ask for nothing, and demonstrations.

/// Words that ask for nothing, a line each, of which the first has none.
pub const FAULTY: &str = "
run
run -
run - - -
run - - root
run - - --observe
run - - --workers 65
run - - --workers 0
run - - --workers
run - - --workers=4 --workers=4
run - - --turns -5
run - - --turns 9223372036854775808
run - - --partition spread
run - - --partition spread:4294967296
run - - --format
run - - --format real
run - - --format mtx --format mtx
exec - - --format edges --format=mtx
run - - -k=1
run - - --k=1
run - - --turn 5
check
check - -
check --image -
check - --image
check - --turns 5
check - --format mtx
check -x
compile
compile - -
compile - --image
compile --turns 5 -
Check -
Run - -
run -- -
- - run
demo
demo 0
demo 1000001
demo 1 2
demo 5 --turns 3
demo 5 --format mtx
demo 5 --format edges
demo x
";

/// What the shortest paths over graphs that are drawn from a number are, worked out by another program with another
/// way to find them.
pub const DEMOS: &str = "
~ demo 1
=>
demo 1 edges 4 reached 1 far 0 turns 1
~ demo 2
=>
demo 2 edges 8 reached 2 far 23 turns 2
~ demo 3
=>
demo 3 edges 12 reached 3 far 50 turns 3
~ demo 10
=>
demo 10 edges 40 reached 9 far 100 turns 3
~ demo 100
=>
demo 100 edges 400 reached 98 far 232 turns 8
~ demo 100 --workers 7 --partition spread:3
no program=>
demo 100 edges 400 reached 98 far 232 turns 8
~ demo --partition=block 0000100 --workers=64
=>
demo 100 edges 400 reached 98 far 232 turns 8
";
