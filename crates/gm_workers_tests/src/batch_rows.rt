//! Vertex programs over many nodes, the graphs that they run over, and how their runs end.
//!
//! All programs have the same fields, globals, registers, kinds and places, and two blocks, each run once. Field 0 of a node is
//! its number. The nodes end with fields 1 to 5, and the run with all globals. Place k of the program is in line k + 1.

/// A graph: a ring, in which each node has an edge to itself and two to the next one, or so many edges between node 0 and
/// each of the others, from node 0 or to it.
#[derive(Clone, Copy)]
pub(crate) enum Shape {
    Ring { nodes: u32 },
    From { nodes: u32, each: u32 },
    To { nodes: u32, each: u32 },
}

/// A program, by its two blocks, and how its run ends: the globals, or the kind and the line of the fault, and the
/// supersteps and the messages.
#[derive(Clone, Copy)]
pub(crate) struct Row {
    pub(crate) name: &'static str,
    pub(crate) first: &'static str,
    pub(crate) second: &'static str,
    pub(crate) end: &'static str,
}

/// What stands before the blocks of each program.
pub(crate) const HEAD: &str = "gm-image 2\n\
    name rows\n\
    inputs 1\n\
    node I v 0\n\
    outputs 9\n\
    scalar I g 0\n\
    scalar L h 1\n\
    scalar B p 2\n\
    scalar N q 3\n\
    node I a 1\n\
    node I b 2\n\
    node L c 3\n\
    node B d 4\n\
    node N e 5\n\
    result -\n\
    globals 4\n\
    I\n\
    L\n\
    B\n\
    N\n\
    fields 6\n\
    I\n\
    I\n\
    I\n\
    L\n\
    B\n\
    N\n\
    registers 2\n\
    I\n\
    L\n\
    columns 0\n\
    kinds 5\n\
    sum I\n\
    - I\n\
    - L\n\
    - L B N\n\
    - I N\n\
    places 8\n\
    1 1\n\
    2 1\n\
    3 1\n\
    4 1\n\
    5 1\n\
    6 1\n\
    7 1\n\
    8 1\n\
    blocks 2\n";

/// What stands behind the blocks of each program.
pub(crate) const TAIL: &str = "master 3\n\
    step 0\n\
    step 1\n\
    end\n";

// Each node sends its number along its edges.
const NUMBERS: &str = "block 0\n\
    body 2\n\
    each out 1\n\
    send 0 nb f 0\n";

// Each node adds up what came, and puts the sum, and the greatest of them.
const ADDED: &str = "block 1\n\
    on 0 1\n\
    fold sum 5 1 m 0\n\
    body 2\n\
    put sum 6 0 f 1\n\
    put max 7 1 long f 1\n";

// The same of messages that may not be combined. Another field is put as well.
const TAKEN: &str = "block 1\n\
    on 1 1\n\
    fold sum 5 1 m 0\n\
    body 2\n\
    put sum 6 0 f 1\n\
    put sum 7 1 long f 2\n";

// Two kinds of messages, each added up in a field of its own.
const BOTH: &str = "block 2\n\
    on 0 1\n\
    fold sum 4 1 m 0\n\
    on 1 1\n\
    fold sum 5 2 m 0\n\
    body 2\n\
    put sum 6 0 f 1\n\
    put sum 7 1 long f 2\n";

// Nothing.
const NOTHING: &str = "block 0\n\
    body 0\n";

/// Each node sends its number along its edges, and adds up what came. The run ends so.
pub(crate) fn number_row(end: &'static str) -> Row {
    Row {
        name: "numbers",
        first: NUMBERS,
        second: ADDED,
        end,
    }
}

/// Bodies and handlers that go by columns, over a ring of 25 nodes.
pub(crate) const COLUMNS: [Row; 5] = [
    Row {
        name: "all types, in a message of three values",
        first: "block 0\n\
            body 7\n\
            set 1 + 0 f 0 c I 1\n\
            set 2 % 1 f 0 c I 7\n\
            set 3 * 2 long f 1 c L 3000000000\n\
            set 4 == f 2 c I 0\n\
            set 5 id\n\
            each out 1\n\
            send 3 nb f 3 f 4 id\n",
        second: "block 1\n\
            on 3 3\n\
            fold sum 3 3 m 0\n\
            fold or 4 4 m 1\n\
            fold max 5 5 m 2\n\
            body 4\n\
            put sum 4 0 f 2\n\
            put sum 5 1 f 3\n\
            put or 6 2 f 4\n\
            put max 7 3 f 5\n",
        end: "[I32(69), I64(3900000000000), Flag(true), At(Some(24))] None 0\n2 75",
    },
    Row {
        name: "what conditions leave out does not fault",
        first: "block 0\n\
            body 5\n\
            set 1 ? == f 0 c I 0 c I 7 / 0 c I 20 f 0\n\
            set 2 ? || == f 0 c I 0 < / 1 c I 20 f 0 c I 1 c I 1 c I 0\n\
            set 4 && != f 0 c I 0 > / 2 c I 20 f 0 c I 1\n\
            put sum 3 0 f 2\n\
            put sum 4 1 ? f 4 c L 1 c L 0\n",
        second: NOTHING,
        end: "[I32(5), I64(10), Flag(false), At(None)] None 0\n2 0",
    },
    Row {
        name: "edges that a condition leaves out",
        first: "block 0\n\
            body 3\n\
            each out 2\n\
            skip 1 != nb id\n\
            send 1 nb f 0\n",
        second: TAKEN,
        end: "[I32(600), I64(0), Flag(false), At(None)] None 0\n2 50",
    },
    Row {
        name: "handlers read fields of their nodes, and fold by two reductions",
        first: "block 0\n\
            body 3\n\
            set 3 c L -1\n\
            each out 1\n\
            send 1 nb f 0\n",
        second: "block 1\n\
            on 1 2\n\
            fold sum 1 1 - 0 f 0 m 0\n\
            fold max 2 3 long m 0\n\
            body 2\n\
            put sum 3 0 f 1\n\
            put sum 4 1 f 3\n",
        end: "[I32(0), I64(324), Flag(false), At(None)] None 0\n2 75",
    },
    Row {
        name: "messages that no handler takes",
        first: "block 0\n\
            body 2\n\
            each out 1\n\
            send 2 nb long f 0\n",
        second: TAKEN,
        end: "[I32(0), I64(0), Flag(false), At(None)] None 0\n2 75",
    },
];

/// Bodies and handlers of which a line is none that goes by columns, over a ring of 25 nodes. Others before it are done,
/// and must not count twice.
pub(crate) const WAYS: [Row; 14] = [
    Row {
        name: "two eaches send",
        first: "block 0\n\
            body 6\n\
            put sum 0 0 c I 1\n\
            fold sum 1 1 c I 1\n\
            each out 1\n\
            send 1 nb c I 1\n\
            each out 1\n\
            send 1 nb c I 2\n",
        second: TAKEN,
        end: "[I32(275), I64(0), Flag(false), At(None)] None 0\n2 150",
    },
    Row {
        name: "a send outside an each, to NIL and to a node",
        first: "block 0\n\
            body 3\n\
            put sum 0 0 c I 1\n\
            fold sum 1 1 c I 1\n\
            send 1 ? < f 0 c I 10 id f 5 f 0\n",
        second: TAKEN,
        end: "[I32(95), I64(0), Flag(false), At(None)] None 0\n2 10",
    },
    Row {
        name: "a send in an each that goes to a node in a field",
        first: "block 0\n\
            body 5\n\
            put sum 0 0 c I 1\n\
            fold sum 1 1 c I 1\n\
            set 5 id\n\
            each out 1\n\
            send 1 f 5 c I 1\n",
        second: TAKEN,
        end: "[I32(125), I64(0), Flag(false), At(None)] None 0\n2 75",
    },
    Row {
        name: "an each along in-edges",
        first: "block 0\n\
            body 4\n\
            put sum 0 0 c I 1\n\
            fold sum 1 1 c I 1\n\
            each in 1\n\
            send 1 nb f 0\n",
        second: TAKEN,
        end: "[I32(950), I64(0), Flag(false), At(None)] None 0\n2 75",
    },
    Row {
        name: "a register in an each",
        first: "block 0\n\
            body 5\n\
            put sum 0 0 c I 1\n\
            fold sum 1 1 c I 1\n\
            each out 2\n\
            reg 0 + 2 r 0 c I 1\n\
            send 1 nb r 0\n",
        second: TAKEN,
        end: "[I32(200), I64(0), Flag(false), At(None)] None 0\n2 75",
    },
    Row {
        name: "a fold, a put and a set in an each",
        first: "block 0\n\
            body 6\n\
            put sum 0 0 c I 1\n\
            fold sum 1 1 c I 1\n\
            each out 3\n\
            fold sum 2 2 c I 1\n\
            put sum 3 1 c L 1\n\
            set 3 c L 5\n",
        second: TAKEN,
        end: "[I32(50), I64(150), Flag(false), At(None)] None 0\n2 0",
    },
    Row {
        name: "tuples",
        first: "block 0\n\
            body 4\n\
            put sum 0 0 c I 1\n\
            fold sum 1 1 c I 1\n\
            pick max 2 2 2 f 0 5 id\n\
            pickput max 3 2 1 long f 0 3 id\n",
        second: TAKEN,
        end: "[I32(50), I64(324), Flag(false), At(Some(24))] None 0\n2 0",
    },
    Row {
        name: "in-degrees, and nodes by their numbers",
        first: "block 0\n\
            body 4\n\
            put sum 0 0 c I 1\n\
            fold sum 1 1 c I 1\n\
            set 2 inn\n\
            set 5 live 2 node long f 0\n",
        second: TAKEN,
        end: "[I32(50), I64(75), Flag(false), At(None)] None 0\n2 0",
    },
    Row {
        name: "the greatest node in a field that has only held NIL",
        first: "block 0\n\
            body 4\n\
            put sum 0 0 c I 1\n\
            fold sum 1 1 c I 1\n\
            fold max 2 5 id\n\
            put max 3 3 f 5\n",
        second: TAKEN,
        end: "[I32(50), I64(0), Flag(false), At(Some(24))] None 0\n2 0",
    },
    Row {
        name: "a skip in an each that leaves one of two lines out",
        first: "block 0\n\
            body 6\n\
            put sum 0 0 c I 1\n\
            fold sum 1 1 c I 1\n\
            each out 3\n\
            skip 1 == nb id\n\
            send 1 nb c I 1\n\
            send 1 nb c I 2\n",
        second: TAKEN,
        end: "[I32(225), I64(0), Flag(false), At(None)] None 0\n2 100",
    },
    Row {
        name: "a value that is chosen by the neighbour",
        first: "block 0\n\
            body 4\n\
            put sum 0 0 c I 1\n\
            fold sum 1 1 c I 1\n\
            each out 1\n\
            send 1 nb ? == nb id c I 1 c I 2\n",
        second: TAKEN,
        end: "[I32(175), I64(0), Flag(false), At(None)] None 0\n2 75",
    },
    Row {
        name: "a handler that folds twice into a field",
        first: "block 0\n\
            body 2\n\
            each out 1\n\
            send 1 nb f 0\n",
        second: "block 1\n\
            on 1 2\n\
            fold sum 0 1 m 0\n\
            fold sum 1 1 c I 1\n\
            body 1\n\
            put sum 2 0 f 1\n",
        end: "[I32(975), I64(0), Flag(false), At(None)] None 0\n2 75",
    },
    Row {
        name: "a handler that picks",
        first: "block 0\n\
            body 2\n\
            each out 1\n\
            send 4 nb f 0 id\n",
        second: "block 1\n\
            on 4 2\n\
            fold sum 0 1 m 0\n\
            pick min 1 2 2 - 2 m 0 c I 2000 5 m 1\n\
            body 2\n\
            put sum 3 0 f 1\n\
            put sum 4 1 long f 2\n",
        end: "[I32(900), I64(-49724), Flag(false), At(None)] None 0\n2 75",
    },
    Row {
        name: "a handler that puts and sends",
        first: "block 0\n\
            body 2\n\
            each out 1\n\
            send 1 nb f 0\n",
        second: "block 1\n\
            on 1 3\n\
            fold sum 0 1 m 0\n\
            put sum 1 0 c I 1\n\
            send 1 id m 0\n\
            body 1\n\
            put sum 2 0 f 1\n",
        end: "[I32(975), I64(0), Flag(false), At(None)] None 0\n2 150",
    },
];

/// Programs whose batches differ, over a ring of 1,025 nodes: nodes are idle behind a first skip, or send messages of two
/// kinds, and registers are at zero in each part of the messages.
pub(crate) const BATCHES: [Row; 8] = [
    Row {
        name: "all nodes of the last batch are idle",
        first: "block 0\n\
            body 3\n\
            skip 2 < f 0 c I 1024\n\
            each out 1\n\
            send 0 nb c I 1\n",
        second: ADDED,
        end: "[I32(3072), I64(3), Flag(false), At(None)] None 0\n2 3072",
    },
    Row {
        name: "all nodes of the first batch are idle",
        first: "block 0\n\
            body 3\n\
            skip 2 >= f 0 c I 1024\n\
            each out 1\n\
            send 0 nb c I 1\n",
        second: ADDED,
        end: "[I32(3), I64(2), Flag(false), At(None)] None 0\n2 3",
    },
    Row {
        name: "one node of a batch is not idle",
        first: "block 0\n\
            body 3\n\
            skip 2 == f 0 c I 700\n\
            each out 1\n\
            send 0 nb c I 1\n",
        second: ADDED,
        end: "[I32(3), I64(2), Flag(false), At(None)] None 0\n2 3",
    },
    Row {
        name: "all nodes are idle",
        first: "block 0\n\
            body 3\n\
            skip 2 < f 0 c I 0\n\
            each out 1\n\
            send 0 nb c I 1\n",
        second: ADDED,
        end: "[I32(0), I64(0), Flag(false), At(None)] None 0\n2 0",
    },
    Row {
        name: "no node is idle",
        first: "block 0\n\
            body 3\n\
            skip 2 >= f 0 c I 0\n\
            each out 1\n\
            send 0 nb c I 1\n",
        second: ADDED,
        end: "[I32(3075), I64(3), Flag(false), At(None)] None 0\n2 3075",
    },
    Row {
        name: "batches send different kinds",
        first: "block 0\n\
            body 6\n\
            skip 2 < f 0 c I 1024\n\
            each out 1\n\
            send 0 nb f 0\n\
            skip 2 >= f 0 c I 1024\n\
            each out 1\n\
            send 1 nb c I -1\n",
        second: BOTH,
        end: "[I32(1571328), I64(-3), Flag(false), At(None)] None 0\n2 3075",
    },
    Row {
        name: "two kinds in a batch",
        first: "block 0\n\
            body 8\n\
            put sum 0 0 c I 1\n\
            fold sum 1 1 c I 1\n\
            skip 2 < f 0 c I 700\n\
            each out 1\n\
            send 0 nb f 0\n\
            skip 2 >= f 0 c I 700\n\
            each out 1\n\
            send 1 nb c I -1\n",
        second: BOTH,
        end: "[I32(736000), I64(-975), Flag(false), At(None)] None 0\n2 3075",
    },
    Row {
        name: "registers begin at zero, in bodies and in handlers",
        first: "block 0\n\
            body 5\n\
            skip 1 < f 0 c I 600\n\
            reg 0 + 0 f 0 c I 1\n\
            set 1 r 0\n\
            each out 1\n\
            send 1 nb r 0\n",
        second: "block 1\n\
            on 1 3\n\
            skip 1 < m 0 c I 100\n\
            reg 0 m 0\n\
            fold sum 1 1 r 0\n\
            body 4\n\
            set 2 r 0\n\
            reg 1 long f 1\n\
            put sum 2 0 f 1\n\
            put sum 3 1 long + 4 f 2 r 0\n",
        end: "[I32(195150), I64(0), Flag(false), At(None)] None 0\n2 3075",
    },
];

/// Faults of a node in the middle of a batch, in two batches, in handlers, along edges, and of what all put, over a ring of
/// 1,025 nodes.
pub(crate) const FAULTS: [Row; 9] = [
    Row {
        name: "node 700, behind what it sends",
        first: "block 0\n\
            body 3\n\
            each out 1\n\
            send 1 nb f 0\n\
            set 1 / 3 c I 1 - 2 f 0 c I 700\n",
        second: NOTHING,
        end: "DivideByZero 4\n1 3075",
    },
    Row {
        name: "node 700, before it sends",
        first: "block 0\n\
            body 3\n\
            set 1 / 3 c I 1 - 2 f 0 c I 700\n\
            each out 1\n\
            send 1 nb f 0\n",
        second: NOTHING,
        end: "DivideByZero 4\n1 3072",
    },
    Row {
        name: "nodes of two batches: the least place counts, which is that of the greater node",
        first: "block 0\n\
            body 6\n\
            skip 1 == f 0 c I 1024\n\
            set 1 / 0 c I 1 c I 0\n\
            skip 1 == f 0 c I 300\n\
            set 1 * 1 c I 2147483647 c I 2\n\
            each out 1\n\
            send 1 nb f 0\n",
        second: NOTHING,
        end: "DivideByZero 1\n1 3069",
    },
    Row {
        name: "nodes of two batches at one place: the least number counts",
        first: "block 0\n\
            body 1\n\
            set 1 / 2 c I -2147483648 ? == f 0 c I 300 c I -1 ? == f 0 c I 1024 c I 0 c I 1\n",
        second: NOTHING,
        end: "DivideByZero 3\n1 0",
    },
    Row {
        name: "a sum of two nodes' messages is out of range",
        first: "block 0\n\
            body 2\n\
            each out 1\n\
            send 0 nb ? == f 0 c I 700 c I 2147483647 c I 1\n",
        second: "block 1\n\
            on 0 1\n\
            fold sum 5 1 m 0\n\
            body 2\n\
            each out 1\n\
            send 1 nb f 0\n",
        end: "Overflow 6\n2 6144",
    },
    Row {
        name: "handlers of two nodes divide by a message of zero",
        first: "block 0\n\
            body 2\n\
            each out 1\n\
            send 1 nb f 0\n",
        second: "block 1\n\
            on 1 1\n\
            fold sum 5 1 / 4 c I 10 m 0\n\
            body 2\n\
            each out 1\n\
            send 1 nb f 0\n",
        end: "DivideByZero 5\n2 6144",
    },
    Row {
        name: "node 700 folds a sum that is out of range",
        first: "block 0\n\
            body 2\n\
            set 1 c I 2147483647\n\
            fold sum 3 1 ? == f 0 c I 700 c I 1 c I 0\n",
        second: NOTHING,
        end: "Overflow 4\n1 0",
    },
    Row {
        name: "each edge of node 0",
        first: "block 0\n\
            body 2\n\
            each out 1\n\
            send 1 nb / 0 c I 1 f 0\n",
        second: NOTHING,
        end: "DivideByZero 1\n1 3072",
    },
    Row {
        name: "the sum of what all put is out of range",
        first: "block 0\n\
            body 1\n\
            put sum 0 0 c I 2147483647\n",
        second: NOTHING,
        end: "Overflow 1\n1 0",
    },
];

/// Sums of what the nodes of a batch put that leave their types' ranges, and come back by the next batch, over a ring of
/// 1,026 nodes.
pub(crate) const PUTS: Row = Row {
    name: "of what batches put",
    first: "block 0\n\
            body 2\n\
            put sum 0 0 ? < f 0 c I 1024 c I 2097152 c I -1073741823\n\
            put sum 1 1 ? < f 0 c I 1024 c L 9007199254740992 c L -4611686018427387903\n",
    second: NOTHING,
    end: "[I32(2), I64(2), Flag(false), At(None)] None 0\n2 0",
};

/// Sums and products of messages that leave their types' ranges on the way and come back, over a ring of 26 nodes.
pub(crate) const RANGES: [Row; 4] = [
    Row {
        name: "of messages of Int",
        first: "block 0\n\
            body 2\n\
            each out 1\n\
            send 0 nb ? == % 0 f 0 c I 2 c I 0 c I 1073741824 c I -1073741824\n",
        second: ADDED,
        end: "[I32(0), I64(1073741824), Flag(false), At(None)] None 0\n2 78",
    },
    Row {
        name: "of messages of Long",
        first: "block 0\n\
            body 2\n\
            each out 1\n\
            send 2 nb ? == % 0 f 0 c I 2 c I 0 c L 4611686018427387904 c L -4611686018427387904\n",
        second: "block 1\n\
            on 2 1\n\
            fold sum 5 3 m 0\n\
            body 2\n\
            put sum 6 0 ? > f 3 c L 0 c I 1 c I 0\n\
            put max 7 1 f 3\n",
        end: "[I32(13), I64(4611686018427387904), Flag(false), At(None)] None 0\n2 78",
    },
    Row {
        name: "of messages of Long in a field of Int",
        first: "block 0\n\
            body 2\n\
            each out 1\n\
            send 2 nb ? == % 0 f 0 c I 2 c I 0 c L 1073741824 c L -1073741824\n",
        second: "block 1\n\
            on 2 1\n\
            fold sum 5 1 int 4 m 0\n\
            body 2\n\
            put sum 6 0 f 1\n\
            put max 7 1 long f 1\n",
        end: "[I32(0), I64(1073741824), Flag(false), At(None)] None 0\n2 78",
    },
    Row {
        name: "a product that a zero brings back",
        first: "block 0\n\
            body 3\n\
            set 1 c I 1\n\
            each out 1\n\
            send 1 nb ? == % 0 f 0 c I 2 c I 0 c I 0 c I 65536\n",
        second: "block 1\n\
            on 1 1\n\
            fold product 5 1 m 0\n\
            body 1\n\
            put sum 6 0 f 1\n",
        end: "[I32(0), I64(0), Flag(false), At(None)] None 0\n2 78",
    },
];

/// Messages to one node that are handled in parts, over three edges from each of 1,025 nodes.
pub(crate) const PARTS: [Row; 2] = [
    Row {
        name: "a sum that leaves its range in the second part and comes back",
        first: "block 0\n\
            body 2\n\
            each out 1\n\
            send 0 nb ? < f 0 c I 513 c I 1572864 c I -1572864\n",
        second: ADDED,
        end: "[I32(-4718592), I64(0), Flag(false), At(None)] None 0\n2 3075",
    },
    Row {
        name: "two folds at each of which a part's sum fits, and all that are at the first do not",
        first: "block 0\n\
            body 2\n\
            each out 1\n\
            send 1 nb c I 1048576\n",
        second: "block 1\n\
            on 1 2\n\
            fold sum 0 1 m 0\n\
            fold sum 1 1 neg 2 m 0\n\
            body 0\n",
        end: "Overflow 1\n2 3075",
    },
];

/// 100,000 edges lead from a node.
pub(crate) const FROM: Row = Row {
    name: "they lead from it, and along none a value is divided by zero",
    first: "block 0\n\
            body 2\n\
            each out 1\n\
            send 0 nb / 0 c I 1 ? == f 0 c I 0 c I 1 c I 0\n",
    second: ADDED,
    end: "[I32(100000), I64(50), Flag(false), At(None)] None 0\n2 100000",
};

/// 100,000 edges lead to a node.
pub(crate) const TO: Row = Row {
    name: "they lead to it",
    first: NUMBERS,
    second: ADDED,
    end: "[I32(100050000), I64(100050000), Flag(false), At(None)] None 0\n2 100000",
};
