//! Listings of small runs, with ample memory.

ghost use Rattle.gm_columns.specs.Columns.{CanHold};

use crate::compare::{same, same_bytes};
use crate::graph_texts::graph_of_edges;
use gm_base::{Items, NoMemory, Place, Status};
use gm_columns::{Column, Values};
use gm_graph::Graph;
use gm_listing::{Ending, Outputs, listing, status_of};
use gm_model::Outcome;
use gm_value::{FaultKind, VType, Value};
use std::alloc::{AllocError, Global};
use std::process::Abort;
use std::test::Fail;

// The line `70 3` and the node of the greatest number.
fn far_graph(alloc: Global) -> Result<Graph, NoMemory> {
    graph_of_edges(alloc, &[70], &[3], &[9_223_372_036_854_775_807])
}

// The values of three nodes.
fn three_values(
    alloc: Global,
    vtype: VType,
    first: Value,
    second: Value,
    third: Value,
) -> Result<Values, NoMemory>
    requires first { CanHold vtype first }
    requires second { CanHold vtype second }
    requires third { CanHold vtype third }
{
    let mut column = Column::new(alloc, vtype);
    column.push(first)?;
    column.push(second)?;
    column.push(third)?;
    Ok(Values::new(column))
}

// Properties and one more. (They are handed over: what a caller still holds is dropped at each of its `?`, and proved so.)
fn with(properties: Vec<Values>, values: Values) -> Result<Vec<Values>, NoMemory> {
    let mut properties = properties;
    properties.push(values)?;
    Ok(properties)
}

fn int_property(alloc: Global) -> Result<Values, NoMemory> {
    three_values(
        alloc,
        VType::I32,
        Value::I32(i32::MIN),
        Value::I32(0),
        Value::I32(i32::MAX),
    )
}

fn long_property(alloc: Global) -> Result<Values, NoMemory> {
    three_values(
        alloc,
        VType::I64,
        Value::I64(i64::MAX),
        Value::I64(i64::MIN),
        Value::I64(-10),
    )
}

fn flag_property(alloc: Global) -> Result<Values, NoMemory> {
    three_values(
        alloc,
        VType::Flag,
        Value::Flag(true),
        Value::Flag(false),
        Value::Flag(true),
    )
}

fn node_property(alloc: Global) -> Result<Values, NoMemory> {
    three_values(
        alloc,
        VType::Node,
        Value::At(Some(2)),
        Value::At(None),
        Value::At(Some(0)),
    )
}

// A property of each type.
fn properties(alloc: Global) -> Result<Vec<Values>, NoMemory> {
    let properties = with(Vec::new(alloc), int_property(alloc)?)?;
    let properties = with(properties, long_property(alloc)?)?;
    let properties = with(properties, flag_property(alloc)?)?;
    with(properties, node_property(alloc)?)
}

// A property of a graph without nodes.
fn no_values(alloc: Global) -> Values {
    Values::new(Column::new(alloc, VType::I64))
}

// A run that is done.
fn done(scalars: Vec<Value>, returned: Option<Value>, nodes: Vec<Values>, turns: u64) -> Outcome {
    Outcome::Done {
        scalars: Items::new(scalars),
        result: returned,
        nodes: Items::new(nodes),
        turns,
    }
}

// Compares what is listed of an outcome on a graph.
fn compare_on(
    rt: &(impl Abort + AllocGlobal),
    graph: &Graph,
    outputs: &Outputs,
    outcome: &Outcome,
    ending: Ending,
    want: &str,
) -> Result<(), Fail> {
    let text = listing(rt.alloc(), outputs, graph, outcome, ending)?;
    same_bytes(rt, 0, text.as_slice(), want.as_bytes());
    Ok(())
}

// The same on the graph of two lines.
fn compare(
    rt: &(impl Abort + AllocGlobal),
    outputs: &Outputs,
    outcome: &Outcome,
    ending: Ending,
    want: &str,
) -> Result<(), Fail> {
    let graph = far_graph(rt.alloc())?;
    compare_on(rt, &graph, outputs, outcome, ending, want)
}

const NO_NAMES: Outputs<'static> = Outputs {
    scalars: &[],
    properties: &[],
};

// How many supersteps an image took, and how many messages there were.
const COUNTS: Ending = Ending::Counts {
    supersteps: 12,
    messages: u64::MAX,
};

// What is listed of scalars, a result, and the properties of each type.
const ALL_LISTED: &str = "\
n = -5
far_away = 12345678901
both = False
root = 70
gone = NIL
return = True
node least far flag next
3 -2147483648 9223372036854775807 True 9223372036854775807
70 0 -9223372036854775808 False NIL
9223372036854775807 2147483647 -10 True 3
turns 1000000
";

// A scalar of each type, and a node that is none.
fn scalars(alloc: Global) -> Result<Vec<Value>, Fail> {
    Ok(vec![in alloc;
        Value::I32(-5),
        Value::I64(12_345_678_901),
        Value::Flag(false),
        Value::At(Some(1)),
        Value::At(None),
    ]?)
}

// These scalars, a result and these properties.
fn all_done(alloc: Global) -> Result<Outcome, Fail> {
    let scalars = scalars(alloc)?;
    let properties = properties(alloc)?;
    Ok(done(scalars, Some(Value::Flag(true)), properties, 1_000_000))
}

#[test]
fn scalars_result_nodes_and_turns(rt: HostRuntime) -> Result<(), Fail> {
    let outcome = all_done(rt.alloc())?;
    let outputs = Outputs {
        scalars: &[b"n", b"far_away", b"both", b"root", b"gone"],
        properties: &[b"least", b"far", b"flag", b"next"],
    };
    same(&rt, 1, status_of(&outcome), Status::Done);
    compare(&rt, &outputs, &outcome, Ending::Turns, ALL_LISTED)
}

// Compares what is listed of a result.
fn compare_result(
    rt: &(impl Abort + AllocGlobal),
    returned: Option<Value>,
    ending: Ending,
    want: &str,
) -> Result<(), Fail> {
    let outcome = done(Vec::new(rt.alloc()), returned, Vec::new(rt.alloc()), 7);
    compare(rt, &NO_NAMES, &outcome, ending, want)
}

#[test]
fn no_result_and_last_lines(rt: HostRuntime) -> Result<(), Fail> {
    compare_result(&rt, None, Ending::Turns, "turns 7\n")?;
    compare_result(
        &rt,
        None,
        COUNTS,
        "supersteps 12 messages 18446744073709551615 turns 7\n",
    )
}

// Compares what is listed of a result before the turns.
fn compare_value(rt: &(impl Abort + AllocGlobal), returned: Value, want: &str) -> Result<(), Fail> {
    compare_result(rt, Some(returned), Ending::Turns, want)
}

#[test]
fn results_and_last_lines(rt: HostRuntime) -> Result<(), Fail> {
    compare_value(&rt, Value::I32(0), "return = 0\nturns 7\n")?;
    compare_value(
        &rt,
        Value::I64(i64::MIN),
        "return = -9223372036854775808\nturns 7\n",
    )?;
    compare_value(&rt, Value::Flag(false), "return = False\nturns 7\n")?;
    compare_value(&rt, Value::At(Some(0)), "return = 3\nturns 7\n")?;
    compare_value(&rt, Value::At(None), "return = NIL\nturns 7\n")
}

// Compares the status of an outcome, and the line that is all that is listed of it, where there are names.
fn compare_line(
    rt: &(impl Abort + AllocGlobal),
    outcome: &Outcome,
    ending: Ending,
    status: Status,
    want: &str,
) -> Result<(), Fail> {
    let outputs = Outputs {
        scalars: &[b"n"],
        properties: &[b"far"],
    };
    same(rt, 1, status_of(outcome), status);
    compare(rt, &outputs, outcome, ending, want)
}

// Compares what is listed of a fault.
fn compare_fault(rt: &(impl Abort + AllocGlobal), kind: FaultKind, want: &str) -> Result<(), Fail> {
    let outcome = Outcome::Fault {
        kind,
        place: Place { line: 12, col: 305 },
    };
    compare_line(rt, &outcome, Ending::Turns, Status::Fault, want)
}

#[test]
fn faults_are_one_line(rt: HostRuntime) -> Result<(), Fail> {
    compare_fault(
        &rt,
        FaultKind::DivideByZero,
        "fault DivideByZero at 12:305\n",
    )?;
    compare_fault(&rt, FaultKind::NilNode, "fault NilNode at 12:305\n")?;
    compare_fault(&rt, FaultKind::Overflow, "fault Overflow at 12:305\n")
}

#[test]
fn cuts_are_one_line(rt: HostRuntime) -> Result<(), Fail> {
    let cut = Outcome::Cut { turns: 1_000_000 };
    let counts = Ending::Counts {
        supersteps: 1,
        messages: 2,
    };
    compare_line(&rt, &cut, counts, Status::Cut, "cut after 1000000 turns\n")
}

// One property of a graph without nodes.
fn one_property(alloc: Global) -> Result<Outcome, NoMemory> {
    let properties = with(Vec::new(alloc), no_values(alloc))?;
    Ok(done(Vec::new(alloc), None, properties, 1))
}

#[test]
fn a_graph_without_nodes_has_no_line_for_one(rt: HostRuntime) -> Result<(), Fail> {
    let outcome = one_property(rt.alloc())?;
    let graph = graph_of_edges(rt.alloc(), &[], &[], &[])?;
    let outputs = Outputs {
        scalars: &[],
        properties: &[b"far"],
    };
    compare_on(
        &rt,
        &graph,
        &outputs,
        &outcome,
        Ending::Turns,
        "node far\nturns 1\n",
    )
}

// Three scalars, of which one is no node of the graph, and five properties, of which one has no values.
fn unpaired(alloc: Global) -> Result<Outcome, Fail> {
    let scalars = vec![in alloc; Value::I32(1), Value::I32(2), Value::At(Some(3))]?;
    let properties = with(properties(alloc)?, no_values(alloc))?;
    Ok(done(scalars, None, properties, 0))
}

// Compares what is listed of these under some names.
fn compare_unpaired(
    rt: &(impl Abort + AllocGlobal),
    names: &Outputs,
    want: &str,
) -> Result<(), Fail> {
    let outcome = unpaired(rt.alloc())?;
    compare(rt, names, &outcome, Ending::Turns, want)
}

// What is listed under fewer names.
const FEWER_NAMES: &str = "\
a = 1
node p
3 -2147483648
70 0
9223372036854775807 2147483647
turns 0
";

// What is listed under more names.
const MORE_NAMES: &str = "\
a = 1
b = 2
c = 0
node p q r s t
3 -2147483648 9223372036854775807 True 9223372036854775807
70 0 -9223372036854775808 False NIL
9223372036854775807 2147483647 -10 True 3
turns 0
";

#[test]
fn what_has_no_name_is_left_out(rt: HostRuntime) -> Result<(), Fail> {
    compare_unpaired(&rt, &NO_NAMES, "turns 0\n")?;
    let fewer = Outputs {
        scalars: &[b"a"],
        properties: &[b"p"],
    };
    compare_unpaired(&rt, &fewer, FEWER_NAMES)
}

#[test]
fn what_has_no_partner_is_left_out(rt: HostRuntime) -> Result<(), Fail> {
    let more = Outputs {
        scalars: &[b"a", b"b", b"c", b"d"],
        properties: &[b"p", b"q", b"r", b"s", b"t", b"u"],
    };
    compare_unpaired(&rt, &more, MORE_NAMES)
}
