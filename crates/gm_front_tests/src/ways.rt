//! The ways of the reductions of inner loops, and the reads of edges that they forbid.

use crate::rows::same;
use gm_ast::tree::{Domain, Expr, Head, Key, Stage, Stmt, Target, TotalKey};
use gm_ast::ways::Way;
use gm_base::{Place, Refusal, Rule};
use gm_push_pull::{LoopWays, ways_in_loop};
use gm_value::Reduce;
use std::alloc::{AllocError, Global};
use std::process::Abort;
use std::test::Fail;

// The variables of the bodies below: a node and its neighbour, two properties of nodes, an edge and its property, and
// three locals.
const NODE: u32 = 0;

const NEIGHBOUR: u32 = 1;

const INPUT: u32 = 2;

const OUTPUT: u32 = 3;

const EDGE: u32 = 4;

const WEIGHT: u32 = 5;

const FIRST: u32 = 6;

const SECOND: u32 = 7;

const THIRD: u32 = 8;

const KEY: Key = Key {
    statement: 0,
    stage: Stage::Operator,
};

fn at(col: u32) -> Place {
    Place { line: 1, col }
}

// The refusal of a read of an edge in a column, if there is one.
fn against(col: Option<u32>) -> Option<Refusal> {
    let col = col?;
    Some(Refusal {
        rule: Rule::C7,
        place: at(col),
    })
}

fn local(variable: u32) -> Expr {
    Expr::Var {
        variable,
        place: at(1),
    }
}

fn input(owner: u32) -> Expr {
    Expr::Property {
        owner,
        property: INPUT,
        place: at(1),
    }
}

fn weight(col: u32) -> Expr {
    Expr::EdgeProperty {
        edge: EDGE,
        property: WEIGHT,
        place: at(col),
    }
}

fn declare(variable: u32) -> Stmt {
    Stmt::Declare {
        key: KEY,
        variable,
        value: None,
    }
}

fn assign(variable: u32, value: Expr) -> Stmt {
    Stmt::Assign {
        key: KEY,
        target: Target::Scalar {
            variable,
            place: at(1),
        },
        value,
    }
}

// The output of a node as the one target of a reduction.
fn output(alloc: Global, owner: u32) -> Result<Vec<Target>, AllocError> {
    let mut targets = Vec::new(alloc);
    targets.push(Target::Property {
        owner,
        property: OUTPUT,
        place: at(1),
    })?;
    Ok(targets)
}

// One value.
fn one(alloc: Global, value: Expr) -> Result<Vec<Expr>, AllocError> {
    let mut values = Vec::new(alloc);
    values.push(value)?;
    Ok(values)
}

// Adds a value to a node's output.
fn add(alloc: Global, owner: u32, value: Expr) -> Result<Stmt, AllocError> {
    let values = one(alloc, value)?;
    let targets = output(alloc, owner)?;
    Ok(Stmt::Reduce {
        key: KEY,
        total: TotalKey {
            key: KEY,
            place: at(1),
            shown: at(1),
        },
        reduce: Reduce::Sum,
        targets,
        values,
    })
}

fn when(alloc: Global, test: Expr, then: Stmt) -> Result<Stmt, AllocError> {
    let yes = Box::new(alloc, then)?;
    let no = Box::new(alloc, Stmt::Block(Vec::new(alloc)))?;
    Ok(Stmt::If {
        key: KEY,
        test,
        yes,
        no,
    })
}

fn head(domain: Domain) -> Head {
    Head {
        iterator: NEIGHBOUR,
        domain,
        owner: NODE,
        place: at(1),
    }
}

// What is found of the reductions of a loop, by a call that promises nothing.
fn ways_of(alloc: Global, head: &Head, filter: &Expr, body: &Stmt) -> Result<LoopWays, AllocError> {
    ways_in_loop(alloc, head, filter, body)
}

// The same, written out.
fn found_of(alloc: Global, domain: Domain, filter: &Expr, body: &Stmt) -> Result<String, Fail> {
    let found = ways_of(alloc, &head(domain), filter, body)?;
    Ok(format!(in alloc; "{found:?}")?)
}

// Compares what is found with a text.
fn check(
    rt: &(impl Abort + AllocGlobal),
    domain: Domain,
    filter: &Expr,
    body: &Stmt,
    want: &str,
) -> Result<(), Fail> {
    let found = found_of(rt.alloc(), domain, filter, body)?;
    same(rt, found.as_str(), want, "ways");
    Ok(())
}

// These ways, and the column of the first read against the way, written out.
fn wanted(alloc: Global, ways: Vec<Way>, col: Option<u32>) -> Result<String, AllocError> {
    let against = against(col);
    let ways = LoopWays { ways, against };
    format!(in alloc; "{ways:?}")
}

// Statements and one more. (They are handed over: what a caller still holds is dropped at each of its `?`, and proved so.)
fn with(stmts: Vec<Stmt>, stmt: Stmt) -> Result<Vec<Stmt>, AllocError> {
    let mut stmts = stmts;
    stmts.push(stmt)?;
    Ok(stmts)
}

// Statements and a reduction to a node's output.
fn with_sum(
    alloc: Global,
    stmts: Vec<Stmt>,
    owner: u32,
    value: Expr,
) -> Result<Vec<Stmt>, AllocError> {
    with(stmts, add(alloc, owner, value)?)
}

// Statements and one under a condition.
fn with_test(
    alloc: Global,
    stmts: Vec<Stmt>,
    test: Expr,
    then: Stmt,
) -> Result<Vec<Stmt>, AllocError> {
    with(stmts, when(alloc, test, then)?)
}

// Three locals without values.
fn three_declared(alloc: Global) -> Result<Vec<Stmt>, AllocError> {
    let stmts = with(Vec::new(alloc), declare(FIRST))?;
    let stmts = with(stmts, declare(SECOND))?;
    with(stmts, declare(THIRD))
}

// Three locals of which each takes the next one's value, the last one's in a condition, and three reductions.
fn three_locals(alloc: Global) -> Result<Stmt, AllocError> {
    let stmts = three_declared(alloc)?;
    let stmts = with(stmts, assign(FIRST, local(SECOND)))?;
    let stmts = with(stmts, assign(SECOND, local(THIRD)))?;
    let stmts = with_test(alloc, stmts, input(NEIGHBOUR), assign(THIRD, input(NODE)))?;
    let stmts = with_sum(alloc, stmts, NODE, local(FIRST))?;
    let stmts = with_sum(alloc, stmts, NODE, input(NODE))?;
    let stmts = with_sum(alloc, stmts, NEIGHBOUR, input(NODE))?;
    Ok(Stmt::Block(stmts))
}

#[test]
fn reads_through_locals(rt: HostRuntime) -> Result<(), Fail> {
    let body = three_locals(rt.alloc())?;
    check(
        &rt,
        Domain::OutNbrs,
        &input(NODE),
        &body,
        "LoopWays { ways: [Pull, Home, Push], against: None }",
    )?;
    check(
        &rt,
        Domain::OutNbrs,
        &input(NEIGHBOUR),
        &body,
        "LoopWays { ways: [Pull, Pull, Push], against: None }",
    )
}

// A local with the values of edges.
fn edge_local(alloc: Global) -> Result<Vec<Stmt>, AllocError> {
    let stmts = with(Vec::new(alloc), declare(FIRST))?;
    let stmts = with(stmts, assign(FIRST, weight(20)))?;
    with(stmts, assign(FIRST, weight(9)))
}

// The same and two reductions, the first of them under a condition.
fn edge_reads(alloc: Global) -> Result<Stmt, AllocError> {
    let sum = add(alloc, NEIGHBOUR, weight(12))?;
    let stmts = with_test(alloc, edge_local(alloc)?, local(FIRST), sum)?;
    let stmts = with_sum(alloc, stmts, NODE, weight(5))?;
    Ok(Stmt::Block(stmts))
}

// Compares what is found of these reads: the range, the way of the second reduction, and the column of the first read.
fn check_edges(
    rt: &(impl Abort + AllocGlobal),
    domain: Domain,
    way: Way,
    col: Option<u32>,
) -> Result<(), Fail> {
    let want = wanted(rt.alloc(), vec![in rt.alloc(); Way::Push, way]?, col)?;
    let body = edge_reads(rt.alloc())?;
    check(rt, domain, &input(NODE), &body, want.as_str())
}

#[test]
fn reads_edges_against_the_way(rt: HostRuntime) -> Result<(), Fail> {
    check_edges(&rt, Domain::OutNbrs, Way::Home, None)?;
    check_edges(&rt, Domain::InNbrs, Way::Pull, Some(9))?;
    check_edges(&rt, Domain::UpNbrs, Way::Pull, Some(9))?;
    check_edges(&rt, Domain::DownNbrs, Way::Pull, Some(5))
}

// Six locals, and the steps of a chain.
fn links(alloc: Global, steps: [(u32, u32); 5]) -> Result<Vec<Stmt>, AllocError> {
    let mut stmts = Vec::new(alloc);
    for variable in [10, 11, 12, 13, 14, 15] {
        stmts.push(declare(variable))?;
    }
    for (written, read) in steps {
        stmts.push(assign(written, local(read)))?;
    }
    Ok(stmts)
}

// A body whose six locals rest on one another in a chain, and whose last one reads the neighbour and edges. Of each step,
// in the order of the text, the local that is written and the one that is read.
fn chain(alloc: Global, steps: [(u32, u32); 5]) -> Result<Stmt, AllocError> {
    let stmts = links(alloc, steps)?;
    let stmts = with(stmts, assign(15, input(NEIGHBOUR)))?;
    let stmts = with(stmts, assign(15, weight(20)))?;
    let stmts = with(stmts, assign(15, weight(9)))?;
    let stmts = with_sum(alloc, stmts, NODE, local(10))?;
    Ok(Stmt::Block(stmts))
}

// Compares what is found of a chain.
fn check_chain(rt: &(impl Abort + AllocGlobal), steps: [(u32, u32); 5]) -> Result<(), Fail> {
    let body = chain(rt.alloc(), steps)?;
    check(
        rt,
        Domain::OutNbrs,
        &input(NODE),
        &body,
        "LoopWays { ways: [Pull], against: Some(Refusal { rule: C7, place: Place { line: 1, col: 9 } }) }",
    )
}

#[test]
fn reads_through_chains_of_locals(rt: HostRuntime) -> Result<(), Fail> {
    // against the order of the text, along it, and in zig-zag order
    check_chain(&rt, [(10, 11), (11, 12), (12, 13), (13, 14), (14, 15)])?;
    check_chain(&rt, [(14, 15), (13, 14), (12, 13), (11, 12), (10, 11)])?;
    check_chain(&rt, [(10, 11), (14, 15), (11, 12), (13, 14), (12, 13)])
}

// A local in nested conditions, and what the inner condition's local and the outer one's read, which get their values
// further down only.
fn conditions(alloc: Global, inner: Expr, outer: Expr) -> Result<Stmt, AllocError> {
    let within = when(alloc, local(SECOND), assign(FIRST, input(NODE)))?;
    let stmts = with_test(alloc, three_declared(alloc)?, local(THIRD), within)?;
    let stmts = with(stmts, assign(SECOND, inner))?;
    let stmts = with(stmts, assign(THIRD, outer))?;
    let stmts = with_sum(alloc, stmts, NODE, local(FIRST))?;
    Ok(Stmt::Block(stmts))
}

// Compares what is found of nested conditions: a way, and the column of the first read against it.
fn check_conditions(
    rt: &(impl Abort + AllocGlobal),
    domain: Domain,
    inner: Expr,
    outer: Expr,
    way: Way,
    col: Option<u32>,
) -> Result<(), Fail> {
    let want = wanted(rt.alloc(), vec![in rt.alloc(); way]?, col)?;
    let body = conditions(rt.alloc(), inner, outer)?;
    check(rt, domain, &input(NODE), &body, want.as_str())
}

#[test]
fn reads_through_nested_conditions(rt: HostRuntime) -> Result<(), Fail> {
    let (out, back, down) = (Domain::OutNbrs, Domain::InNbrs, Domain::DownNbrs);
    check_conditions(&rt, out, input(NEIGHBOUR), input(NODE), Way::Pull, None)?;
    check_conditions(&rt, out, input(NODE), input(NEIGHBOUR), Way::Pull, None)?;
    check_conditions(&rt, out, input(NODE), input(NODE), Way::Home, None)?;
    check_conditions(&rt, back, input(NODE), weight(7), Way::Pull, None)?;
    check_conditions(&rt, back, input(NODE), input(NODE), Way::Home, None)?;
    check_conditions(&rt, down, weight(7), weight(3), Way::Pull, Some(3))
}
