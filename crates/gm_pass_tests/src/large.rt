//! Trees as large as a text can make them, in length, in depth and in the parts of one expression, and one as deep as a
//! tree may be.

use crate::compare::{all_read, same};
use crate::passes::{ALL_STEPS, after};
use crate::runs::{Frame, body_runs_same, listing, program_in};
use gm_ast::forms::Work;
use gm_ast::tree::{Expr, Stmt, Tree};
use gm_base::Place;
use gm_tables::{is_line, sides};
use gm_value::Op1;
use std::alloc::{AllocError, Global};
use std::mem;
use std::process::Abort;
use std::test::Fail;

// Adds a piece so many times.
fn put_often(text: &mut String, piece: &str, count: u32) -> Result<(), AllocError> {
    for _ in 0..count {
        text.push_str(piece)?;
    }
    Ok(())
}

// A number of a row.
fn number_of(text: &str) -> Result<u32, Fail> {
    match text.parse::<u32>() {
        Ok(number) => Ok(number),
        Err(_) => Err(Fail::from("a row without its number")),
    }
}

// The pieces of a body so many times: those that open, what stands within, those that close.
fn nested(
    alloc: Global,
    opening: &str,
    within: &str,
    closing: &str,
    count: u32,
) -> Result<String, AllocError> {
    let mut text = String::new(alloc);
    put_often(&mut text, opening, count)?;
    text.push_str(within)?;
    put_often(&mut text, closing, count)?;
    Ok(text)
}

// The text of a body. A row has, between its `~`, what stands before all, the piece that opens, what stands within, the piece
// that closes, what stands behind all, and how often the pieces stand.
fn body_of(alloc: Global, row: &str) -> Result<String, Fail> {
    let (before, rest) = sides(row, "~")?;
    let (opening, rest) = sides(rest, "~")?;
    let (within, rest) = sides(rest, "~")?;
    let (closing, rest) = sides(rest, "~")?;
    let (behind, count) = sides(rest, "~")?;
    let inner = nested(alloc, opening, within, closing, number_of(count)?)?;
    Ok(format!(in alloc; "{before}{inner}{behind}")?)
}

// Whether the body of a row has the same listing before the passes and after each of them.
fn large_runs_same(rt: &impl Abort, alloc: Global, row: &str) -> Result<(), Fail> {
    let body = body_of(alloc, row)?;
    body_runs_same(rt, alloc, Frame::Plain, body.as_str(), &ALL_STEPS)
}

// Whether those of so many rows have.
fn all_large_same(rt: &impl Abort, alloc: Global, rows: &str, count: usize) -> Result<(), Fail> {
    let mut read = 0usize;
    for row in rows.lines() {
        if is_line(row) {
            large_runs_same(rt, alloc, row)?;
            read = read.saturating_add(1);
        }
    }
    all_read(rt, read, count);
    Ok(())
}

// Many statements of each kind, one after another.
const LONG: &str = "
~G.a = G.a + 1; ~~~~40
~x += 1; x *= -1; q ||= x > 0; ~~~~20
~If (G.NumNodes() == x || x > 0) { x = 1; } ~~~~40
For (n: G.Nodes) { s = n; ~x = s.a + n.b; ~~~}~20
For (n: G.Nodes) { ~n.a = n.b + 1; n.b min= n.a; ~~~}~20
~x = Sum(n: G.Nodes){n.a} + Count(n: G.Nodes); ~~~~20
~While (Exist(n: G.Nodes){n.a < 1}) { G.a = 1; } ~~~~18
~Foreach (n: G.Nodes)(Exist(t: n.Nbrs)) { n.a = Sum(t: n.Nbrs){t.b}; } ~~~~20
Foreach (n: G.Nodes) { ~n.a = Sum(t: n.Nbrs){t.b}; ~~~}~20
~Foreach (n: G.Nodes) { n.a <= n.b + 1 @ n; } ~~~~20
Foreach (n: G.Nodes) { ~If (n.a == 0) { Foreach (t: n.Nbrs) { t.b += 1; } } ~~~}~20
For (n: G.Nodes) { s = n; } ~InBFS (v: G.Nodes From s) { v.a = 1 + Sum(t: v.UpNbrs){t.a}; } ~~~~10
";

// Statements in statements, and parts of one expression, as many as a text may have: 64 statements and 256 tokens.
const DEEP: &str = "
~If (Exist(n: G.Nodes){n.a == 0}) ~G.a = 1;~~~60
~While (Count(n: G.Nodes)(n.a == 0) > x) ~x += 1;~~~60
~Do { ~x += 1;~ } While (nil.a > 0);~~30
~{ ~x = 1;~ }~~60
Foreach (n: G.Nodes) { ~If (Sum(t: n.Nbrs){1} > 0) ~n.a = 1;~~ }~60
x = ~-(~Sum(n: G.Nodes){n.OutDegree()}~)~;~78
x = ~1 + ~Sum(n: G.Nodes){n.OutDegree()}~~;~115
x = 1~ + Count(n: G.Nodes)~~~;~27
x = 1~ + nil.a~~~;~62
q = x == 0~ || nil.f~~~;~62
";

#[test]
fn long_programs_run_the_same(rt: HostRuntime) -> Result<(), Fail> {
    all_large_same(&rt, rt.alloc(), LONG, 12)
}

#[test]
fn deep_programs_run_the_same(rt: HostRuntime) -> Result<(), Fail> {
    all_large_same(&rt, rt.alloc(), DEEP, 10)
}

// An expression under so many minuses.
fn under_minuses(alloc: Global, e: Expr, levels: u32) -> Result<Expr, AllocError> {
    let mut deep = e;
    for _ in 0..levels {
        let inner = Box::new(alloc, deep)?;
        let place = Place { line: 2, col: 1 };
        deep = Expr::Unary {
            op: Op1::Neg,
            place,
            inner,
        };
    }
    Ok(deep)
}

// Puts the value of the first statement of a block, an assignment, under so many minuses.
fn deepen(alloc: Global, s: &mut Stmt, levels: u32) -> Result<(), AllocError> {
    if let Stmt::Block(stmts) = s {
        if let Some(Stmt::Assign { value, .. }) = stmts.first_mut() {
            let inner = mem::replace(value, Expr::NodeCount);
            *value = under_minuses(alloc, inner, levels)?;
        }
    }
    Ok(())
}

// A tree, the value of whose first statement stands under so many minuses.
fn deepened(alloc: Global, tree: Tree, levels: u32) -> Result<Tree, AllocError> {
    let mut body = tree.body;
    deepen(alloc, &mut body, levels)?;
    Ok(Tree { body, ..tree })
}

// The program of a body, the value of whose first statement stands under so many minuses.
fn deep_program(rt: &impl Abort, alloc: Global, body: &str, levels: u32) -> Result<Work, Fail> {
    let program = program_in(rt, alloc, Frame::Plain, body)?;
    Ok(Work::new(deepened(alloc, program.into_tree(), levels)?))
}

// The listing of a program over a short graph.
fn listing_of(alloc: Global, program: Work) -> Result<String, Fail> {
    listing(alloc, &program, "run - - nil=NIL", "0 1\n1 2\n")
}

// Values that stand alone, and such as are read.
const VALUES: &str = "
x = y;
x = 3;
x = Sum(n: G.Nodes){n.OutDegree()};
x = nil.a;
";

// Whether a body whose value is as deep as one may be has the same listing before the passes and after them.
fn deepest_runs_same(rt: &impl Abort, alloc: Global, body: &str) -> Result<(), Fail> {
    let wanted = listing_of(alloc, deep_program(rt, alloc, body, 511)?)?;
    let later = after(alloc, &ALL_STEPS, deep_program(rt, alloc, body, 511)?)?;
    let seen = listing_of(alloc, later)?;
    same(rt, seen.as_str(), wanted.as_str(), body);
    Ok(())
}

#[test]
fn the_deepest_values_run_the_same(rt: HostRuntime) -> Result<(), Fail> {
    let mut read = 0usize;
    for body in VALUES.lines() {
        if is_line(body) {
            deepest_runs_same(&rt, rt.alloc(), body)?;
            read = read.saturating_add(1);
        }
    }
    all_read(&rt, read, 4);
    Ok(())
}
