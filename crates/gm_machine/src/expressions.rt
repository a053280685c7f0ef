//! The values of expressions.

ghost use Rattle.std.specs.Prelude.{◌≡◌, ◌≤◌, ◌<◌, ◌&&◌, false, length, Ok, IfSome};
ghost use Rattle.gm_value.specs.Numbers.{number_of};
ghost use Rattle.gm_value.specs.declared.values.Value.TheVariants.{I32};
ghost use Rattle.gm_value.specs.Operations.{is_true, result2};
ghost use Rattle.gm_model.specs.Graphs.{out_steps, in_steps};
ghost use Rattle.gm_graph.specs.Walks.{edge_at};
ghost use Rattle.gm_image.specs.Views.{term};
ghost use Rattle.gm_image.specs.Term.{NodeAt, Live, And, Or, Choose};
ghost use Rattle.gm_machine.specs.Faults.{at_place};
ghost use Rattle.gm_machine.specs.Expressions.{value, value_at, edge_value_at, node_with, live, unary_value, binary_value};
ghost use Rattle.gm_machine.specs.Vertex.{view_with};
ghost use Rattle.gm_machine.specs.VertexViews.{IsSupplied, context_of};
ghost use Rattle.gm_graph.specs.Serving.{Serve};
ghost use Rattle.gm_machine.specs.Asking.{reads_outward};

use crate::faults::Fault;
use gm_graph::{Graph, InRows};
use gm_image::Expr;
use gm_value::{FaultKind, Op1, Op2, Value, apply1, apply2};

/// What an expression sees and a vertex does not change: a graph with so many edge columns, the rows of the edges that lead
/// to nodes, where the image asks for them, globals, a node, in a handler the values of the message, and in an each the
/// neighbour and the edge, by its row in the graph.
#[derive(Clone, Copy)]
pub(crate) struct VertexContext<'a> {
    pub(crate) graph: &'a Graph,
    pub(crate) in_rows: &'a Option<InRows<'a>>,
    pub(crate) columns: usize,
    pub(crate) globals: &'a [Value],
    pub(crate) node: u32,
    pub(crate) message: &'a [Value],
    pub(crate) neighbour: u32,
    pub(crate) row: Option<u32>,
}

// The value of an index, NIL where there is none.
#[inline(always)]
pub(crate) fn value_at(values: &[Value], i: u32) -> Value
    ensures { result ≡ value_at values.now i }
{
    match values.get(i as usize) {
        Some(v) => *v,
        None => Value::At(None),
    }
}

// Whether a truth value is True.
#[inline(always)]
pub(crate) fn holds(v: Value) -> bool
    ensures { result ≡ is_true v }
{
    v.number() > 0
}

// How many edges lead from a node, and how many to it. At what is no node there are none.
fn out_degree(graph: &Graph, node: u32) -> u32
    ensures degree { result ≡ length (out_steps graph.now node) }
    ensures fits { result ≤ 2147483647 }
{
    if node < graph.node_count() {
        graph.out_degree(node)
    } else {
        0
    }
}

fn in_degree(s: &VertexContext) -> u32
    requires supplied { IsSupplied s.now }
    requires asked { Serve s.now.in_rows.now false }
    ensures degree { result ≡ length (in_steps s.now.graph.now s.now.node) }
    ensures fits { result ≤ 2147483647 }
{
    match s.in_rows {
        Some(rows) if s.node < s.graph.node_count() => rows.degree(s.node),
        Some(_) => 0,
        None => unreachable!(),
    }
}

// The value of an edge, by its row, in a column, NIL where there is none.
#[inline(always)]
fn edge_value_at(graph: &Graph, column: u32, row: Option<u32>) -> Value
    ensures { result ≡ edge_value_at graph.now column (edge_at graph.now row) }
{
    graph.value_in(row, column).unwrap_or(Value::At(None))
}

// The node with an index, NIL where there is none.
fn node_with(graph: &Graph, v: Value) -> Value
    ensures { result ≡ node_with graph.now (number_of v) }
{
    let nodes = graph.node_count();
    match u32::try_from(v.number()) {
        Ok(k) => {
            if k < nodes {
                Value::At(Some(k))
            } else {
                Value::At(None)
            }
        }
        Err(_) => Value::At(None),
    }
}

// A node itself, or the fault at a place where it is none.
fn live(place: u32, v: Value) -> Result<Value, Fault>
    ensures { result ≡ live place v }
{
    match v {
        Value::At(Some(_)) => Ok(v),
        _ => Err(Fault {
            place,
            kind: FaultKind::NilNode,
        }),
    }
}

// An answer at a place.
fn at_place(place: u32, answer: Result<Value, FaultKind>) -> Result<Value, Fault>
    ensures { result ≡ at_place place answer }
{
    match answer {
        Ok(v) => Ok(v),
        Err(kind) => Err(Fault { place, kind }),
    }
}

// What an operation gives on two numbers of 32 bits, where that takes no wider numbers and is in range.
#[inline(always)]
fn on_ints(op: Op2, x: i32, y: i32) -> Option<Value>
    ensures { IfSome result (λ v. result2 op (I32 x) (I32 y) ≡ Ok v) }
{
    match op {
        Op2::Add => x.checked_add(y).map(Value::I32),
        Op2::Sub => x.checked_sub(y).map(Value::I32),
        Op2::Eq => Some(Value::Flag(x == y)),
        Op2::Ne => Some(Value::Flag(x != y)),
        Op2::Lt => Some(Value::Flag(x < y)),
        Op2::Le => Some(Value::Flag(x <= y)),
        Op2::Gt => Some(Value::Flag(x > y)),
        Op2::Ge => Some(Value::Flag(x >= y)),
        Op2::Mul | Op2::Div | Op2::Rem => None,
    }
}

// What an operation gives on two values at a place.
#[inline(always)]
fn applied(op: Op2, place: u32, x: Value, y: Value) -> Result<Value, Fault>
    ensures { result ≡ at_place place (result2 op x y) }
{
    if let (Value::I32(a), Value::I32(b)) = (x, y) {
        if let Some(v) = on_ints(op, a, b) {
            return Ok(v);
        }
    }
    at_place(place, apply2(op, x, y))
}

/// The value of an expression that is one of the leaves in which most expressions end. It is answered where it is asked
/// for, without a call.
#[inline(always)]
fn leaf(e: &Expr, s: &VertexContext, fields: &[Value], registers: &[Value]) -> Option<Value>
    ensures { IfSome result (λ v. value (view_with (context_of s.now) fields.now registers.now) (term e.now) ≡ Ok v) }
{
    match e {
        Expr::Const(v) => Some(*v),
        Expr::Field(f) => Some(value_at(fields, *f)),
        Expr::Register(r) => Some(value_at(registers, *r)),
        Expr::Message(i) => Some(value_at(s.message, *i)),
        Expr::Neighbour => Some(Value::At(Some(s.neighbour))),
        _ => None,
    }
}

// An operation on one expression at a place, and one on two. Each shape of expressions has a function of its own, so
// that a step of a short expression touches little memory.
#[cycle(evaluation)]
fn unary(
    op: Op1,
    place: u32,
    a: &Expr,
    s: &VertexContext,
    fields: &[Value],
    registers: &[Value],
) -> Result<Value, Fault>
    requires supplied { IsSupplied s.now }
    requires asked { Serve s.now.in_rows.now (reads_outward (term a.now)) }
    ensures { result ≡ unary_value op place (value (view_with (context_of s.now) fields.now registers.now) (term a.now)) }
{
    match evaluate(a, s, fields, registers) {
        Ok(x) => at_place(place, apply1(op, x)),
        Err(f) => Err(f),
    }
}

#[tactic(auto, using(gm_graph::proofs::Serving::left, gm_graph::proofs::Serving::right))]
#[cycle(evaluation)]
#[inline(always)]
fn binary(
    op: Op2,
    place: u32,
    a: &Expr,
    b: &Expr,
    s: &VertexContext,
    fields: &[Value],
    registers: &[Value],
) -> Result<Value, Fault>
    requires supplied { IsSupplied s.now }
    requires asked { Serve s.now.in_rows.now (reads_outward (term a.now) && reads_outward (term b.now)) }
    ensures { result ≡ binary_value op place (value (view_with (context_of s.now) fields.now registers.now) (term a.now))
        (value (view_with (context_of s.now) fields.now registers.now) (term b.now)) }
{
    if let (Some(x), Some(y)) = (leaf(a, s, fields, registers), leaf(b, s, fields, registers)) {
        return applied(op, place, x, y);
    }
    let x = match evaluate(a, s, fields, registers) {
        Ok(x) => x,
        Err(f) => return Err(f),
    };
    match evaluate(b, s, fields, registers) {
        Ok(y) => applied(op, place, x, y),
        Err(f) => Err(f),
    }
}

// The node with the index that an expression gives.
#[cycle(evaluation)]
fn node_at(
    a: &Expr,
    s: &VertexContext,
    fields: &[Value],
    registers: &[Value],
) -> Result<Value, Fault>
    requires supplied { IsSupplied s.now }
    requires asked { Serve s.now.in_rows.now (reads_outward (term a.now)) }
    ensures { result ≡ value (view_with (context_of s.now) fields.now registers.now) (NodeAt (term a.now)) }
{
    match evaluate(a, s, fields, registers) {
        Ok(v) => Ok(node_with(s.graph, v)),
        Err(f) => Err(f),
    }
}

// The node that an expression gives, or the fault at a place where it is none.
#[cycle(evaluation)]
fn live_at(
    place: u32,
    a: &Expr,
    s: &VertexContext,
    fields: &[Value],
    registers: &[Value],
) -> Result<Value, Fault>
    requires supplied { IsSupplied s.now }
    requires asked { Serve s.now.in_rows.now (reads_outward (term a.now)) }
    ensures { result ≡ value (view_with (context_of s.now) fields.now registers.now) (Live place (term a.now)) }
{
    match evaluate(a, s, fields, registers) {
        Ok(v) => live(place, v),
        Err(f) => Err(f),
    }
}

// Whether two expressions are True, and whether one of them is. The second is left out where the first decides.
#[tactic(auto, using(gm_graph::proofs::Serving::left, gm_graph::proofs::Serving::right))]
#[cycle(evaluation)]
fn both(
    a: &Expr,
    b: &Expr,
    s: &VertexContext,
    fields: &[Value],
    registers: &[Value],
) -> Result<Value, Fault>
    requires supplied { IsSupplied s.now }
    requires asked { Serve s.now.in_rows.now (reads_outward (term a.now) && reads_outward (term b.now)) }
    ensures { result ≡ value (view_with (context_of s.now) fields.now registers.now) (And (term a.now) (term b.now)) }
{
    match evaluate(a, s, fields, registers) {
        Ok(x) if holds(x) => evaluate(b, s, fields, registers),
        other => other,
    }
}

#[tactic(auto, using(gm_graph::proofs::Serving::left, gm_graph::proofs::Serving::right))]
#[cycle(evaluation)]
fn either(
    a: &Expr,
    b: &Expr,
    s: &VertexContext,
    fields: &[Value],
    registers: &[Value],
) -> Result<Value, Fault>
    requires supplied { IsSupplied s.now }
    requires asked { Serve s.now.in_rows.now (reads_outward (term a.now) && reads_outward (term b.now)) }
    ensures { result ≡ value (view_with (context_of s.now) fields.now registers.now) (Or (term a.now) (term b.now)) }
{
    match evaluate(a, s, fields, registers) {
        Ok(x) if !holds(x) => evaluate(b, s, fields, registers),
        other => other,
    }
}

// One of two expressions, chosen by a third.
#[tactic(auto, using(crate::proofs::Serving::choose_test, crate::proofs::Serving::choose_yes, crate::proofs::Serving::choose_no))]
#[cycle(evaluation)]
fn choose(
    c: &Expr,
    a: &Expr,
    b: &Expr,
    s: &VertexContext,
    fields: &[Value],
    registers: &[Value],
) -> Result<Value, Fault>
    requires supplied { IsSupplied s.now }
    requires asked { Serve s.now.in_rows.now (reads_outward (Choose (term c.now) (term a.now) (term b.now))) }
    ensures { result ≡ value (view_with (context_of s.now) fields.now registers.now) (Choose (term c.now) (term a.now) (term b.now)) }
{
    match evaluate(c, s, fields, registers) {
        Ok(x) if holds(x) => evaluate(a, s, fields, registers),
        Ok(_) => evaluate(b, s, fields, registers),
        Err(f) => Err(f),
    }
}

// The value of an expression by its shape. It stands apart from the leaves, which are answered where they are asked for.
#[cycle(evaluation)]
#[inline(never)]
fn by_shape(
    e: &Expr,
    s: &VertexContext,
    fields: &[Value],
    registers: &[Value],
) -> Result<Value, Fault>
    requires supplied { IsSupplied s.now }
    requires asked { Serve s.now.in_rows.now (reads_outward (term e.now)) }
    ensures { result ≡ value (view_with (context_of s.now) fields.now registers.now) (term e.now) }
{
    match e {
        Expr::Const(v) => Ok(*v),
        Expr::Global(g) => Ok(value_at(s.globals, *g)),
        Expr::NodeCount => Ok(Value::I32(s.graph.node_count() as i32)),
        Expr::EdgeCount => Ok(Value::I32(s.graph.edge_count() as i32)),
        Expr::Field(f) => Ok(value_at(fields, *f)),
        Expr::Id => Ok(Value::At(Some(s.node))),
        Expr::OutDegree => Ok(Value::I32(out_degree(s.graph, s.node) as i32)),
        Expr::InDegree => Ok(Value::I32(in_degree(s) as i32)),
        Expr::Register(r) => Ok(value_at(registers, *r)),
        Expr::Message(i) => Ok(value_at(s.message, *i)),
        Expr::Neighbour => Ok(Value::At(Some(s.neighbour))),
        Expr::Column(c) => Ok(edge_value_at(s.graph, *c, s.row)),
        Expr::NodeAt(a) => node_at(a, s, fields, registers),
        Expr::Live(p, a) => live_at(*p, a, s, fields, registers),
        Expr::Add(p, a, b) => binary(Op2::Add, *p, a, b, s, fields, registers),
        Expr::Sub(p, a, b) => binary(Op2::Sub, *p, a, b, s, fields, registers),
        Expr::Mul(p, a, b) => binary(Op2::Mul, *p, a, b, s, fields, registers),
        Expr::Div(p, a, b) => binary(Op2::Div, *p, a, b, s, fields, registers),
        Expr::Rem(p, a, b) => binary(Op2::Rem, *p, a, b, s, fields, registers),
        Expr::Neg(p, a) => unary(Op1::Neg, *p, a, s, fields, registers),
        Expr::ToInt(p, a) => unary(Op1::ToI32, *p, a, s, fields, registers),
        Expr::ToLong(a) => unary(Op1::ToI64, 0, a, s, fields, registers),
        Expr::Eq(a, b) => binary(Op2::Eq, 0, a, b, s, fields, registers),
        Expr::Ne(a, b) => binary(Op2::Ne, 0, a, b, s, fields, registers),
        Expr::Lt(a, b) => binary(Op2::Lt, 0, a, b, s, fields, registers),
        Expr::Gt(a, b) => binary(Op2::Gt, 0, a, b, s, fields, registers),
        Expr::Le(a, b) => binary(Op2::Le, 0, a, b, s, fields, registers),
        Expr::Ge(a, b) => binary(Op2::Ge, 0, a, b, s, fields, registers),
        Expr::Not(a) => unary(Op1::Not, 0, a, s, fields, registers),
        Expr::And(a, b) => both(a, b, s, fields, registers),
        Expr::Or(a, b) => either(a, b, s, fields, registers),
        Expr::Choose(c, a, b) => choose(c, a, b, s, fields, registers),
    }
}

/// The value of an expression at a vertex with these fields and registers, or the fault of the first operation in it that has none. What an image may not name,
/// an index out of range or a leaf where it has no sense, is NIL.
#[cycle(evaluation)]
#[inline(always)]
pub(crate) fn evaluate(
    e: &Expr,
    s: &VertexContext,
    fields: &[Value],
    registers: &[Value],
) -> Result<Value, Fault>
    requires supplied { IsSupplied s.now }
    requires asked { Serve s.now.in_rows.now (reads_outward (term e.now)) }
    ensures { result ≡ value (view_with (context_of s.now) fields.now registers.now) (term e.now) }
{
    match leaf(e, s, fields, registers) {
        Some(v) => Ok(v),
        None => by_shape(e, s, fields, registers),
    }
}
