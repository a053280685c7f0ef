//! The values of expressions in the turns of an each. What does not see the edge is evaluated once for each row.

ghost use Rattle.std.specs.Prelude.{◌≡◌, IsTrue, IfOk, IfSome, Some, length, map};
ghost use Rattle.gm_columns.specs.Columns.{CanHold};
ghost use Rattle.gm_graph.specs.Walks.{edge_at};
ghost use Rattle.gm_image.specs.Shapes.{leaf_term};
ghost use Rattle.gm_image.specs.Term as T;
ghost use Rattle.gm_image.specs.Term.{Binary, Unary};
ghost use Rattle.gm_kernels.specs.Pointwise.{applied1, applied2};
ghost use Rattle.gm_image.specs.Views.{term};
ghost use Rattle.gm_machine.specs.Expressions.{edge_value_at};
ghost use Rattle.gm_batches.specs.ValuesIn.{values_in};
ghost use Rattle.gm_batch_steps.specs.BatchStates.{IsContext, IsFull};
ghost use Rattle.gm_batch_steps.specs.Turns.{AreTurns, edges_at, sees_own, turn_view, turns_in};

use crate::batch_states::{BatchContext, BatchState, Chosen, values_of};
use crate::turns::Turns;
use gm_base::NoMemory;
use gm_columns::{Column, TypedCells};
use gm_graph::Graph;
use gm_image::{Expr, Leaf, One, Shape, Two};
use gm_kernels::{apply1, apply2};
use gm_value::{Op1, Op2, VType, Value};
use std::alloc::Global;

// Whether an expression sees neither the edge of a turn nor its neighbour.
#[tactic(auto, using(gm_image::proofs::ByShape::leaves_leaf, gm_image::proofs::ByShape::leaves_one, gm_image::proofs::ByShape::leaves_two))]
fn sees_own(expr: &Expr) -> bool
    ensures { result ≡ sees_own (term expr.now) }
{
    match expr.shape() {
        Shape::Leaf(Leaf::Neighbour) | Shape::Leaf(Leaf::Column(_)) => false,
        Shape::Leaf(_) => true,
        Shape::One(_, a) => sees_own(a),
        Shape::Two(_, a, b) => sees_own(a) && sees_own(b),
        Shape::Choose(c, a, b) => sees_own(c) && sees_own(a) && sees_own(b),
    }
}

// The values of an expression that does not see the edge.
fn own_values(
    alloc: Global,
    expr: &Expr,
    turns: &Turns,
    context: &BatchContext,
    state: &BatchState,
) -> Result<Option<Column>, NoMemory>
    requires own { IsTrue (sees_own (term expr.now)) }
    requires context { IsContext context.now }
    requires turns { AreTurns context.now turns.now }
    requires full { IsFull (length context.now.nodes.now) state.now }
    ensures { IfOk result (λ got. IfSome got (λ column. values_in (map (turn_view context.now state.now) (turns_in context.now turns.now)) (term expr.now) ≡ Some column.values)) }
{
    let chosen = Chosen {
        rows: &turns.rows,
        all: false,
    };
    let Some(column) = values_of(alloc, expr, chosen, context, state)? else {
        return Ok(None);
    };
    Ok(Some(column.picked(alloc, &turns.sources)?))
}

// The neighbours.
fn neighbours(
    alloc: Global,
    turns: &Turns,
    context: &BatchContext,
    state: &BatchState,
) -> Result<Option<Column>, NoMemory>
    requires turns { AreTurns context.now turns.now }
    ensures { IfOk result (λ got. IfSome got (λ column. values_in (map (turn_view context.now state.now) (turns_in context.now turns.now)) T.Neighbour ≡ Some column.values)) }
{
    let cells = Vec::from_slice(alloc, &turns.targets)?;
    Ok(Some(Column::of(TypedCells::Nodes(cells))))
}

// The value of an edge in a column, NIL where there is none.
fn edge_value(graph: &Graph, edge: u32, column: u32) -> Value
    ensures { result ≡ edge_value_at graph.now column (edge_at graph.now (Some edge)) }
{
    match graph.value_in(Some(edge), column) {
        Some(value) => value,
        None => Value::At(None),
    }
}

// Whether a column of a type can hold a value.
fn can_hold(vtype: VType, value: Value) -> bool
    ensures { IsTrue result → CanHold vtype value }
{
    value.type_of() == vtype && value != Value::At(Some(u32::MAX))
}

// The type of the values of edges in a column: that of the first.
fn edge_type(graph: &Graph, edges: &[u32], column: u32) -> VType {
    match edges.first() {
        Some(edge) => edge_value(graph, *edge, column).type_of(),
        None => VType::I32,
    }
}

// The values of edges in a column, or nothing, where they are of several types.
fn edge_values(
    alloc: Global,
    graph: &Graph,
    edges: &[u32],
    column: u32,
) -> Result<Option<Column>, NoMemory>
    ensures { IfOk result (λ got. IfSome got (λ values. values.values ≡ map (λ edge. edge_value_at graph.now column edge) (edges_at graph.now edges.now))) }
{
    let vtype = edge_type(graph, edges, column);
    let mut values = Column::new(alloc, vtype);
    let count = edges.len();
    for i in 0..count {
        let value = edge_value(graph, edges[i], column);
        if !can_hold(vtype, value) {
            return Ok(None);
        }
        values.push(value)?;
    }
    Ok(Some(values))
}

// The values of the edges in a column.
fn edge_column(
    alloc: Global,
    column: u32,
    turns: &Turns,
    context: &BatchContext,
    state: &BatchState,
) -> Result<Option<Column>, NoMemory>
    requires turns { AreTurns context.now turns.now }
    ensures { IfOk result (λ got. IfSome got (λ values. values_in (map (turn_view context.now state.now) (turns_in context.now turns.now)) (T.Column column) ≡ Some values.values)) }
{
    edge_values(alloc, context.graph, &turns.edges, column)
}

// The values of what stands alone and sees the edge.
fn leaf(
    alloc: Global,
    leaf: Leaf,
    turns: &Turns,
    context: &BatchContext,
    state: &BatchState,
) -> Result<Option<Column>, NoMemory>
    requires turns { AreTurns context.now turns.now }
    ensures { IfOk result (λ got. IfSome got (λ column. values_in (map (turn_view context.now state.now) (turns_in context.now turns.now)) (leaf_term leaf) ≡ Some column.values)) }
{
    match leaf {
        Leaf::Neighbour => neighbours(alloc, turns, context, state),
        Leaf::Column(column) => edge_column(alloc, column, turns, context, state),
        _ => Ok(None),
    }
}

// An operation on one column, where it fits its type.
fn unary(alloc: Global, op: Op1, operand: &Column) -> Result<Option<Column>, NoMemory>
    ensures { IfOk result (λ got. IfSome got (λ column. applied1 op operand.now.values ≡ Some column.values)) }
{
    if !op.fits(operand.vtype()) {
        return Ok(None);
    }
    apply1(alloc, op, operand)
}

// An operation on two columns, where it fits their types.
fn binary(alloc: Global, op: Op2, left: &Column, right: &Column) -> Result<Option<Column>, NoMemory>
    requires { length left.now.values ≡ length right.now.values }
    ensures { IfOk result (λ got. IfSome got (λ column. applied2 op left.now.values right.now.values ≡ Some column.values)) }
{
    if !op.fits(left.vtype(), right.vtype()) {
        return Ok(None);
    }
    apply2(alloc, op, left, right)
}

// The values of an operation on one operand.
#[cycle(turn_values)]
fn unary_of(
    alloc: Global,
    op: Op1,
    place: Option<u32>,
    a: &Expr,
    turns: &Turns,
    context: &BatchContext,
    state: &BatchState,
) -> Result<Option<Column>, NoMemory>
    requires context { IsContext context.now }
    requires turns { AreTurns context.now turns.now }
    requires full { IsFull (length context.now.nodes.now) state.now }
    ensures { IfOk result (λ got. IfSome got (λ column. values_in (map (turn_view context.now state.now) (turns_in context.now turns.now)) (Unary op place (term a.now)) ≡ Some column.values)) }
{
    let Some(operand) = turn_values(alloc, a, turns, context, state)? else {
        return Ok(None);
    };
    unary(alloc, op, &operand)
}

// The values of an operation on two operands.
#[cycle(turn_values)]
fn binary_of(
    alloc: Global,
    op: Op2,
    place: Option<u32>,
    a: &Expr,
    b: &Expr,
    turns: &Turns,
    context: &BatchContext,
    state: &BatchState,
) -> Result<Option<Column>, NoMemory>
    requires context { IsContext context.now }
    requires turns { AreTurns context.now turns.now }
    requires full { IsFull (length context.now.nodes.now) state.now }
    ensures { IfOk result (λ got. IfSome got (λ column. values_in (map (turn_view context.now state.now) (turns_in context.now turns.now)) (Binary op place (term a.now) (term b.now)) ≡ Some column.values)) }
{
    let Some(left) = turn_values(alloc, a, turns, context, state)? else {
        return Ok(None);
    };
    let Some(right) = turn_values(alloc, b, turns, context, state)? else {
        return Ok(None);
    };
    binary(alloc, op, &left, &right)
}

/// The value of an expression in each turn, in a column, or nothing, where it faults in one of these turns or in a row of
/// theirs, or is none that columns can do.
#[cycle(turn_values)]
pub(crate) fn turn_values(
    alloc: Global,
    expr: &Expr,
    turns: &Turns,
    context: &BatchContext,
    state: &BatchState,
) -> Result<Option<Column>, NoMemory>
    requires context { IsContext context.now }
    requires turns { AreTurns context.now turns.now }
    requires full { IsFull (length context.now.nodes.now) state.now }
    ensures { IfOk result (λ got. IfSome got (λ column. values_in (map (turn_view context.now state.now) (turns_in context.now turns.now)) (term expr.now) ≡ Some column.values)) }
{
    if sees_own(expr) {
        return own_values(alloc, expr, turns, context, state);
    }
    match expr.shape() {
        Shape::Leaf(at) => leaf(alloc, at, turns, context, state),
        Shape::One(One::Op(op, place), a) => unary_of(alloc, op, place, a, turns, context, state),
        Shape::Two(Two::Op(op, place), a, b) => binary_of(
            alloc, op, place, a, b, turns, context, state,
        ),
        _ => Ok(None),
    }
}
