//! Copies of blocks, where two steps run one and one of them is joined to another step.

ghost use Rattle.std.specs.Prelude.{◌≡◌, Some, true, IfOk, map};
ghost use Rattle.gm_image.specs.Term.{Choose};
ghost use Rattle.gm_image.specs.Ranges.{PlaceFits};
ghost use Rattle.gm_image.specs.Shapes.{leaf_term, one_term, two_term, OneInRange, TwoInRange};
ghost use Rattle.gm_image.specs.Views.{term, target, line, handler, block};

use gm_base::Items;
use gm_image::{Block, Expr, Handler, Leaf, One, Shape, Two, VertexLine};
use gm_value::{Op1, Op2};
use std::alloc::{AllocError, Global};

// The expression of a leaf.
pub fn leaf_expr(leaf: Leaf) -> Expr
    ensures { term result ≡ leaf_term leaf }
{
    match leaf {
        Leaf::Const(value) => Expr::Const(value),
        Leaf::Global(global) => Expr::Global(global),
        Leaf::NodeCount => Expr::NodeCount,
        Leaf::EdgeCount => Expr::EdgeCount,
        Leaf::Field(field) => Expr::Field(field),
        Leaf::Id => Expr::Id,
        Leaf::OutDegree => Expr::OutDegree,
        Leaf::InDegree => Expr::InDegree,
        Leaf::Register(register) => Expr::Register(register),
        Leaf::Message(index) => Expr::Message(index),
        Leaf::Neighbour => Expr::Neighbour,
        Leaf::Column(column) => Expr::Column(column),
    }
}

// The place of an operation that has one.
fn place_of(place: Option<u32>) -> u32
    requires { PlaceFits true place }
    ensures { Some result ≡ place }
{
    match place {
        Some(place) => place,
        None => 0,
    }
}

// An operation with its operand.
fn one_expr(alloc: Global, op: One, a: Expr) -> Result<Expr, AllocError>
    requires { OneInRange op }
    ensures { IfOk result (λ e. term e ≡ one_term op (term a)) }
{
    let a = Box::new(alloc, a)?;
    Ok(match op {
        One::NodeAt => Expr::NodeAt(a),
        One::Live(place) => Expr::Live(place, a),
        One::Op(Op1::Neg, place) => Expr::Neg(place_of(place), a),
        One::Op(Op1::ToI32, place) => Expr::ToInt(place_of(place), a),
        One::Op(Op1::Not, _) => Expr::Not(a),
        One::Op(Op1::ToI64, _) => Expr::ToLong(a),
    })
}

// An operation with its operands.
fn two_expr(alloc: Global, op: Two, a: Expr, b: Expr) -> Result<Expr, AllocError>
    requires { TwoInRange op }
    ensures { IfOk result (λ e. term e ≡ two_term op (term a) (term b)) }
{
    let a = Box::new(alloc, a)?;
    let b = Box::new(alloc, b)?;
    Ok(match op {
        Two::And => Expr::And(a, b),
        Two::Or => Expr::Or(a, b),
        Two::Op(Op2::Add, place) => Expr::Add(place_of(place), a, b),
        Two::Op(Op2::Sub, place) => Expr::Sub(place_of(place), a, b),
        Two::Op(Op2::Mul, place) => Expr::Mul(place_of(place), a, b),
        Two::Op(Op2::Div, place) => Expr::Div(place_of(place), a, b),
        Two::Op(Op2::Rem, place) => Expr::Rem(place_of(place), a, b),
        Two::Op(Op2::Eq, _) => Expr::Eq(a, b),
        Two::Op(Op2::Ne, _) => Expr::Ne(a, b),
        Two::Op(Op2::Lt, _) => Expr::Lt(a, b),
        Two::Op(Op2::Le, _) => Expr::Le(a, b),
        Two::Op(Op2::Gt, _) => Expr::Gt(a, b),
        Two::Op(Op2::Ge, _) => Expr::Ge(a, b),
    })
}

// A choice between two operands.
fn choice_expr(alloc: Global, c: Expr, a: Expr, b: Expr) -> Result<Expr, AllocError>
    ensures { IfOk result (λ e. term e ≡ Choose (term c) (term a) (term b)) }
{
    let c = Box::new(alloc, c)?;
    let a = Box::new(alloc, a)?;
    let b = Box::new(alloc, b)?;
    Ok(Expr::Choose(c, a, b))
}

// A copy of an expression.
fn copy_expr(alloc: Global, expr: &Expr) -> Result<Expr, AllocError>
    ensures { IfOk result (λ e. term e ≡ term expr.now) }
{
    match expr.shape() {
        Shape::Leaf(leaf) => Ok(leaf_expr(leaf)),
        Shape::One(op, a) => {
            let a = copy_expr(alloc, a)?;
            one_expr(alloc, op, a)
        }
        Shape::Two(op, a, b) => {
            let a = copy_expr(alloc, a)?;
            let b = copy_expr(alloc, b)?;
            two_expr(alloc, op, a, b)
        }
        Shape::Choose(c, a, b) => {
            let c = copy_expr(alloc, c)?;
            let a = copy_expr(alloc, a)?;
            let b = copy_expr(alloc, b)?;
            choice_expr(alloc, c, a, b)
        }
    }
}

// Copies of some expressions.
fn copy_exprs(alloc: Global, exprs: &[Expr]) -> Result<Vec<Expr>, AllocError>
    ensures { IfOk result (λ es. map term es.items ≡ map term exprs.now) }
{
    let mut copies = Vec::with_capacity(alloc, exprs.len())?;
    for expr in exprs {
        let copy = copy_expr(alloc, expr)?;
        copies.push(copy)?;
    }
    Ok(copies)
}

// A copy of a slot and of its value.
fn copy_target(alloc: Global, pair: &(u32, Expr)) -> Result<(u32, Expr), AllocError>
    ensures { IfOk result (λ t. target t ≡ target pair.now) }
{
    let value = copy_expr(alloc, &pair.1)?;
    Ok((pair.0, value))
}

// Copies of the slots of a reduction and of their values.
fn copy_targets(alloc: Global, targets: &[(u32, Expr)]) -> Result<Vec<(u32, Expr)>, AllocError>
    ensures { IfOk result (λ ts. map target ts.items ≡ map target targets.now) }
{
    let mut copies = Vec::with_capacity(alloc, targets.len())?;
    for each in targets {
        let copy = copy_target(alloc, each)?;
        copies.push(copy)?;
    }
    Ok(copies)
}

// A copy of a line.
fn copy_line(alloc: Global, vertex_line: &VertexLine) -> Result<VertexLine, AllocError>
    ensures { IfOk result (λ l. line l ≡ line vertex_line.now) }
{
    match vertex_line {
        VertexLine::SetField(field, value) => {
            let value = copy_expr(alloc, value)?;
            Ok(VertexLine::SetField(*field, value))
        }
        VertexLine::Fold {
            reduce,
            place,
            slots,
        } => {
            let slots = Items::new(copy_targets(alloc, slots.as_slice())?);
            Ok(VertexLine::Fold {
                reduce: *reduce,
                place: *place,
                slots,
            })
        }
        VertexLine::SetRegister(register, value) => {
            let value = copy_expr(alloc, value)?;
            Ok(VertexLine::SetRegister(*register, value))
        }
        VertexLine::Put {
            reduce,
            place,
            slots,
        } => {
            let slots = Items::new(copy_targets(alloc, slots.as_slice())?);
            Ok(VertexLine::Put {
                reduce: *reduce,
                place: *place,
                slots,
            })
        }
        VertexLine::Send { kind, to, values } => {
            let to = copy_expr(alloc, to)?;
            let values = Items::new(copy_exprs(alloc, values.as_slice())?);
            Ok(VertexLine::Send {
                kind: *kind,
                to,
                values,
            })
        }
        VertexLine::Skip(count, condition) => {
            let condition = copy_expr(alloc, condition)?;
            Ok(VertexLine::Skip(*count, condition))
        }
        VertexLine::EachOut(count) => Ok(VertexLine::EachOut(*count)),
        VertexLine::EachIn(count) => Ok(VertexLine::EachIn(*count)),
    }
}

// Copies of some lines.
fn copy_lines(alloc: Global, lines: &[VertexLine]) -> Result<Vec<VertexLine>, AllocError>
    ensures { IfOk result (λ ls. map line ls.items ≡ map line lines.now) }
{
    let mut copies = Vec::with_capacity(alloc, lines.len())?;
    for vertex_line in lines {
        let copy = copy_line(alloc, vertex_line)?;
        copies.push(copy)?;
    }
    Ok(copies)
}

// A copy of a handler.
fn copy_handler(alloc: Global, handled: &Handler) -> Result<Handler, AllocError>
    ensures { IfOk result (λ h. handler h ≡ handler handled.now) }
{
    let lines = Items::new(copy_lines(alloc, handled.lines.as_slice())?);
    Ok(Handler {
        kind: handled.kind,
        lines,
    })
}

// Copies of some handlers.
fn copy_handlers(alloc: Global, handlers: &[Handler]) -> Result<Vec<Handler>, AllocError>
    ensures { IfOk result (λ hs. map handler hs.items ≡ map handler handlers.now) }
{
    let mut copies = Vec::with_capacity(alloc, handlers.len())?;
    for handled in handlers {
        let copy = copy_handler(alloc, handled)?;
        copies.push(copy)?;
    }
    Ok(copies)
}

// A copy of a block, in time and memory linear in it.
pub fn copy_block(alloc: Global, one: &Block) -> Result<Block, AllocError>
    ensures { IfOk result (λ b. block b ≡ block one.now) }
{
    let handlers = Items::new(copy_handlers(alloc, one.handlers.as_slice())?);
    let body = Items::new(copy_lines(alloc, one.body.as_slice())?);
    Ok(Block { handlers, body })
}
