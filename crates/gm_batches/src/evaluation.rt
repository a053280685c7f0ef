//! The column of an expression.

ghost use Rattle.std.specs.Prelude.{ℕ, IfOk, List, Some};
ghost use Rattle.gm_image.specs.Shapes.{one_term};
ghost use Rattle.gm_image.specs.Term.{And, Binary, Choose, Or, Term};
ghost use Rattle.gm_image.specs.Views.{term};
ghost use Rattle.gm_batches.specs.NodeBatches.{AreRows, IsBatch};
ghost use Rattle.gm_batches.specs.ValuesIn.{IsColumnAt, IsColumnOf};
ghost use Rattle.gm_batches.specs.Guards.{FitBatch, IsGuard};

use crate::guards::{Guard, guard_of, join};
use crate::leaves::{constant_column, leaf};
use crate::node_batches::{NodeBatch, Rows};
use crate::shapes::{binary, one};
use gm_base::NoMemory;
use gm_columns::Column;
use gm_image::{Expr, One, Shape, Two};
use gm_value::{Op2, Value};
use std::alloc::Global;

// The column of an operation on one operand.
#[cycle(evaluation)]
fn unary_of(
    alloc: Global,
    op: One,
    a: &Expr,
    batch: &NodeBatch,
    rows: Rows,
) -> Result<Option<Column>, NoMemory>
    requires batch { IsBatch batch.now }
    requires rows { AreRows batch.now rows }
    ensures { IfOk result (IsColumnOf batch.now rows.entry (one_term op (term a.now))) }
{
    let operand = evaluate(alloc, a, batch, rows)?;
    one(alloc, op, operand)
}

// The column of an operation on two operands.
#[cycle(evaluation)]
fn binary_of(
    alloc: Global,
    op: Op2,
    place: Option<u32>,
    a: &Expr,
    c: &Expr,
    batch: &NodeBatch,
    rows: Rows,
) -> Result<Option<Column>, NoMemory>
    requires batch { IsBatch batch.now }
    requires rows { AreRows batch.now rows }
    ensures { IfOk result (IsColumnOf batch.now rows.entry (Binary op place (term a.now) (term c.now))) }
{
    let left = evaluate(alloc, a, batch, rows)?;
    let right = evaluate(alloc, c, batch, rows)?;
    binary(alloc, op, left, right)
}

// Whether both of two hold, where the first is known.
#[cycle(evaluation)]
fn both_in(
    alloc: Global,
    a: &Expr,
    guard: &Guard,
    batch: &NodeBatch,
) -> Result<Option<Column>, NoMemory>
    requires batch { IsBatch batch.now }
    requires parts { FitBatch batch.now guard.now.truths guard.now.parts.held.items guard.now.parts.left_out.items }
    ensures { IfOk result (λ got. (rs : List ℕ) (c : Term) → IsGuard rs guard.now.truths guard.now.parts.held.items guard.now.parts.left_out.items
        → IsColumnAt batch.now rs c (Some guard.now.truths) → IsColumnAt batch.now rs (And c (term a.now)) got) }
{
    let some = evaluate(alloc, a, batch, Rows::At(&guard.parts.held))?;
    let others = constant_column(
        alloc,
        Value::Flag(false),
        batch,
        Rows::At(&guard.parts.left_out),
    )?;
    join(alloc, guard, some, others)
}

// Whether both of two hold. The second counts in the rows where the first holds.
#[cycle(evaluation)]
fn both(
    alloc: Global,
    c: &Expr,
    a: &Expr,
    batch: &NodeBatch,
    rows: Rows,
) -> Result<Option<Column>, NoMemory>
    requires batch { IsBatch batch.now }
    requires rows { AreRows batch.now rows }
    ensures { IfOk result (IsColumnOf batch.now rows.entry (And (term c.now) (term a.now))) }
{
    let truths = evaluate(alloc, c, batch, rows)?;
    match guard_of(alloc, truths, batch, rows)? {
        Some(guard) => both_in(alloc, a, &guard, batch),
        None => Ok(None),
    }
}

// Whether one of two holds, where the first is known.
#[cycle(evaluation)]
fn either_in(
    alloc: Global,
    a: &Expr,
    guard: &Guard,
    batch: &NodeBatch,
) -> Result<Option<Column>, NoMemory>
    requires batch { IsBatch batch.now }
    requires parts { FitBatch batch.now guard.now.truths guard.now.parts.held.items guard.now.parts.left_out.items }
    ensures { IfOk result (λ got. (rs : List ℕ) (c : Term) → IsGuard rs guard.now.truths guard.now.parts.held.items guard.now.parts.left_out.items
        → IsColumnAt batch.now rs c (Some guard.now.truths) → IsColumnAt batch.now rs (Or c (term a.now)) got) }
{
    let some = constant_column(alloc, Value::Flag(true), batch, Rows::At(&guard.parts.held))?;
    let others = evaluate(alloc, a, batch, Rows::At(&guard.parts.left_out))?;
    join(alloc, guard, some, others)
}

// Whether one of two holds. The second counts in the rows where the first does not hold.
#[cycle(evaluation)]
fn either(
    alloc: Global,
    c: &Expr,
    a: &Expr,
    batch: &NodeBatch,
    rows: Rows,
) -> Result<Option<Column>, NoMemory>
    requires batch { IsBatch batch.now }
    requires rows { AreRows batch.now rows }
    ensures { IfOk result (IsColumnOf batch.now rows.entry (Or (term c.now) (term a.now))) }
{
    let truths = evaluate(alloc, c, batch, rows)?;
    match guard_of(alloc, truths, batch, rows)? {
        Some(guard) => either_in(alloc, a, &guard, batch),
        None => Ok(None),
    }
}

// The column of a choice, where it is known which operand counts in which rows.
#[cycle(evaluation)]
fn choice_in(
    alloc: Global,
    a: &Expr,
    d: &Expr,
    guard: &Guard,
    batch: &NodeBatch,
) -> Result<Option<Column>, NoMemory>
    requires batch { IsBatch batch.now }
    requires parts { FitBatch batch.now guard.now.truths guard.now.parts.held.items guard.now.parts.left_out.items }
    ensures { IfOk result (λ got. (rs : List ℕ) (c : Term) → IsGuard rs guard.now.truths guard.now.parts.held.items guard.now.parts.left_out.items
        → IsColumnAt batch.now rs c (Some guard.now.truths) → IsColumnAt batch.now rs (Choose c (term a.now) (term d.now)) got) }
{
    let some = evaluate(alloc, a, batch, Rows::At(&guard.parts.held))?;
    let others = evaluate(alloc, d, batch, Rows::At(&guard.parts.left_out))?;
    join(alloc, guard, some, others)
}

// The column of a choice. Each operand counts in the rows that lead to it.
#[cycle(evaluation)]
fn choice_of(
    alloc: Global,
    c: &Expr,
    a: &Expr,
    d: &Expr,
    batch: &NodeBatch,
    rows: Rows,
) -> Result<Option<Column>, NoMemory>
    requires batch { IsBatch batch.now }
    requires rows { AreRows batch.now rows }
    ensures { IfOk result (IsColumnOf batch.now rows.entry (Choose (term c.now) (term a.now) (term d.now))) }
{
    let truths = evaluate(alloc, c, batch, rows)?;
    match guard_of(alloc, truths, batch, rows)? {
        Some(guard) => choice_in(alloc, a, d, &guard, batch),
        None => Ok(None),
    }
}

/// The value of an expression in each of some rows of a batch, in a column, or nothing, where the expression faults in one of
/// these rows or is none that columns can do: it sees in-degrees, an edge or a node by its number, or a field whose values are
/// of several types. The second operand of `&&` and `||` and the last two of `?:` count in the rows that reach them alone.
#[cycle(evaluation)]
pub fn evaluate(
    alloc: Global,
    expr: &Expr,
    batch: &NodeBatch,
    rows: Rows,
) -> Result<Option<Column>, NoMemory>
    requires batch { IsBatch batch.now }
    requires rows { AreRows batch.now rows }
    ensures { IfOk result (IsColumnOf batch.now rows.entry (term expr.now)) }
{
    match expr.shape() {
        Shape::Leaf(at) => leaf(alloc, at, batch, rows),
        Shape::One(op, a) => unary_of(alloc, op, a, batch, rows),
        Shape::Two(Two::Op(op, place), a, c) => binary_of(alloc, op, place, a, c, batch, rows),
        Shape::Two(Two::And, c, a) => both(alloc, c, a, batch, rows),
        Shape::Two(Two::Or, c, a) => either(alloc, c, a, batch, rows),
        Shape::Choose(c, a, d) => choice_of(alloc, c, a, d, batch, rows),
    }
}
