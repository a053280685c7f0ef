//! The column of an operation, from those of its operands. Where an operand has none the operation has none.

ghost use Rattle.std.specs.Prelude.{◌≡◌, ℕ, IfOk, IfSome, List, Option, Some, length};
ghost use Rattle.gm_image.specs.Term.{Term, Binary};
ghost use Rattle.gm_image.specs.Shapes.{one_term};
ghost use Rattle.gm_kernels.specs.Pointwise.{applied1, applied2};
ghost use Rattle.gm_batches.specs.declared.node_batches.NodeBatch.{NodeBatch};
ghost use Rattle.gm_batches.specs.ColumnTypes.{unary_type, binary_type};
ghost use Rattle.gm_batches.specs.ValuesIn.{IsColumn, IsColumnAt};

use gm_base::NoMemory;
use gm_columns::Column;
use gm_image::One;
use gm_kernels::{apply1, apply2};
use gm_value::{Op1, Op2};
use std::alloc::Global;

// An operation on one column, where it fits its type.
fn unary(alloc: Global, op: Op1, operand: &Column) -> Result<Option<Column>, NoMemory>
    ensures { IfOk result (IsColumn (unary_type op (Some operand.now.vtype)) (applied1 op operand.now.values)) }
{
    if !op.fits(operand.vtype()) {
        return Ok(None);
    }
    apply1(alloc, op, operand)
}

// An operation on two columns, where it fits their types.
fn on_columns(
    alloc: Global,
    op: Op2,
    left: &Column,
    right: &Column,
) -> Result<Option<Column>, NoMemory>
    requires { length left.now.values ≡ length right.now.values }
    ensures { IfOk result (IsColumn (binary_type op (Some left.now.vtype) (Some right.now.vtype)) (applied2 op left.now.values right.now.values)) }
{
    if !op.fits(left.vtype(), right.vtype()) {
        return Ok(None);
    }
    apply2(alloc, op, left, right)
}

// An operation on a column.
fn on_column(alloc: Global, op: One, operand: &Column) -> Result<Option<Column>, NoMemory>
    ensures { IfOk result (λ got. (b : NodeBatch) (rs : List ℕ) (a : Term) → IsColumnAt b rs a (Some operand.now) → IsColumnAt b rs (one_term op a) got) }
{
    match op {
        One::Op(op, _) => unary(alloc, op, operand),
        One::NodeAt | One::Live(_) => Ok(None),
    }
}

/// The column of an operation on one operand.
pub(crate) fn one(
    alloc: Global,
    op: One,
    operand: Option<Column>,
) -> Result<Option<Column>, NoMemory>
    ensures { IfOk result (λ got. (b : NodeBatch) (rs : List ℕ) (a : Term) → IsColumnAt b rs a operand → IsColumnAt b rs (one_term op a) got) }
{
    match &operand {
        Some(operand) => on_column(alloc, op, operand),
        None => Ok(None),
    }
}

/// The column of an operation on two operands.
pub(crate) fn binary(
    alloc: Global,
    op: Op2,
    left: Option<Column>,
    right: Option<Column>,
) -> Result<Option<Column>, NoMemory>
    requires { IfSome left (λ l. IfSome right (λ r. length l.values ≡ length r.values)) }
    ensures { IfOk result (λ got. (b : NodeBatch) (rs : List ℕ) (place : Option ℕ) (a c : Term)
        → IsColumnAt b rs a left → IsColumnAt b rs c right → IsColumnAt b rs (Binary op place a c) got) }
{
    match (&left, &right) {
        (Some(left), Some(right)) => on_columns(alloc, op, left, right),
        (Some(_), None) => Ok(None),
        (None, _) => Ok(None),
    }
}
