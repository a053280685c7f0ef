//! Operands that count only in some rows: those of `&&`, `||` and `?:` behind the first. Each is evaluated in the rows that
//! reach it, and the columns are put together again.

ghost use Rattle.std.specs.Prelude.{◌≡◌, ◌+◌, ◌<◌, ℕ, false, IfOk, IfSome, IfNone, List, Some, length};
ghost use Rattle.gm_value.specs.Operations.{is_flag};
ghost use Rattle.gm_columns.specs.Columns.{TypedRow};
ghost use Rattle.gm_image.specs.Term.{Term, Choose};
ghost use Rattle.gm_kernels.specs.Pointwise.{count_of, held, left_out};
ghost use Rattle.gm_batches.specs.declared.node_batches.NodeBatch.{NodeBatch};
ghost use Rattle.gm_batches.specs.NodeBatches.{row_count, rows_in};
ghost use Rattle.gm_batches.specs.ValuesIn.{IsColumnAt};
ghost use Rattle.gm_batches.specs.Guards.{AreTruths, IsGuard, flags_in};

use crate::node_batches::{NodeBatch, Rows};
use gm_base::NoMemory;
use gm_columns::Column;
use gm_kernels::{Parts, all_rows, flags_of, merge, partition};
use gm_value::VType;
use std::alloc::Global;

/// Truth values beside some rows, and these rows parted by them.
#[derive(Drop)]
pub(crate) struct Guard {
    pub(crate) truths: Column,
    pub(crate) parts: Parts,
}

// Some rows of a batch, parted by the flags beside them.
fn part(alloc: Global, flags: &[bool], batch: &NodeBatch, rows: Rows) -> Result<Parts, NoMemory>
    requires count { row_count batch.now < 4294967296 }
    requires rows { length flags.now ≡ length (rows_in batch.now rows) }
    ensures held { IfOk result (λ parts. parts.held.items ≡ held flags.now (rows_in batch.now rows.entry)) }
    ensures left_out { IfOk result (λ parts. parts.left_out.items ≡ left_out flags.now (rows_in batch.now rows.entry)) }
{
    match rows {
        Rows::All => partition(alloc, flags, &all_rows(alloc, batch.nodes.len() as u32)?),
        Rows::At(rows) => partition(alloc, flags, rows),
    }
}

/// The rows that a column of truth values leads to either operand, or nothing where it is none of truth values.
pub(crate) fn guard_of(
    alloc: Global,
    truths: Option<Column>,
    batch: &NodeBatch,
    rows: Rows,
) -> Result<Option<Guard>, NoMemory>
    requires count { row_count batch.now < 4294967296 }
    requires rows { IfSome truths (λ truths. length truths.values ≡ length (rows_in batch.now rows)) }
    ensures none { IfOk result (λ got. IfNone got (IfSome truths (λ truths. is_flag truths.vtype ≡ false))) }
    ensures same { IfOk result (λ got. IfSome got (λ guard. truths ≡ Some guard.truths)) }
    ensures parts { IfOk result (λ got. IfSome got (λ guard. IsGuard (rows_in batch.now rows.entry) guard.truths guard.parts.held.items guard.parts.left_out.items)) }
{
    match truths {
        Some(truths) => {
            if truths.vtype() != VType::Flag {
                return Ok(None);
            }
            let parts = part(alloc, flags_of(&truths), batch, rows)?;
            Ok(Some(Guard { truths, parts }))
        }
        None => Ok(None),
    }
}

// Two columns put together, where they are of one type.
fn together(
    alloc: Global,
    guard: &Guard,
    some: &Column,
    others: &Column,
) -> Result<Option<Column>, NoMemory>
    requires truths { AreTruths guard.now.truths }
    requires some { length some.now.values ≡ count_of (flags_in guard.now.truths) }
    requires others { count_of (flags_in guard.now.truths) + length others.now.values ≡ length guard.now.truths.values }
    ensures { IfOk result (λ got. (b : NodeBatch) (rs : List ℕ) (c a d : Term) → IsColumnAt b rs c (Some guard.now.truths)
        → IsColumnAt b (held (flags_in guard.now.truths) rs) a (Some some.now) → IsColumnAt b (left_out (flags_in guard.now.truths) rs) d (Some others.now)
        → IsColumnAt b rs (Choose c a d) got) }
{
    if others.vtype() != some.vtype() {
        return Ok(None);
    }
    Ok(Some(merge(alloc, flags_of(&guard.truths), some, others)?))
}

/// The column of a choice: that of one operand in the rows where the truth values of a guard are True, and that of another in
/// the others.
pub(crate) fn join(
    alloc: Global,
    guard: &Guard,
    some: Option<Column>,
    others: Option<Column>,
) -> Result<Option<Column>, NoMemory>
    requires truths { AreTruths guard.now.truths }
    requires some { IfSome some (λ some. length some.values ≡ count_of (flags_in guard.now.truths)) }
    requires others { IfSome others (λ others. count_of (flags_in guard.now.truths) + length others.values ≡ length guard.now.truths.values) }
    ensures { IfOk result (λ got. (b : NodeBatch) (rs : List ℕ) (c a d : Term) → IsColumnAt b rs c (Some guard.now.truths)
        → IsColumnAt b (held (flags_in guard.now.truths) rs) a some → IsColumnAt b (left_out (flags_in guard.now.truths) rs) d others
        → IsColumnAt b rs (Choose c a d) got) }
{
    match (&some, &others) {
        (Some(some), Some(others)) => together(alloc, guard, some, others),
        (Some(_), None) => Ok(None),
        (None, _) => Ok(None),
    }
}
