//! The values of a column put as one.

ghost use Rattle.std.specs.Prelude.{◌≡◌, ◌++◌, OnOk};
ghost use Rattle.gm_put_totals.specs.PutTotals.{total_type, reduced_value, single_puts, reduced_puts};
ghost use Rattle.gm_put_totals.specs.Settling.{SettleAs};

use gm_base::NoMemory;
use gm_columns::Column;
use gm_kernels::{folds_into, reduce};
use gm_machine::Contributions;
use gm_value::{Reduce, VType, Value, reductions_are_monoids, unit};

// The type in which values are reduced: sums have 64 bits.
fn total_type(op: Reduce, vtype: VType) -> VType
    ensures { result ≡ total_type op vtype }
{
    match op {
        Reduce::Sum => VType::I64,
        _ => vtype,
    }
}

// The value to which a reduction that fits its type reduces a column, unless it leaves the type of the total on the way.
fn reduced_value(op: Reduce, column: &Column) -> Option<Value>
    ensures { result ≡ reduced_value op column.now.vtype column.now.values }
{
    let total = total_type(op, column.vtype());
    if folds_into(op, total, column.vtype()) {
        reduce(op, unit(op, total), column)
    } else {
        None
    }
}

// Puts each value of a column.
fn put_each(
    place: u32,
    reduce: Reduce,
    slot: u32,
    column: &Column,
    puts: &mut Contributions,
) -> Result<(), NoMemory>
    ensures { OnOk result (puts.new ≡ puts.old ++ single_puts place reduce slot column.now.values) }
{
    let count = column.len();
    for i in 0..count {
        puts.add_one(place, reduce, slot, column.get(i))?;
    }
    Ok(())
}

/// Puts the values of a column for one slot: nothing where it has no row, the value to which the reduction reduces them
/// where there is one, and else each of them. The slot comes to hold the same, wherever they stand among the puts of a
/// superstep in which each slot has one reduction.
pub fn put_values(
    place: u32,
    reduce: Reduce,
    slot: u32,
    column: &Column,
    puts: &mut Contributions,
) -> Result<(), NoMemory>
    ensures put { OnOk result (puts.new ≡ puts.old ++ reduced_puts place reduce slot column.now.vtype column.now.values) }
    ensures settle { SettleAs (single_puts place reduce slot column.now.values) (reduced_puts place reduce slot column.now.vtype column.now.values) }
{
    reductions_are_monoids();
    if column.is_empty() {
        return Ok(());
    }
    let _first = column.get(0).number();
    match reduced_value(reduce, column) {
        Some(value) => puts.add_one(place, reduce, slot, value)?,
        None => put_each(place, reduce, slot, column, puts)?,
    }
    Ok(())
}
