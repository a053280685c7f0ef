//! Messages that stand for an exact total.
//!
//! Of the messages of a combinable kind to a node only the exact total counts. Where the total was kept and not the
//! messages, some that have it are given in their place: one with the total itself, or, of a sum or a product that no
//! value holds, as few more as it takes. Of a product that is only known to be over 2 ^ 63, two come with such a product,
//! which does the same. There are never more of these than of the messages that were left out.

ghost use Rattle.std.specs.Prelude.{◌≡◌, ◌<◌, ◌≤◌, ◌⊎◌, ℤ, ◌-ℤ◌, ◌^◌, [], ◌∷◌, ◌++◌, OnOk, OnErr, unsigned_abs};
ghost use Rattle.gm_value.specs.declared.reductions.Reduce.TheVariants as reduce;
ghost use Rattle.gm_value.specs.declared.values.Value.TheVariants.{I64};
ghost use Rattle.gm_value.specs.Totals.{IsProduct, Shows};
ghost use Rattle.gm_machine.specs.HandedTotals.{each_to, AddsTotal, AddsSome};

use crate::batches::Batch;
use gm_base::NoMemory;
use gm_value::{Reduce, Total, Value};

// The range of a number of 64 bits.
const LEAST: i128 = -9_223_372_036_854_775_808;

const MOST: i128 = 9_223_372_036_854_775_807;

// The number of 64 bits that is nearest to a number.
fn nearest(number: i128) -> i64
    ensures near { unsigned_abs (number -ℤ result) ≤ unsigned_abs number }
    ensures nearer { (unsigned_abs number ≡ 0) ⊎ (unsigned_abs (number -ℤ result) < unsigned_abs number) }
{
    if number > MOST {
        i64::MAX
    } else if number < LEAST {
        i64::MIN
    } else {
        number as i64
    }
}

// Adds a message with a number of 64 bits.
fn add_number(batch: &mut Batch, to: u32, kind: u32, number: i64) -> Result<(), NoMemory>
    ensures added { OnOk result (batch.new ≡ batch.old ++ each_to to kind (I64 number ∷ [])) }
    ensures unchanged { OnErr result (batch.new ≡ batch.old) }
{
    batch.add(to, kind, &[Value::I64(number)])?;
    Ok(())
}

// Adds messages whose sum is a number.
fn add_sum(batch: &mut Batch, to: u32, kind: u32, sum: i128) -> Result<(), NoMemory>
    ensures added { OnOk result (AddsTotal batch.old to kind reduce.Sum sum batch.new) }
    ensures part { OnErr result (AddsSome batch.old to kind batch.new) }
{
    let mut left = sum;
    'parts: loop {
        let next = nearest(left);
        add_number(batch, to, kind, next)?;
        left -= i128::from(next);
        if left == 0 {
            return Ok(());
        }
    }
}

// Adds two messages, each with a number of 64 bits.
fn add_two(batch: &mut Batch, to: u32, kind: u32, first: i64, second: i64) -> Result<(), NoMemory>
    ensures added { OnOk result (batch.new ≡ batch.old ++ each_to to kind (I64 first ∷ I64 second ∷ [])) }
    ensures part { OnErr result (AddsSome batch.old to kind batch.new) }
{
    add_number(batch, to, kind, first)?;
    add_number(batch, to, kind, second)?;
    Ok(())
}

// Adds messages whose product is a number of at most 2 ^ 63 in magnitude.
fn add_product(batch: &mut Batch, to: u32, kind: u32, product: i128) -> Result<(), NoMemory>
    requires { unsigned_abs product ≤ 2 ^ 63 }
    ensures added { OnOk result (AddsTotal batch.old to kind reduce.Product product batch.new) }
    ensures part { OnErr result (AddsSome batch.old to kind batch.new) }
{
    if product > MOST {
        add_two(batch, to, kind, -1, i64::MIN)?;
        return Ok(());
    }
    add_number(batch, to, kind, product as i64)?;
    Ok(())
}

// Adds messages whose product is of more than 2 ^ 63 in magnitude, as any that is.
fn add_far(batch: &mut Batch, to: u32, kind: u32) -> Result<(), NoMemory>
    ensures added { OnOk result ((far : ℤ) → 2 ^ 63 < unsigned_abs far → AddsTotal batch.old to kind reduce.Product far batch.new) }
    ensures part { OnErr result (AddsSome batch.old to kind batch.new) }
{
    add_two(batch, to, kind, i64::MIN, i64::MIN)?;
    Ok(())
}

// Adds messages for a product that is known, or only known to be of more than 2 ^ 63 in magnitude.
fn add_any_product(
    batch: &mut Batch,
    to: u32,
    kind: u32,
    value: i128,
    over: bool,
) -> Result<(), NoMemory>
    ensures added { OnOk result ((exact : ℤ) → IsProduct value over exact → AddsTotal batch.old to kind reduce.Product exact batch.new) }
    ensures part { OnErr result (AddsSome batch.old to kind batch.new) }
{
    if over {
        add_far(batch, to, kind)?;
        return Ok(());
    }
    if value < LEAST {
        add_far(batch, to, kind)?;
        return Ok(());
    }
    if MOST + 1 < value {
        add_far(batch, to, kind)?;
        return Ok(());
    }
    add_product(batch, to, kind, value)?;
    Ok(())
}

impl Batch {
    /// Adds messages of a kind to a node, with one value each, that have a total by a reduction, or do the same. The total
    /// is one by the reduction. Where there is not enough memory some were added.
    pub fn add_total(
        &mut self,
        to: u32,
        kind: u32,
        reduce: Reduce,
        total: Total,
    ) -> Result<(), NoMemory>
        ensures added { OnOk result ((exact : ℤ) → Shows reduce total exact → AddsTotal self.old to kind reduce exact self.new) }
        ensures part { OnErr result (AddsSome self.old to kind self.new) }
    {
        match total {
            Total::Small(value) => self.add(to, kind, &[value])?,
            Total::Sum(sum) => add_sum(self, to, kind, sum)?,
            Total::Product { value, over } => add_any_product(self, to, kind, value, over)?,
        }
        Ok(())
    }
}
