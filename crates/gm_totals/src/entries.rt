//! The running total of one statement's contributions to one target.

ghost use Rattle.std.specs.Prelude.{◌≡◌, ◌≢◌, ◌∷◌, [], false, true, List, Bool, Some, None, IfOk, IfSome, OnOk, option_map, map, length, drop, slice_index_or, ◌+◌};
ghost use Rattle.gm_value.specs.declared.values.Value.{Value as Given};
ghost use Rattle.gm_value.specs.declared.reductions.Reduce.{Reduce as By};
ghost use Rattle.gm_value.specs.Numbers.{number_of};
ghost use Rattle.gm_value.specs.Totals.{ShowsMore};
ghost use Rattle.gm_value.specs.Tuples.{close_slots, values_at, first_or, kept};
ghost use Rattle.gm_value.specs.Reductions.{close};
ghost use Rattle.gm_semantics.specs.declared.slots.Slot.{Slot};
ghost use Rattle.gm_semantics.specs.Contributions.{Contribution, close_by};
ghost use Rattle.gm_totals.specs.Given.{given};
ghost use Rattle.gm_totals.specs.Pots.{CountsAlone, Counts, CountsMore, TotalStands, Joins, values_of, before, listed, items_in};

use crate::faults::lower_key;
use gm_ast::tree::TotalKey;
use gm_base::NoMemory;
use gm_value::{
    FaultKind, Reduce, Total, Value, fold_tuple, reductions_are_monoids, total_add, total_close,
    total_unit, totals_have_room,
};
use std::alloc::Global;

// What contributions to a target come to: of one slot the exact total of the values, of several the tuple that is kept
// of the contributed ones.
#[derive(Debug, Drop)]
pub enum Accumulator {
    One(Total),
    Several(Vec<Value>),
}

// The total of what one statement gave to one target.
#[derive(Debug, Drop)]
pub struct Entry {
    pub statement: u32,
    // Of the keys of the contributions the one of the least fault.
    pub key: TotalKey,
    pub accumulator: Accumulator,
}

// A total with one more member, where it has room for one.
#[inline(always)]
fn grown(reduce: Reduce, total: Total, value: Value) -> Result<Total, NoMemory>
    ensures { IfOk result (ShowsMore reduce total (number_of value)) }
{
    if !total.has_room() {
        return Err(NoMemory);
    }
    Ok(total_add(reduce, total, value))
}

// Values in a list of their own.
fn copied(alloc: Global, values: &[Value]) -> Result<Vec<Value>, NoMemory>
    ensures { IfOk result (λ copies. copies.items ≡ values.now) }
{
    let mut copies = Vec::new(alloc);
    copies.extend_from_slice(values)?;
    Ok(copies)
}

// The first of some values. One slot has one.
#[inline(always)]
fn first_of(values: &[Value]) -> Result<Value, NoMemory>
    ensures { IfOk result (λ value. (other : Given) → first_or other values.now ≡ value) }
{
    if values.len() == 0 {
        return Err(NoMemory);
    }
    Ok(values[0])
}

// What one of some held slots holds with the number of a tuple there, if it is in the range of the slot's type. Behind
// the tuple's end the slot stays.
fn value_at(held: Value, tuple: &[Value], k: usize) -> Option<Value>
    ensures { (rest : List Given) → values_at (held ∷ rest) (drop k (map number_of tuple.now)) ≡ before result (values_at rest (drop (k + 1) (map number_of tuple.now))) }
{
    if k >= tuple.len() {
        return Some(held);
    }
    match held.type_of().checked(tuple[k].number()) {
        Ok(value) => Some(value),
        Err(_) => None,
    }
}

// What held slots hold with the numbers of a tuple, if each is in the range of its slot's type. Where the tuple ends,
// the slots stay.
fn values_at(alloc: Global, held: &[Value], tuple: &[Value]) -> Result<Option<Vec<Value>>, NoMemory>
    ensures { IfOk result (λ values. option_map items_in values ≡ values_at held.now (map number_of tuple.now)) }
{
    let mut values = Vec::with_capacity(alloc, held.len())?;
    for k in 0..held.len() {
        match value_at(held[k], tuple, k) {
            Some(value) => values.push(value)?,
            None => return Ok(None),
        }
    }
    Ok(Some(values))
}

// What held slots hold with the tuple that is kept of what they held and a new one, if each value fits its slot's type.
fn kept_at(
    alloc: Global,
    reduce: Reduce,
    held: &[Value],
    new: &[Value],
) -> Result<Option<Vec<Value>>, NoMemory>
    ensures { IfOk result (λ values. option_map items_in values ≡ values_at held.now (kept reduce (map number_of held.now) (map number_of new.now))) }
{
    if fold_tuple(reduce, held, new) {
        let values = values_at(alloc, held, new)?;
        return Ok(values);
    }
    let values = values_at(alloc, held, held)?;
    Ok(values)
}

// A held value closed with one more by a reduction.
fn closed_with(reduce: Reduce, held: Value, member: Value) -> Result<Value, FaultKind>
    ensures { result ≡ close reduce held (member ∷ []) }
{
    totals_have_room();
    let none = total_unit(reduce, held.type_of());
    total_close(reduce, held, total_add(reduce, none, member))
}

// The first of some values, or another where there is none.
fn first_or(other: Value, values: &[Value]) -> Value
    ensures { result ≡ first_or other values.now }
{
    if values.len() == 0 {
        return other;
    }
    values[0]
}

// A held value closed with the first of some values, or with itself where there is none.
fn closed_alone(reduce: Reduce, held: Value, values: &[Value]) -> Result<Value, FaultKind>
    ensures { result ≡ close reduce held (first_or held values.now ∷ []) }
{
    closed_with(reduce, held, first_or(held, values))
}

// The one value of a list.
fn only(values: &[Value]) -> Value
    requires { length values.now ≡ 1 }
    ensures { (d : Given) → result ≡ slice_index_or values.now 0 d }
{
    values[0]
}

// A value in a list of its own.
fn list_of_one(alloc: Global, value: Value) -> Result<Vec<Value>, NoMemory>
    ensures { IfOk result (λ values. values.items ≡ value ∷ []) }
{
    let mut values = Vec::new(alloc);
    values.push(value)?;
    Ok(values)
}

/// What the slots of one target that hold values hold after one contribution of values by a reduction, or None where
/// one is out of its slot's range. One slot is combined with its value, and several count as one target and keep one
/// whole tuple.
pub fn close_tuple(
    alloc: Global,
    reduce: Reduce,
    held: &[Value],
    values: &[Value],
) -> Result<Option<Vec<Value>>, NoMemory>
    ensures { IfOk result (λ after. option_map items_in after ≡ close_slots reduce held.now (values.now ∷ [])) }
{
    if held.len() != 1 {
        let after = kept_at(alloc, reduce, held, values)?;
        return Ok(after);
    }
    let first = only(held);
    match closed_alone(reduce, first, values) {
        Ok(value) => {
            let after = list_of_one(alloc, value)?;
            Ok(Some(after))
        }
        Err(_) => Ok(None),
    }
}

// The tuple that is kept of a tuple and a new one. An equal tuple changes nothing.
fn keep_tuple(tuple: &mut Vec<Value>, reduce: Reduce, new: &[Value]) -> Result<(), NoMemory>
    ensures { OnOk result (map number_of tuple.new.items ≡ kept reduce (map number_of tuple.old.items) (map number_of new.now)) }
{
    if !fold_tuple(reduce, tuple.as_slice(), new) {
        return Ok(());
    }
    tuple.clear();
    tuple.extend_from_slice(new)?;
    Ok(())
}

// A held value closed with a total, if the exact result fits its type.
fn closed_total(reduce: Reduce, held: Value, total: Total) -> Result<Option<Value>, NoMemory>
    ensures { IfOk result (λ v. (bag : List Contribution) → CountsAlone reduce total (values_of bag)
        → option_map listed v ≡ close_by reduce (held ∷ []) bag) }
{
    if !total.has_room() {
        return Err(NoMemory);
    }
    let _number = held.number();
    match total_close(reduce, held, total) {
        Ok(value) => Ok(Some(value)),
        Err(_) => Ok(None),
    }
}

impl Accumulator {
    // The total of one value.
    #[inline(always)]
    fn of_value(reduce: Reduce, value: Value) -> Result<Accumulator, NoMemory>
        ensures { IfOk result (λ a. (values : List Given) → ((other : Given) → first_or other values ≡ value) → Counts false reduce a (values ∷ [])) }
    {
        reductions_are_monoids();
        let _number = value.number();
        let unit = total_unit(reduce, value.type_of());
        let total = grown(reduce, unit, value)?;
        Ok(Accumulator::One(total))
    }

    // What one contribution to one slot, or to several, comes to. One slot has a value.
    #[inline(always)]
    fn new(
        alloc: Global,
        several: bool,
        reduce: Reduce,
        values: &[Value],
    ) -> Result<Accumulator, NoMemory>
        ensures { IfOk result (λ a. Counts several reduce a (values.now ∷ [])) }
    {
        if several {
            let tuple = copied(alloc, values)?;
            return Ok(Accumulator::Several(tuple));
        }
        let value = first_of(values)?;
        let total = Accumulator::of_value(reduce, value)?;
        Ok(total)
    }

    // One more contribution.
    #[inline(always)]
    fn give(&mut self, reduce: Reduce, values: &[Value]) -> Result<(), NoMemory>
        ensures { OnOk result (CountsMore reduce self.old values.now self.new) }
    {
        match self {
            Accumulator::One(total) => {
                let value = first_of(values)?;
                let more = grown(reduce, *total, value)?;
                *total = more;
                Ok(())
            }
            Accumulator::Several(tuple) => {
                keep_tuple(tuple, reduce, values)?;
                Ok(())
            }
        }
    }
}

impl Entry {
    // The total of one contribution to a target of one slot, or of several.
    #[inline(always)]
    pub fn new(
        alloc: Global,
        several: bool,
        reduce: Reduce,
        key: TotalKey,
        values: &[Value],
    ) -> Result<Entry, NoMemory>
        ensures { IfOk result (λ entry. (by : By) (slots : List Slot) → Joins several reduce None (given key by slots values.now) entry) }
    {
        let accumulator = Accumulator::new(alloc, several, reduce, values)?;
        Ok(Entry {
            statement: key.key.statement,
            key,
            accumulator,
        })
    }

    // One more contribution of the statement.
    #[inline(always)]
    pub fn give(&mut self, reduce: Reduce, key: TotalKey, values: &[Value]) -> Result<(), NoMemory>
        requires { self.old.statement ≡ key.key.statement }
        ensures { OnOk result ((several : Bool) (by : By) (slots : List Slot) → Joins several reduce (Some self.old) (given key by slots values.now) self.new) }
    {
        self.accumulator.give(reduce, values)?;
        self.key = lower_key(self.key, key);
        Ok(())
    }

    // The held value of one slot closed with the total, if the exact result fits its type.
    pub fn closed_one(&self, reduce: Reduce, held: Value) -> Result<Option<Value>, NoMemory>
        ensures { IfOk result (λ v. (bag : List Contribution) → TotalStands false reduce self.now bag
            → option_map listed v ≡ close_by reduce (held ∷ []) bag) }
    {
        match self.accumulator {
            Accumulator::One(total) => {
                let value = closed_total(reduce, held, total)?;
                Ok(value)
            }
            Accumulator::Several(_) => Err(NoMemory),
        }
    }

    // The held values of several slots, or the tuple if it takes their place, if each value fits its slot's type.
    pub fn closed_tuple(
        &self,
        alloc: Global,
        reduce: Reduce,
        held: &[Value],
    ) -> Result<Option<Vec<Value>>, NoMemory>
        ensures closes { IfOk result (λ values. (bag : List Contribution) → length held.now ≢ 1 → TotalStands true reduce self.now bag
            → option_map items_in values ≡ close_by reduce held.now bag) }
        ensures length { IfOk result (λ values. IfSome values (λ after. length after.items ≡ length held.now)) }
    {
        match &self.accumulator {
            Accumulator::Several(tuple) => {
                let values = kept_at(alloc, reduce, held, tuple.as_slice())?;
                Ok(values)
            }
            Accumulator::One(_) => Err(NoMemory),
        }
    }
}
