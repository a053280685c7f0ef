//! Contributions taken onto the slots that they are to. Those to one slot are added up place by place, in totals of 64
//! bits. Those to several slots are compared place by place, and the best tuple is kept whole.

ghost use Rattle.std.specs.Prelude.{◌≡◌, ◌<◌, ◌≤◌, ◌+◌, ◌^◌, ℕ, List, IsTrue, All, IfOk, OnOk, true, false, Some, None, map, find, length, drop, slice_get, slice_index_or};
ghost use Rattle.gm_value.specs.declared.values.Value.{Value};
ghost use Rattle.gm_value.specs.declared.values.VType.TheVariants.{I64 as Longs};
ghost use Rattle.gm_value.specs.Numbers.{number_of, type_of, fits};
ghost use Rattle.gm_value.specs.Reductions.{close};
ghost use Rattle.gm_value.specs.Taking.{of_rank, at_rank, taken_bag};
ghost use Rattle.gm_value.specs.Totals.{IsTotal, HasRoom};
ghost use Rattle.gm_value.specs.Tuples.{best, values_at};
ghost use Rattle.gm_image.specs.Parts.{is_among};
ghost use Rattle.gm_image.specs.Folds.{same_numbers};
ghost use Rattle.gm_machine.specs.declared.contributions.ContributionPart.{ContributionPart};
ghost use Rattle.gm_machine.specs.Contributions.{contributions_of, AreWhole};
ghost use Rattle.gm_machine.specs.Expressions.{value_at};
ghost use Rattle.gm_machine.specs.Taking.{closed, target_after, entry_of, slot_by, slot_after, settled, value_or, fault_of};
ghost use Rattle.gm_machine.specs.Settling.{long_of, longs_of, place_of, is_to, to_slot, IsPast, reduced, slots_in, begin_with, at_place, tuples_at, are_some, IsFirst, ComesAfter, better, kept_entry, if_all};
ghost use Rattle.gm_machine.specs.VertexViews.{answered};

use crate::contributions::{ContributionPart, Contributions};
use crate::expressions::value_at;
use crate::faults::{Fault, lesser};
use gm_base::NoMemory;
use gm_value::{
    FaultKind, Op1, Reduce, Total, VType, Value, apply1, fold_tuple, reductions_are_monoids,
    total_add, total_close, total_unit,
};
use std::alloc::Global;
use std::mem;

/// Room for what is taken onto a target of several slots: the values that are held, the best tuple so far, and the next
/// one. It is kept from one taking to the next, so that none takes memory of its own.
#[derive(Drop)]
pub(crate) struct TupleRoom {
    held: Vec<Value>,
    best: Vec<Value>,
    next: Vec<Value>,
}

impl TupleRoom {
    /// No room yet. It keeps the allocator and takes no memory.
    pub(crate) fn empty(alloc: Global) -> Self {
        TupleRoom {
            held: Vec::new(alloc),
            best: Vec::new(alloc),
            next: Vec::new(alloc),
        }
    }
}

// A value's number as one of 64 bits. Totals are kept of these, so that they do not depend on types.
fn long(v: Value) -> Value
    ensures long { result ≡ long_of v }
    ensures in_range { IsTrue (fits (type_of v) (number_of v)) }
{
    let _number = v.number();
    match apply1(Op1::ToI64, v) {
        Ok(long) => long,
        Err(_) => unreachable!(),
    }
}

// Whether a part is a contribution to a slot alone.
#[inline(always)]
fn is_to(slot: usize, p: ContributionPart) -> bool
    ensures { result ≡ is_to slot p }
{
    p.slot as usize == slot && p.width == 1
}

// The least place, from one on and below a bound, of a contribution to a slot alone; the bound where there is none.
fn next_place(parts: &[ContributionPart], slot: usize, from: usize, bound: usize) -> usize
    ensures at_most { result ≤ bound }
    ensures from_on { from ≤ bound → from ≤ result }
    ensures a_place { result < bound → result < 2 ^ 32 }
    ensures none_before { All (IsPast slot from result) parts.now }
{
    if bound <= from {
        return bound;
    }
    let mut next = bound;
    for c in parts {
        let place = c.place as usize;
        if is_to(slot, *c) && from <= place && place < next {
            next = place;
        }
    }
    next
}

// The total of the contributions to a slot alone at a place.
fn total_at(
    parts: &[ContributionPart],
    slot: usize,
    place: usize,
    reduce: Reduce,
) -> Result<Total, NoMemory>
    ensures total { IfOk result (λ total. IsTotal reduce Longs total (longs_of (of_rank place_of place (to_slot slot parts.now)))) }
    ensures room { IfOk result HasRoom }
{
    let mut total = total_unit(reduce, VType::I64);
    for c in parts {
        if is_to(slot, *c) && c.place as usize == place {
            if !total.has_room() {
                return Err(NoMemory);
            }
            total = total_add(reduce, total, long(c.value));
        }
    }
    if !total.has_room() {
        return Err(NoMemory);
    }
    Ok(total)
}

// A held value closed with a total.
fn closed(reduce: Reduce, held: Value, total: Total) -> Result<Value, FaultKind>
    requires { HasRoom total }
    ensures value { (bag : List Value) → IsTotal reduce Longs total (map long_of bag) → result ≡ close reduce held bag }
    ensures in_range { IsTrue (fits (type_of held) (number_of held)) }
{
    reductions_are_monoids();
    let long_held = long(held);
    match total_close(reduce, long_held, total) {
        Ok(v) => held.type_of().checked(v.number()),
        Err(kind) => Err(kind),
    }
}

// A held value after the contributions to a slot alone, taken place by place by a reduction.
fn reduced(
    places: usize,
    parts: &[ContributionPart],
    slot: usize,
    reduce: Reduce,
    held: Value,
) -> Result<Result<Value, Fault>, NoMemory>
    ensures { IfOk result (λ r. r ≡ reduced places reduce held (to_slot slot parts.now)) }
{
    reductions_are_monoids();
    let mut value = held;
    let mut place = next_place(parts, slot, 0, places);
    while place < places {
        let total = total_at(parts, slot, place, reduce)?;
        match closed(reduce, value, total) {
            Ok(v) => value = v,
            Err(_) => {
                return Ok(Err(Fault {
                    place: place as u32,
                    kind: FaultKind::Overflow,
                }));
            }
        }
        place = next_place(parts, slot, place + 1, places);
    }
    Ok(Ok(value))
}

// Whether a slot is one of some parts.
fn has_slot(parts: &[ContributionPart], slot: usize) -> bool
    ensures { result ≡ is_among slot (slots_in parts.now) }
{
    for p in parts {
        if p.slot as usize == slot {
            return true;
        }
    }
    false
}

// Whether two runs of parts have the same slots, in their order.
fn same_slots(some: &[ContributionPart], other: &[ContributionPart]) -> bool
    ensures { result ≡ same_numbers (slots_in some.now) (slots_in other.now) }
{
    if some.len() != other.len() {
        return false;
    }
    for i in 0..some.len() {
        if some[i].slot != other[i].slot {
            return false;
        }
    }
    true
}

// The index of the first contribution that has a slot.
fn first_with(parts: &[ContributionPart], slot: usize) -> Option<usize>
    requires { AreWhole parts.now }
    ensures { IsFirst slot parts.now result }
{
    for i in 0..parts.len() {
        let width = parts[i].width as usize;
        if has_slot(&parts[i..i + width], slot) {
            return Some(i);
        }
    }
    None
}

// Whether a contribution to a target begins at an index.
fn begins_at(parts: &[ContributionPart], i: usize, target: &[ContributionPart]) -> bool
    requires whole { AreWhole parts.now }
    requires within { i < length parts.now }
    requires some { 0 < length target.now }
    ensures { result ≡ begin_with (slots_in target.now) (drop i parts.now) }
{
    let width = parts[i].width as usize;
    width == target.len() && same_slots(&parts[i..i + width], target)
}

// A place, where it counts and is from one on and before the next so far; else the next so far.
fn nearer(counts: bool, from: usize, next: usize, place: u32) -> usize
    ensures at_most { result ≤ next }
    ensures from_on { from ≤ next → from ≤ result }
    ensures a_place { (bound : ℕ) → (next < bound → next < 2 ^ 32) → result < bound → result < 2 ^ 32 }
    ensures apart { (s : ℕ) → from ≤ s → s < result → counts ≡ true → place ≡ s → ⊥ }
{
    let place = place as usize;
    if counts && from <= place && place < next {
        place
    } else {
        next
    }
}

// The least place, from one on and below a bound, of a contribution to a target; the bound where there is none.
fn next_place_of(
    parts: &[ContributionPart],
    target: &[ContributionPart],
    from: usize,
    bound: usize,
) -> usize
    requires whole { AreWhole parts.now }
    requires some { 0 < length target.now }
    ensures at_most { result ≤ bound }
    ensures from_on { from ≤ bound → from ≤ result }
    ensures a_place { result < bound → result < 2 ^ 32 }
    ensures none_before { ComesAfter from result (slots_in target.now) parts.now }
{
    if bound <= from {
        return bound;
    }
    let mut next = bound;
    for i in 0..parts.len() {
        let counts = begins_at(parts, i, target);
        next = nearer(counts, from, next, parts[i].place);
    }
    next
}

// Puts the values of parts into a row.
fn copy_values(parts: &[ContributionPart], values: &mut Vec<Value>) -> Result<(), NoMemory>
    ensures { OnOk result (values.new.items ≡ map (λ p. p.value) parts.now) }
{
    values.clear();
    for p in parts {
        values.push(p.value)?;
    }
    Ok(())
}

// Whether a contribution to a target at a place begins at an index.
fn comes_at(parts: &[ContributionPart], i: usize, target: &[ContributionPart], place: usize) -> bool
    requires whole { AreWhole parts.now }
    requires within { i < length parts.now }
    requires some { 0 < length target.now }
    ensures begun { IsTrue result → begin_with (slots_in target.now) (drop i parts.now) ≡ true }
    ensures here { IsTrue result → (d : ContributionPart) → (slice_index_or parts.now i d).place ≡ place }
    ensures other { result ≡ false → begin_with (slots_in target.now) (drop i parts.now) ≡ true
        → (d : ContributionPart) → (slice_index_or parts.now i d).place ≡ place → ⊥ }
{
    parts[i].place as usize == place && begins_at(parts, i, target)
}

// Puts the tuple of some parts into the row of the best one where it takes its place.
fn take_better(
    reduce: Reduce,
    tuple: &[ContributionPart],
    best: &mut Vec<Value>,
    next: &mut Vec<Value>,
) -> Result<(), NoMemory>
    ensures { OnOk result (best.new.items
        ≡ better reduce best.old.items (map (λ p. p.value) tuple.now)) }
{
    copy_values(tuple, next)?;
    if fold_tuple(reduce, best, next) {
        mem::swap(best, next);
    }
    Ok(())
}

// Puts the best of a held tuple and of those of a target at a place into a row, and answers whether there are any of
// the latter.
fn find_best(
    parts: &[ContributionPart],
    target: &[ContributionPart],
    place: usize,
    reduce: Reduce,
    held: &[Value],
    chosen: &mut Vec<Value>,
    next: &mut Vec<Value>,
) -> Result<bool, NoMemory>
    requires whole { AreWhole parts.now }
    requires some { 0 < length target.now }
    ensures some { IfOk result (λ found. found ≡ are_some (tuples_at place (slots_in target.now) parts.now)) }
    ensures best { OnOk result (map number_of chosen.new.items
        ≡ best reduce (map number_of held.now) (tuples_at place (slots_in target.now) parts.now)) }
{
    chosen.clear();
    chosen.extend_from_slice(held)?;
    let mut found = false;
    for i in 0..parts.len() {
        if comes_at(parts, i, target, place) {
            found = true;
            let width = parts[i].width as usize;
            take_better(reduce, &parts[i..i + width], chosen, next)?;
        }
    }
    Ok(found)
}

// The entry at an index of a tuple as a value of the held one's type; the held one where the tuple has ended.
fn kept_entry(held: Value, tuple: &[Value], i: usize) -> Result<Value, FaultKind>
    ensures { result ≡ kept_entry held (slice_get tuple.now i) }
{
    match tuple.get(i) {
        Some(entry) => held.type_of().checked(entry.number()),
        None => Ok(held),
    }
}

// Puts a tuple into a row, each entry as a value of the held one's type, and answers whether all are in range.
fn keep_types(held: &[Value], tuple: &[Value], kept: &mut Vec<Value>) -> Result<bool, NoMemory>
    ensures { IfOk result (λ all. values_at held.now (map number_of tuple.now) ≡ if_all all kept.new.items) }
{
    kept.clear();
    for i in 0..held.len() {
        match kept_entry(held[i], tuple, i) {
            Ok(v) => kept.push(v)?,
            Err(_) => return Ok(false),
        }
    }
    Ok(true)
}

// Puts what the slots of a target hold into a row.
fn copy_held(
    target: &[ContributionPart],
    values: &[Value],
    held: &mut Vec<Value>,
) -> Result<(), NoMemory>
    ensures { OnOk result (held.new.items ≡ map (value_at values.now) (slots_in target.now)) }
{
    held.clear();
    for p in target {
        held.push(value_at(values, p.slot))?;
    }
    Ok(())
}

// Takes the contributions to a target at a place onto the tuple that is held, and answers whether what it becomes is in
// range.
fn take_place(
    parts: &[ContributionPart],
    target: &[ContributionPart],
    place: usize,
    reduce: Reduce,
    held: &mut Vec<Value>,
    best: &mut Vec<Value>,
    next: &mut Vec<Value>,
) -> Result<bool, NoMemory>
    requires whole { AreWhole parts.now }
    requires some { 0 < length target.now }
    requires several { 2 ≤ length held.old.items }
    ensures taken { IfOk result (λ all. taken_bag (closed reduce) place held.old.items (at_place place (slots_in target.now) parts.now)
        ≡ at_rank place (if_all all held.new.items)) }
    ensures several { IfOk result (λ all. IsTrue all → 2 ≤ length held.new.items) }
{
    let found = find_best(parts, target, place, reduce, held, best, next)?;
    if !found {
        return Ok(true);
    }
    let all = keep_types(held, best, next)?;
    mem::swap(held, next);
    Ok(all)
}

// Puts what the slots of a target of two and more hold after the contributions to them into the row `held`.
fn take_target(
    places: usize,
    parts: &[ContributionPart],
    target: &[ContributionPart],
    reduce: Reduce,
    values: &[Value],
    held: &mut Vec<Value>,
    best: &mut Vec<Value>,
    next: &mut Vec<Value>,
) -> Result<Option<Fault>, NoMemory>
    requires whole { AreWhole parts.now }
    requires several { 2 ≤ length target.now }
    ensures { IfOk result (λ f. answered f held.new.items
        ≡ target_after places (contributions_of parts.now) values.now (record { reduce = reduce; slots = slots_in target.now })) }
{
    copy_held(target, values, held)?;
    let mut place = next_place_of(parts, target, 0, places);
    while place < places {
        let all = take_place(parts, target, place, reduce, held, best, next)?;
        if !all {
            return Ok(Some(Fault {
                place: place as u32,
                kind: FaultKind::Overflow,
            }));
        }
        place = next_place_of(parts, target, place + 1, places);
    }
    Ok(None)
}

// The entry of a slot of a target among its values, another value where it has none.
fn entry_of(target: &[ContributionPart], values: &[Value], slot: usize, other: Value) -> Value
    ensures { result ≡ entry_of slot (slots_in target.now) values.now other }
{
    for (i, p) in target.iter().enumerate() {
        match values.get(i) {
            None => return other,
            Some(v) => {
                if p.slot as usize == slot {
                    return *v;
                }
            }
        }
    }
    other
}

// What a slot of a target of two and more holds after the contributions to the target.
fn target_entry(
    places: usize,
    parts: &[ContributionPart],
    target: &[ContributionPart],
    reduce: Reduce,
    values: &[Value],
    slot: usize,
    room: &mut TupleRoom,
) -> Result<Result<Value, Fault>, NoMemory>
    requires whole { AreWhole parts.now }
    requires several { 2 ≤ length target.now }
    requires within { slot < length values.now }
    ensures { IfOk result (λ r. r ≡ slot_by places (contributions_of parts.now) values.now slot (Some (record { reduce = reduce; slots = slots_in target.now }))) }
{
    match take_target(
        places,
        parts,
        target,
        reduce,
        values,
        &mut room.held,
        &mut room.best,
        &mut room.next,
    )? {
        None => Ok(Ok(entry_of(target, &room.held, slot, values[slot]))),
        Some(f) => Ok(Err(f)),
    }
}

// What a slot holds after the contributions to its target.
fn slot_after(
    places: usize,
    parts: &[ContributionPart],
    values: &[Value],
    slot: usize,
    room: &mut TupleRoom,
) -> Result<Result<Value, Fault>, NoMemory>
    requires whole { AreWhole parts.now }
    requires within { slot < length values.now }
    ensures { IfOk result (λ r. r ≡ slot_after places (contributions_of parts.now) values.now slot) }
{
    match first_with(parts, slot) {
        None => Ok(Ok(values[slot])),
        Some(i) => {
            let first = parts[i];
            if first.width == 1 {
                let single = reduced(places, parts, slot, first.reduce, values[slot])?;
                return Ok(single);
            }
            let target = &parts[i..i + first.width as usize];
            let entry = target_entry(places, parts, target, first.reduce, values, slot, room)?;
            Ok(entry)
        }
    }
}

// An answer's value, or another where it is a fault.
fn value_or(other: Value, answer: Result<Value, Fault>) -> Value
    ensures { result ≡ value_or other answer }
{
    match answer {
        Ok(v) => v,
        Err(_) => other,
    }
}

// An answer's fault.
fn fault_of(answer: Result<Value, Fault>) -> Option<Fault>
    ensures { result ≡ fault_of answer }
{
    match answer {
        Ok(_) => None,
        Err(f) => Some(f),
    }
}

/// Takes contributions onto the slots that hold these values, for each target place by place below a bound, and answers
/// the least fault. The slots of a target with a fault keep what they held. The rows `after` and `room` are room.
pub(crate) fn settle(
    places: usize,
    contributions: &Contributions,
    values: &mut Vec<Value>,
    after: &mut Vec<Value>,
    room: &mut TupleRoom,
) -> Result<Option<Fault>, NoMemory>
    ensures { IfOk result (λ f. record { values = values.new.items; fault = f } ≡ settled places contributions.now values.old.items) }
{
    let mut fault = None;
    let parts = contributions.parts();
    after.clear();
    for slot in 0..values.len() {
        let held = values[slot];
        let one = slot_after(places, parts, values, slot, room)?;
        after.push(value_or(held, one))?;
        fault = lesser(fault, fault_of(one));
    }
    mem::swap(values, after);
    Ok(fault)
}
