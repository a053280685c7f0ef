//! The running totals of all targets.

ghost use Rattle.std.specs.Prelude.{◌≡◌, ◌↔◌, ◌∷◌, ◌++◌, [], ◌<◌, List, All, None, IsTrue, IfOk, IfSome, OnOk, length, map, slice_index_or};
ghost use Rattle.gm_semantics.specs.Contributions.{Contribution as Given};
ghost use Rattle.gm_semantics.specs.declared.slots.Slot.{Slot as At};
ghost use Rattle.gm_store.specs.Held.{Shape, HasSlot, held_at, shape_of};
ghost use Rattle.gm_totals.specs.Given.{given, single, slots_in, is_several};
ghost use Rattle.gm_totals.specs.Standing.{pot_at, targets_of, ArePlaced, IsPotOf, StandsFor, Within, ClosesTarget, Sets, WritesWithin, Settles};

use crate::contributions::Contribution;
use crate::faults::lesser;
use crate::places::Places;
use crate::pots::Pot;
use crate::slots::{Slots, are_same, are_several, head_of, is_same};
use gm_ast::tree::TotalKey;
use gm_base::NoMemory;
use gm_semantics::faults::Fault;
use gm_semantics::slots::{Slot, Write};
use gm_store::Store;
use gm_value::{Reduce, Value};
use std::alloc::Global;

/// The running totals of what reduction assignments gave to their targets, kept exactly for each target and statement.
#[derive(Drop)]
pub struct Totals {
    alloc: Global,
    places: Places,
    pots: Vec<(Slots, Pot)>,
}

/// What totals close to: writes for the slots, and the least fault of the totals that do not fit.
#[derive(Debug, Drop)]
pub struct Closed {
    pub writes: Vec<Write>,
    pub fault: Option<Fault>,
}

// Writes values to slots. Of a slot that stands twice the first value counts, so it is written last.
fn write_each(writes: &mut Vec<Write>, slots: &[Slot], values: &[Value]) -> Result<(), NoMemory>
    ensures sets { OnOk result (Sets slots.now values.now writes.old.items writes.new.items) }
    ensures within { OnOk result ((shape : Shape) → All (HasSlot shape) slots.now → All (λ w. HasSlot shape w.slot) writes.old.items
        → All (λ w. HasSlot shape w.slot) writes.new.items) }
{
    let mut k = slots.len().min(values.len());
    while k > 0 {
        k -= 1;
        writes.push(Write {
            slot: slots[k],
            value: values[k],
        })?;
    }
    Ok(())
}

// What slots hold.
fn read_each(alloc: Global, slots: &[Slot], store: &Store) -> Result<Vec<Value>, NoMemory>
    requires { All (HasSlot (shape_of store.now)) slots.now }
    ensures { IfOk result (λ values. values.items ≡ map (held_at store.now) slots.now) }
{
    let mut values = Vec::with_capacity(alloc, slots.len())?;
    for slot in slots {
        values.push(store.read(*slot))?;
    }
    Ok(values)
}

// Closes the totals of a target of one slot. Where one does not fit, the slot keeps what it holds.
fn close_one(closed: &mut Closed, slot: Slot, pot: &Pot, store: &Store) -> Result<(), NoMemory>
    requires { HasSlot (shape_of store.now) slot }
    ensures closes { OnOk result (ClosesTarget store.now (slot ∷ []) pot.now closed.old closed.new) }
    ensures within { OnOk result (WritesWithin (shape_of store.now) closed.old
        → WritesWithin (shape_of store.now) closed.new) }
{
    let held = store.read(slot);
    match pot.closed_one(held)? {
        Ok(value) => {
            closed.writes.push(Write { slot, value })?;
            Ok(())
        }
        Err(fault) => {
            closed.fault = lesser(fault, closed.fault);
            closed.writes.push(Write { slot, value: held })?;
            Ok(())
        }
    }
}

// Closes the totals of a target of several slots. Where a value does not fit, they keep what they hold.
fn close_several(
    closed: &mut Closed,
    alloc: Global,
    slots: &[Slot],
    pot: &Pot,
    store: &Store,
) -> Result<(), NoMemory>
    requires known { All (HasSlot (shape_of store.now)) slots.now }
    requires several { IsTrue (is_several slots.now) }
    ensures closes { OnOk result (ClosesTarget store.now slots.now pot.now closed.old closed.new) }
    ensures within { OnOk result (WritesWithin (shape_of store.now) closed.old
        → WritesWithin (shape_of store.now) closed.new) }
{
    let held = read_each(alloc, slots, store)?;
    match pot.closed_several(alloc, held.as_slice())? {
        Ok(values) => {
            write_each(&mut closed.writes, slots, values.as_slice())?;
            Ok(())
        }
        Err(fault) => {
            closed.fault = lesser(fault, closed.fault);
            write_each(&mut closed.writes, slots, held.as_slice())?;
            Ok(())
        }
    }
}

// Closes the totals of a target.
fn close_target(
    closed: &mut Closed,
    alloc: Global,
    slots: &Slots,
    pot: &Pot,
    store: &Store,
) -> Result<(), NoMemory>
    requires { All (HasSlot (shape_of store.now)) (slots_in slots.now) }
    ensures closes { OnOk result (ClosesTarget store.now (slots_in slots.now) pot.now closed.old closed.new) }
    ensures within { OnOk result (WritesWithin (shape_of store.now) closed.old
        → WritesWithin (shape_of store.now) closed.new) }
{
    let slots = slots.as_slice();
    if are_several(slots) {
        close_several(closed, alloc, slots, pot, store)?;
        return Ok(());
    }
    close_one(closed, head_of(slots), pot, store)?;
    Ok(())
}

impl Totals {
    /// Totals of nothing.
    pub fn new(alloc: Global) -> Self
        ensures stands { StandsFor result [] }
        ensures within { (shape : Shape) → Within shape result }
    {
        Totals {
            alloc,
            places: Places::new(alloc),
            pots: Vec::new(alloc),
        }
    }

    /// Gives one more contribution to one slot. A target's contributions are by one reduction: the first one's counts.
    #[inline(always)]
    pub fn give(&mut self, contribution: Contribution) -> Result<(), NoMemory>
        ensures stands { OnOk result ((cs : List Given) → StandsFor self.old cs
            → StandsFor self.new (cs ++ single contribution ∷ [])) }
        ensures within { OnOk result ((shape : Shape) → HasSlot shape contribution.slot
            → Within shape self.old → Within shape self.new) }
    {
        let slots = [contribution.slot];
        let values = [contribution.value];
        self.put(contribution.total, contribution.reduce, &slots, &values)?;
        Ok(())
    }

    /// Gives one more contribution to a target of any number of slots. A target's contributions are by one reduction:
    /// the first one's counts.
    pub fn give_tuple(
        &mut self,
        total: TotalKey,
        reduce: Reduce,
        slots: Vec<Slot>,
        values: &[Value],
    ) -> Result<(), NoMemory>
        ensures stands { OnOk result ((cs : List Given) → StandsFor self.old cs
            → StandsFor self.new (cs ++ given total reduce slots.items values.now ∷ [])) }
        ensures within { OnOk result ((shape : Shape) → All (HasSlot shape) slots.items
            → Within shape self.old → Within shape self.new) }
    {
        self.put(total, reduce, slots.as_slice(), values)?;
        Ok(())
    }

    // Gives one more contribution to a target.
    #[inline(always)]
    fn put(
        &mut self,
        total: TotalKey,
        reduce: Reduce,
        slots: &[Slot],
        values: &[Value],
    ) -> Result<(), NoMemory>
        ensures stands { OnOk result ((cs : List Given) → StandsFor self.old cs
            → StandsFor self.new (cs ++ given total reduce slots.now values.now ∷ [])) }
        ensures within { OnOk result ((shape : Shape) → All (HasSlot shape) slots.now
            → Within shape self.old → Within shape self.new) }
    {
        match self.find(slots) {
            Some(place) => {
                let several = are_several(slots);
                self.pots[place].1.give(self.alloc, several, total, values)?;
            }
            None => self.add(total, reduce, slots, values)?,
        }
        Ok(())
    }

    // The target of a pot.
    #[inline(always)]
    fn target_at(&self, place: usize) -> &[Slot]
        requires { place < length self.now.pots.items }
        ensures { (d : List At) → result.now ≡ slice_index_or (targets_of self.now) place d }
    {
        self.pots[place].0.as_slice()
    }

    // The place of a target's pot, if it has one.
    #[inline(always)]
    fn find(&self, slots: &[Slot]) -> Option<usize>
        ensures found { IfSome result (λ place. IsPotOf self.now slots.now place) }
        ensures none { result ≡ None → ArePlaced self.now → pot_at self.now slots.now ≡ None }
    {
        let head = head_of(slots);
        let place = self.places.get(head) as usize;
        if place >= self.pots.len() {
            return None;
        }
        let here = self.target_at(place);
        if are_same(here, slots) {
            return Some(place);
        }
        if is_same(head_of(here), head) {
            return self.search(slots);
        }
        None
    }

    // The place of a target's pot, where another target begins with the same slot.
    fn search(&self, slots: &[Slot]) -> Option<usize>
        ensures found { IfSome result (λ place. IsPotOf self.now slots.now place) }
        ensures none { result ≡ None → pot_at self.now slots.now ≡ None }
    {
        for k in 0..self.pots.len() {
            if are_same(self.target_at(k), slots) {
                return Some(k);
            }
        }
        None
    }

    // Gives a target its first contribution.
    fn add(
        &mut self,
        total: TotalKey,
        reduce: Reduce,
        slots: &[Slot],
        values: &[Value],
    ) -> Result<(), NoMemory>
        ensures stands { OnOk result ((cs : List Given) → StandsFor self.old cs → pot_at self.old slots.now ≡ None
            → StandsFor self.new (cs ++ given total reduce slots.now values.now ∷ [])) }
        ensures within { OnOk result ((shape : Shape) → All (HasSlot shape) slots.now
            → Within shape self.old → Within shape self.new) }
    {
        let place = self.pots.len();
        if place >= u32::MAX as usize {
            return Err(NoMemory);
        }
        let pot = Pot::new(self.alloc, are_several(slots), reduce, total, values)?;
        let target = Slots::new(self.alloc, slots)?;
        self.places.keep(head_of(slots), place as u32)?;
        self.pots.push((target, pot))?;
        Ok(())
    }

    /// What the totals close to over a store that has their slots: writes for the slots, with the values after their
    /// totals were taken in the order of their statements, and the least fault. The slots of a target of which a total
    /// does not fit keep what they hold.
    pub fn closed(&self, alloc: Global, store: &Store) -> Result<Closed, NoMemory>
        requires { Within (shape_of store.now) self.now }
        ensures settles { IfOk result (Settles store.now self.now) }
        ensures within { IfOk result (WritesWithin (shape_of store.now)) }
    {
        let mut closed = Closed {
            writes: Vec::with_capacity(alloc, self.pots.len())?,
            fault: None,
        };
        let mut k = self.pots.len();
        // The target that had a slot first is closed last, so that it counts.
        while k > 0 {
            k -= 1;
            let pair = &self.pots[k];
            close_target(&mut closed, alloc, &pair.0, &pair.1, store)?;
        }
        Ok(closed)
    }

    /// Whether nothing was given.
    pub fn is_empty(&self) -> bool
        ensures { (cs : List Given) → StandsFor self.now cs → IsTrue result ↔ (cs ≡ []) }
    {
        self.pots.is_empty()
    }

    /// Leaves the totals of nothing.
    pub fn clear(&mut self)
        ensures stands { StandsFor self.new [] }
        ensures within { (shape : Shape) → Within shape self.new }
    {
        self.pots.clear();
    }
}
