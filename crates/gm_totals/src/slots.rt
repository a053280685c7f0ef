//! The slots of one target.

ghost use Rattle.std.specs.Prelude.{◌≡◌, IfOk, length};
ghost use Rattle.gm_semantics.specs.Stores.{slot_eq, slots_eq};
ghost use Rattle.gm_totals.specs.Places.{head_of};
ghost use Rattle.gm_totals.specs.Given.{is_several, slots_in};

use gm_base::NoMemory;
use gm_semantics::slots::Slot;
use std::alloc::Global;
use std::slice::from_ref;

// The slots of a target: one, or a list in a box. One slot takes no memory beside it, and no room for a list.
#[derive(Debug, Drop)]
pub enum Slots {
    One(Slot),
    Several(Box<Vec<Slot>>),
}

// Slots in a list of their own.
fn copied(alloc: Global, slots: &[Slot]) -> Result<Vec<Slot>, NoMemory>
    ensures { IfOk result (λ copies. copies.items ≡ slots.now) }
{
    let mut copies = Vec::new(alloc);
    copies.extend_from_slice(slots)?;
    Ok(copies)
}

impl Slots {
    // Some slots.
    pub fn new(alloc: Global, slots: &[Slot]) -> Result<Slots, NoMemory>
        ensures { IfOk result (λ target. slots_in target ≡ slots.now) }
    {
        if are_several(slots) {
            let copies = copied(alloc, slots)?;
            return Ok(Slots::Several(Box::new(alloc, copies)?));
        }
        Ok(Slots::One(head_of(slots)))
    }

    // The slots in order.
    #[inline(always)]
    pub fn as_slice(&self) -> &[Slot]
        ensures { result.now ≡ slots_in self.now }
    {
        match self {
            Slots::One(slot) => from_ref(slot),
            Slots::Several(slots) => slots.as_slice(),
        }
    }
}

// Whether slots are anything but one.
#[inline(always)]
pub fn are_several(slots: &[Slot]) -> bool
    ensures { result ≡ is_several slots.now }
{
    slots.len() != 1
}

// Whether two slots are one.
#[inline(always)]
pub fn is_same(slot: Slot, other: Slot) -> bool
    ensures { result ≡ slot_eq slot other }
{
    slot == other
}

// Whether two lists of slots of one length are one.
fn are_all_same(some: &[Slot], other: &[Slot]) -> bool
    requires { length some.now ≡ length other.now }
    ensures { result ≡ slots_eq some.now other.now }
{
    for k in 0..some.len() {
        if !is_same(some[k], other[k]) {
            return false;
        }
    }
    true
}

// Whether two lists of slots are one.
#[inline(always)]
pub fn are_same(some: &[Slot], other: &[Slot]) -> bool
    ensures { result ≡ slots_eq some.now other.now }
{
    if some.len() != other.len() {
        return false;
    }
    are_all_same(some, other)
}

// The slot by whose place a target is found: its first one.
#[inline(always)]
pub fn head_of(slots: &[Slot]) -> Slot
    ensures { result ≡ head_of slots.now }
{
    if slots.is_empty() {
        Slot::Scalar(0)
    } else {
        slots[0]
    }
}
