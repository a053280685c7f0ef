//! A loop's iterations so far, and the effects of statements on them.

ghost use Rattle.std.specs.Prelude.{◌≡◌, ◌∷◌, [], All, IfOk, OnOk, ℕ};
ghost use Rattle.gm_semantics.specs.Iterations as iterations;
ghost use Rattle.gm_semantics.specs.Iterations.{alone, failed, wrote, wrote_all, with_ok, gave_inner, gave_outermost, deferred_to, contribution};
ghost use Rattle.gm_totals.specs.Given.{single};
ghost use Rattle.gm_store.specs.Held.{HasSlot, shape_of};
ghost use Rattle.gm_loops.specs.declared.sights.Setting.{Setting};
ghost use Rattle.gm_loops.specs.Targets.{pair_of, tuple_of};
ghost use Rattle.gm_loops.specs.Goings.{Does};

use crate::ranges::Hop;
use crate::tuples::Tuple;
use gm_ast::tree::TotalKey;
use gm_base::NoMemory;
use gm_semantics::faults::Fault;
use gm_semantics::slots::{Slot, Write};
use gm_store::{Store, logged_writes_are_reversible};
use gm_totals::{Contribution, Totals};
use gm_value::{Reduce, Value};
use std::alloc::Global;

/// The iterations of a loop so far: the store that the present one sees, the totals that end with the inner and with
/// the outermost loop, the deferred writes, the fault of the present one, and room for the steps of an inner loop.
#[derive(Drop)]
pub struct Going {
    pub alloc: Global,
    pub store: Store,
    pub inner: Totals,
    pub outermost: Totals,
    pub deferred: Vec<Write>,
    pub fault: Option<Fault>,
    pub(crate) hops: Vec<Hop>,
}

// What a reduction assignment gives.
#[inline(always)]
pub(crate) fn contribution(total: TotalKey, reduce: Reduce, write: Write) -> Contribution
    ensures { result ≡ record { total = total; reduce = reduce; slot = write.slot; value = write.value } }
{
    Contribution {
        total,
        reduce,
        slot: write.slot,
        value: write.value,
    }
}

impl Going {
    // The iteration ends with a fault.
    pub fn fail(&mut self, fault: Fault)
        ensures { (f : Setting) (m : iterations.Mode) → Does f m self.old self.new (λ it. failed it fault) }
    {
        self.fault = Some(fault);
    }

    // A write that the iteration sees from then on.
    pub fn write(&mut self, write: Write) -> Result<(), NoMemory>
        requires { HasSlot (shape_of self.old.store) write.slot }
        ensures { OnOk result ((f : Setting) (m : iterations.Mode) → Does f m self.old self.new (λ it. wrote it (write.slot, write.value))) }
    {
        logged_writes_are_reversible();
        self.store.write(write.slot, write.value)?;
        Ok(())
    }

    // A write, or a fault.
    pub fn put(&mut self, answer: Result<Write, Fault>) -> Result<(), NoMemory>
        requires { IfOk answer (λ w. HasSlot (shape_of self.old.store) w.slot) }
        ensures { OnOk result ((f : Setting) (m : iterations.Mode) → Does f m self.old self.new (λ it. with_ok it (pair_of answer) (wrote it))) }
    {
        match answer {
            Ok(write) => self.write(write)?,
            Err(fault) => self.fail(fault),
        }
        Ok(())
    }

    // A contribution that ends with the inner loop.
    fn give_inner(&mut self, total: TotalKey, reduce: Reduce, write: Write) -> Result<(), NoMemory>
        requires { HasSlot (shape_of self.old.store) write.slot }
        ensures { OnOk result ((f : Setting) (edge : ℕ) → Does f (iterations.AtEdge edge) self.old self.new (λ it. gave_inner it (contribution total reduce (write.slot ∷ [], write.value ∷ [])))) }
    {
        self.inner.give(contribution(total, reduce, write))?;
        Ok(())
    }

    // A contribution that ends with the inner loop, or a fault.
    pub fn add_inner(
        &mut self,
        total: TotalKey,
        reduce: Reduce,
        answer: Result<Write, Fault>,
    ) -> Result<(), NoMemory>
        requires { IfOk answer (λ w. HasSlot (shape_of self.old.store) w.slot) }
        ensures { OnOk result ((f : Setting) (edge : ℕ) → Does f (iterations.AtEdge edge) self.old self.new (λ it. with_ok it (alone (pair_of answer)) (λ p. gave_inner it (contribution total reduce p)))) }
    {
        match answer {
            Ok(write) => self.give_inner(total, reduce, write)?,
            Err(fault) => self.fail(fault),
        }
        Ok(())
    }

    // A contribution that ends with the outermost loop.
    fn give_outermost(
        &mut self,
        total: TotalKey,
        reduce: Reduce,
        write: Write,
    ) -> Result<(), NoMemory>
        requires { HasSlot (shape_of self.old.store) write.slot }
        ensures { OnOk result ((f : Setting) (m : iterations.Mode) → Does f m self.old self.new (λ it. gave_outermost it (contribution total reduce (write.slot ∷ [], write.value ∷ [])))) }
    {
        self.outermost.give(contribution(total, reduce, write))?;
        Ok(())
    }

    // A contribution that ends with the outermost loop, or a fault.
    pub fn add_outermost(
        &mut self,
        total: TotalKey,
        reduce: Reduce,
        answer: Result<Write, Fault>,
    ) -> Result<(), NoMemory>
        requires { IfOk answer (λ w. HasSlot (shape_of self.old.store) w.slot) }
        ensures { OnOk result ((f : Setting) (m : iterations.Mode) → Does f m self.old self.new (λ it. with_ok it (alone (pair_of answer)) (λ p. gave_outermost it (contribution total reduce p)))) }
    {
        match answer {
            Ok(write) => self.give_outermost(total, reduce, write)?,
            Err(fault) => self.fail(fault),
        }
        Ok(())
    }

    // Writes to several slots that the iteration sees from then on, or a fault.
    pub fn put_all(&mut self, answer: Result<Tuple, Fault>) -> Result<(), NoMemory>
        requires { IfOk answer (λ t. All (HasSlot (shape_of self.old.store)) t.slots.items) }
        ensures { OnOk result ((f : Setting) (m : iterations.Mode) → Does f m self.old self.new (λ it. with_ok it (tuple_of answer) (wrote_all it))) }
    {
        match answer {
            Ok(tuple) => self.write_tuple(tuple.slots.as_slice(), tuple.values.as_slice())?,
            Err(fault) => self.fail(fault),
        }
        Ok(())
    }

    // Values for slots, one after another.
    fn write_tuple(&mut self, slots: &[Slot], values: &[Value]) -> Result<(), NoMemory>
        requires { All (HasSlot (shape_of self.old.store)) slots.now }
        ensures { OnOk result ((f : Setting) (m : iterations.Mode) → Does f m self.old self.new (λ it. wrote_all it (slots.now, values.now))) }
    {
        logged_writes_are_reversible();
        let count = slots.len().min(values.len());
        for k in 0..count {
            self.store.write(slots[k], values[k])?;
        }
        Ok(())
    }

    // A contribution to several slots that ends with the inner loop, or a fault.
    pub fn add_inner_all(
        &mut self,
        total: TotalKey,
        reduce: Reduce,
        answer: Result<Tuple, Fault>,
    ) -> Result<(), NoMemory>
        requires { IfOk answer (λ t. All (HasSlot (shape_of self.old.store)) t.slots.items) }
        ensures { OnOk result ((f : Setting) (edge : ℕ) → Does f (iterations.AtEdge edge) self.old self.new (λ it. with_ok it (tuple_of answer) (λ p. gave_inner it (contribution total reduce p)))) }
    {
        match answer {
            Ok(tuple) => {
                self.inner
                    .give_tuple(total, reduce, tuple.slots, tuple.values.as_slice())?;
            }
            Err(fault) => self.fail(fault),
        }
        Ok(())
    }

    // A contribution to several slots that ends with the outermost loop, or a fault.
    pub fn add_outermost_all(
        &mut self,
        total: TotalKey,
        reduce: Reduce,
        answer: Result<Tuple, Fault>,
    ) -> Result<(), NoMemory>
        requires { IfOk answer (λ t. All (HasSlot (shape_of self.old.store)) t.slots.items) }
        ensures { OnOk result ((f : Setting) (m : iterations.Mode) → Does f m self.old self.new (λ it. with_ok it (tuple_of answer) (λ p. gave_outermost it (contribution total reduce p)))) }
    {
        match answer {
            Ok(tuple) => {
                self.outermost
                    .give_tuple(total, reduce, tuple.slots, tuple.values.as_slice())?;
            }
            Err(fault) => self.fail(fault),
        }
        Ok(())
    }

    // A deferred write.
    fn push_deferred(&mut self, write: Write) -> Result<(), NoMemory>
        requires { HasSlot (shape_of self.old.store) write.slot }
        ensures { OnOk result ((f : Setting) → Does f iterations.Outermost self.old self.new (λ it. deferred_to it (write.slot, write.value))) }
    {
        self.deferred.push(write)?;
        Ok(())
    }

    // A deferred write, or a fault.
    pub fn defer(&mut self, answer: Result<Write, Fault>) -> Result<(), NoMemory>
        requires { IfOk answer (λ w. HasSlot (shape_of self.old.store) w.slot) }
        ensures { OnOk result ((f : Setting) → Does f iterations.Outermost self.old self.new (λ it. with_ok it (pair_of answer) (deferred_to it))) }
    {
        match answer {
            Ok(write) => self.push_deferred(write)?,
            Err(fault) => self.fail(fault),
        }
        Ok(())
    }
}
