//! The running totals of the contributions to one target, by statement.

ghost use Rattle.std.specs.Prelude.{◌≡◌, ◌≢◌, ◌≤◌, ◌∷◌, [], false, true, ℕ, List, Some, None, IfOk, OnOk, length};
ghost use Rattle.gm_value.specs.declared.reductions.Reduce.{Reduce as By};
ghost use Rattle.gm_semantics.specs.declared.slots.Slot.{Slot};
ghost use Rattle.gm_semantics.specs.Contributions.{Contribution};
ghost use Rattle.gm_totals.specs.Given.{given};
ghost use Rattle.gm_totals.specs.Pots.{AreFrom, IsPlace, Gains, PotGains, PotStands, IsTaking, answer_of_one, answer_of_several};

use crate::entries::Entry;
use crate::faults::total_fault;
use gm_ast::tree::TotalKey;
use gm_base::NoMemory;
use gm_semantics::faults::Fault;
use gm_value::{Reduce, Value};
use std::alloc::Global;
use std::mem::replace;

// The totals of what was given to one target: the reduction of the first contribution, and for each statement a
// total, in the order of the text. Most targets have one statement, which takes no memory of its own.
#[derive(Debug, Drop)]
pub struct Pot {
    pub more: Vec<Entry>,
    pub reduce: Reduce,
    pub first: Entry,
}

// The place of a statement among totals: how many of them are of earlier statements.
fn place_of(entries: &[Entry], statement: u32) -> usize
    ensures within { result ≤ length entries.now }
    ensures place { (low : ℕ) → AreFrom low entries.now → IsPlace statement entries.now result }
{
    entries.partition_point(|entry| entry.statement < statement)
}

// One more contribution to totals, by a reduction.
fn add(
    alloc: Global,
    several: bool,
    entries: &mut Vec<Entry>,
    reduce: Reduce,
    key: TotalKey,
    values: &[Value],
) -> Result<(), NoMemory>
    ensures { OnOk result ((by : By) (slots : List Slot) → Gains several reduce entries.old.items entries.new.items (given key by slots values.now)) }
{
    let statement = key.key.statement;
    let place = place_of(entries, statement);
    if place < entries.len() && entries[place].statement == statement {
        entries[place].give(reduce, key, values)?;
        return Ok(());
    }
    entries.insert(place, Entry::new(alloc, several, reduce, key, values)?)?;
    Ok(())
}

impl Pot {
    // The totals of one contribution.
    pub fn new(
        alloc: Global,
        several: bool,
        reduce: Reduce,
        key: TotalKey,
        values: &[Value],
    ) -> Result<Pot, NoMemory>
        ensures { IfOk result (λ pot. (slots : List Slot) → PotGains several None pot (given key reduce slots values.now)) }
    {
        Ok(Pot {
            more: Vec::new(alloc),
            reduce,
            first: Entry::new(alloc, several, reduce, key, values)?,
        })
    }

    // One more contribution. It is taken by the first one's reduction.
    #[inline(always)]
    pub fn give(
        &mut self,
        alloc: Global,
        several: bool,
        key: TotalKey,
        values: &[Value],
    ) -> Result<(), NoMemory>
        ensures { OnOk result ((by : By) (slots : List Slot) → PotGains several (Some self.old) self.new (given key by slots values.now)) }
    {
        if key.key.statement == self.first.statement {
            self.first.give(self.reduce, key, values)?;
            return Ok(());
        }
        self.give_apart(alloc, several, key, values)?;
        Ok(())
    }

    // One more contribution, of another statement than the first.
    fn give_apart(
        &mut self,
        alloc: Global,
        several: bool,
        key: TotalKey,
        values: &[Value],
    ) -> Result<(), NoMemory>
        requires { key.key.statement ≢ self.old.first.statement }
        ensures { OnOk result ((by : By) (slots : List Slot) → PotGains several (Some self.old) self.new (given key by slots values.now)) }
    {
        if self.first.statement < key.key.statement {
            add(alloc, several, &mut self.more, self.reduce, key, values)?;
            return Ok(());
        }
        let entry = Entry::new(alloc, several, self.reduce, key, values)?;
        let later = replace(&mut self.first, entry);
        self.more.insert(0, later)?;
        Ok(())
    }

    // What a slot that held a value holds after the totals, taken statement by statement, or the fault of the first
    // statement whose total does not fit.
    pub fn closed_one(&self, held: Value) -> Result<Result<Value, Fault>, NoMemory>
        ensures { IfOk result (λ r. (cs : List Contribution) → PotStands false self.now cs → IsTaking (held ∷ []) cs (answer_of_one r)) }
    {
        let mut value = match self.first.closed_one(self.reduce, held)? {
            Some(value) => value,
            None => return Ok(Err(total_fault(self.first.key))),
        };
        for entry in &self.more {
            value = match entry.closed_one(self.reduce, value)? {
                Some(value) => value,
                None => return Ok(Err(total_fault(entry.key))),
            };
        }
        Ok(Ok(value))
    }

    // What several slots that held values hold after the totals, taken statement by statement, or the fault of the
    // first statement of which a value does not fit.
    pub fn closed_several(
        &self,
        alloc: Global,
        held: &[Value],
    ) -> Result<Result<Vec<Value>, Fault>, NoMemory>
        ensures { IfOk result (λ r. (cs : List Contribution) → length held.now ≢ 1 → PotStands true self.now cs
            → IsTaking held.now cs (answer_of_several r)) }
    {
        let mut values = match self.first.closed_tuple(alloc, self.reduce, held)? {
            Some(values) => values,
            None => return Ok(Err(total_fault(self.first.key))),
        };
        for entry in &self.more {
            values = match entry.closed_tuple(alloc, self.reduce, values.as_slice())? {
                Some(values) => values,
                None => return Ok(Err(total_fault(entry.key))),
            };
        }
        Ok(Ok(values))
    }
}
