//! Sets of node numbers.

ghost use Rattle.std.specs.Prelude.{◌≡◌, ◌≤◌, ◌<◌, ◌+◌, ◌++◌, ◌==◌, ◌||◌, ℕ, List, false, not, min, if◌then◌else◌, IfOk, OnOk, slice_index_or, vec_len};
ghost use Rattle.gm_loader.specs.Sets.{has, IsSetOf};

use gm_base::NoMemory;
use gm_graph::NodeNumbers;
use std::alloc::Global;
use std::collections::HashSet;

// Numbers below this one are kept in a row of flags.
const FLAG_COUNT: u64 = 16_777_216;

// A set of node numbers that counts them. Small ones are flags at their own place, the others are hashed.
#[derive(Drop)]
pub struct NumberSet {
    pub flags: Vec<bool>,
    pub others: HashSet<u64>,
    pub count: u64,
}

// Makes a row of flags longer, so that it has one at a place.
fn grow(flags: &mut Vec<bool>, at: usize) -> Result<(), NoMemory>
    requires short { vec_len flags.old ≤ at }
    requires few { at < 16777216 }
    ensures room { OnOk result (at < vec_len flags.new) }
    ensures same { OnOk result ((k : ℕ) →
        slice_index_or flags.new.items k false ≡ slice_index_or flags.old.items k false) }
{
    flags.resize(2 * at + 1, false)?;
    Ok(())
}

// Sets the flag at a place, and answers whether it was not set before.
fn set_flag(flags: &mut Vec<bool>, at: usize) -> Result<bool, NoMemory>
    requires { at < 16777216 }
    ensures added { IfOk result (λ added. added ≡ not (slice_index_or flags.old.items at false)) }
    ensures flags { OnOk result ((k : ℕ) →
        slice_index_or flags.new.items k false ≡ (at == k || slice_index_or flags.old.items k false)) }
{
    if at >= flags.len() {
        grow(flags, at)?;
    }
    let added = !flags[at];
    flags[at] = true;
    Ok(added)
}

impl NumberSet {
    // A set of no numbers.
    pub fn new(alloc: Global) -> Self
        ensures empty { (n : ℕ) → has result n ≡ false }
        ensures count { result.count ≡ 0 }
    {
        NumberSet {
            flags: Vec::new(alloc),
            others: HashSet::new(alloc),
            count: 0,
        }
    }

    // Puts a number into the set, and answers whether it is new.
    pub fn insert(&mut self, number: u64) -> Result<bool, NoMemory>
        ensures added { IfOk result (λ added. added ≡ not (has self.old number)) }
        ensures has { OnOk result ((n : ℕ) → has self.new n ≡ (number == n || has self.old n)) }
        ensures count { IfOk result (λ added.
            self.new.count ≡ min (self.old.count + (if added then 1 else 0)) 18446744073709551615) }
    {
        let count = self.count;
        let added = if number < FLAG_COUNT {
            set_flag(&mut self.flags, number as usize)?
        } else {
            self.others.insert(number)?
        };
        if added {
            self.count = count.saturating_add(1);
        }
        Ok(added)
    }

    // Puts numbers into the set.
    pub fn insert_all(&mut self, numbers: &NodeNumbers) -> Result<(), NoMemory>
        ensures { OnOk result ((before : List ℕ) → IsSetOf before self.old → IsSetOf (before ++ numbers.now) self.new) }
    {
        for place in 0..numbers.len() {
            self.insert(numbers.get(place))?;
        }
        Ok(())
    }
}
