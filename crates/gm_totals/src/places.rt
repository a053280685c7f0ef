//! Where the totals of slots stand.

ghost use Rattle.std.specs.Prelude.{◌≡◌, ◌<◌, ℕ, if◌then◌else◌, nat_eq, length, OnOk};
ghost use Rattle.gm_semantics.specs.declared.slots.Slot.{Slot};
ghost use Rattle.gm_totals.specs.Places.{place_in, place_at, row_of, column_of, HasOneMore};

use gm_base::NoMemory;
use gm_semantics::slots::Slot;
use std::alloc::Global;

// A place for each slot, 0 where none was kept: in one row those of scalars, and in one row for each property those of
// its nodes. A row is as long as the greatest of its slots wants it.
#[derive(Drop)]
pub struct Places {
    alloc: Global,
    rows: Vec<Vec<u32>>,
}

// The row of a slot: the first is that of scalars.
#[inline(always)]
fn row_of(slot: Slot) -> usize
    ensures { result ≡ row_of slot }
{
    match slot {
        Slot::Scalar(_) => 0,
        Slot::Node { property, .. } => property as usize + 1,
    }
}

// Where a slot stands in its row.
#[inline(always)]
fn column_of(slot: Slot) -> u32
    ensures { result ≡ column_of slot }
{
    match slot {
        Slot::Scalar(scalar) => scalar,
        Slot::Node { node, .. } => node,
    }
}

// Keeps a place in a row.
fn keep_in(row: &mut Vec<u32>, column: u32, place: u32) -> Result<(), NoMemory>
    ensures { OnOk result ((k : ℕ) → place_in row.new.items k ≡ (if nat_eq k column then place else place_in row.old.items k)) }
{
    let column = column as usize;
    if row.len() <= column {
        row.resize(column + 1, 0)?;
    }
    row[column] = place;
    Ok(())
}

impl Places {
    // No place.
    pub fn new(alloc: Global) -> Self {
        Places {
            alloc,
            rows: Vec::new(alloc),
        }
    }

    // The place of a slot.
    #[inline(always)]
    pub fn get(&self, slot: Slot) -> u32
        ensures { result ≡ place_at self.now slot }
    {
        match self.rows.get(row_of(slot)) {
            Some(row) => match row.get(column_of(slot) as usize) {
                Some(place) => *place,
                None => 0,
            },
            None => 0,
        }
    }

    // Makes rows, up to one.
    fn add_rows(&mut self, row: usize) -> Result<(), NoMemory>
        ensures enough { OnOk result (row < length self.new.rows.items) }
        ensures same { OnOk result ((q : Slot) → place_at self.new q ≡ place_at self.old q) }
    {
        while self.rows.len() <= row {
            self.rows.push(Vec::new(self.alloc))?;
        }
        Ok(())
    }

    // Keeps a place for a slot.
    pub fn keep(&mut self, slot: Slot, place: u32) -> Result<(), NoMemory>
        ensures { OnOk result (HasOneMore self.old self.new slot place) }
    {
        let row = row_of(slot);
        self.add_rows(row)?;
        keep_in(&mut self.rows[row], column_of(slot), place)?;
        Ok(())
    }
}
