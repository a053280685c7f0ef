//! The cells of a batch, taken out of those of all nodes and put back.

ghost use Rattle.std.specs.Prelude.{◌≡◌, ◌≤◌, ◌+◌, false, IsTrue, IfOk, OnOk, length, slice_range};
ghost use Rattle.gm_columns.specs.Cells.{values_of};
ghost use Rattle.gm_batch_steps.specs.Parts.{with_part};

use gm_base::NoMemory;
use gm_columns::Cells;
use std::alloc::Global;

/// The cells from one node up to another.
pub(crate) fn part_of(
    alloc: Global,
    cells: &Cells,
    from: usize,
    to: usize,
) -> Result<Cells, NoMemory>
    requires ordered { from ≤ to }
    requires within { to ≤ length (values_of cells.now) }
    ensures { IfOk result (λ part. values_of part ≡ slice_range (values_of cells.now) from to) }
{
    match cells {
        Cells::Uniform { value, .. } => Ok(Cells::Uniform {
            value: *value,
            nodes: to - from,
        }),
        Cells::Ints(cells) => Ok(Cells::Ints(Vec::from_slice(alloc, &cells[from..to])?)),
        Cells::Longs(cells) => Ok(Cells::Longs(Vec::from_slice(alloc, &cells[from..to])?)),
        Cells::Flags(cells) => Ok(Cells::Flags(Vec::from_slice(alloc, &cells[from..to])?)),
        Cells::Nodes(cells) => Ok(Cells::Nodes(Vec::from_slice(alloc, &cells[from..to])?)),
        Cells::Mixed(cells) => Ok(Cells::Mixed(Vec::from_slice(alloc, &cells[from..to])?)),
    }
}

// Writes the values of a part from a node on, whatever their types.
fn set_part(
    alloc: Global,
    cells: &mut Cells,
    from: usize,
    to: usize,
    part: &Cells,
) -> Result<(), NoMemory>
    requires part { from + length (values_of part.now) ≡ to }
    requires within { to ≤ length (values_of cells.old) }
    ensures { OnOk result (values_of cells.new ≡ with_part from (values_of cells.old) (values_of part.now)) }
{
    for place in from..to {
        cells.set(alloc, place, part.get(place - from))?;
    }
    Ok(())
}

// Writes numbers or truth values from a place on.
fn write_part<T: Copy>(cells: &mut Vec<T>, from: usize, to: usize, part: &[T])
    requires part { from + length part.now ≡ to }
    requires within { to ≤ length cells.old.items }
    ensures { cells.new.items ≡ with_part from cells.old.items part.now }
{
    for place in from..to {
        cells[place] = part[place - from];
    }
}

// Writes the values of a part from a node on, where both are of one type.
fn write_same(cells: &mut Cells, from: usize, to: usize, part: &Cells) -> bool
    requires part { from + length (values_of part.now) ≡ to }
    requires within { to ≤ length (values_of cells.old) }
    ensures written { IsTrue result → values_of cells.new ≡ with_part from (values_of cells.old) (values_of part.now) }
    ensures kept { result ≡ false → values_of cells.new ≡ values_of cells.old }
{
    match (cells, part) {
        (Cells::Ints(cells), Cells::Ints(part)) => write_part(cells, from, to, part),
        (Cells::Longs(cells), Cells::Longs(part)) => write_part(cells, from, to, part),
        (Cells::Flags(cells), Cells::Flags(part)) => write_part(cells, from, to, part),
        (Cells::Nodes(cells), Cells::Nodes(part)) => write_part(cells, from, to, part),
        _ => return false,
    }
    true
}

/// Writes the values of a part from a node on.
pub(crate) fn store_part(
    alloc: Global,
    cells: &mut Cells,
    from: usize,
    to: usize,
    part: &Cells,
) -> Result<(), NoMemory>
    requires part { from + length (values_of part.now) ≡ to }
    requires within { to ≤ length (values_of cells.old) }
    ensures { OnOk result (values_of cells.new ≡ with_part from (values_of cells.old) (values_of part.now)) }
{
    if write_same(cells, from, to, part) {
        return Ok(());
    }
    set_part(alloc, cells, from, to, part)
}
