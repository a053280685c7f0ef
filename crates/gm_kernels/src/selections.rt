//! Rows chosen by flags.

ghost use Rattle.std.specs.Prelude.{◌≡◌, ◌<◌, [], ◌∷◌, ◌++◌, IfOk, OnOk, length, map, if◌then◌else◌};
ghost use Rattle.gm_value.specs.declared.values.Value.TheVariants.{Flag};
ghost use Rattle.gm_value.specs.declared.values.VType.TheVariants.{Flag as Truth};
ghost use Rattle.gm_kernels.specs.Pointwise.{chosen, places_from};

use gm_base::NoMemory;
use gm_columns::{Column, TypedCells};
use std::alloc::Global;

// The first of two cells where a flag holds, else the second.
#[inline(always)]
fn one_of<T: Copy>(flag: bool, yes: T, no: T) -> T
    ensures { result ≡ (if flag then yes else no) }
{
    if flag { yes } else { no }
}

// Writes of each pair of cells the first where the flag beside them holds, else the second.
#[inline(always)]
fn write_chosen<T: Copy>(flags: &[bool], yes: &[T], no: &[T], out: &mut [T])
    requires yes { length yes.now ≡ length flags.now }
    requires no { length no.now ≡ length flags.now }
    requires out { length out.old ≡ length flags.now }
    ensures { out.new ≡ chosen flags.now yes.now no.now }
{
    let rows = flags.len();
    for row in 0..rows {
        out[row] = one_of(flags[row], yes[row], no[row]);
    }
}

// Of each pair of cells the first where the flag beside them holds, else the second.
#[inline(never)]
fn choose_cells<T: Copy>(
    alloc: Global,
    blank: T,
    flags: &[bool],
    yes: &[T],
    no: &[T],
) -> Result<Vec<T>, NoMemory>
    requires yes { length yes.now ≡ length flags.now }
    requires no { length no.now ≡ length flags.now }
    ensures { IfOk result (λ row. row.items ≡ chosen flags.now yes.now no.now) }
{
    let mut out = vec![in alloc; blank; flags.len()]?;
    write_chosen(flags, yes, no, &mut out);
    Ok(out)
}

// Adds a place where a flag holds.
#[inline(always)]
fn push_if(places: &mut Vec<u32>, place: u32, flag: bool) -> Result<(), NoMemory>
    ensures { OnOk result (places.new.items ≡ places.old.items ++ places_from place (flag ∷ [])) }
{
    if flag {
        places.push(place)?;
    }
    Ok(())
}

/// The places of the flags that hold, ascending. Places are indices from 0.
#[inline(never)]
pub fn places_of(alloc: Global, flags: &[bool]) -> Result<Vec<u32>, NoMemory>
    requires { length flags.now < 4294967296 }
    ensures { IfOk result (λ places. places.items ≡ places_from 0 flags.now) }
{
    let mut places = Vec::with_capacity(alloc, flags.len())?;
    let rows = flags.len();
    for row in 0..rows {
        push_if(&mut places, row as u32, flags[row])?;
    }
    Ok(places)
}

/// The flags of a column of truth values, by row.
pub fn flags_of(column: &Column) -> &[bool]
    requires { column.now.vtype ≡ Truth }
    ensures { map (λ b. Flag b) result.now ≡ column.now.values }
{
    match column.cells() {
        TypedCells::Flags(cells) => cells,
        _ => unreachable!(),
    }
}

/// Of each pair of values of two columns of one type the first where the flag of their row holds, else the second.
#[tactic(auto, using(crate::proofs::Choosing::chosen_values))]
pub fn choose(alloc: Global, flags: &[bool], yes: &Column, no: &Column) -> Result<Column, NoMemory>
    requires vtype { no.now.vtype ≡ yes.now.vtype }
    requires rows { length yes.now.values ≡ length flags.now }
    requires pairs { length no.now.values ≡ length flags.now }
    ensures values { IfOk result (λ column. column.values ≡ chosen flags.now yes.now.values no.now.values) }
    ensures vtype { IfOk result (λ column. column.vtype ≡ yes.now.vtype) }
{
    let cells = match (yes.cells(), no.cells()) {
        (TypedCells::Ints(yes), TypedCells::Ints(no)) => TypedCells::Ints(choose_cells(
            alloc, 0, flags, yes, no,
        )?),
        (TypedCells::Longs(yes), TypedCells::Longs(no)) => TypedCells::Longs(choose_cells(
            alloc, 0, flags, yes, no,
        )?),
        (TypedCells::Flags(yes), TypedCells::Flags(no)) => TypedCells::Flags(choose_cells(
            alloc, false, flags, yes, no,
        )?),
        (TypedCells::Nodes(yes), TypedCells::Nodes(no)) => TypedCells::Nodes(choose_cells(
            alloc, 0, flags, yes, no,
        )?),
        _ => unreachable!(),
    };
    Ok(Column::of(cells))
}
