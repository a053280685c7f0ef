//! The steps of a batch of nodes.

ghost use Rattle.std.specs.Prelude.{◌≡◌, ◌<◌, ◌≤◌, ◌+◌, ◌++◌, false, IsTrue, IfOk, OnOk, All, Some, length, map, replicate, slice_range};
ghost use Rattle.std.specs.List.{flat_map};
ghost use Rattle.gm_value.specs.declared.values.Value.TheVariants.{At};
ghost use Rattle.gm_value.specs.Numbers.{zero_of};
ghost use Rattle.gm_columns.specs.Cells.{values_of};
ghost use Rattle.gm_columns.specs.Columns.{IsStorable};
ghost use Rattle.gm_image.specs.Views.{line, program};
ghost use Rattle.gm_machine.specs.Machine.{block_at};
ghost use Rattle.gm_message_columns.specs.MessageTables.{message_rows, rows_if_any};
ghost use Rattle.gm_batch_steps.specs.BatchSteps.{BatchSteps, row_after};
ghost use Rattle.gm_batch_steps.specs.Parts.{with_parts};

use crate::batch_states::{BatchContext, BatchState, Chosen};
use crate::lines::run_lines;
use crate::parts::{part_of, store_part};
use gm_base::NoMemory;
use gm_columns::{Cells, Column};
use gm_image::{Image, VertexLine};
use gm_kernels::{all_rows, constant};
use gm_machine::{Contributions, Duty};
use gm_message_columns::MessageColumns;
use gm_value::VType;
use std::alloc::Global;

// The fields of a batch, in cells of their own.
fn fields_of(
    alloc: Global,
    fields: &[Cells],
    from: usize,
    to: usize,
) -> Result<Vec<Cells>, NoMemory>
    requires ordered { from ≤ to }
    requires within { All (λ cells. to ≤ length (values_of cells)) fields.now }
    ensures { IfOk result (λ parts. map values_of parts.items ≡ map (λ cells. slice_range (values_of cells) from to) fields.now) }
{
    let mut parts = Vec::with_capacity(alloc, fields.len())?;
    for cells in fields {
        parts.push(part_of(alloc, cells, from, to)?)?;
    }
    Ok(parts)
}

// Registers at zero.
fn registers_of(alloc: Global, types: &[VType], rows: usize) -> Result<Vec<Column>, NoMemory>
    ensures { IfOk result (λ registers. map (λ column. column.values) registers.items ≡ map (λ t. replicate rows (zero_of t)) types.now) }
{
    let mut registers = Vec::with_capacity(alloc, types.len())?;
    for t in types {
        registers.push(constant(alloc, t.zero(), rows)?)?;
    }
    Ok(registers)
}

// Writes the fields of a batch back.
fn store(
    alloc: Global,
    fields: &mut Vec<Cells>,
    from: usize,
    to: usize,
    parts: &[Cells],
) -> Result<(), NoMemory>
    requires wide { length parts.now ≡ length fields.old.items }
    requires parts { All (λ part. from + length (values_of part) ≡ to) parts.now }
    requires within { All (λ cells. to ≤ length (values_of cells)) fields.old.items }
    ensures { OnOk result (map values_of fields.new.items ≡ with_parts from (map values_of fields.old.items) (map values_of parts.now)) }
{
    for slot in 0..parts.len() {
        let cells = &mut fields[slot];
        store_part(alloc, cells, from, to, &parts[slot])?;
    }
    Ok(())
}

// The body of a block. A block that the image does not have has none.
fn body_of(image: &Image, block: u32) -> &[VertexLine]
    ensures { map line result.now ≡ (block_at (program image.now) block).body }
{
    match image.blocks.as_slice().get(block as usize) {
        Some(code) => code.body.as_slice(),
        None => &[],
    }
}

// Adds messages behind others, where there are some.
fn give_messages(
    sent: &mut Vec<MessageColumns>,
    more: Option<MessageColumns>,
) -> Result<(), NoMemory>
    ensures { OnOk result (flat_map message_rows sent.new.items ≡ flat_map message_rows sent.old.items ++ rows_if_any more) }
{
    if let Some(more) = more {
        sent.push(more)?;
    }
    Ok(())
}

/// The vertex steps of nodes for which no messages wait, on the same globals, line by line for all of them. The fields of the
/// nodes lie side by side, those of the first at a place. It answers whether that could be done: then the new fields stand in
/// the place of the old ones, what the nodes send stands behind what was sent before, by node and then in the order of
/// sending, and behind what was put before stands what settles as what the nodes put, one contribution for each line that
/// puts where that can be; no node faults. Otherwise nothing is changed: a node faults, or the block is none that can be done
/// so, and the nodes take their steps one by one. Where there is not enough memory the run is to be given up.
pub fn steps_of_batch(
    alloc: Global,
    duty: &Duty,
    nodes: &[u32],
    from: usize,
    fields: &mut Vec<Cells>,
    sent: &mut Vec<MessageColumns>,
    puts: &mut Contributions,
) -> Result<bool, NoMemory>
    requires count { length nodes.now < 4294967296 }
    requires nodes { All (λ node. IsStorable (At (Some node))) nodes.now }
    requires places { from + length nodes.now < 18446744073709551616 }
    requires within { All (λ cells. from + length nodes.now ≤ length (values_of cells)) fields.old.items }
    ensures steps { IfOk result (λ done. IsTrue done → BatchSteps (row_after duty.now nodes.now from (map values_of fields.old.items)) from (length nodes.now)
        (map values_of fields.old.items) (map values_of fields.new.items) (flat_map message_rows sent.old.items) (flat_map message_rows sent.new.items) puts.old puts.new) }
    ensures same_fields { IfOk result (λ done. done ≡ false → fields.new.items ≡ fields.old.items) }
    ensures same_sent { IfOk result (λ done. done ≡ false → sent.new.items ≡ sent.old.items) }
    ensures same_puts { IfOk result (λ done. done ≡ false → puts.new ≡ puts.old) }
{
    let count = nodes.len();
    let to = from + count;
    let rows = all_rows(alloc, count as u32)?;
    let context = BatchContext {
        graph: duty.graph,
        globals: duty.globals,
        nodes,
        places: duty.image.places.len(),
    };
    let mut state = BatchState {
        fields: fields_of(alloc, fields, from, to)?,
        registers: registers_of(alloc, duty.image.registers.as_slice(), count)?,
        sent: None,
        puts: Contributions::empty(alloc),
    };
    let chosen = Chosen {
        rows: &rows,
        all: true,
    };
    let body = body_of(duty.image, duty.block);
    if !run_lines(alloc, body, chosen, &context, &mut state)? {
        return Ok(false);
    }
    store(alloc, fields, from, to, &state.fields)?;
    puts.add_parts(state.puts.parts())?;
    give_messages(sent, state.sent)?;
    Ok(true)
}
