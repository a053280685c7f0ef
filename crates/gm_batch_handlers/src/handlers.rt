//! The handlers of nodes for which messages wait.

ghost use Rattle.std.specs.Prelude.{◌≡◌, ◌<◌, ◌≤◌, ◌++◌, ◌-◌, ℕ, false, IsTrue, IfOk, All, List, None, Some, length, map, replicate, slice_range};
ghost use Rattle.std.specs.List.{range_with_len};
ghost use Rattle.gm_value.specs.declared.values.Value.TheVariants.{At};
ghost use Rattle.gm_value.specs.Numbers.{zero_of};
ghost use Rattle.gm_columns.specs.Cells.{values_of};
ghost use Rattle.gm_columns.specs.Columns.{IsStorable};
ghost use Rattle.gm_image.specs.Views.{handler, line, program};
ghost use Rattle.gm_machine.specs.Machine.{block_at};
ghost use Rattle.gm_machine.specs.Vertex.{Message, handler_lines};
ghost use Rattle.gm_batch_handlers.specs.Gathering.{Gathers};
ghost use Rattle.gm_batch_handlers.specs.Gifts.{AreLong};
ghost use Rattle.gm_batch_handlers.specs.Handling.{Handles, all_values, message_in, messages_in};

use crate::lines::run_lines;
use crate::row_states::{Chosen, RowContext, RowState, SlotTotal};
use crate::totals::store;
use gm_base::NoMemory;
use gm_columns::{Cells, Column, TypedCells};
use gm_image::{Handler, Image, VertexLine};
use gm_kernels::{all_rows, constant, pick};
use gm_machine::Duty;
use gm_value::VType;
use std::alloc::Global;

// How many messages go at once.
const PART: usize = 1_024;

// The handlers of a block. A block that the image does not have has none.
fn handlers_of(image: &Image, block: u32) -> &[Handler]
    ensures { map handler result.now ≡ (block_at (program image.now) block).handlers }
{
    match image.blocks.as_slice().get(block as usize) {
        Some(code) => code.handlers.as_slice(),
        None => &[],
    }
}

// The lines for a kind of messages, none where there is no such handler.
fn lines_for(handlers: &[Handler], kind: u32) -> &[VertexLine]
    ensures { map line result.now ≡ handler_lines (map handler handlers.now) kind }
{
    for h in handlers {
        if h.kind == kind {
            return h.lines.as_slice();
        }
    }
    &[]
}

// Registers at zero.
fn registers_of(alloc: Global, types: &[VType], rows: usize) -> Result<Vec<Column>, NoMemory>
    ensures { IfOk result (λ registers. all_values registers.items ≡ map (λ t. replicate rows (zero_of t)) types.now) }
{
    let mut registers = Vec::with_capacity(alloc, types.len())?;
    for t in types {
        registers.push(constant(alloc, t.zero(), rows)?)?;
    }
    Ok(registers)
}

// The cells from one row up to another.
fn cells_between<T: Copy>(
    alloc: Global,
    cells: &[T],
    from: usize,
    to: usize,
) -> Result<Vec<T>, NoMemory>
    requires ordered { from ≤ to }
    requires within { to ≤ length cells.now }
    ensures { IfOk result (λ part. part.items ≡ slice_range cells.now from to) }
{
    Ok(Vec::from_slice(alloc, &cells[from..to])?)
}

// The values of a column from one row up to another.
fn column_between(
    alloc: Global,
    column: &Column,
    from: usize,
    to: usize,
) -> Result<Column, NoMemory>
    requires ordered { from ≤ to }
    requires within { to ≤ length column.now.values }
    ensures { IfOk result (λ part. part.values ≡ slice_range column.now.values from to) }
{
    match column.cells() {
        TypedCells::Ints(cells) => Ok(Column::of(TypedCells::Ints(cells_between(
            alloc, cells, from, to,
        )?))),
        TypedCells::Longs(cells) => Ok(Column::of(TypedCells::Longs(cells_between(
            alloc, cells, from, to,
        )?))),
        TypedCells::Flags(cells) => Ok(Column::of(TypedCells::Flags(cells_between(
            alloc, cells, from, to,
        )?))),
        TypedCells::Nodes(cells) => Ok(Column::of(TypedCells::Nodes(cells_between(
            alloc, cells, from, to,
        )?))),
    }
}

// The values of columns from one row up to another.
fn columns_between(
    alloc: Global,
    values: &[Column],
    from: usize,
    to: usize,
) -> Result<Vec<Column>, NoMemory>
    requires ordered { from ≤ to }
    requires within { All (λ column. to ≤ length column.values) values.now }
    ensures { IfOk result (λ columns. all_values columns.items ≡ map (λ column. slice_range column.values from to) values.now) }
{
    let mut columns = Vec::with_capacity(alloc, values.len())?;
    for column in values {
        columns.push(column_between(alloc, column, from, to)?)?;
    }
    Ok(columns)
}

// No total for any slot.
fn no_totals(alloc: Global, slots: usize) -> Result<Vec<Option<SlotTotal>>, NoMemory>
    ensures { IfOk result (λ totals. totals.items ≡ replicate slots None) }
{
    let mut totals = Vec::with_capacity(alloc, slots)?;
    'slots: while totals.len() < slots {
        totals.push(None)?;
    }
    Ok(totals)
}

// Runs the handlers of the messages from one row up to another.
fn run_part(
    alloc: Global,
    duty: &Duty,
    nodes: &[u32],
    kind: u32,
    to: &[u32],
    values: &[Column],
    fields: &[Cells],
    from: usize,
    end: usize,
    state: &mut RowState,
) -> Result<bool, NoMemory>
    requires nodes { All (λ node. IsStorable (At (Some node))) nodes.now }
    requires to { All (λ place. place < length nodes.now) to.now }
    requires values { All (λ column. length column.values ≡ length to.now) values.now }
    requires fields { All (λ cells. length (values_of cells) ≡ length nodes.now) fields.now }
    requires ordered { from ≤ end }
    requires within { end ≤ length to.now }
    requires count { end < 4294967296 }
    requires long { AreLong (map values_of fields.now) state.old.totals.items }
    ensures long { IfOk result (λ done. IsTrue done → AreLong (map values_of fields.now) state.new.totals.items) }
    ensures gathers { IfOk result (λ done. IsTrue done → (before : List Message)
        → Gathers duty.now nodes.now (map values_of fields.now) before state.old.totals.items
        → Gathers duty.now nodes.now (map values_of fields.now) (before ++ map (message_in kind to.now (all_values values.now)) (range_with_len from (end - from))) state.new.totals.items) }
{
    let count = end - from;
    let places = cells_between(alloc, to, from, end)?;
    let here = pick(alloc, nodes, &places)?;
    let message = columns_between(alloc, values, from, end)?;
    let all = all_rows(alloc, count as u32)?;
    let context = RowContext {
        graph: duty.graph,
        globals: duty.globals,
        nodes: &here,
        places: &places,
        fields,
        message: &message,
    };
    let chosen = Chosen {
        rows: &all,
        all: true,
    };
    state.registers = registers_of(alloc, duty.image.registers.as_slice(), count)?;
    let lines = lines_for(handlers_of(duty.image, duty.block), kind);
    run_lines(
        alloc,
        duty.image.places.len(),
        lines,
        chosen,
        &context,
        state,
    )
}

// Where the part ends that begins at a message.
fn part_end(from: usize, count: usize) -> usize
    requires { from < count }
    ensures ahead { from < result }
    ensures within { result ≤ count }
{
    if count - from > PART {
        from + PART
    } else {
        count
    }
}

// Runs the handlers of all messages, part by part.
fn run_parts(
    alloc: Global,
    duty: &Duty,
    nodes: &[u32],
    kind: u32,
    to: &[u32],
    values: &[Column],
    fields: &[Cells],
    state: &mut RowState,
) -> Result<bool, NoMemory>
    requires nodes { All (λ node. IsStorable (At (Some node))) nodes.now }
    requires to { All (λ place. place < length nodes.now) to.now }
    requires values { All (λ column. length column.values ≡ length to.now) values.now }
    requires fields { All (λ cells. length (values_of cells) ≡ length nodes.now) fields.now }
    requires count { length to.now < 4294967296 }
    requires none { state.old.totals.items ≡ replicate (length fields.now) None }
    ensures wide { IfOk result (λ done. IsTrue done → length state.new.totals.items ≡ length fields.now) }
    ensures gathers { IfOk result (λ done. IsTrue done
        → Gathers duty.now nodes.now (map values_of fields.now) (messages_in kind to.now (all_values values.now)) state.new.totals.items) }
{
    let count = to.len();
    let mut from = 0;
    'parts: while from < count {
        let end = part_end(from, count);
        if !run_part(
            alloc, duty, nodes, kind, to, values, fields, from, end, state,
        )? {
            return Ok(false);
        }
        from = end;
    }
    Ok(true)
}

/// The handlers of a block for all messages of a kind that wait for some nodes, line by line for many messages at once. Each
/// message names the place of its node among the nodes; a column for each value of the messages has a row for each message,
/// and a field has a value for each node, by place. It answers whether that could be done; then the new fields stand in the
/// place of the old ones, and no handler sends, puts or faults. Otherwise nothing is changed: a handler faults, a sum is out
/// of range on the way, or the handler is none that can be done so, and messages are handled one by one. Where there is not
/// enough memory the run is to be given up. It takes time linear in the messages and in the values of the fields that are folded.
pub fn handlers_of_batch(
    alloc: Global,
    duty: &Duty,
    nodes: &[u32],
    kind: u32,
    to: &[u32],
    values: &[Column],
    fields: &mut Vec<Cells>,
) -> Result<bool, NoMemory>
    requires nodes { All (λ node. IsStorable (At (Some node))) nodes.now }
    requires to { All (λ place. place < length nodes.now) to.now }
    requires values { All (λ column. length column.values ≡ length to.now) values.now }
    requires fields { All (λ cells. length (values_of cells) ≡ length nodes.now) fields.old.items }
    ensures handled { IfOk result (λ done. IsTrue done
        → Handles duty.now nodes.now (messages_in kind to.now (all_values values.now)) (map values_of fields.old.items) (map values_of fields.new.items)) }
    ensures same_fields { IfOk result (λ done. done ≡ false → fields.new.items ≡ fields.old.items) }
{
    if to.len() >= 1 << 32 {
        return Ok(false);
    }
    let mut state = RowState {
        registers: Vec::new(alloc),
        totals: no_totals(alloc, fields.len())?,
    };
    if !run_parts(alloc, duty, nodes, kind, to, values, fields, &mut state)? {
        return Ok(false);
    }
    store(fields, state.totals);
    Ok(true)
}
