//! Nodes in a row of indices, and what a row of a type can hold.

ghost use Rattle.std.specs.Prelude.{◌≡◌, ◌↔◌, IsTrue};
ghost use Rattle.gm_value.specs.declared.values.VType.TheVariants.{Node};
ghost use Rattle.gm_value.specs.declared.values.Value.TheVariants.{At};
ghost use Rattle.gm_columns.specs.Columns.{CanHold, IsStorable};
ghost use Rattle.gm_columns.specs.Cells.{node_in};

use gm_value::{VType, Value};

// The place of NIL in a row of node indices.
const NIL: u32 = u32::MAX;

// Whether a node has a place in a row of indices.
pub(crate) fn is_storable(node: Option<u32>) -> bool
    ensures { IsTrue result ↔ IsStorable (At node) }
{
    node != Some(NIL)
}

// Whether a row of a type can hold a value.
pub(crate) fn can_hold(vtype: VType, value: Value) -> bool
    ensures { IsTrue result → CanHold vtype value }
{
    match value {
        Value::I32(_) => vtype == VType::I32,
        Value::I64(_) => vtype == VType::I64,
        Value::Flag(_) => vtype == VType::Flag,
        Value::At(node) => vtype == VType::Node && is_storable(node),
    }
}

// The node whose index a cell holds, or NIL.
pub(crate) fn node_in(cell: u32) -> Value
    ensures node { result ≡ node_in cell }
    ensures held { CanHold Node result }
{
    if cell < NIL {
        Value::At(Some(cell))
    } else {
        Value::At(None)
    }
}

// The cell that holds a node's index, or NIL.
pub(crate) fn cell_of(node: Option<u32>) -> u32
    requires { IsStorable (At node) }
    ensures { node_in result ≡ At node }
{
    node.unwrap_or(NIL)
}
