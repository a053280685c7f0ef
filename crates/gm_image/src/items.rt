//! One view of inputs and outputs.

ghost use Rattle.std.specs.Prelude.{◌≡◌};
ghost use Rattle.gm_image.specs.Views.{input, output};
ghost use Rattle.gm_image.specs.Items.{item_of};

use crate::images::{InputItem, OutputItem};
use gm_value::VType;

/// What an input starts, or an output is read from: a global, a field or a column.
#[derive(Clone, Copy, Debug, PartialEq, Eq)]
pub enum Holder {
    /// A global.
    Scalar,
    /// A field of the nodes.
    Node,
    /// A column of the edges.
    Edge,
}

/// An input or an output: what holds it, its type, its name, and the index of its global, field or column.
#[derive(Clone, Copy)]
pub struct Item<'a> {
    pub holder: Holder,
    pub vtype: VType,
    pub name: &'a [u8],
    pub slot: u32,
}

impl InputItem {
    /// The input as an item. It takes no memory.
    pub fn item(&self) -> Item<'_>
        ensures { item_of result ≡ input self.now }
    {
        let (holder, vtype, name, slot) = match self {
            InputItem::Scalar { vtype, name, slot } => (Holder::Scalar, vtype, name, slot),
            InputItem::Node { vtype, name, slot } => (Holder::Node, vtype, name, slot),
            InputItem::Edge { vtype, name, slot } => (Holder::Edge, vtype, name, slot),
        };
        Item {
            holder,
            vtype: *vtype,
            name: name.as_slice(),
            slot: *slot,
        }
    }
}

impl OutputItem {
    /// The output as an item. It takes no memory.
    pub fn item(&self) -> Item<'_>
        ensures { item_of result ≡ output self.now }
    {
        let (holder, vtype, name, slot) = match self {
            OutputItem::Scalar { vtype, name, slot } => (Holder::Scalar, vtype, name, slot),
            OutputItem::Node { vtype, name, slot } => (Holder::Node, vtype, name, slot),
        };
        Item {
            holder,
            vtype: *vtype,
            name: name.as_slice(),
            slot: *slot,
        }
    }
}
