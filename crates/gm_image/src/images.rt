//! Images and their parts. Indices count from 0.

use crate::lines::{MasterLine, VertexLine};
use gm_base::{Items, Place};
use gm_value::{Reduce, VType};

/// A vertex program: what it declares, its blocks of vertex lines and its master list.
#[derive(Drop)]
pub struct Image {
    /// The procedure's name.
    pub name: Items<u8>,
    /// The inputs in the order of their declaration, without the graph.
    pub inputs: Items<InputItem>,
    /// The outputs in the order of their declaration.
    pub outputs: Items<OutputItem>,
    /// The result's type, and the global that holds it.
    pub result: Option<(VType, u32)>,
    /// The types of the globals.
    pub globals: Items<VType>,
    /// The types of the fields that each vertex has.
    pub fields: Items<VType>,
    /// The types of a vertex's registers.
    pub registers: Items<VType>,
    /// The types of the edges' columns.
    pub columns: Items<VType>,
    /// The kinds of messages.
    pub kinds: Items<Kind>,
    /// The places that faults name, in the ascending order of what may fault there.
    pub places: Items<Place>,
    /// What a vertex may do in a superstep.
    pub blocks: Items<Block>,
    /// What runs between the supersteps.
    pub master: Items<MasterLine>,
}

/// An input: its type, its name, and the global, the field or the column that starts with it.
#[derive(Drop)]
pub enum InputItem {
    /// An argument, which a global starts with.
    Scalar {
        vtype: VType,
        name: Items<u8>,
        slot: u32,
    },
    /// A property of nodes, which a field starts with.
    Node {
        vtype: VType,
        name: Items<u8>,
        slot: u32,
    },
    /// A property of edges, which a column holds.
    Edge {
        vtype: VType,
        name: Items<u8>,
        slot: u32,
    },
}

/// An output: its type, its name, and the global or the field that holds it.
#[derive(Drop)]
pub enum OutputItem {
    /// A value that a global holds.
    Scalar {
        vtype: VType,
        name: Items<u8>,
        slot: u32,
    },
    /// A property of nodes that a field holds.
    Node {
        vtype: VType,
        name: Items<u8>,
        slot: u32,
    },
}

/// A kind of messages: the reduction by which its messages may be combined, and the types of their values.
#[derive(Drop)]
pub struct Kind {
    pub combiner: Option<Reduce>,
    pub values: Items<VType>,
}

/// What a vertex does in a superstep: the handlers of its messages, and then the body.
#[derive(Drop)]
pub struct Block {
    pub handlers: Items<Handler>,
    pub body: Items<VertexLine>,
}

/// What a vertex does for each message of a kind.
#[derive(Drop)]
pub struct Handler {
    pub kind: u32,
    pub lines: Items<VertexLine>,
}
