//! What an image asks of the edges that lead to vertices, and the rows of these edges for it.

ghost use Rattle.std.specs.Prelude.{◌≡◌, IfOk, map};
ghost use Rattle.std.specs.List.{list_all};
ghost use Rattle.gm_image.specs.Parts.{terms_of};
ghost use Rattle.gm_image.specs.Shapes.{leaf_term};
ghost use Rattle.gm_image.specs.Views.{block, command, handler, line, program, target, term};
ghost use Rattle.gm_machine.specs.Asking.{IsServed, block_outward as block_outward_lem, command_outward as command_outward_lem, counts_outward as counts_outward_lem, goes_outward, handler_outward as handler_outward_lem, line_outward as line_outward_lem, reads_outward as reads_outward_lem};

use gm_base::NoMemory;
use gm_graph::{Graph, InRows};
use gm_image::{Block, Expr, Handler, Image, Leaf, MasterLine, Shape, VertexLine};
use std::alloc::Global;

// Whether what stands alone in an expression does not count the edges that lead to a vertex.
fn counts_outward(leaf: Leaf) -> bool
    ensures { result ≡ counts_outward_lem (leaf_term leaf) }
{
    match leaf {
        Leaf::InDegree => false,
        _ => true,
    }
}

// Whether an expression does not.
#[tactic(auto, using(gm_image::proofs::ByShape::leaves_leaf, gm_image::proofs::ByShape::leaves_one, gm_image::proofs::ByShape::leaves_two))]
fn reads_outward(expr: &Expr) -> bool
    ensures { result ≡ reads_outward_lem (term expr.now) }
{
    match expr.shape() {
        Shape::Leaf(leaf) => counts_outward(leaf),
        Shape::One(_, a) => reads_outward(a),
        Shape::Two(_, a, b) => reads_outward(a) && reads_outward(b),
        Shape::Choose(c, a, b) => reads_outward(c) && reads_outward(a) && reads_outward(b),
    }
}

// Whether no value of a message does.
fn values_outward(values: &[Expr]) -> bool
    ensures { result ≡ list_all reads_outward_lem (map term values.now) }
{
    for value in values {
        if !reads_outward(value) {
            return false;
        }
    }
    true
}

// Whether no value of a reduction does.
fn slots_outward(slots: &[(u32, Expr)]) -> bool
    ensures { result ≡ list_all reads_outward_lem (terms_of (map target slots.now)) }
{
    for slot in slots {
        if !reads_outward(&slot.1) {
            return false;
        }
    }
    true
}

// Whether a line asks nothing of the edges that lead to a vertex.
fn line_outward(vertex_line: &VertexLine) -> bool
    ensures { result ≡ line_outward_lem (line vertex_line.now) }
{
    match vertex_line {
        VertexLine::SetField(_, a) => reads_outward(a),
        VertexLine::SetRegister(_, a) => reads_outward(a),
        VertexLine::Skip(_, a) => reads_outward(a),
        VertexLine::Fold { slots, .. } => slots_outward(slots.as_slice()),
        VertexLine::Put { slots, .. } => slots_outward(slots.as_slice()),
        VertexLine::Send { to, values, .. } => {
            reads_outward(to) && values_outward(values.as_slice())
        }
        VertexLine::EachOut(_) => true,
        VertexLine::EachIn(_) => false,
    }
}

// Whether no line does.
fn lines_outward(lines: &[VertexLine]) -> bool
    ensures { result ≡ list_all line_outward_lem (map line lines.now) }
{
    for vertex_line in lines {
        if !line_outward(vertex_line) {
            return false;
        }
    }
    true
}

// Whether no handler does.
fn handlers_outward(handlers: &[Handler]) -> bool
    ensures { result ≡ list_all handler_outward_lem (map handler handlers.now) }
{
    for handled in handlers {
        if !lines_outward(handled.lines.as_slice()) {
            return false;
        }
    }
    true
}

// Whether no block does.
fn blocks_outward(blocks: &[Block]) -> bool
    ensures { result ≡ list_all block_outward_lem (map block blocks.now) }
{
    for one in blocks {
        if !(handlers_outward(one.handlers.as_slice()) && lines_outward(one.body.as_slice())) {
            return false;
        }
    }
    true
}

// Whether a line of the master list does not.
fn command_outward(master_line: &MasterLine) -> bool
    ensures { result ≡ command_outward_lem (command master_line.now) }
{
    match master_line {
        MasterLine::SetGlobal(_, a) => reads_outward(a),
        MasterLine::Test(_, a) => reads_outward(a),
        MasterLine::Turn(_, a) => reads_outward(a),
        MasterLine::Step(_) => true,
        MasterLine::Jump(_) => true,
        MasterLine::Back(_) => true,
        MasterLine::Finish => true,
    }
}

// Whether no line of it does.
fn commands_outward(master: &[MasterLine]) -> bool
    ensures { result ≡ list_all command_outward_lem (map command master.now) }
{
    for master_line in master {
        if !command_outward(master_line) {
            return false;
        }
    }
    true
}

/// Whether an image asks nothing of the edges that lead to vertices: nothing counts them or goes over them by `each in`.
pub fn asks_outward(image: &Image) -> bool
    ensures { result ≡ goes_outward (program image.now) }
{
    blocks_outward(image.blocks.as_slice()) && commands_outward(image.master.as_slice())
}

/// The rows of the edges that lead to the nodes of a graph, if an image asks for them.
pub fn rows_for<'a>(
    alloc: Global,
    image: &Image,
    graph: &'a Graph,
) -> Result<Option<InRows<'a>>, NoMemory>
    ensures { IfOk result (IsServed (program image.now) graph.now) }
{
    if asks_outward(image) {
        return Ok(None);
    }
    Ok(Some(graph.in_rows(alloc)?))
}
