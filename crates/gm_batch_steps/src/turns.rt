//! The turns of an each, for all rows of a batch that reach it.

ghost use Rattle.std.specs.Prelude.{◌≡◌, ◌<◌, ◌++◌, All, IfOk, IfSome, OnOk, Some, length, map, replicate};
ghost use Rattle.gm_value.specs.declared.values.Value.TheVariants.{At};
ghost use Rattle.gm_columns.specs.Columns.{IsStorable};
ghost use Rattle.gm_kernels.specs.Pointwise.{held};
ghost use Rattle.gm_model.specs.Graphs.{HasNode, edges_of, nodes_of, out_steps};
ghost use Rattle.gm_batch_steps.specs.BatchStates.{AreChosen, AreDistinct};
ghost use Rattle.gm_batch_steps.specs.Turns.{AreTurns, IsInGraph, edges_at, has_edges, turns_in, turns_of};

use crate::batch_states::{BatchContext, Chosen};
use gm_base::NoMemory;
use gm_graph::Graph;
use gm_kernels::partition;
use std::alloc::Global;

/// Turns along edges, one for each. Each has the index of its row among some rows of the batch, the node that its edge leads
/// to, and the row of the edge in the graph.
#[derive(Drop)]
pub(crate) struct Turns {
    pub(crate) rows: Vec<u32>,
    pub(crate) sources: Vec<u32>,
    pub(crate) targets: Vec<u32>,
    pub(crate) edges: Vec<u32>,
}

// Whether edges lead from the node of each of some rows, or nothing, where one is no node of the graph.
fn have_edges(
    alloc: Global,
    rows: &[u32],
    context: &BatchContext,
) -> Result<Option<Vec<bool>>, NoMemory>
    requires within { All (λ row. row < length context.now.nodes.now) rows.now }
    ensures flags { IfOk result (λ got. IfSome got (λ flags. flags.items ≡ map (has_edges context.now) rows.now)) }
    ensures nodes { IfOk result (λ got. IfSome got (λ flags. All (IsInGraph context.now) rows.now)) }
{
    let nodes = context.graph.node_count();
    let count = rows.len();
    let mut flags = Vec::with_capacity(alloc, count)?;
    for i in 0..count {
        let node = context.nodes[rows[i] as usize];
        if node >= nodes {
            return Ok(None);
        }
        flags.push(context.graph.out_degree(node) > 0)?;
    }
    Ok(Some(flags))
}

// Adds the turns of a row, along the edges from its node.
fn push_turns(graph: &Graph, node: u32, source: u32, turns: &mut Turns) -> Result<(), NoMemory>
    requires node { HasNode graph.now node }
    requires storable { All (λ node. IsStorable (At (Some node))) turns.old.targets.items }
    ensures rows { OnOk result (turns.new.rows.items ≡ turns.old.rows.items) }
    ensures sources { OnOk result (turns.new.sources.items ≡ turns.old.sources.items ++ replicate (length (out_steps graph.now node)) source) }
    ensures targets { OnOk result (turns.new.targets.items ≡ turns.old.targets.items ++ nodes_of (out_steps graph.now node)) }
    ensures edges { OnOk result (edges_at graph.now turns.new.edges.items ≡ edges_at graph.now turns.old.edges.items ++ edges_of (out_steps graph.now node)) }
    ensures storable { OnOk result (All (λ node. IsStorable (At (Some node))) turns.new.targets.items) }
{
    // What a graph counts in 32 bits, of which each of its nodes is less.
    let _nodes = graph.node_count();
    let degree = graph.out_degree(node);
    for k in 0..degree {
        turns.sources.push(source)?;
        turns.targets.push(graph.out_target(node, k))?;
        turns.edges.push(graph.out_row(node, k))?;
    }
    Ok(())
}

// The turns of some rows.
fn turns_from(alloc: Global, rows: &[u32], context: &BatchContext) -> Result<Turns, NoMemory>
    requires few { length rows.now < 4294967296 }
    requires within { All (λ row. row < length context.now.nodes.now) rows.now }
    requires distinct { AreDistinct rows.now }
    requires nodes { All (IsInGraph context.now) rows.now }
    ensures are { IfOk result (AreTurns context.now) }
    ensures turns { IfOk result (λ turns. turns_in context.now turns ≡ turns_of context.now rows.now) }
{
    let count = rows.len();
    let mut turns = Turns {
        rows: Vec::from_slice(alloc, rows)?,
        sources: Vec::new(alloc),
        targets: Vec::new(alloc),
        edges: Vec::new(alloc),
    };
    for i in 0..count {
        let node = context.nodes[rows[i] as usize];
        push_turns(context.graph, node, i as u32, &mut turns)?;
    }
    Ok(turns)
}

/// The turns of some rows along the edges from their nodes, or nothing, where one is no node of the graph.
pub(crate) fn turns_along(
    alloc: Global,
    chosen: Chosen,
    context: &BatchContext,
) -> Result<Option<Turns>, NoMemory>
    requires count { length context.now.nodes.now < 4294967296 }
    requires chosen { AreChosen (length context.now.nodes.now) chosen }
    ensures are { IfOk result (λ got. IfSome got (AreTurns context.now)) }
    ensures turns { IfOk result (λ got. IfSome got (λ turns. turns_in context.now turns ≡ turns_of context.now chosen.entry.rows.now)) }
{
    if chosen.rows.len() > context.nodes.len() {
        return Ok(None);
    }
    let Some(flags) = have_edges(alloc, chosen.rows, context)? else {
        return Ok(None);
    };
    let parts = partition(alloc, &flags, chosen.rows)?;
    Ok(Some(turns_from(alloc, &parts.held, context)?))
}

// Those of some numbers whose flag holds.
fn held_of(alloc: Global, flags: &[bool], numbers: &[u32]) -> Result<Vec<u32>, NoMemory>
    requires { length numbers.now ≡ length flags.now }
    ensures { IfOk result (λ some. some.items ≡ held flags.now numbers.now) }
{
    let parts = partition(alloc, flags, numbers)?;
    Ok(parts.held)
}

/// The turns whose flag holds.
pub(crate) fn held_turns(
    alloc: Global,
    flags: &[bool],
    turns: &Turns,
    context: &BatchContext,
) -> Result<Turns, NoMemory>
    requires turns { AreTurns context.now turns.now }
    requires flags { length flags.now ≡ length turns.now.sources.items }
    ensures are { IfOk result (AreTurns context.now) }
    ensures turns { IfOk result (λ some. turns_in context.now some ≡ held flags.now (turns_in context.now turns.now)) }
{
    Ok(Turns {
        rows: Vec::from_slice(alloc, &turns.rows)?,
        sources: held_of(alloc, flags, &turns.sources)?,
        targets: held_of(alloc, flags, &turns.targets)?,
        edges: held_of(alloc, flags, &turns.edges)?,
    })
}
