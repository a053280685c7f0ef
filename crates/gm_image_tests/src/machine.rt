//! Small images on a small graph.

ghost use Rattle.std.specs.Prelude.{◌≡◌, [], IfOk};
ghost use Rattle.gm_graph.specs.Builds.{IsBuildable};
ghost use Rattle.gm_machine.specs.VertexViews.{HasColumns};
ghost use Rattle.gm_machine.specs.Masters.{FitsGraph};

use crate::compare::same;
use crate::texts::{image_in, text_of, verified};
use gm_base::{Items, NoMemory};
use gm_columns::Values;
use gm_graph::{Graph, NodeNumbers, RawGraph, Shape, Walks, build};
use gm_image::Image;
use gm_machine::{Master, inboxes_have_no_order, master_run, rows_for, run_one};
use gm_model::Outcome;
use gm_value::Value;
use std::alloc::{AllocError, Global};
use std::process::Abort;
use std::test::Fail;

// The image that the text of this name spells. It has no columns.
pub(crate) fn image_of(alloc: Global, name: &str) -> Result<Image, Fail>
    ensures { IfOk result (λ image. image.columns ≡ []) }
{
    let mut image = image_in(alloc, text_of(name).as_bytes())?;
    image.columns = Items::new(Vec::new(alloc));
    Ok(image)
}

// The line `7 3`: two nodes and one edge.
fn two_nodes(alloc: Global) -> Result<RawGraph, NoMemory>
    ensures buildable { IfOk result IsBuildable }
    ensures columns { IfOk result (λ raw. raw.edge_columns ≡ []) }
{
    Ok(RawGraph {
        shape: Shape {
            nodes: Items::new(Vec::new(alloc)),
            edges: Items::new(Vec::new(alloc)),
            walks: Walks::BothWays,
        },
        from: NodeNumbers::from_slice(alloc, &[7])?,
        to: NodeNumbers::from_slice(alloc, &[3])?,
        edge_columns: Items::new(Vec::new(alloc)),
        extra: NodeNumbers::new(alloc),
        node_columns: Items::new(Vec::new(alloc)),
    })
}

// Three nodes point at the last one, and the third at the first.
pub(crate) fn four_nodes(alloc: Global) -> Result<RawGraph, NoMemory>
    ensures buildable { IfOk result IsBuildable }
    ensures columns { IfOk result (λ raw. raw.edge_columns ≡ []) }
{
    Ok(RawGraph {
        shape: Shape {
            nodes: Items::new(Vec::new(alloc)),
            edges: Items::new(Vec::new(alloc)),
            walks: Walks::BothWays,
        },
        from: NodeNumbers::from_slice(alloc, &[1, 2, 3, 3])?,
        to: NodeNumbers::from_slice(alloc, &[4, 4, 4, 1])?,
        edge_columns: Items::new(Vec::new(alloc)),
        extra: NodeNumbers::new(alloc),
        node_columns: Items::new(Vec::new(alloc)),
    })
}

// The graph of some edges without columns.
pub(crate) fn graph_of(alloc: Global, raw: RawGraph) -> Result<Graph, NoMemory>
    requires buildable { IsBuildable raw }
    requires columns { raw.edge_columns ≡ [] }
    ensures { IfOk result (λ g. HasColumns g 0) }
{
    build(alloc, raw)
}

// How the master list of an image stops before its first superstep, after how many turns, and the globals.
fn stop_of(alloc: Global, image: &Image, graph: &Graph, bound: u64) -> Result<String, Fail>
    requires { FitsGraph image.now graph.now }
{
    let mut master = Master::start(alloc, image, &[], bound)?;
    let in_rows = rows_for(alloc, image, graph)?;
    let stop = master_run(image, graph, &in_rows, &mut master);
    let (turns, globals) = (master.turns, master.globals.as_slice());
    Ok(format!(in alloc; "{stop:?} {turns} {globals:?}")?)
}

// How the image `spin` stops that may take so many turns.
fn stop_of_spin(alloc: Global, bound: u64) -> Result<String, Fail> {
    let graph = graph_of(alloc, two_nodes(alloc)?)?;
    let image = image_of(alloc, "spin")?;
    stop_of(alloc, &image, &graph, bound)
}

// Compares how the image `spin` stops that may take so many turns.
fn compare_spin(rt: &(impl Abort + AllocGlobal), bound: u64, want: &str) -> Result<(), Fail> {
    let ended = stop_of_spin(rt.alloc(), bound)?;
    same(rt, ended.as_str(), want, "spin");
    Ok(())
}

#[test]
fn spin_is_cut_at_its_bound(rt: HostRuntime) -> Result<(), Fail> {
    compare_spin(&rt, 6, "Ended 6 [I32(6)]")?;
    compare_spin(&rt, 5, "Cut 5 [I32(5)]")?;
    inboxes_have_no_order();
    Ok(())
}

// The values of a column.
fn values_in(alloc: Global, values: &Values) -> Result<Vec<Value>, AllocError> {
    let mut all = Vec::new(alloc);
    for i in 0..values.len() {
        all.push(values.get(i))?;
    }
    Ok(all)
}

// Writes a list of values as a line.
pub(crate) fn put_values(
    alloc: Global,
    text: &mut String,
    values: &[Value],
) -> Result<(), AllocError> {
    let line = format!(in alloc; "{values:?}\n")?;
    text.push_str(line.as_str())?;
    Ok(())
}

// Writes the values of a property as a line.
fn put_property(alloc: Global, text: &mut String, values: &Values) -> Result<(), AllocError> {
    let values = values_in(alloc, values)?;
    put_values(alloc, text, values.as_slice())
}

// The values of scalars, and those of each property.
fn lines_of(alloc: Global, scalars: &[Value], nodes: &[Values]) -> Result<String, AllocError> {
    let mut text = String::new(alloc);
    put_values(alloc, &mut text, scalars)?;
    for values in nodes {
        put_property(alloc, &mut text, values)?;
    }
    Ok(text)
}

// The values of the scalar outputs, and those of each output property, where a run is done.
fn outputs_of(alloc: Global, outcome: &Outcome) -> Result<String, AllocError> {
    match outcome {
        Outcome::Done { scalars, nodes, .. } => {
            lines_of(alloc, scalars.as_slice(), nodes.as_slice())
        }
        _ => Ok(String::new(alloc)),
    }
}

// What a sound image puts out.
fn run_of(alloc: Global, image: Image, graph: &Graph) -> Result<String, Fail>
    requires { FitsGraph image graph.now }
{
    let sound = verified(alloc, image)?;
    let end = run_one(alloc, &sound, graph, &[], 9)?;
    Ok(outputs_of(alloc, &end.outcome)?)
}

// What the image `picks` puts out.
fn run_of_picks(alloc: Global) -> Result<String, Fail> {
    let graph = graph_of(alloc, four_nodes(alloc)?)?;
    run_of(alloc, image_of(alloc, "picks")?, &graph)
}

// The greatest out-degree is 2, of the third node. 0 with NIL is less than 0 with a node. Then for each field and node:
// the least out-degree of those that point at the node, and the lesser one of those that have it; the in-degree with
// True, but 0 with False is kept; of two neighbours with 7 the lesser one.
const PICKED: &str = "[I32(2), At(Some(2)), I32(0), At(None)]\n\
    [I32(2), I32(9), I32(9), I32(1)]\n\
    [At(Some(2)), At(None), At(None), At(Some(0))]\n\
    [I32(1), I32(0), I32(0), I32(3)]\n\
    [Flag(true), Flag(false), Flag(false), Flag(true)]\n\
    [I32(7), I32(7), I32(7), I32(0)]\n\
    [At(Some(3)), At(Some(3)), At(Some(0)), At(None)]\n";

#[test]
fn picks_take_whole_tuples(rt: HostRuntime) -> Result<(), Fail> {
    let outputs = run_of_picks(rt.alloc())?;
    same(&rt, outputs.as_str(), PICKED, "picks");
    Ok(())
}
